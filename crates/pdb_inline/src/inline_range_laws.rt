//! Laws of inline ranges for every list of symbols, also badly nested ones. The functions do nothing.

ghost use Rattle.std.specs.Prelude.{◌≡◌, ℕ, ◌+◌, ◌≤◌, ◌<◌, ◌↔◌, ◌&&◌, not, true, false};
ghost use Rattle.std.specs.Prelude.{IsTrue, Contains, List, Option, Some, length, slice_get};
ghost use Rattle.pdb_records.specs.declared.error.StreamError.{StreamError};
ghost use Rattle.pdb_records.specs.declared.ids.IdIndex.{IdIndex};
ghost use Rattle.pdb_records.specs.declared.symbols.Symbol.{Symbol};
ghost use Rattle.pdb_inline.specs.declared.inline_ranges.InlineRange.{InlineRange};
ghost use Rattle.pdb_tables.specs.RangeSet.{has, IsRunsFrom};
ghost use Rattle.pdb_inline.specs.SiteRows.{row_ranges};
ghost use Rattle.pdb_inline.specs.Sites.{Site, depth, walk};
ghost use Rattle.pdb_inline.specs.InlineRanges.{is_inside, inline_ranges, inner_ranges, missing};
ghost use Rattle.pdb_inline.specs.InlineStacks.{lies_over, has_range_over, is_covered, levels};
ghost use Rattle.pdb_inline.specs.InlineStacks.{inline_stack, site_ranges, IsSoleOver, IsDirectlyInside};
ghost use Rattle.pdb_inline.specs.WellNested.{AreWellNested};

/// The ranges of a depth together cover exactly the code that rows of sites of at least that depth cover.
pub fn ranges_cover_deeper_sites()
    ensures { (inlinees : List IdIndex) (symbols : List Symbol) (fault : Option StreamError) (position end depth x : ℕ)
        → has_range_over (inline_ranges inlinees (walk symbols fault position end).sites) depth x
        ≡ is_covered inlinees (walk symbols fault position end).sites depth x }
{}

/// The stack at an offset has an entry for each depth at which the offset is covered, without gaps. A depth beyond the
/// number of sites covers nothing.
pub fn stacks_have_all_levels()
    ensures all { (inlinees : List IdIndex) (symbols : List Symbol) (fault : Option StreamError) (position end x : ℕ)
        → length (inline_stack (inline_ranges inlinees (walk symbols fault position end).sites) x)
        ≡ levels inlinees (walk symbols fault position end).sites x }
    ensures no_more { (inlinees : List IdIndex) (symbols : List Symbol) (fault : Option StreamError)
        (position end depth x : ℕ)
        → length (walk symbols fault position end).sites ≤ depth
        → is_covered inlinees (walk symbols fault position end).sites depth x ≡ false }
{}

/// Every offset in a range of a depth is also in a range of the next outer depth.
pub fn ranges_lie_in_ranges_above()
    ensures { (inlinees : List IdIndex) (symbols : List Symbol) (fault : Option StreamError) (position end depth x : ℕ)
        → has_range_over (inline_ranges inlinees (walk symbols fault position end).sites) (depth + 1) x ≡ true
        → has_range_over (inline_ranges inlinees (walk symbols fault position end).sites) depth x ≡ true }
{}

/// If the sites of a procedure are well nested, a site is inside another exactly if its position is between the other's
/// position and end. Symbols that open no site don't matter.
pub fn well_nested_sites_are_inside_by_position()
    ensures { (symbols : List Symbol) (fault : Option StreamError) (position end : ℕ) (outer inner : Site)
        → AreWellNested (walk symbols fault position end).sites
        → Contains (walk symbols fault position end).sites outer
        → Contains (walk symbols fault position end).sites inner
        → IsTrue (is_inside outer inner)
        ↔ ((outer.position < inner.position) × (inner.position < outer.symbol.end.0)) }
{}

/// Each entry of the stack at an offset is a range of a site of that depth, and contains the offset. If for each depth
/// only one site has ranges that contain the offset, each of these sites is directly inside the next outer one.
pub fn stacks_lie_directly_inside()
    ensures of_sites { (inlinees : List IdIndex) (symbols : List Symbol) (fault : Option StreamError)
        (position end x level : ℕ) (range : InlineRange)
        → slice_get (inline_stack (inline_ranges inlinees (walk symbols fault position end).sites) x) level
        ≡ Some range
        → (site : Site) × Contains (walk symbols fault position end).sites site
        × Contains (site_ranges inlinees (walk symbols fault position end).sites site) range
        × (depth site ≡ level) × IsTrue (lies_over level x range) }
    ensures directly { (inlinees : List IdIndex) (symbols : List Symbol) (fault : Option StreamError)
        (position end x level : ℕ) (outer inner : Site) (range under : InlineRange)
        → IsSoleOver inlinees (walk symbols fault position end).sites x
        → Contains (walk symbols fault position end).sites outer
        → Contains (walk symbols fault position end).sites inner
        → slice_get (inline_stack (inline_ranges inlinees (walk symbols fault position end).sites) x) level
        ≡ Some range
        → slice_get (inline_stack (inline_ranges inlinees (walk symbols fault position end).sites) x) (level + 1)
        ≡ Some under
        → Contains (site_ranges inlinees (walk symbols fault position end).sites outer) range
        → Contains (site_ranges inlinees (walk symbols fault position end).sites inner) under
        → IsDirectlyInside outer inner }
{}

/// The ranges that are added for a site are the maximal runs of offsets that rows of sites inside it cover and its own
/// rows don't. They contain exactly these offsets, and no two of them touch.
pub fn added_ranges_are_of_maximal_runs()
    ensures maximal { (inlinees : List IdIndex) (sites : List Site) (site : Site)
        → IsRunsFrom 0 (missing inlinees sites site) }
    ensures numbers { (inlinees : List IdIndex) (sites : List Site) (site : Site) (x : ℕ)
        → has (missing inlinees sites site) x
        ≡ (has (inner_ranges inlinees sites site) x && not (has (row_ranges inlinees site.symbol) x)) }
{}
