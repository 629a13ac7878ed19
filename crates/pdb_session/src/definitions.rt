//! Finds the types that define given names, and the sizes that are settled once these definitions were read.

ghost use Rattle.std.specs.Prelude.{◌≡◌, ◌≤◌, ◌&&◌, ◌||◌, false, length, slice_get, true, ℕ, IfErr, IfOk, IfSome, OnOk};
ghost use Rattle.std.specs.Prelude.{Some, unwrap_or};
ghost use Rattle.pdb_msf.specs.StreamBlocks.{said_in};
ghost use Rattle.pdb_tpi.specs.RecordWindows.{Shows, records_in};
ghost use Rattle.pdb_tpi.specs.TypePlaces.{LieIn, list_at};
ghost use Rattle.pdb_session.specs.Definitions.{AreMarked, AreNamed, defines_one, goes_by, has_name, is_settled};
ghost use Rattle.pdb_session.specs.Definitions.{is_settled_at};

use pdb_msf::{Source, SourceError};
use pdb_records::{Item, RawString, TypeData, TypeIndex};
use pdb_tpi::{RecordWindow, TypePlaces};
use std::alloc::Global;
use std::collections::BTreeSet;

/// Marks the types that define one of these names: classes and unions with that name that aren't forward references.
/// Marks that are set stay set. If `names` is empty, nothing is read.
pub fn mark_definitions<S: Source>(
    alloc: Global,
    source: &mut S,
    places: &TypePlaces,
    names: &BTreeSet<Vec<u8>>,
    marks: &mut [bool],
) -> Result<(), SourceError>
    requires length { length marks.old ≡ length places.now.starts.items }
    ensures marked { OnOk result (IfSome (said_in (S.bytes source.old) places.now.records.blocks) (λ stream.
        LieIn places.now stream → AreMarked names.now (list_at places.now stream) marks.new)) }
    ensures length { length marks.new ≡ length marks.old }
    ensures refused { IfErr result (λ fault. fault ≡ SourceError.Unreadable
        → S.refuses_from source.old ≤ places.now.records.blocks.file_length) }
    ensures inputs { S.bytes source.new ≡ S.bytes source.old }
    ensures refusals { S.refuses_from source.new ≡ S.refuses_from source.old }
{
    if names.is_empty() {
        return Ok(());
    }
    mark_each(alloc, source, places, names, marks)
}

// Checks each type that isn't marked yet.
fn mark_each<S: Source>(
    alloc: Global,
    source: &mut S,
    places: &TypePlaces,
    names: &BTreeSet<Vec<u8>>,
    marks: &mut [bool],
) -> Result<(), SourceError>
    requires length { length marks.old ≡ length places.now.starts.items }
    ensures marked { OnOk result (IfSome (said_in (S.bytes source.old) places.now.records.blocks) (λ stream.
        LieIn places.now stream → AreMarked names.now (list_at places.now stream) marks.new)) }
    ensures length { length marks.new ≡ length marks.old }
    ensures refused { IfErr result (λ fault. fault ≡ SourceError.Unreadable
        → S.refuses_from source.old ≤ places.now.records.blocks.file_length) }
    ensures inputs { S.bytes source.new ≡ S.bytes source.old }
    ensures refusals { S.refuses_from source.new ≡ S.refuses_from source.old }
{
    let mut window = RecordWindow::of_many(alloc);
    for (position, marked) in marks.iter_mut().enumerate() {
        *marked = is_marked(alloc, source, places, names, &mut window, position, *marked)?;
    }
    Ok(())
}

/// Which of the wanted sizes are settled by the marked types. The size of a marked type is settled unless it is a
/// forward reference. That of a forward reference is settled if its name is one of `names`.
pub fn settled_sizes<S: Source>(
    alloc: Global,
    source: &mut S,
    places: &TypePlaces,
    names: &BTreeSet<Vec<u8>>,
    marks: &[bool],
    sizes: &[bool],
) -> Result<Vec<bool>, SourceError>
    ensures length { IfOk result (λ kept. length kept.items ≡ length marks.now) }
    ensures marked { IfOk result (λ kept. (position : ℕ) → slice_get kept.items position ≡ Some true
        → slice_get marks.now position ≡ Some true) }
    ensures named { IfOk result (λ kept. IfSome (said_in (S.bytes source.old) places.now.records.blocks) (λ stream.
        LieIn places.now stream → AreNamed names.now (list_at places.now stream) kept.items)) }
    ensures refused { IfErr result (λ fault. fault ≡ SourceError.Unreadable
        → S.refuses_from source.old ≤ places.now.records.blocks.file_length) }
    ensures inputs { S.bytes source.new ≡ S.bytes source.old }
    ensures refusals { S.refuses_from source.new ≡ S.refuses_from source.old }
{
    let mut window = RecordWindow::of_few(alloc);
    let mut kept = Vec::new(alloc);
    for (position, marked) in marks.iter().enumerate() {
        let wanted = *marked && is_set(sizes, position);
        let keeps = keeps_size(alloc, source, places, names, &mut window, position, wanted)?;
        kept.push(keeps)?;
    }
    Ok(kept)
}

// Whether the type at a position is marked, or defines one of these names.
fn is_marked<S: Source>(
    alloc: Global,
    source: &mut S,
    places: &TypePlaces,
    names: &BTreeSet<Vec<u8>>,
    window: &mut RecordWindow,
    position: usize,
    marked: bool,
) -> Result<bool, SourceError>
    ensures answer { IfOk result (λ answer. IfSome (said_in (S.bytes source.old) places.now.records.blocks) (λ stream.
        LieIn places.now stream → Shows (records_in places.now.records stream) window.old
        → answer ≡ (marked || defines_one names.now (list_at places.now stream) position))) }
    ensures shows { IfSome (said_in (S.bytes source.old) places.now.records.blocks) (λ stream.
        Shows (records_in places.now.records stream) window.old
        → Shows (records_in places.now.records stream) window.new) }
    ensures refused { IfErr result (λ fault. fault ≡ SourceError.Unreadable
        → S.refuses_from source.old ≤ places.now.records.blocks.file_length) }
    ensures inputs { S.bytes source.new ≡ S.bytes source.old }
    ensures refusals { S.refuses_from source.new ≡ S.refuses_from source.old }
{
    if marked {
        return Ok(true);
    }
    if !places.is_definition(source, window, position)? {
        return Ok(false);
    }
    match places.item_at(alloc, source, window, position)? {
        Some(item) => Ok(goes_by(&item, names)),
        None => Ok(false),
    }
}

// Whether the size of the type at a position is wanted and settled.
fn keeps_size<S: Source>(
    alloc: Global,
    source: &mut S,
    places: &TypePlaces,
    names: &BTreeSet<Vec<u8>>,
    window: &mut RecordWindow,
    position: usize,
    wanted: bool,
) -> Result<bool, SourceError>
    ensures answer { IfOk result (λ answer. IfSome (said_in (S.bytes source.old) places.now.records.blocks) (λ stream.
        LieIn places.now stream → Shows (records_in places.now.records stream) window.old
        → answer ≡ (wanted && is_settled_at names.now (list_at places.now stream) position))) }
    ensures wanted { IfOk result (λ answer. answer ≡ true → wanted ≡ true) }
    ensures shows { IfSome (said_in (S.bytes source.old) places.now.records.blocks) (λ stream.
        Shows (records_in places.now.records stream) window.old
        → Shows (records_in places.now.records stream) window.new) }
    ensures refused { IfErr result (λ fault. fault ≡ SourceError.Unreadable
        → S.refuses_from source.old ≤ places.now.records.blocks.file_length) }
    ensures inputs { S.bytes source.new ≡ S.bytes source.old }
    ensures refusals { S.refuses_from source.new ≡ S.refuses_from source.old }
{
    if !wanted {
        return Ok(false);
    }
    match places.item_at(alloc, source, window, position)? {
        Some(item) => Ok(is_settled(&item, names)),
        None => Ok(false),
    }
}

// Whether the mark at a position is set; `false` after the last mark.
fn is_set(marks: &[bool], position: usize) -> bool
    ensures { result ≡ unwrap_or (slice_get marks.now position) false }
{
    marks.get(position).copied().unwrap_or(false)
}

// Whether a type is a class or a union whose name is one of these.
fn goes_by(item: &Item<TypeIndex, TypeData>, names: &BTreeSet<Vec<u8>>) -> bool
    ensures { result ≡ goes_by names.now item.now }
{
    match &item.content {
        Ok(TypeData::Class(class)) => has_name(names, name_of(&class.unique_name, &class.name)),
        Ok(TypeData::Union(union)) => has_name(names, name_of(&union.unique_name, &union.name)),
        _ => false,
    }
}

// Whether a type's size is settled: it isn't a forward reference, or its name is one of these.
fn is_settled(item: &Item<TypeIndex, TypeData>, names: &BTreeSet<Vec<u8>>) -> bool
    ensures { result ≡ is_settled names.now item.now }
{
    match &item.content {
        Ok(TypeData::Class(class)) if class.forward_reference => goes_by(item, names),
        Ok(TypeData::Union(union)) if union.forward_reference => goes_by(item, names),
        _ => true,
    }
}

// Whether the set contains a name, compared by its bytes.
fn has_name(names: &BTreeSet<Vec<u8>>, name: &RawString) -> bool
    ensures { result ≡ has_name names.now name.now }
{
    names.contains(&name.0)
}

// The name by which a class or a union is compared: its unique name if it has one.
fn name_of<'n>(unique_name: &'n Option<RawString>, name: &'n RawString) -> &'n RawString
    ensures { result.now ≡ unwrap_or unique_name.now name.now }
{
    match unique_name {
        Some(unique_name) => unique_name,
        None => name,
    }
}
