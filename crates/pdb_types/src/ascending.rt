//! Lists whose entries have ascending numbers: how far they ascend, and the search for an entry.

ghost use Rattle.std.specs.Prelude.{◌≡◌, ◌<◌, ◌≤◌, ◌+◌, ℕ, IfSome, Some, None, length, slice_get, take};
ghost use Rattle.std.specs.Option.{option_copied};
ghost use Rattle.pdb_types.specs.Ascending.{Ascends, first_numbered};

// An entry of a list that is found by its number.
pub(crate) trait Numbered {
    // The number by which the entry is found.
    ghost number_of: { Self → ℕ };

    // The number by which the entry is found.
    fn number(&self) -> u32
        ensures { result ≡ number_of self.now };
}

// The entry with this number, if no number is missing from there to the last entry.
fn hint<T: Numbered>(entries: &[T], number: u32) -> Option<&T>
    requires { Ascends T.number_of entries.now }
    ensures { IfSome result (λ entry. first_numbered T.number_of number entries.now ≡ Some entry.now) }
{
    let last = entries.len().checked_sub(1)?;
    let gap = entries[last].number().checked_sub(number)?;
    let position = last.checked_sub(gap as usize)?;
    let entry = &entries[position];
    if entry.number() == number {
        return Some(entry);
    }
    None
}

// The entry with this number, among entries with ascending numbers. It allocates nothing.
//
// In lists that linkers write, the last entries have consecutive numbers. So the position counted from the end is tried
// before a binary search.
pub(crate) fn find_ascending<T: Numbered>(entries: &[T], number: u32) -> Option<&T>
    requires { Ascends T.number_of entries.now }
    ensures { option_copied result ≡ first_numbered T.number_of number entries.now }
{
    if let Some(entry) = hint(entries, number) {
        return Some(entry);
    }
    match entries.binary_search_by_key(&number, |entry| entry.number()) {
        Ok(position) => Some(&entries[position]),
        Err(_) => None,
    }
}

// The entry after the first `ascending` ones, if its number is greater than theirs.
fn next_above<T: Numbered>(entries: &[T], ascending: usize) -> Option<&T>
    requires { Ascends T.number_of (take ascending entries.now) }
    ensures entry { IfSome result (λ entry. slice_get entries.now ascending ≡ Some entry.now) }
    ensures ascends { IfSome result (λ _. Ascends T.number_of (take (ascending + 1) entries.now)) }
{
    let entry = entries.get(ascending)?;
    let Some(last) = ascending.checked_sub(1) else {
        return Some(entry);
    };
    if entries[last].number() < entry.number() {
        return Some(entry);
    }
    None
}

// How many entries at the beginning of a list have ascending numbers.
pub(crate) fn ascending_length<T: Numbered>(entries: &[T]) -> usize
    ensures within { result ≤ length entries.now }
    ensures ascends { Ascends T.number_of (take result entries.now) }
{
    let mut ascending = 0;
    while let Some(_) = next_above(entries, ascending) {
        ascending += 1;
    }
    ascending
}

// Reads entries until it finds this number, or numbers no longer ascend. The number isn't among those read before.
pub(crate) fn read_ascending<'a, T: Numbered>(
    entries: &'a [T],
    ascending: &mut usize,
    number: u32,
) -> Option<&'a T>
    requires within { ascending.old ≤ length entries.now }
    requires ascends { Ascends T.number_of (take ascending.old entries.now) }
    requires absent { first_numbered T.number_of number (take ascending.old entries.now) ≡ None }
    ensures within { ascending.new ≤ length entries.now }
    ensures ascends { Ascends T.number_of (take ascending.new entries.now) }
    ensures answer { option_copied result
        ≡ first_numbered T.number_of number (take ascending.new entries.now) }
{
    while let Some(entry) = next_above(entries, *ascending) {
        *ascending += 1;
        if entry.number() == number {
            return Some(entry);
        }
    }
    None
}

// The entry with this number, among the entries at the beginning whose numbers ascend. If no entry after these was read
// yet, it reads on as far as numbers ascend.
pub(crate) fn find_in_beginning<'a, T: Numbered>(
    entries: &'a [T],
    ascending: &mut usize,
    read_behind: usize,
    number: u32,
) -> Option<&'a T>
    requires within { ascending.old ≤ length entries.now }
    requires ascends { Ascends T.number_of (take ascending.old entries.now) }
    ensures within { ascending.new ≤ length entries.now }
    ensures ascends { Ascends T.number_of (take ascending.new entries.now) }
    ensures unchanged { 0 < read_behind → ascending.new ≡ ascending.old }
    ensures answer { option_copied result
        ≡ first_numbered T.number_of number (take ascending.new entries.now) }
{
    let (beginning, _) = entries.split_at(*ascending);
    let found = find_ascending(beginning, number);
    if found.is_some() || read_behind > 0 {
        return found;
    }
    read_ascending(entries, ascending, number)
}
