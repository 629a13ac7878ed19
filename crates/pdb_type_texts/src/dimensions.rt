//! Prints the dimensions of an array in brackets.

ghost use Rattle.std.specs.Prelude.{◌≡◌, ◌++◌, OnOk, string_bytes};
ghost use Rattle.pdb_type_texts.specs.Wording.{next_size, dimension_text, dimensions_text};

use std::alloc::AllocError;

// Appends the dimensions of an array, by the sizes in bytes of its levels and of its base. `AllocError` if memory runs
// out.
pub fn write_dimensions(text: &mut String, levels: &[u32], base: u64) -> Result<(), AllocError>
    ensures { OnOk result (string_bytes text.new ≡ string_bytes text.old ++ dimensions_text levels.now base) }
{
    let mut rest = levels;
    while let Some((level, inner)) = rest.split_first() {
        write_dimension(text, u64::from(*level), next_size(inner, base))?;
        rest = inner;
    }
    Ok(())
}

// The size of the next level of an array, or of its base.
fn next_size(inner: &[u32], base: u64) -> u64
    ensures { result ≡ next_size inner.now base }
{
    match inner.first() {
        Some(level) => u64::from(*level),
        None => base,
    }
}

// Appends the number of elements in `bytes` bytes, in brackets. They are empty if an element has size 0.
fn write_dimension(text: &mut String, bytes: u64, element: u64) -> Result<(), AllocError>
    ensures { OnOk result (string_bytes text.new ≡ string_bytes text.old ++ dimension_text bytes element) }
{
    text.push_str("[")?;
    if let Some(count) = bytes.checked_div(element) {
        write!(text, "{count}")?;
    }
    text.push_str("]")
}
