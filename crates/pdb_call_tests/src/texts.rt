//! Words of the lines of data, taken apart and put together.

use std::alloc::{AllocError, Global};
use std::io;

/// The parts of a text before and after another one that it contains.
pub(crate) fn around<'t>(text: &'t str, inner: &str) -> Option<(&'t str, &'t str)> {
    text.split_once(inner)
}

/// A number in hexadecimal.
pub(crate) fn hexadecimal(word: &str) -> Option<u32> {
    u32::from_str_radix(word, 16).ok()
}

/// A module index, and the text after it.
pub(crate) fn module_index(text: &str) -> Option<(usize, &str)> {
    let (word, rest) = around(text, " ")?;
    Some((word.parse::<usize>().ok()?, rest))
}

/// Prints a line, and a remark about it.
pub(crate) fn print_line<R: Print>(rt: &R, line: &str, said: &str) -> io::Result<()> {
    rt.print(line)?;
    rt.println(said)
}

/// Three texts joined.
pub(crate) fn joined(
    alloc: Global,
    first: &str,
    second: &str,
    third: &str,
) -> Result<String, AllocError> {
    let mut text = String::from_str(alloc, first)?;
    text.push_str(second)?;
    text.push_str(third)?;
    Ok(text)
}
