//! File names in paths, after the last slash of either kind.

pub use pdb_answer_printer::base_name as last_part;

/// The last part of a path; `None` if it can't be the name of a file.
pub fn file_name(path: &str) -> Option<&str> {
    match last_part(path) {
        "" | "." | ".." => None,
        name => Some(name),
    }
}
