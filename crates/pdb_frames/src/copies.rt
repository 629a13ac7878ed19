//! Copies of optional names of functions and files.

ghost use Rattle.std.specs.Prelude.{◌≡◌, option_map, string_bytes, IfOk};
ghost use Rattle.pdb_frames.specs.SourceFiles.{file_name_of};

use std::alloc::AllocError;
use std::borrow::CowStr;

/// A copy of a name, if there is one.
pub fn copy_of_name(name: &Option<String>) -> Result<Option<String>, AllocError>
    ensures { IfOk result (λ copy. option_map string_bytes copy ≡ option_map string_bytes name.now) }
{
    match name {
        None => Ok(None),
        Some(name) => Ok(Some(name.clone()?)),
    }
}

// A copy of a file name: borrowed if the original is borrowed, otherwise allocated.
pub(crate) fn again<'a>(name: &CowStr<'a>) -> Result<CowStr<'a>, AllocError>
    ensures { IfOk result (λ again. file_name_of again ≡ file_name_of name.now) }
{
    match name {
        CowStr::Borrowed(name) => Ok(CowStr::Borrowed(*name)),
        CowStr::Owned(name) => Ok(CowStr::Owned(name.clone()?)),
    }
}

// A copy of a file's name, if there is one.
pub(crate) fn copy_of_file<'a>(file: &Option<CowStr<'a>>) -> Result<Option<CowStr<'a>>, AllocError>
    ensures { IfOk result (λ copy. option_map file_name_of copy ≡ option_map file_name_of file.now) }
{
    match file {
        None => Ok(None),
        Some(file) => Ok(Some(again(file)?)),
    }
}
