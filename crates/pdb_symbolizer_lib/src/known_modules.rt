//! Answers for modules from cached texts alone, if their file is open and each offset has one.

use pdb_symbolication::{FrameTexts, WantedModule};
use pdb_symbolizer_input::file_stamps::FileStamp;
use pdb_symbolizer_input::folder_places::{LAYOUTS, id_text, place_by};
use pdb_symbolizer_input::kept_files::KeptFiles;
use pdb_symbolizer_input::options::Options;
use std::alloc::AllocError;
use std::rt::Files;

/// The result of checking one path for a module's cached texts.
#[derive(Drop)]
enum KnownPlace {
    /// The module's file is open, and these are all the texts that are asked for.
    Texts(FrameTexts),
    /// The file of the module isn't at this path.
    Elsewhere,
    /// The file may be here, but not all texts are cached.
    Unknown,
}

/// The texts of a module, if all are cached. The module's file is the first in the folders with its name and debug id.
pub fn known_texts<R: Files + AllocGlobal>(
    rt: &R,
    options: &Options<'_>,
    files: &mut KeptFiles<R::File>,
    module: &WantedModule,
) -> Result<Option<FrameTexts>, AllocError> {
    let name = module.name.as_str();
    let id = id_text(rt.alloc(), module.debug_id)?;
    for dir in &options.pdb_dirs {
        for layout in LAYOUTS {
            let Some(path) = place_by(rt, dir, layout, name, id.as_str())? else {
                continue;
            };
            match known_place(rt, files, path.as_str(), module)? {
                KnownPlace::Texts(texts) => return Ok(Some(texts)),
                KnownPlace::Elsewhere => {}
                KnownPlace::Unknown => return Ok(None),
            }
        }
    }
    Ok(None)
}

fn known_place<R: Files + AllocGlobal>(
    rt: &R,
    files: &mut KeptFiles<R::File>,
    path: &str,
    module: &WantedModule,
) -> Result<KnownPlace, AllocError> {
    let Some(stamp) = FileStamp::at(rt, path) else {
        return Ok(KnownPlace::Elsewhere);
    };
    match files.ids.get(path, stamp) {
        Some(id) if *id == module.debug_id => {}
        Some(_) => return Ok(KnownPlace::Elsewhere),
        None => return Ok(KnownPlace::Unknown),
    }
    let Some(known) = files.texts_at(path, stamp) else {
        return Ok(KnownPlace::Unknown);
    };
    match known.all(rt.alloc(), &module.offsets)? {
        Some(texts) => Ok(KnownPlace::Texts(texts)),
        None => Ok(KnownPlace::Unknown),
    }
}
