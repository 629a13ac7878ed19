//! Answers for the modules of a request: opens their PDB files, and prints texts at offsets without a cached one.

use crate::known_modules::known_texts;
use pdb_addr2line::{Error, Frame, FunctionFrames};
use pdb_session::{SessionContext, SessionData};
use pdb_symbolication::{FrameText, FrameTexts, SymbolizedFrame, SymbolizedFunction, WantedModule};
use pdb_symbolizer_input::folder_listings::FolderListings;
use pdb_symbolizer_input::kept_files::{KeptFiles, UsedFile, open_used};
use pdb_symbolizer_input::known_texts::{KnownTexts, NewText};
use pdb_symbolizer_input::options::Options;
use pdb_symbolizer_input::programs::find_in_folders;
use pdb_symbolizer_input::run_errors::RunError;
use std::alloc::{AllocError, Global};
use std::io::{Read, Seek};
use std::rt::Files;

/// The texts of each module; `None` if no usable file of the module is found. A module's file is put into the cache
/// before the next module is read.
pub fn texts_of_modules<R: Files + Eprint + Print + AllocGlobal>(
    rt: &R,
    options: &Options<'_>,
    files: &mut KeptFiles<R::File>,
    modules: &[WantedModule],
) -> Result<Vec<Option<FrameTexts>>, RunError> {
    let mut listings = FolderListings::new(rt.alloc());
    let mut texts = Vec::new(rt.alloc());
    for module in modules {
        texts.push(texts_of_module(rt, options, files, &mut listings, module)?)?;
    }
    Ok(texts)
}

// The texts of a module. If its file is found but refused, the error is printed.
fn texts_of_module<R: Files + Eprint + Print + AllocGlobal>(
    rt: &R,
    options: &Options<'_>,
    files: &mut KeptFiles<R::File>,
    listings: &mut FolderListings,
    module: &WantedModule,
) -> Result<Option<FrameTexts>, RunError> {
    match texts_of_file(rt, options, files, listings, module) {
        Err(RunError::Refused(Error::OutOfMemory)) => Err(RunError::Refused(Error::OutOfMemory)),
        Err(error) => {
            error.print(rt);
            Ok(None)
        }
        texts => texts,
    }
}

fn texts_of_file<R: Files + Eprint + AllocGlobal>(
    rt: &R,
    options: &Options<'_>,
    files: &mut KeptFiles<R::File>,
    listings: &mut FolderListings,
    module: &WantedModule,
) -> Result<Option<FrameTexts>, RunError> {
    if let Some(texts) = known_texts(rt, options, files, module)? {
        return Ok(Some(texts));
    }
    let Some(found) = find_in_folders(rt, &mut files.ids, listings, options, module)? else {
        return Ok(None);
    };
    let mut used = open_used(rt, options, files, found)?;
    let texts = texts_over(rt, options, module, &mut used)?;
    used.keep(rt.alloc(), files);
    Ok(Some(texts))
}

// The texts of a module, looked up in its file and added to the file's cache.
fn texts_over<R: Eprint + AllocGlobal, F: Read + Seek + Drop>(
    rt: &R,
    options: &Options<'_>,
    module: &WantedModule,
    used: &mut UsedFile<F>,
) -> Result<FrameTexts, RunError> {
    used.file.read_for(rt, &module.offsets)?;
    let data = used.file.session.data()?;
    let (texts, added) = texts_by(rt.alloc(), options, module, &used.texts, &data)?;
    drop(data);
    used.texts.add(added)?;
    Ok(texts)
}

// The texts of a module, and those among them that weren't cached.
fn texts_by(
    alloc: Global,
    options: &Options<'_>,
    module: &WantedModule,
    known: &KnownTexts,
    data: &SessionData<'_>,
) -> Result<(FrameTexts, Vec<NewText>), RunError> {
    let mut context = data.context(options.flags())?;
    let mut texts = FrameTexts::new(alloc);
    let mut added = Vec::new(alloc);
    for &offset in &module.offsets {
        let text = match known.get(offset) {
            Some(text) => text.copy(alloc)?,
            None => {
                let text = text_at(alloc, &mut context, offset)?;
                added.push(NewText {
                    offset,
                    text: text.copy(alloc)?,
                })?;
                text
            }
        };
        texts.push(text)?;
    }
    Ok((texts, added))
}

// The text at an offset.
fn text_at(
    alloc: Global,
    context: &mut SessionContext<'_, '_>,
    offset: u32,
) -> Result<FrameText, RunError> {
    match context.find_frames(offset)? {
        Some(found) => {
            let function = function_of(alloc, &found)?;
            Ok(FrameText::new(alloc, offset, Some(&function))?)
        }
        None => Ok(FrameText::new(alloc, offset, None)?),
    }
}

fn function_of<'f>(
    alloc: Global,
    found: &'f FunctionFrames<'_>,
) -> Result<SymbolizedFunction<'f>, AllocError> {
    let mut places = Vec::new(alloc);
    for frame in &found.frames {
        places.push(place_of(frame))?;
    }
    Ok(SymbolizedFunction {
        start: found.start_rva,
        places,
    })
}

// A frame's function, file and line. An empty name counts as none.
fn place_of<'f>(frame: &'f Frame<'_>) -> SymbolizedFrame<'f> {
    SymbolizedFrame {
        function: match &frame.function {
            Some(name) if !name.is_empty() => Some(name.as_str()),
            _ => None,
        },
        file: match &frame.file {
            Some(file) if !file.is_empty() => Some(file.as_str()),
            _ => None,
        },
        line: frame.line,
    }
}
