//! The paths at which a PDB file may be in the folders of `--pdb-dir`, which may be symbol stores.

use crate::folder_listings::FolderListings;
use crate::options::Options;
use crate::run_errors::RunError;
use pdb_container::DebugId;
use std::alloc::{AllocError, Global};
use std::fs;
use std::rt::Files;

/// A PDB file that is looked for.
#[derive(Clone, Copy)]
pub struct WantedFile<'w> {
    pub name: &'w str,
    pub debug_id: DebugId,
}

/// How PDB files may be arranged in a folder.
#[derive(Clone, Copy)]
pub enum Layout {
    /// `app.pdb`.
    Flat,
    /// `app.pdb/ID/app.pdb`, as in a symbol store.
    OneTier,
    /// `ap/app.pdb/ID/app.pdb`, as in a symbol store that has a file `index2.txt`.
    TwoTiers,
}

/// All layouts, in the order in which they are tried.
pub const LAYOUTS: [Layout; 3] = [Layout::Flat, Layout::OneTier, Layout::TwoTiers];

/// The path of a file in a folder of this layout. `id` is the debug id as `id_text` writes it.
pub fn place_by<R: Files + AllocGlobal>(
    rt: &R,
    dir: &str,
    layout: Layout,
    name: &str,
    id: &str,
) -> Result<Option<String>, AllocError> {
    match folder_by(rt, dir, layout, name, id)? {
        Some(folder) => Ok(Some(format!(in rt.alloc(); "{folder}/{name}")?)),
        None => Ok(None),
    }
}

// The subfolder that has the file in a folder of this layout.
fn folder_by<R: Files + AllocGlobal>(
    rt: &R,
    dir: &str,
    layout: Layout,
    name: &str,
    id: &str,
) -> Result<Option<String>, AllocError> {
    let alloc = rt.alloc();
    match layout {
        Layout::Flat => Ok(Some(String::from_str(alloc, dir)?)),
        Layout::OneTier => Ok(Some(format!(in alloc; "{dir}/{name}/{id}")?)),
        Layout::TwoTiers => match first_letters(name) {
            Some(first) if has_two_tiers(rt, dir)? => {
                Ok(Some(format!(in alloc; "{dir}/{first}/{name}/{id}")?))
            }
            _ => Ok(None),
        },
    }
}

/// Appends the paths at which a file is looked for first: with the wanted name as it is.
pub fn push_places<R: Files + AllocGlobal>(
    rt: &R,
    places: &mut Vec<String>,
    options: &Options<'_>,
    wanted: &WantedFile<'_>,
) -> Result<(), AllocError> {
    for folder in folders(rt, options, wanted)? {
        places.push(format!(in rt.alloc(); "{folder}/{}", wanted.name)?)?;
    }
    Ok(())
}

/// The paths at which a file is looked for next: with names that differ from the wanted one in case.
pub fn other_places<R: Files + AllocGlobal>(
    rt: &R,
    listings: &mut FolderListings,
    options: &Options<'_>,
    wanted: &WantedFile<'_>,
) -> Result<Vec<String>, RunError> {
    let mut places = Vec::new(rt.alloc());
    push_places(rt, &mut places, options, wanted)?;
    let mut others = Vec::new(rt.alloc());
    for folder in folders_in_any_case(rt, listings, options, wanted)? {
        for path in listings.paths_named(rt, folder.as_str(), wanted.name)? {
            if !places.contains(&path) {
                others.push(path)?;
            }
        }
    }
    Ok(others)
}

/// The path of the file as a symbol server compresses it, if it is there. Its name has `_` in place of the last letter.
pub fn find_compressed<R: Files + AllocGlobal>(
    rt: &R,
    listings: &mut FolderListings,
    options: &Options<'_>,
    wanted: &WantedFile<'_>,
) -> Result<Option<String>, RunError> {
    let Some(stem) = without_last_letter(wanted.name) else {
        return Ok(None);
    };
    let name = format!(in rt.alloc(); "{stem}_")?;
    for folder in folders(rt, options, wanted)? {
        let path = format!(in rt.alloc(); "{folder}/{name}")?;
        if is_regular_file(rt, path.as_str()) {
            return Ok(Some(path));
        }
    }
    for folder in folders_in_any_case(rt, listings, options, wanted)? {
        for path in listings.paths_named(rt, folder.as_str(), name.as_str())? {
            if is_regular_file(rt, path.as_str()) {
                return Ok(Some(path));
            }
        }
    }
    Ok(None)
}

// The folders in which a file may be: those of the options, and the subfolders that a symbol store in them has for the
// file.
fn folders<R: Files + AllocGlobal>(
    rt: &R,
    options: &Options<'_>,
    wanted: &WantedFile<'_>,
) -> Result<Vec<String>, AllocError> {
    let id = id_text(rt.alloc(), wanted.debug_id)?;
    let mut folders = Vec::new(rt.alloc());
    for dir in &options.pdb_dirs {
        for layout in LAYOUTS {
            if let Some(folder) = folder_by(rt, dir, layout, wanted.name, id.as_str())? {
                folders.push(folder)?;
            }
        }
    }
    Ok(folders)
}

// These folders, with subfolders whose names may differ in case.
fn folders_in_any_case<R: Files + AllocGlobal>(
    rt: &R,
    listings: &mut FolderListings,
    options: &Options<'_>,
    wanted: &WantedFile<'_>,
) -> Result<Vec<String>, RunError> {
    let mut folders = Vec::new(rt.alloc());
    for dir in &options.pdb_dirs {
        folders.push(String::from_str(rt.alloc(), dir)?)?;
        push_store_folders(rt, listings, &mut folders, dir, wanted)?;
        if let Some(first) = first_letters(wanted.name)
            && has_two_tiers(rt, dir)?
        {
            for tier in listings.paths_named(rt, dir, first)? {
                push_store_folders(rt, listings, &mut folders, tier.as_str(), wanted)?;
            }
        }
    }
    Ok(folders)
}

// Appends the subfolders that a symbol store in `root` has for a file. Their names may differ in case.
fn push_store_folders<R: Files + AllocGlobal>(
    rt: &R,
    listings: &mut FolderListings,
    folders: &mut Vec<String>,
    root: &str,
    wanted: &WantedFile<'_>,
) -> Result<(), RunError> {
    let id = id_text(rt.alloc(), wanted.debug_id)?;
    for folder in listings.paths_named(rt, root, wanted.name)? {
        for path in listings.paths_named(rt, folder.as_str(), id.as_str())? {
            folders.push(path)?;
        }
    }
    Ok(())
}

/// A debug id as symbol stores name a folder by it.
pub fn id_text(alloc: Global, debug_id: DebugId) -> Result<String, AllocError> {
    format!(in alloc; "{}", debug_id.compact())
}

// Whether a symbol store has an upper level of folders named by the first letters of files. A file `index2.txt` says
// so.
fn has_two_tiers<R: Files + AllocGlobal>(rt: &R, store: &str) -> Result<bool, AllocError> {
    let path = format!(in rt.alloc(); "{store}/index2.txt")?;
    Ok(is_regular_file(rt, path.as_str()))
}

// The first two letters of a name, or all of a shorter one. `None` if a folder of that name would be outside the store.
fn first_letters(name: &str) -> Option<&str> {
    let letters = match name.char_indices().nth(2) {
        Some((end, _)) => name.get(..end)?,
        None => name,
    };
    match letters {
        "" | "." | ".." => None,
        _ => Some(letters),
    }
}

fn without_last_letter(name: &str) -> Option<&str> {
    let (last, _) = name.char_indices().next_back()?;
    match name.get(..last)? {
        "" => None,
        stem => Some(stem),
    }
}

fn is_regular_file<R: Files>(rt: &R, path: &str) -> bool {
    match fs::metadata(rt, path) {
        Ok(metadata) => metadata.is_file(),
        Err(_) => false,
    }
}
