//! `FolderListings`: the names in folders, to find files whose names differ only in case.

use crate::run_errors::RunError;
use pdb_records_files::ran_out_of_memory;
use std::alloc::{AllocError, Global};
use std::collections::BTreeMap;
use std::io::{self, Read};
use std::rt::Files;

/// The size of the buffer for names, in bytes. Each name fits.
const CAPACITY: usize = 8192;

/// The character after each name that a folder lists.
const END: char = '\0';

/// The names in a folder, by their lowercase forms.
type Listing = BTreeMap<String, Vec<String>>;

/// The listings of the folders that one request looked in. Each folder is listed once.
#[derive(Drop)]
pub struct FolderListings {
    alloc: Global,
    folders: BTreeMap<String, Listing>,
}

impl FolderListings {
    /// No listings.
    pub fn new(alloc: Global) -> Self {
        FolderListings {
            alloc,
            folders: BTreeMap::new(alloc),
        }
    }

    /// The paths of all entries of a folder whose names equal `name` except for the case of the letters A to Z. They
    /// are sorted by their bytes.
    pub fn paths_named<R: Files>(
        &mut self,
        rt: &R,
        folder: &str,
        name: &str,
    ) -> Result<Vec<String>, RunError> {
        if self.folders.get(folder).is_none() {
            let listing = list(rt, self.alloc, folder)?;
            self.put(folder, listing)?;
        }
        Ok(self.paths_of(folder, name)?)
    }

    fn put(&mut self, folder: &str, listing: Listing) -> Result<(), AllocError> {
        self.folders
            .insert(String::from_str(self.alloc, folder)?, listing)?;
        Ok(())
    }

    // The same for a folder that was listed before.
    fn paths_of(&self, folder: &str, name: &str) -> Result<Vec<String>, AllocError> {
        let mut paths = Vec::new(self.alloc);
        let Some(listing) = self.folders.get(folder) else {
            return Ok(paths);
        };
        let key = name.to_ascii_lowercase(self.alloc)?;
        if let Some(names) = listing.get(key.as_str()) {
            for found in names {
                paths.push(format!(in self.alloc; "{folder}/{found}")?)?;
            }
        }
        paths.sort_unstable();
        Ok(paths)
    }
}

// Lists a folder. If it can't be read, the listing is empty.
fn list<R: Files>(rt: &R, alloc: Global, folder: &str) -> Result<Listing, RunError> {
    match read_names(rt, alloc, folder) {
        Ok(names) => Ok(listing_of(alloc, &names)?),
        Err(error) if ran_out_of_memory(&error) => Err(RunError::want_of_memory()),
        Err(_) => Ok(BTreeMap::new(alloc)),
    }
}

// Makes a listing from names that each end with `END`.
fn listing_of(alloc: Global, names: &[u8]) -> Result<Listing, AllocError> {
    let mut listing = BTreeMap::new(alloc);
    let text = String::from_utf8_lossy(alloc, names)?;
    for name in text.as_str().split(END) {
        add_name(alloc, &mut listing, name)?;
    }
    Ok(listing)
}

fn add_name(alloc: Global, listing: &mut Listing, name: &str) -> Result<(), AllocError> {
    let key = name.to_ascii_lowercase(alloc)?;
    let mut alike = match listing.remove(key.as_str()) {
        Some(names) => names,
        None => Vec::new(alloc),
    };
    alike.push(String::from_str(alloc, name)?)?;
    listing.insert(key, alike)?;
    Ok(())
}

// Reads the names in a folder, each followed by `END`.
fn read_names<R: Files>(rt: &R, alloc: Global, folder: &str) -> io::Result<Vec<u8>> {
    let path = format!(in alloc; "{folder}/")?;
    let mut folder = rt.open_dir(path.as_str())?;
    let mut names = Vec::new(alloc);
    let mut buffer = [0; CAPACITY];
    for _ in 0..u64::MAX {
        let count = folder.read(&mut buffer)?;
        match buffer.get(..count) {
            Some(read) if !read.is_empty() => names.extend_from_slice(read)?,
            _ => break,
        }
    }
    Ok(names)
}
