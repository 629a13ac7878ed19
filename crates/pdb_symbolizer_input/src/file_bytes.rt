//! `FileBytes`: a file whose bytes are in memory, or on disk, where ranges are read when needed.

use crate::file_stamps::FileStamp;
use pdb_container::{ContainerError, RangeError, Source, other_file};
use std::alloc::Global;
use std::fs::{self, Metadata, OpenFile};
use std::io::{self, Read, Seek, SeekFrom};
use std::rt::Files;

/// The first bytes of a PDB file, in every version of the format.
const PDB_FILE: [u8; 14] = *b"Microsoft C/C+";

/// The bytes of a file.
#[derive(Drop)]
pub enum FileBytes<F> {
    InMemory(Vec<u8>),
    /// An open PDB file, its length in bytes, and its stamp.
    OnDisk(F, usize, FileStamp),
}

impl<F: Read + Seek + Drop> Source for FileBytes<F> {
    ghost use Rattle.pdb_symbolizer_input.specs.FileContents.{known_bytes};

    ghost bytes = { known_bytes };

    ghost refuses_from = { λ bytes. 0 };

    fn read_exact_at(&mut self, buffer: &mut [u8], place: usize) -> Result<(), RangeError> {
        match self {
            FileBytes::InMemory(bytes) => bytes.as_slice().read_exact_at(buffer, place),
            FileBytes::OnDisk(file, _, _) => match read_range(file, buffer, place) {
                Ok(()) => Ok(()),
                Err(_) => Err(RangeError),
            },
        }
    }
}

impl<F: Read + Seek + Drop> FileBytes<F> {
    /// The length of the file in bytes.
    pub fn length(&self) -> usize {
        match self {
            FileBytes::InMemory(bytes) => bytes.len(),
            FileBytes::OnDisk(_, length, _) => *length,
        }
    }

    /// The stamp of a file on disk; `None` for bytes in memory.
    pub fn stamp(&self) -> Option<FileStamp> {
        match self {
            FileBytes::InMemory(_) => None,
            FileBytes::OnDisk(_, _, stamp) => Some(*stamp),
        }
    }

    /// Whether the file is a PDB file, in a supported version or another, and not a records file or a program.
    pub fn is_pdb_file(&self) -> bool {
        match self {
            FileBytes::InMemory(bytes) => is_pdb_file(bytes),
            FileBytes::OnDisk(..) => true,
        }
    }

    /// Reads all bytes into memory.
    pub fn into_memory(self, alloc: Global) -> io::Result<Vec<u8>> {
        match self {
            FileBytes::InMemory(bytes) => Ok(bytes),
            FileBytes::OnDisk(mut file, _, _) => {
                file.seek(SeekFrom::Start(0))?;
                read_all(alloc, &mut file)
            }
        }
    }
}

/// Opens a file that the user names. A PDB file stays on disk, any other file is read into memory.
pub fn open_bytes<R: Files + AllocGlobal>(rt: &R, path: &str) -> io::Result<FileBytes<R::File>> {
    let mut file = fs::open(rt, path)?;
    let metadata = file.metadata()?;
    if metadata.is_file() && begins_as_pdb_file(&mut file, metadata.len())? {
        let length = usize::try_from(metadata.len()).unwrap_or(usize::MAX);
        return Ok(FileBytes::OnDisk(file, length, FileStamp::of(&metadata)));
    }
    Ok(FileBytes::InMemory(read_all(rt.alloc(), &mut file)?))
}

/// Opens a file that another file names. A folder, a device or a pipe is refused: the content of a file must not make
/// the reader wait, or read without an end.
pub fn open_regular_bytes<R: Files + AllocGlobal>(
    rt: &R,
    path: &str,
) -> io::Result<FileBytes<R::File>> {
    check_regular(&fs::metadata(rt, path)?)?;
    open_bytes(rt, path)
}

/// Reads a file that another file names. A file of more than `longest` bytes is refused, as is a folder, a device or a
/// pipe.
pub fn read_regular_file<R: Files>(
    rt: &R,
    alloc: Global,
    path: &str,
    longest: u64,
) -> io::Result<Vec<u8>> {
    let metadata = fs::metadata(rt, path)?;
    check_regular(&metadata)?;
    if metadata.len() > longest {
        return Err(io::Error::from(io::ErrorKind::FileTooLarge));
    }
    let mut file = fs::open(rt, path)?;
    let mut bytes = Vec::new(alloc);
    (&mut file).take(longest).read_to_end(&mut bytes)?;
    Ok(bytes)
}

fn check_regular(metadata: &Metadata) -> io::Result<()> {
    if metadata.is_file() {
        Ok(())
    } else {
        Err(io::Error::new(io::ErrorKind::InvalidInput, "not a regular file"))
    }
}

// Whether a file of this length begins as a PDB file does. Leaves the file's position at its start.
fn begins_as_pdb_file<F: Read + Seek>(file: &mut F, length: u64) -> io::Result<bool> {
    let mut front = [0; 14];
    if length < 14 {
        return Ok(false);
    }
    file.read_exact(&mut front)?;
    file.seek(SeekFrom::Start(0))?;
    Ok(front == PDB_FILE)
}

fn read_range<F: Read + Seek>(file: &mut F, buffer: &mut [u8], place: usize) -> io::Result<()> {
    file.seek(SeekFrom::Start(place as u64))?;
    file.read_exact(buffer)
}

fn read_all<F: Read>(alloc: Global, file: &mut F) -> io::Result<Vec<u8>> {
    let mut bytes = Vec::new(alloc);
    file.read_to_end(&mut bytes)?;
    Ok(bytes)
}

// Whether these are the bytes of a PDB file, in a supported version or another, and not of a records file.
fn is_pdb_file(bytes: &[u8]) -> bool {
    match other_file(bytes) {
        ContainerError::NotAPdbFile => bytes.starts_with(&PDB_FILE),
        _ => true,
    }
}
