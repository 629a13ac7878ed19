//! `KeptFiles`: PDB files that stay open between requests, and cached debug ids of files.

use crate::file_cache::FileCache;
use crate::file_stamps::FileStamp;
use crate::input_files::{NamedFile, SourceFile};
use crate::known_texts::KnownTexts;
use crate::opened_files::{OpenedFile, open_source};
use crate::options::Options;
use crate::record_sizes::estimated_size;
use crate::run_errors::RunError;
use pdb_container::DebugId;
use std::alloc::{AllocError, Global};
use std::io::{Read, Seek};
use std::rt::Files;

/// Debug ids of files whose headers were read, so that they aren't read again.
pub type KnownIds = FileCache<DebugId>;

/// An open file, with the texts that requests asked for.
#[derive(Drop)]
struct KeptFile<F: Read + Seek + Drop> {
    file: OpenedFile<F>,
    texts: KnownTexts,
}

/// The files that stay open between requests.
#[derive(Drop)]
pub struct KeptFiles<F: Read + Seek + Drop> {
    files: FileCache<KeptFile<F>>,
    pub ids: KnownIds,
}

impl<F: Read + Seek + Drop> KeptFiles<F> {
    /// No files. Open files will take at most `limit` bytes of memory.
    pub fn new(alloc: Global, limit: u64) -> Result<Self, AllocError> {
        Ok(KeptFiles {
            files: FileCache::new(alloc, limit)?,
            ids: KnownIds::new(alloc, limit)?,
        })
    }

    /// The number of open files.
    pub fn count(&self) -> usize {
        self.files.count()
    }

    /// How many bytes of memory the open files take, by an estimate.
    pub fn size(&self) -> u64 {
        self.files.size()
    }

    /// The cached texts of the file at a path, if that file is open.
    pub fn texts_at(&mut self, path: &str, stamp: FileStamp) -> Option<&KnownTexts> {
        match self.files.get(path, stamp) {
            Some(kept) => Some(&kept.texts),
            None => None,
        }
    }
}

/// A file in use, and its stamp if it may stay open.
#[derive(Drop)]
pub struct UsedFile<F: Read + Seek + Drop> {
    pub file: OpenedFile<F>,
    /// The texts at offsets that requests asked for.
    pub texts: KnownTexts,
    stamp: Option<FileStamp>,
}

/// Opens a file that was found, or takes it out of the open files if it is there.
pub fn open_used<R: Files + Eprint + AllocGlobal>(
    rt: &R,
    options: &Options<'_>,
    files: &mut KeptFiles<R::File>,
    source: SourceFile<R::File>,
) -> Result<UsedFile<R::File>, RunError> {
    let stamp = source.bytes.stamp();
    match take(files, &source.file, stamp) {
        Some(KeptFile { file, texts }) => Ok(UsedFile {
            file: file_as_named(file, source.file),
            texts,
            stamp,
        }),
        None => Ok(UsedFile {
            file: open_source(rt, options, source)?,
            texts: KnownTexts::new(rt.alloc()),
            stamp,
        }),
    }
}

fn take<F: Read + Seek + Drop>(
    files: &mut KeptFiles<F>,
    named: &NamedFile,
    stamp: Option<FileStamp>,
) -> Option<KeptFile<F>> {
    files.files.take(named.path.as_str(), stamp?)
}

// An open file, with the path, image base and program id by which it was found this time.
fn file_as_named<F: Read + Seek + Drop>(file: OpenedFile<F>, named: NamedFile) -> OpenedFile<F> {
    let OpenedFile {
        path: _,
        session,
        source_urls,
        image_base: _,
        code_id: _,
    } = file;
    let NamedFile {
        path,
        image_base,
        code_id,
    } = named;
    OpenedFile {
        path,
        session,
        source_urls,
        image_base,
        code_id,
    }
}

impl<F: Read + Seek + Drop> UsedFile<F> {
    /// Keeps the file open for the next request, if it may stay open and there is room.
    pub fn keep(self, alloc: Global, files: &mut KeptFiles<F>) {
        let UsedFile { file, texts, stamp } = self;
        let Some(stamp) = stamp else {
            return;
        };
        let Ok(path) = String::from_str(alloc, file.path.as_str()) else {
            return;
        };
        let records = estimated_size(file.records());
        let size = records.saturating_add(texts.size());
        if files.files.has_room_for(size) {
            files
                .files
                .keep(path, stamp, size, KeptFile { file, texts });
        } else {
            let texts = KnownTexts::new(alloc);
            files
                .files
                .keep(path, stamp, records, KeptFile { file, texts });
        }
    }
}
