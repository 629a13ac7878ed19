//! `FileCache`: a value for each file, kept between requests. The least recently used values are dropped at a limit.

use crate::file_stamps::FileStamp;
use lru::LruCache;
use std::alloc::{AllocError, Global};
use std::num::NonZeroUsize;

/// The maximum number of files with a cached value.
const FILES: usize = 256;

/// A cached value of a file.
#[derive(Drop)]
struct Kept<T> {
    stamp: FileStamp,
    /// How many bytes the value counts as.
    size: u64,
    value: T,
}

/// Cached values of files, by the paths at which the files were opened.
#[derive(Drop)]
pub struct FileCache<T> {
    files: LruCache<String, Kept<T>>,
    /// The maximum of the values' sizes together, in bytes.
    limit: u64,
}

impl<T: Drop> FileCache<T> {
    /// An empty cache for values of at most `limit` bytes together.
    pub fn new(alloc: Global, limit: u64) -> Result<Self, AllocError> {
        let capacity = NonZeroUsize::new(FILES).unwrap_or(NonZeroUsize::MIN);
        Ok(FileCache {
            files: LruCache::sparse(alloc, capacity)?,
            limit,
        })
    }

    /// The value of the file at a path. This doesn't count as a use.
    pub fn peek(&self, path: &str, stamp: FileStamp) -> Option<&T> {
        let kept = self.files.peek(path)?;
        if kept.stamp == stamp {
            Some(&kept.value)
        } else {
            None
        }
    }

    /// The value of the file at a path. This counts as its most recent use.
    pub fn get(&mut self, path: &str, stamp: FileStamp) -> Option<&T> {
        let kept = self.files.get(path)?;
        if kept.stamp == stamp {
            Some(&kept.value)
        } else {
            None
        }
    }

    /// Removes and returns the value of the file at a path. If another file was cached at that path, its value is
    /// dropped.
    pub fn take(&mut self, path: &str, stamp: FileStamp) -> Option<T> {
        let Kept {
            stamp: known,
            size: _,
            value,
        } = self.files.pop(path)?;
        if known == stamp { Some(value) } else { None }
    }

    /// Stores a value for a file, and drops the least recently used values until all fit. The value isn't stored if it
    /// is too large by itself, or if memory runs out.
    pub fn keep(&mut self, path: String, stamp: FileStamp, size: u64, value: T) {
        if !self.has_room_for(size) {
            return;
        }
        self.shrink(self.limit.saturating_sub(size));
        let _ = self.files.put(path, Kept { stamp, size, value });
    }

    // Drops the least recently used values until the others take at most `most` bytes.
    fn shrink(&mut self, most: u64) {
        for _ in 0..FILES {
            if self.size() <= most {
                return;
            }
            let _ = self.files.pop_lru();
        }
    }

    /// Whether a value of `size` bytes can be stored.
    pub fn has_room_for(&self, size: u64) -> bool {
        size <= self.limit
    }

    /// The number of cached values.
    pub fn count(&self) -> usize {
        self.files.len()
    }

    /// The sizes of all cached values together, in bytes.
    pub fn size(&self) -> u64 {
        let mut size = 0u64;
        for (_, kept) in self.files.iter() {
            size = size.saturating_add(kept.size);
        }
        size
    }
}
