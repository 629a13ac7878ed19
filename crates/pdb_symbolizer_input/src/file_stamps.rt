//! `FileStamp`: identifies the file at a path and its content. Another file, or changed bytes, have another stamp.

use std::fs::{self, Metadata};
use std::os::unix::fs::MetadataExt;
use std::rt::Files;

/// Identifies a file, and the time when its bytes were last changed.
#[derive(Clone, Copy, PartialEq, Eq)]
pub struct FileStamp {
    device: u64,
    inode: u64,
    size: u64,
    /// When the bytes were last written, in seconds and nanoseconds.
    modified: (i64, i64),
    /// When the file's status was last changed (`ctime`). It also changes if somebody sets `modified` back.
    changed: (i64, i64),
}

impl FileStamp {
    /// The stamp of the file at a path; `None` if there is no regular file.
    pub fn at<R: Files>(rt: &R, path: &str) -> Option<FileStamp> {
        match fs::metadata(rt, path) {
            Ok(metadata) if metadata.is_file() => Some(FileStamp::of(&metadata)),
            _ => None,
        }
    }

    /// The stamp of a file with this metadata.
    pub fn of(metadata: &Metadata) -> FileStamp {
        FileStamp {
            device: metadata.dev(),
            inode: metadata.ino(),
            size: metadata.size(),
            modified: (metadata.mtime(), metadata.mtime_nsec()),
            changed: (metadata.ctime(), metadata.ctime_nsec()),
        }
    }
}
