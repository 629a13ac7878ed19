//! Reads the streams of a PDB file, which is a container of the format MSF 7.00.
//!
//! A container consists of blocks of one size. Its directory says which blocks make up each stream.
//!
//! [`Container::open`] returns an error if the file as a whole can't be read. [`Container::stream`] returns one if a
//! stream can't be read, with one of the numbers of [`faults`]. [`Bytes`] reads values off the front of a stream.
#![tactic(auto)]

mod block_reads;
mod bytes;
mod container_error;
mod directory;
pub mod faults;
mod item_lists;
mod msf;
mod msf_layout;
mod name_copies;
mod number_lists;
mod readings;
mod source;
mod source_error;
mod stream_blocks;
mod stream_subset;
mod streams;
mod superblock;

pub use bytes::{Bytes, offset_of, u16_at, u32_at};
pub use container_error::{ContainerError, other_file};
pub use item_lists::{ItemReader, PaddedItems, push_items, read_all_items, read_items};
pub use msf::Container;
pub use msf_layout::MsfLayout;
pub use name_copies::copy_name;
pub use number_lists::{bytes_from, number_at, take_numbers};
pub use readings::nothing_read;
pub use source::{RangeError, Source};
pub use source_error::{OpenError, SourceError, part_of_source};
pub use stream_blocks::StreamBlocks;
pub use stream_subset::StreamSubset;
pub use streams::StreamBytes;
