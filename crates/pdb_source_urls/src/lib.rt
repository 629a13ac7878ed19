//! Where the source files of a program can be fetched, as its PDB file says it.
//!
//! A PDB file may have Source Link streams, which map paths to URLs, and source server data, which has a line for each
//! file. What is read and answered is a definition over the bytes of the file, in specs/SourceUrls.antt, whatever these
//! are.
#![tactic(auto)]

mod expansion;
mod link_urls;
mod named_streams;
mod path_names;
mod server_files;
mod server_urls;
mod source_links;
mod source_server;
mod source_urls;
mod text_cuts;

pub use source_urls::{SourceUrls, read_source_urls};
