//! `SourceUrls`: the URL of a source file by its name, from Source Link entries or else from source server data.

ghost use Rattle.std.specs.Prelude.{◌≡◌, ◌≤◌, ℕ, List, None, IfErr, IfOk, option_map, string_bytes};
ghost use Rattle.pdb_container.specs.DebugRecords.{of_file};
ghost use Rattle.pdb_msf.specs.MsfLayout.{IfFile, Reads};
ghost use Rattle.pdb_source_urls.specs.SourceUrls.{url_of, urls_of};

use crate::link_urls::link_url;
use crate::named_streams::{NamedData, read_named};
use crate::server_files::ServerFiles;
use crate::server_urls::server_url;
use crate::source_server::SourceServer;
use pdb_msf::{MsfLayout, OpenError, Source};
use std::alloc::{AllocError, Global};
use std::marker::Model;

/// What a PDB file says of where its source files can be fetched.
#[derive(Drop)]
pub struct SourceUrls {
    read: NamedData,
}

impl Model for SourceUrls {
    ghost use Rattle.std.specs.Prelude.{map};
    ghost use Rattle.pdb_source_urls.specs.SourceLinks.{link_seen};
    ghost use Rattle.pdb_source_urls.specs.SourceServer.{server_seen};
    ghost use Rattle.pdb_source_urls.specs.SourceUrls.{Urls};

    ghost Value = { Urls };

    ghost view = { λ urls. record {
      links = map link_seen urls.read.links.items;
      server = server_seen urls.read.server;
    } };
}

/// What a PDB file of this length says of where its source files can be fetched. A stream that is broken says nothing.
/// The errors are those of [`MsfLayout::read`](pdb_msf::MsfLayout::read).
pub fn read_source_urls<S: Source>(
    alloc: Global,
    source: &mut S,
    file_length: usize,
) -> Result<SourceUrls, OpenError>
    ensures answer { IfFile (S.bytes source.old) file_length (λ file.
        Reads (λ urls. urls) result (of_file urls_of file)) }
    ensures refused { IfErr result (λ fault. fault ≡ OpenError.Unreadable → S.refuses_from source.old ≤ file_length) }
    ensures inputs { S.bytes source.new ≡ S.bytes source.old }
    ensures refusals { S.refuses_from source.new ≡ S.refuses_from source.old }
{
    let layout = MsfLayout::read(alloc, source, file_length)?;
    let read = read_named(alloc, &layout, source)?;
    Ok(SourceUrls { read })
}

impl SourceUrls {
    /// A value that says no URL of any file.
    pub fn new(alloc: Global) -> Self
        ensures { (file : List ℕ) → url_of result file ≡ None }
    {
        SourceUrls {
            read: NamedData {
                links: Vec::new(alloc),
                server: SourceServer {
                    variables: Vec::new(alloc),
                    files: ServerFiles::new(alloc),
                },
            },
        }
    }

    /// The URL of a source file, whose name is as the PDB file has it. There is none if the PDB file doesn't say where
    /// this source file can be fetched. It is an error if memory runs out.
    pub fn url_of(&self, alloc: Global, file: &str) -> Result<Option<String>, AllocError>
        ensures { IfOk result (λ url. option_map string_bytes url ≡ url_of self.now file.now) }
    {
        match link_url(alloc, &self.read.links, file)? {
            Some(url) => Ok(Some(url)),
            None => server_url(alloc, &self.read.server, file),
        }
    }
}
