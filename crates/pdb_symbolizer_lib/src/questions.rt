//! `Questions`: what the requests over one file have in common, such as options, image base and public names.

ghost use Rattle.std.specs.Prelude.{◌≡◌};
ghost use Rattle.pdb_answer_printer.specs.InputLine.{question_of};
ghost use Rattle.pdb_symbolizer_lib.specs.AnsweredRequests.{asked_address, asks_more, question_by};
ghost use Rattle.pdb_symbolizer_input.specs.ImageBases.{image_base_of};

use crate::public_names::PublicNames;
use pdb_answer_printer::{InputLine, InputTarget, Sort, parse_input_line};
use pdb_session::SessionContext;
use pdb_source_urls::SourceUrls;
use pdb_symbolizer_input::image_bases::ImageBase;
use pdb_symbolizer_input::opened_files::OpenedFile;
use pdb_symbolizer_input::options::{FileNaming, Options};
use std::io::{Read, Seek};

/// What all requests over one file have in common.
#[derive(Clone, Copy)]
pub struct Questions<'q, 'w> {
    pub options: &'q Options<'w>,
    /// The file as it was named.
    pub file: &'q str,
    pub image_base: ImageBase,
    pub names: &'q PublicNames,
    /// Where the source files can be fetched. It says nothing unless the options ask for URLs.
    pub source_urls: &'q SourceUrls,
}

impl<'q, 'w> Questions<'q, 'w> {
    /// The data for requests over an open file.
    pub fn new<F: Read + Seek + Drop>(
        options: &'q Options<'w>,
        file: &'q str,
        input: &OpenedFile<F>,
        names: &'q PublicNames,
        source_urls: &'q SourceUrls,
    ) -> Self
        ensures options { result.options.now ≡ options.now }
        ensures file { result.file.now ≡ file.now }
        ensures image_base { result.image_base ≡ image_base_of options.now input.now.image_base }
        ensures names { result.names.now ≡ names.now }
        ensures source_urls { result.source_urls.now ≡ source_urls.now }
    {
        Questions {
            options,
            file,
            image_base: ImageBase::new(options.base, input.image_base, options.adjust),
            names,
            source_urls,
        }
    }
}

impl Questions<'_, '_> {
    /// Parses a request. Its text names the file if the command line doesn't.
    pub fn request<'t>(&'t self, text: &'t str) -> InputLine<'t>
        ensures { question_of result ≡ question_by self.now text.now }
    {
        let file = match self.options.naming {
            FileNaming::ByEachLine => None,
            _ => Some(self.file),
        };
        parse_input_line(text, file, self.options.digits)
    }

    /// The code address that a request asks for, relative to where the program is loaded. `None` for other requests, or
    /// if the address doesn't fit 32 bits.
    pub fn address_in(&self, text: &str) -> Option<u32>
        ensures { result ≡ asked_address self.now text.now }
    {
        let request = self.request(text);
        match (request.sort, request.place) {
            (Sort::Code, InputTarget::Address(given)) => self.image_base.relative(given),
            _ => None,
        }
    }

    /// Whether a request names another file.
    pub fn names_other_file(&self, text: &str) -> bool {
        let request = self.request(text);
        request.file != self.file && !request.is_nowhere()
    }

    /// Whether the answer to a request needs records that weren't read.
    pub fn needs_more(&self, context: &SessionContext<'_, '_>, text: &str) -> bool
        ensures { result ≡ asks_more context.now.known self.now text.now }
    {
        match self.address_in(text) {
            Some(address) => context.needs(address),
            None => false,
        }
    }
}
