//! What is printed of a frame's source file besides its name: its URL, and lines of its text.

ghost use Rattle.std.specs.Prelude.{◌≡◌, []};
ghost use Rattle.pdb_answer_printer.specs.SourceTexts.{first_source, later_sources, source_of};

use std::marker::Model;

/// What is printed of a frame's source file besides its name and the line.
#[derive(Drop)]
pub struct SourceText {
    /// Where the file can be fetched. It is empty if nothing says so.
    pub url: String,
    /// The lines of the file around the line of the frame. It is empty if no lines are printed.
    pub lines: String,
}

impl Model for SourceText {
    ghost use Rattle.std.specs.Prelude.{string_bytes};
    ghost use Rattle.pdb_answer_printer.specs.SourceTexts.{FrameSource};

    ghost Value = { FrameSource };

    ghost view = { λ s. record { url = string_bytes s.url; lines = string_bytes s.lines } };
}

/// The texts of a `SourceText`.
#[derive(Clone, Copy)]
pub(crate) struct ShownSource<'s> {
    pub url: &'s str,
    pub lines: &'s str,
}

/// The texts for the first frame. Both are empty if there are none for it.
pub(crate) fn first_source<'s>(sources: &'s [SourceText]) -> ShownSource<'s>
    ensures { source_of result ≡ first_source sources.now }
{
    match sources.first() {
        Some(source) => ShownSource {
            url: source.url.as_str(),
            lines: source.lines.as_str(),
        },
        None => no_source(),
    }
}

/// The texts for a frame without a source file.
pub(crate) fn no_source() -> ShownSource<'static>
    ensures { source_of result ≡ first_source [] }
{
    ShownSource { url: "", lines: "" }
}

/// What is printed for the frames after the first.
pub(crate) fn later_sources<'s>(sources: &'s [SourceText]) -> &'s [SourceText]
    ensures { result.now ≡ later_sources sources.now }
{
    match sources.split_first() {
        Some((_, later)) => later,
        None => sources,
    }
}
