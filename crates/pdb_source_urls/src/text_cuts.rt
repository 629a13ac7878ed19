//! Cuts texts at the first byte of a kind.

ghost use Rattle.std.specs.Prelude.{◌≡◌, option_map};
ghost use Rattle.pdb_source_urls.specs.TextCuts.{cut_at, first_field};

/// The parts of a text before and after the first such byte, if it has one.
pub(crate) fn cut_at(text: &[u8], stop: u8) -> Option<(&[u8], &[u8])>
    ensures { option_map (λ cut. (cut.0.now, cut.1.now)) result ≡ cut_at stop text.now }
{
    for (place, &byte) in text.iter().enumerate() {
        if byte == stop {
            return Some((&text[..place], &text[place + 1..]));
        }
    }
    None
}

/// The first field of a line; there is a `*` between fields.
pub(crate) fn first_field(line: &[u8]) -> &[u8]
    ensures { result.now ≡ first_field line.now }
{
    match cut_at(line, b'*') {
        Some((field, _)) => field,
        None => line,
    }
}
