//! The text of an answer for addresses of a module: function, file, line and inlined calls, as JSON members.

ghost use Rattle.std.specs.Prelude.{◌≡◌, [], ◌∷◌, ◌++◌, ◌-◌, map};
ghost use Rattle.std.specs.Prelude.{string_bytes, length, slice_get, unwrap_or, IfOk, OnErr, OnOk};
ghost use Rattle.std.specs.Option.{option_copied};
ghost use Rattle.pdb_symbolication.specs.FrameTexts.{frame_text, function_members, inlined_call, inlines_member};
ghost use Rattle.pdb_symbolication.specs.FrameTexts.{line_member, location_members, place_members, text_member};
ghost use Rattle.pdb_symbolication.specs.FrameTexts.{texts_of};
ghost use Rattle.pdb_symbolication.specs.JsonObjects.{later, separated};

use crate::json_text::{without_first_comma, write_comma, write_hexadecimal, write_quoted};
use std::alloc::{AllocError, Global};

/// A function, and the source location of the address in it; what isn't known is `None`.
#[derive(Clone, Copy)]
pub struct SymbolizedFrame<'f> {
    pub function: Option<&'f str>,
    pub file: Option<&'f str>,
    pub line: Option<u32>,
}

/// The function that contains an address, with the functions that are inlined there.
#[derive(Drop)]
pub struct SymbolizedFunction<'f> {
    /// Where the function starts, relative to where its module is loaded.
    pub start: u32,
    /// The frames, the innermost first and the containing function last.
    pub places: Vec<SymbolizedFrame<'f>>,
}

/// The text of an answer for one offset of a module.
#[derive(Drop)]
pub struct FrameText {
    text: String,
}

impl FrameText {
    /// The text for what was found at an offset; empty if nothing was.
    pub fn new(
        alloc: Global,
        offset: u32,
        found: Option<&SymbolizedFunction<'_>>,
    ) -> Result<FrameText, AllocError>
        ensures { IfOk result (λ made. string_bytes made.text ≡ frame_text offset (option_copied found.entry)) }
    {
        let mut text = String::new(alloc);
        if let Some(found) = found {
            push_found(&mut text, offset, found)?;
        }
        Ok(FrameText { text })
    }

    /// A copy of the text.
    pub fn copy(&self, alloc: Global) -> Result<FrameText, AllocError>
        ensures { IfOk result (λ copy. string_bytes copy.text ≡ string_bytes self.now.text) }
    {
        Ok(FrameText {
            text: String::from_str(alloc, self.text.as_str())?,
        })
    }

    /// The length of the text in bytes.
    pub fn size(&self) -> usize
        ensures { result ≡ length (string_bytes self.now.text) }
    {
        self.text.len()
    }
}

/// The texts at offsets of one module, in the order in which they were added.
#[derive(Drop)]
pub struct FrameTexts {
    texts: Vec<String>,
}

impl FrameTexts {
    pub fn new(alloc: Global) -> FrameTexts
        ensures state { texts_of result ≡ [] }
    {
        FrameTexts {
            texts: Vec::new(alloc),
        }
    }

    /// Adds the text at the next offset.
    pub fn push(&mut self, text: FrameText) -> Result<(), AllocError>
        ensures state { OnOk result (texts_of self.new ≡ texts_of self.old ++ string_bytes text.text ∷ []) }
        ensures unchanged_if_refused { OnErr result (texts_of self.new ≡ texts_of self.old) }
    {
        let FrameText { text } = text;
        self.texts.push(text)?;
        Ok(())
    }

    /// The text with this number, in the order of adding; empty if there is none.
    pub(crate) fn get(&self, number: usize) -> &str
        ensures answer { result.now ≡ unwrap_or (slice_get (texts_of self.now) number) [] }
    {
        match self.texts.get(number) {
            Some(text) => text.as_str(),
            None => "",
        }
    }
}

// Appends the members for what was found, each after a comma.
fn push_found(
    text: &mut String,
    offset: u32,
    found: &SymbolizedFunction<'_>,
) -> Result<(), AllocError>
    ensures { OnOk result (string_bytes text.new ≡ string_bytes text.old
        ++ later (place_members (offset - found.now.start) found.now.places.items)) }
{
    let Some((own, inlined)) = found.places.split_last() else {
        return Ok(());
    };
    push_function(text, own.function, offset.saturating_sub(found.start))?;
    push_location(text, own)?;
    push_inlines(text, inlined)
}

// Appends the name of a function, and the address's offset from its start.
fn push_function(text: &mut String, name: Option<&str>, within: u32) -> Result<(), AllocError>
    ensures { OnOk result (string_bytes text.new
        ≡ string_bytes text.old ++ later (function_members name.entry within)) }
{
    let Some(known) = name else {
        return Ok(());
    };
    push_text(text, "function", Some(known))?;
    text.push_str(",\"function_offset\":")?;
    write_hexadecimal(text, u64::from(within))
}

fn push_inlines(text: &mut String, calls: &[SymbolizedFrame<'_>]) -> Result<(), AllocError>
    ensures { OnOk result (string_bytes text.new ≡ string_bytes text.old ++ later (inlines_member calls.now)) }
{
    if calls.is_empty() {
        return Ok(());
    }
    text.push_str(",\"inlines\":[")?;
    push_calls(text, calls)?;
    text.push(']')
}

// Appends inlined calls, with commas between them.
fn push_calls(text: &mut String, calls: &[SymbolizedFrame<'_>]) -> Result<(), AllocError>
    ensures { OnOk result (string_bytes text.new
        ≡ string_bytes text.old ++ separated (map inlined_call calls.now)) }
{
    for (number, call) in calls.iter().enumerate() {
        write_comma(text, number == 0)?;
        push_call(text, call)?;
    }
    Ok(())
}

// Appends the object of an inlined call.
fn push_call(text: &mut String, call: &SymbolizedFrame<'_>) -> Result<(), AllocError>
    ensures { OnOk result (string_bytes text.new ≡ string_bytes text.old ++ inlined_call call.now) }
{
    let mut members = String::new(*text.allocator());
    push_text(&mut members, "function", call.function)?;
    push_location(&mut members, call)?;
    text.push('{')?;
    text.push_str(without_first_comma(members.as_str()))?;
    text.push('}')
}

fn push_location(text: &mut String, place: &SymbolizedFrame<'_>) -> Result<(), AllocError>
    ensures { OnOk result (string_bytes text.new ≡ string_bytes text.old ++ later (location_members place.now)) }
{
    push_text(text, "file", place.file)?;
    push_line(text, place.line)
}

fn push_line(text: &mut String, line: Option<u32>) -> Result<(), AllocError>
    ensures { OnOk result (string_bytes text.new ≡ string_bytes text.old ++ later (line_member line)) }
{
    match line {
        Some(line) => write!(text, ",\"line\":{line}"),
        None => Ok(()),
    }
}

// Appends a member with a text, after a comma, if the text is known.
fn push_text(text: &mut String, name: &str, value: Option<&str>) -> Result<(), AllocError>
    ensures { OnOk result (string_bytes text.new ≡ string_bytes text.old ++ later (text_member name.now value.entry)) }
{
    let Some(value) = value else {
        return Ok(());
    };
    write!(text, ",\"{name}\":")?;
    write_quoted(text, value)
}
