//! Response files: a word `@FILE` is replaced by the words in that file.

use crate::input_files::read_file;
use crate::run_errors::RunError;
use std::alloc::{AllocError, Global};
use std::rt::Files;

/// The character before the name of a response file.
const RESPONSE_FILE: char = '@';

/// Appends words. Each word that names a response file is replaced by the words in it.
pub fn expand_words<R: Files + AllocGlobal>(
    rt: &R,
    words: &[String],
    expanded: &mut Vec<String>,
) -> Result<(), RunError> {
    let alloc = rt.alloc();
    for word in words {
        match word.as_str().strip_prefix(RESPONSE_FILE) {
            Some(path) => push_words_of(alloc, &read_file(rt, path)?, expanded)?,
            None => expanded.push(String::from_str(alloc, word.as_str())?)?,
        }
    }
    Ok(())
}

// Appends the words in the bytes of a file.
fn push_words_of(alloc: Global, bytes: &[u8], words: &mut Vec<String>) -> Result<(), AllocError> {
    let text = String::from_utf8_lossy(alloc, bytes)?;
    push_words(alloc, text.as_str(), words)
}

/// The state of splitting a text into words.
#[derive(Clone, Copy, PartialEq, Eq)]
enum WordState {
    BetweenWords,
    InWord,
    /// In quotation marks of this kind, where white space belongs to the word.
    Quoted(char),
}

/// Splits a text at white space, and appends its words. Quotation marks hold a word together.
pub fn push_words(alloc: Global, text: &str, words: &mut Vec<String>) -> Result<(), AllocError> {
    let mut word = String::new(alloc);
    let mut place = WordState::BetweenWords;
    for character in text.chars() {
        place = match (place, character) {
            (WordState::Quoted(mark), _) if mark == character => WordState::InWord,
            (WordState::Quoted(_), _) => {
                word.push(character)?;
                place
            }
            (_, '"' | '\'') => WordState::Quoted(character),
            (WordState::BetweenWords, _) if character.is_whitespace() => WordState::BetweenWords,
            (_, _) if character.is_whitespace() => {
                words.push(word)?;
                word = String::new(alloc);
                WordState::BetweenWords
            }
            _ => {
                word.push(character)?;
                WordState::InWord
            }
        };
    }
    if place != WordState::BetweenWords {
        words.push(word)?;
    }
    Ok(())
}
