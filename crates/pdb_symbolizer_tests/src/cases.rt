//! A case: the words of a command line, an environment variable and the text of standard input.

use std::alloc::{AllocError, Global};

/// The input of a run.
#[derive(Drop)]
pub(crate) struct Case {
    pub variable: Variable,
    pub words: Vec<String>,
    pub input: String,
}

/// An environment variable; with an empty name there is none.
#[derive(Drop)]
pub(crate) struct Variable {
    pub name: String,
    pub text: String,
}

/// The text between a variable's name and its value.
const VARIABLE: &str = "=\"";

const VARIABLE_END: &str = "\" ";

/// The text between the words and the input of a case.
const INPUT: &str = " < ";

/// The text between two lines of the input.
const LINE_END: &str = "|";

/// The case of a line.
pub(crate) fn case_of(alloc: Global, line: &str) -> Result<Case, AllocError> {
    let (words, input) = line.split_once(INPUT).unwrap_or((line, ""));
    let (name, rest) = words.split_once(VARIABLE).unwrap_or(("", words));
    let (text, words) = rest.split_once(VARIABLE_END).unwrap_or(("", rest));
    Ok(Case {
        variable: Variable {
            name: String::from_str(alloc, name)?,
            text: String::from_str(alloc, text)?,
        },
        words: words_of(alloc, words)?,
        input: input.replace(alloc, LINE_END, "\n")?,
    })
}

fn words_of(alloc: Global, text: &str) -> Result<Vec<String>, AllocError> {
    let mut words = Vec::new(alloc);
    for word in text.split_whitespace() {
        words.push(String::from_str(alloc, word)?)?;
    }
    Ok(words)
}
