//! The cases in `cases.txt`: a command line, its output, and its exit status.

/// A command line of the program, and what is expected of it.
#[derive(Clone, Copy)]
pub(crate) struct Case<'t> {
    /// The words of its command line.
    pub command: &'t str,
    /// The expected output.
    pub wanted: &'t str,
    /// The expected exit status.
    pub status: u64,
}

/// The text before a command line.
const PROMPT: &str = "$ ";

/// The text before an exit status.
const STATUS: &str = "status ";

/// The first case in a text, and the rest of the text.
pub(crate) fn next_case(text: &str) -> Option<(Case<'_>, &str)> {
    let (_, case) = text.split_once(PROMPT)?;
    let (command, rest) = case.split_once("\n")?;
    let (wanted, rest) = rest.split_once(STATUS)?;
    let (status, rest) = rest.split_once("\n")?;
    let status = status.parse::<u64>().ok()?;
    let case = Case {
        command,
        wanted,
        status,
    };
    Some((case, rest))
}
