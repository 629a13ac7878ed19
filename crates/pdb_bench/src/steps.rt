//! Prints the time of a step, and the peak memory so far, on standard error.

use anyhow::Result;
use std::fs;
use std::rt::{Clock, Files};
use std::time::Instant;

/// The file in which the system shows the state of the program.
const STATUS: &str = "/proc/self/status";

/// Prints how long it is since a step began.
pub(crate) fn print_time<R: Clock + Eprint>(rt: &R, step: &str, begun: Instant) -> Result<()> {
    let time = begun.elapsed(rt)?.as_micros();
    eprintln!(rt; "{step}: {time} us")?;
    Ok(())
}

/// Prints the peak memory of the program so far, if the system shows it.
pub(crate) fn print_memory<R: Files + Eprint + AllocGlobal>(rt: &R) -> Result<()> {
    let Ok(status) = fs::read_to_string(rt, STATUS) else {
        return Ok(());
    };
    for line in status.lines() {
        if let Some(peak) = line.strip_prefix("VmHWM:") {
            eprintln!(rt; "peak memory: {0}", peak.trim())?;
        }
    }
    Ok(())
}
