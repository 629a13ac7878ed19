//! Checks records and the parts of contexts, over records that are made here.
//!
//! Each part has checks of its own. The program prints the first failed check of each part, and then the numbers of
//! checks and of failures.
#![tactic(auto)]

mod checks;
mod contributions;
mod errors;
mod failed_parts;
mod flags;
mod inline_ranges;
mod inline_stacks;
mod items;
mod modules;
mod procedures;
mod range_sets;
mod records;
mod seen;
mod segments;
mod stated_laws;
mod symbols;

use checks::Checks;
use std::io;
use std::process::ExitCode;

fn main(rt: HostRuntime) -> io::Result<ExitCode> {
    stated_laws::are_stated();
    let checks = over_parts(&rt)?;
    println!(rt; "{0} checks, {1} failed", checks.made, checks.failed)?;
    Ok(if checks.failed == 0 {
        ExitCode::SUCCESS
    } else {
        ExitCode::FAILURE
    })
}

/// Makes the checks of all parts.
fn over_parts<R: Print + AllocGlobal>(rt: &R) -> io::Result<Checks> {
    let alloc = rt.alloc();
    let mut all = Checks::NONE;
    for checks in [
        contributions::checks(alloc),
        errors::checks(alloc),
        failed_parts::checks(alloc),
        flags::checks(),
        inline_ranges::checks(alloc),
        inline_stacks::checks(alloc),
        items::checks(alloc),
        procedures::checks(alloc),
        range_sets::checks(alloc),
        records::checks(alloc),
        seen::checks(alloc),
        segments::checks(alloc),
    ] {
        if checks.failed > 0 {
            println!(rt; "{} differs", checks.first)?;
        }
        all = all.with(checks);
    }
    Ok(all)
}
