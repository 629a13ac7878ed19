//! Opens a PDB file as a session, makes a list of calls, and prints the answers.
#![tactic(auto)]

use anyhow::{Result, bail};
use pdb_addr2line::{Answer, Call, Frame, TypeFormatterFlags};
use pdb_session::PdbSession;
use std::{env, fs};

fn main(rt: HostRuntime) -> Result<()> {
    let words: Vec<String> = env::args(&rt)?.collect(rt.alloc())?;
    let [_, file] = words.as_slice() else {
        bail!("usage: pdb_session_tests PDB");
    };
    let bytes = fs::read(&rt, file.as_str())?;
    print_answers(&rt, &bytes)
}

/// Prints the answers to a list of calls over a whole PDB file.
fn print_answers<R: Print + AllocGlobal>(rt: &R, pdb: &[u8]) -> Result<()> {
    let calls = [
        Call::FindFrames(0x1136),
        Call::FindFunction(0x1136),
        Call::FindFrames(0x1136),
        Call::FindFrames(0),
    ];
    let mut session = PdbSession::open(rt.alloc(), pdb, pdb.len())?.session;
    session.read_all()?;
    let data = session.data()?;
    let mut context = data.context(TypeFormatterFlags::default())?;
    let mut answers = Vec::new(rt.alloc());
    context.run_calls(&calls, &mut answers)?;
    for answer in &answers {
        print_answer(rt, answer)?;
    }
    Ok(())
}

fn print_answer<R: Print>(rt: &R, answer: &Answer<'_>) -> Result<()> {
    match answer {
        Answer::Frames(Ok(Some(found))) => print_frames(rt, &found.frames),
        Answer::Function(Some(function)) => print_name(rt, &function.name),
        _ => Ok(println!(rt; "nothing")?),
    }
}

fn print_frames<R: Print>(rt: &R, frames: &[Frame<'_>]) -> Result<()> {
    for frame in frames {
        print_name(rt, &frame.function)?;
    }
    Ok(())
}

fn print_name<R: Print>(rt: &R, name: &Option<String>) -> Result<()> {
    let name = name.as_ref().map_or("<unknown>", |name| name.as_str());
    Ok(println!(rt; "{name}")?)
}
