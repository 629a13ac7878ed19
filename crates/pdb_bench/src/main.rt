//! Times the work with a records file: reading it, making a context, and looking up addresses.
//!
//! `pdb_bench RECORDS ADDRESSES` reads a records file, and addresses from a file with one hexadecimal address per line.
//! One context looks up the function at each address, and another the frames, several times each. The numbers of
//! functions and frames go to standard output. The time of each step, and the peak memory of the program so far, go to
//! standard error.
#![tactic(auto)]

mod passes;
mod steps;

use anyhow::{Result, bail};
use passes::measure_records;
use pdb_addr2line::pdb::PDB;
use pdb_json::read_records;
use std::alloc::Global;
use std::rt::{Clock, Files};
use std::time::Instant;
use std::{env, fs};
use steps::{print_memory, print_time};

fn main(rt: HostRuntime) -> Result<()> {
    let words: Vec<String> = env::args(&rt)?.collect(rt.alloc())?;
    let [_, records, addresses] = words.as_slice() else {
        bail!("usage: pdb_bench RECORDS ADDRESSES");
    };
    measure_files(&rt, records.as_str(), addresses.as_str())
}

/// Reads the two files, and looks up the addresses.
fn measure_files<R: Files + Clock + Print + Eprint + AllocGlobal>(
    rt: &R,
    records: &str,
    addresses: &str,
) -> Result<()> {
    let addresses = read_addresses(rt, addresses)?;
    let records = read_timed(rt, records)?;
    measure_records(rt, records, &addresses)
}

/// The addresses in the lines of a file.
fn read_addresses<R: Files + AllocGlobal>(rt: &R, path: &str) -> Result<Vec<u32>> {
    let text = fs::read_to_string(rt, path)?;
    addresses_of(rt.alloc(), text.as_str())
}

/// The addresses in the lines of a text.
fn addresses_of(alloc: Global, text: &str) -> Result<Vec<u32>> {
    let mut addresses = Vec::new(alloc);
    for line in text.lines() {
        addresses.push(u32::from_str_radix(line, 16)?)?;
    }
    Ok(addresses)
}

/// The records of a file.
fn read_timed<R: Files + Clock + Eprint + AllocGlobal>(rt: &R, path: &str) -> Result<PDB> {
    let start = Instant::now(rt)?;
    let bytes = fs::read(rt, path)?;
    print_time(rt, "file read", start)?;
    let read = parse_timed(rt, &bytes);
    print_memory(rt)?;
    read
}

/// The records in the bytes of a file.
fn parse_timed<R: Clock + Eprint + AllocGlobal>(rt: &R, bytes: &[u8]) -> Result<PDB> {
    let start = Instant::now(rt)?;
    let records = read_records(rt.alloc(), bytes)?;
    print_time(rt, "records parsed", start)?;
    Ok(records)
}
