//! A first program over the library: prints the functions, files and lines that addresses of a program come from.
//!
//! `pdb_examples PDB ADDRESS..` prints the stack of each address, which are hexadecimal digits. `pdb_examples PDB type
//! NAME INDEX` prints the signature of a function for its name and the index of its type, in hexadecimal digits.
#![tactic(auto)]

mod signatures;
mod stacks;

use anyhow::{Result, bail};
use signatures::print_signature;
use stacks::print_stacks;
use std::{env, fs};

/// The word for the signature of a function.
const TYPE: &str = "type";

fn main(rt: HostRuntime) -> Result<()> {
    let words: Vec<String> = env::args(&rt)?.collect(rt.alloc())?;
    let [_, file, questions @ ..] = words.as_slice() else {
        bail!("usage: pdb_examples PDB (ADDRESS..|type NAME INDEX)");
    };
    let pdb = fs::read(&rt, file.as_str())?;
    match questions {
        [word, name, index] if word.as_str() == TYPE => {
            let index = u32::from_str_radix(index.as_str(), 16)?;
            print_signature(&rt, &pdb, name.as_str(), 0, index)
        }
        addresses => print_stacks(&rt, &pdb, addresses),
    }
}
