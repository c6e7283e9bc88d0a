//! Stands in for rustc and Cargo where tests start programs: answers its words by a table.
#![tactic(auto)]

mod table;
mod written;

use std::process::ExitCode;
use std::{env, io};
use table::said;

fn main(rt: HostRuntime) -> ExitCode {
    match answer(&rt) {
        Ok(status) => ExitCode::from(status),
        Err(_) => ExitCode::from(1),
    }
}

// Writes what is said to the process's words, and answers the status to end with. Refused where a word
// isn't UTF-8 or a stream refuses, and where memory ran out.
fn answer(rt: &HostRuntime) -> io::Result<u8> {
    let mut words = Vec::new(rt.alloc());
    for word in env::args(rt)?.skip(1) {
        words.push(word)?;
    }
    let said = said(words.as_slice());
    rt.stdout().write_all(said.stdout)?;
    rt.stderr().write_all(said.stderr)?;
    Ok(said.status)
}
