//! Replacements of programs, and whether a call was refused.
use cargo_config2::{Error, ErrorKind, NoMemory, ProgramTable, RunAnswer};
use std::alloc::Global;

/// Whether memory ran out in the call.
pub fn wants_memory(error: &Error) -> bool {
    matches!(error.kind(), ErrorKind::Memory)
}

/// A call, and where memory ran out in it, the same call again; `$refused` then says so.
#[macro_export]
macro_rules! again {
    ($refused:ident, $call:expr) => {
        match $call {
            Err(error) => {
                if !$crate::stood::wants_memory(&error) {
                    return Err(error);
                }
                $refused = true;
                $call?
            }
            Ok(value) => value,
        }
    };
}

/// Programs that answer these words of these programs so.
pub fn programs(alloc: Global, said: &[(&str, &[&str], &str)]) -> Result<ProgramTable, NoMemory> {
    let mut table = ProgramTable::new(alloc);
    for (program, words, stdout) in said {
        let mut args = Vec::new(alloc);
        for word in *words {
            args.push(String::from_str(alloc, word)?)?;
        }
        let answer = RunAnswer::Done {
            code: Some(0),
            stdout: Vec::from_slice(alloc, stdout.as_bytes())?,
            stderr: Vec::new(alloc),
        };
        table.put(String::from_str(alloc, program)?, args, answer)?;
    }
    Ok(table)
}
