//! The program over any files and writer.
use crate::calls::answer;
use cargo_config2::{Files, Machine};
use std::alloc::Global;
use std::io;
use std::io::Write;

/// Makes the call of the words, and writes what it comes to: with 0, or where memory ran out a line `error: ` with 1, or
/// for other words the usage line with 2.
pub fn run<F: Files, W: Write>(
    alloc: Global,
    words: &[String],
    machine: &Machine,
    files: &F,
    out: &mut W,
) -> io::Result<u8> {
    match answer(alloc, words, machine, files) {
        Ok(Some(text)) => {
            out.write_all(text.as_bytes())?;
            Ok(0)
        }
        Ok(None) => {
            out.write_all(b"usage: cc2_refused CALL DIR\n")?;
            Ok(2)
        }
        Err(_) => {
            out.write_all(b"error: out of memory\n")?;
            Ok(1)
        }
    }
}
