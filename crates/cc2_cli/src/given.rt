//! What a process is given.
use crate::ending::Fault;
use crate::surroundings::{given_words, is_memory, this_machine};
use cc2_base::machine::Machine;
use std::io;

/// The arguments after the program's name.
///
/// # Errors
/// `Fault::Words` where one isn't UTF-8; `Fault::Memory` where memory ran out.
pub fn read_words(rt: &HostRuntime) -> Result<Vec<String>, Fault> {
    match given_words(rt) {
        Ok(words) => Ok(words),
        Err(error) if is_memory(&error) => Err(Fault::Memory),
        Err(_) => Err(Fault::Words),
    }
}

/// The process's directory by its physical path, its variables and the home.
///
/// # Errors
/// `Fault::Surroundings` where the directory or the variables can't be read; `Fault::Memory` where memory ran out.
pub fn read_machine(rt: &HostRuntime) -> Result<Machine, Fault> {
    match this_machine(rt) {
        Ok(machine) => Ok(machine),
        Err(error) if is_memory(&error) => Err(Fault::Memory),
        Err(_) => Err(Fault::Surroundings),
    }
}
