//! A program as Cargo runs it.
ghost use Rattle.std.specs.Prelude.{string_bytes};
ghost use Rattle.cc2_error.specs.Outcomes.{Gives};
ghost use Rattle.cc2_value.specs.Values.{word_of};
ghost use Rattle.cc2_cargo_target.specs.Programs.{program_path};

use cc2_error::error::Result;
use cc2_resolved::{Meant, resolve_text};
use cc2_value::Value;
use std::alloc::Global;

/// A program of files, of the command line or of the variable of a key, as Cargo runs it on Linux: a text with a slash is a path,
/// relative to where it is set. Any other text, one with a backslash too, is a name that stays as it is (Cargo Reference,
/// Configuration,
/// [executable paths with arguments](https://doc.rust-lang.org/cargo/reference/config.html#executable-paths-with-arguments)).
///
/// # Errors
/// `ErrorKind::NoRoot` where a relative path is set by a file that has no root, and `ErrorKind::Memory`.
pub(crate) fn program_path(alloc: Global, dir: &str, program: Value<String>) -> Result<String>
    ensures { Gives string_bytes result (program_path dir.now (word_of program)) }
{
    if program.val.as_bytes().contains(&b'/') {
        resolve_text(alloc, dir, Meant::Program, program)
    } else {
        Ok(program.val)
    }
}
