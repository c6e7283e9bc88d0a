//! What is wrong with a command line.
use crate::option::{Flag, Setting};
use std::alloc::{AllocError, AllocFailed};

/// What is wrong with a command line.
#[derive(Clone, Copy, Debug)]
pub enum Fault<'a> {
    /// An argument begins with a hyphen and is not a known option.
    UnknownOption(&'a str),
    /// The last argument is an option that needs a value.
    NoValue(Setting),
    /// There is no such command.
    UnknownCommand(&'a str),
    /// There are options and no command.
    NoCommand,
    /// The command doesn't have this option without a value.
    UnfitFlag(Flag),
    /// The command doesn't have this option.
    UnfitSetting(Setting),
    /// The option is given twice, and takes one value.
    Twice(Setting),
    /// The option takes one of a few values, and this isn't one.
    BadValue(Setting, &'a str, &'static [&'static str]),
    /// Two options exclude each other.
    Conflict(&'static str, &'static str),
    /// The command takes no further operand.
    Unexpected(&'a str),
    /// Memory ran out.
    Memory,
}

impl From<AllocError> for Fault<'_> {
    ghost use Rattle.std.specs.Prelude.{◌≡◌};
    ghost use Rattle.cc2_command_line.specs.declared.fault.Fault.TheVariants.{Memory};

    ghost from_gives = { λ _ e. e ≡ Memory };

    fn from(_e: AllocError) -> Self {
        Fault::Memory
    }
}

impl<T: Drop> From<AllocFailed<T>> for Fault<'_> {
    ghost use Rattle.std.specs.Prelude.{◌≡◌};
    ghost use Rattle.cc2_command_line.specs.declared.fault.Fault.TheVariants.{Memory};

    ghost from_gives = { λ _ e. e ≡ Memory };

    fn from(_e: AllocFailed<T>) -> Self {
        Fault::Memory
    }
}
