//! What has to be known next.
ghost use Rattle.std.specs.Prelude.{◌≡◌, ◌∷◌, ◌++◌, OnOk};
ghost use Rattle.cc2_ask.specs.Needs.{answer, need_view, need_bytes};
ghost use Rattle.cc2_ask.specs.Fields.{field_bytes};
ghost use Rattle.cc2_error.specs.Commands.{command_of};

use crate::fields::{push_field, push_list};
use cc2_error::path_and_args::PathAndArgs;
use std::alloc::AllocError;

/// What has to be known next.
#[derive(Debug, Drop)]
pub enum Need {
    /// Whether anything is at a path.
    Exists(String),
    /// What is at a path.
    Content(String),
    /// What a command answers.
    Answer(PathAndArgs),
}

impl Need {
    /// Appends the need as it is in a reply.
    ///
    /// # Errors
    /// `AllocError` where memory ran out, or where a text is too long for four bytes.
    pub fn push_to(&self, out: &mut Vec<u8>) -> Result<(), AllocError>
        ensures { OnOk result (out.new.items ≡ out.old.items ++ need_bytes (need_view self.now)) }
    {
        match self {
            Need::Exists(path) => push_path(out, b'E', path.as_str()),
            Need::Content(path) => push_path(out, b'R', path.as_str()),
            Need::Answer(command) => push_command(out, command),
        }
    }
}

// Appends a kind and a path.
fn push_path(out: &mut Vec<u8>, kind: u8, path: &str) -> Result<(), AllocError>
    ensures { OnOk result (out.new.items ≡ out.old.items ++ kind ∷ field_bytes path.now) }
{
    out.push(kind)?;
    push_field(out, path.as_bytes())
}

// Appends a command.
fn push_command(out: &mut Vec<u8>, command: &PathAndArgs) -> Result<(), AllocError>
    ensures { OnOk result
        (out.new.items ≡ out.old.items ++ need_bytes (answer (command_of command.now))) }
{
    push_path(out, b'P', command.path.as_str())?;
    push_list(out, command.args.as_slice())
}
