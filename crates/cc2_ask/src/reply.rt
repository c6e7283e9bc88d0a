//! Replies in bytes.
ghost use Rattle.std.specs.Prelude.{◌≡◌, ◌++◌, OnOk, IfOk, map, length};
ghost use Rattle.cc2_ask.specs.Needs.{need_view};
ghost use Rattle.cc2_ask.specs.Replies.{answer_bytes, loaded_bytes, needs_bytes, reply_bytes, written_over};
ghost use Rattle.cc2_ask.specs.Views.{reply_view};

use crate::fields::push_field;
use crate::need::Need;
use std::alloc::{AllocError, Global};

/// A reply to a request.
#[derive(Debug, Drop)]
pub enum Reply {
    /// The answer: its status and its text.
    Answer(u8, Vec<u8>),
    /// What a load gives: the cells of the resolved configuration in bytes, and the state for later questions.
    Loaded(Vec<u8>, Vec<u8>),
    /// All this has to be known.
    Needs(Vec<Need>),
}

impl Reply {
    /// The bytes of the reply: `A`, the status in one byte and the text as a field; `L`, the cells of a
    /// configuration and the state as fields; or each need in turn: `E` and a path (is anything there?), `R` and a path (what is
    /// there?), `P`, a program and the list of its arguments (what does it answer?).
    ///
    /// # Errors
    /// `AllocError` where memory ran out, or where a text is too long for four bytes.
    pub fn to_bytes(&self, alloc: Global) -> Result<Vec<u8>, AllocError>
        ensures { IfOk result (λ bytes. bytes.items ≡ reply_bytes (reply_view self.now)) }
    {
        let mut out = Vec::new(alloc);
        match self {
            Reply::Answer(status, text) => push_answer(&mut out, *status, text.as_slice())?,
            Reply::Loaded(cells, state) => push_loaded(
                &mut out,
                cells.as_slice(),
                state.as_slice(),
            )?,
            Reply::Needs(needs) => push_needs(&mut out, needs.as_slice())?,
        }
        Ok(out)
    }
}

// Appends an answer.
fn push_answer(out: &mut Vec<u8>, status: u8, text: &[u8]) -> Result<(), AllocError>
    ensures { OnOk result (out.new.items ≡ out.old.items ++ answer_bytes status text.now) }
{
    out.push(b'A')?;
    out.push(status)?;
    push_field(out, text)
}

// Appends what a load gives.
fn push_loaded(out: &mut Vec<u8>, cells: &[u8], state: &[u8]) -> Result<(), AllocError>
    ensures { OnOk result (out.new.items ≡ out.old.items ++ loaded_bytes cells.now state.now) }
{
    out.push(b'L')?;
    push_field(out, cells)?;
    push_field(out, state)
}

// Appends needs.
fn push_needs(out: &mut Vec<u8>, needs: &[Need]) -> Result<(), AllocError>
    ensures { OnOk result (out.new.items ≡ out.old.items ++ needs_bytes (map need_view needs.now)) }
{
    for need in needs {
        need.push_to(out)?;
    }
    Ok(())
}

/// Writes what fits of these bytes to the front.
pub fn write_front(bytes: &[u8], to: &mut [u8])
    ensures { to.new ≡ written_over bytes.now to.old }
{
    let count = bytes.len().min(to.len());
    to[..count].copy_from_slice(&bytes[..count]);
}
