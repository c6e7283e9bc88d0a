//! The reply to a request.
ghost use Rattle.std.specs.Prelude.{◌≡◌, false, IfOk, map};
ghost use Rattle.cc2_cli.specs.Answers.{answer_text};
ghost use Rattle.cc2_ask.specs.Givens.{given_of};
ghost use Rattle.cc2_ask.specs.Needs.{need_view};
ghost use Rattle.cc2_ask.specs.Replies as replies;
ghost use Rattle.cc2_ask.specs.Views.{given_view, reply_view};
ghost use Rattle.cc2_reply.specs.Replies.{AreNeeds, IsReplied, IsReply, IsReplyTo, is_out_of_memory};

use crate::answer::looked_up;
use crate::load::Answered;
use crate::other_paths::{dir_of, other_paths};
use cc2_ask::{Fault, Given, Need, Reply, needs_for};
use cc2_cli::Answer;
use cc2_error::error::NoMemory;
use std::alloc::Global;

/// The reply to a request: the answer to the question that its words ask, or all that has to be known for it and that
/// the request doesn't give. An answer holds in every world that agrees with what the request gives of files and programs.
///
/// - `DIR build`, `DIR rustc`, `DIR host` and `DIR target T` are answered as `cc2_get` does.
/// - `DIR show`, with the other words of `cargo-config2 get`, has the answer or the error as its text.
/// - `DIR several` and items are several questions, answered by one load, as `cc2_answers::several_to` does; or by the state
///   that is handed back.
/// - `DIR load` is answered with the cells of the resolved configuration, and the state for later questions.
///
/// Each may be followed by pairs `--config TEXT` and `--config-file PATH`, but for items by a state. Other words have an
/// empty answer with the status 2.
///
/// # Errors
/// `Fault::Malformed` where the request isn't a list of records, `Fault::Memory` where memory ran out.
pub fn reply_to(alloc: Global, request: &[u8]) -> Result<Reply, Fault>
    ensures { IsReplied (given_of request.now) result }
{
    match Given::read(alloc, request) {
        Ok(given) => Ok(reply_by(alloc, &given)?),
        Err(fault) => Err(fault),
    }
}

// The reply by what a request gives. What has to be known takes the place of the answer.
fn reply_by(alloc: Global, given: &Given) -> Result<Reply, NoMemory>
    ensures { IfOk result (λ reply. IsReplyTo (given_view given.now) (reply_view reply)) }
{
    let (answer, need) = looked_up(alloc, given);
    match need {
        Some(need) => Ok(Reply::Needs(needs_of(alloc, given, need)?)),
        None => match answer {
            Answered::Answer(answer) => answered(answer),
            Answered::Loaded(cells, state) => Ok(Reply::Loaded(cells, state)),
        },
    }
}

// All that has to be known, where this has to be.
fn needs_of(alloc: Global, given: &Given, need: Need) -> Result<Vec<Need>, NoMemory>
    ensures { IfOk result (λ needs. AreNeeds (given_view given.now) (map need_view needs.items)) }
{
    let words = given.words.as_slice();
    let dir = dir_of(words);
    let others = other_paths(alloc, dir, words, &given.machine)?;
    needs_for(alloc, given, dir, others.as_slice(), need)
}

// The reply with this answer, unless memory ran out.
fn answered(answer: Answer) -> Result<Reply, NoMemory>
    ensures answer { IfOk result (λ reply.
        reply_view reply ≡ replies.answer answer.status (answer_text answer)) }
    ensures known { IfOk result (λ reply.
        is_out_of_memory (answer_text answer) answer.status ≡ false) }
{
    let Answer { text, status } = answer;
    match text {
        Some(text) => {
            if status == 1 && text.as_slice() == b"error: out of memory\n".as_slice() {
                return Err(NoMemory);
            }
            Ok(Reply::Answer(status, text))
        }
        None => Err(NoMemory),
    }
}

/// The bytes of the reply to a request, as `Reply::to_bytes` has them; of a malformed request the byte `B`.
///
/// # Errors
/// `NoMemory` where memory ran out.
pub fn reply_bytes(alloc: Global, request: &[u8]) -> Result<Vec<u8>, NoMemory>
    ensures { IfOk result (λ bytes. IsReply (given_of request.now) bytes.items) }
{
    match reply_to(alloc, request) {
        Ok(reply) => Ok(reply.to_bytes(alloc)?),
        Err(Fault::Malformed) => Ok(Vec::from_slice(alloc, b"B".as_slice())?),
        Err(Fault::Memory) => Err(NoMemory),
    }
}
