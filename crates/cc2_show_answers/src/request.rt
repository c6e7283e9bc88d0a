//! What is written for a request of a directory's configuration, or of what is at a key of it.
ghost use Rattle.std.specs.Prelude.{◌≡◌, IfErr, IfOk, IfSome, is_none, map, option_map, string_bytes, true};
ghost use Rattle.cc2_error.specs.Causes.{memory, plain};
ghost use Rattle.cc2_base.specs.Told.{WhereTold};
ghost use Rattle.cc2_cli.specs.Choices.{choices_of};
ghost use Rattle.cc2_cli.specs.ShowTasks.{request_view};
ghost use Rattle.cc2_show_answers.specs.ShowQuestions.{IsKeyIn, IsNoKeyIn, RequestGives, is_resolved};
ghost use Rattle.cc2_show_answers.specs.ToldAnswers.{written};
ghost use Rattle.cc2_show_answers.specs.ToldRuns.{IsRefused};

use crate::resolved::resolved_answer;
use crate::told::{Told, told_answer};
use crate::unmerged::unmerged_answer;
use cc2_answers::LetGo;
use cc2_base::files::Files;
use cc2_base::machine::Machine;
use cc2_cli::answer_of;
use cc2_cli::key::key_pieces;
use cc2_cli::show::{Request, Stage};
use cc2_error::error::NoMemory;
use std::alloc::Global;

/// What is written for a request; none where its key isn't well formed. What was loaded for it is let go as said.
pub fn told_to<F: Files>(
    alloc: Global,
    request: Request<'_>,
    choices: &[String],
    machine: &Machine,
    files: &F,
    let_go: LetGo,
) -> Option<Told>
    ensures none { is_none result ≡ true → IsNoKeyIn (request_view request.entry).key }
    ensures unkeyed { IsNoKeyIn (request_view request.entry).key
        → IfSome result (λ told. IsRefused (plain memory) (written told)) }
    ensures told { WhereTold (F.told files.now) (λ fs. IfSome result (λ told.
        RequestGives fs machine.now (request_view request.entry)
        (choices_of (map string_bytes choices.now)) (written told))) }
{
    match pieces_of(alloc, request.key) {
        Ok(pieces) => Some(told_at(
            alloc,
            request,
            pieces.as_slice(),
            choices,
            machine,
            files,
            let_go,
        )),
        Err(instead) => instead,
    }
}

// What a request comes to whose key has these pieces.
fn told_at<F: Files>(
    alloc: Global,
    request: Request<'_>,
    pieces: &[&str],
    choices: &[String],
    machine: &Machine,
    files: &F,
    let_go: LetGo,
) -> Told
    ensures { IsKeyIn (request_view request.entry).key (map (λ p. p.now) pieces.now)
        → WhereTold (F.told files.now) (λ fs.
        RequestGives fs machine.now (request_view request.entry)
        (choices_of (map string_bytes choices.now)) (written result)) }
{
    if !request.merged {
        Told::Shown(unmerged_answer(alloc, request, pieces, choices, machine, files))
    } else if is_resolved(request) {
        resolved_answer(alloc, request, pieces, choices, machine, files, let_go)
    } else {
        told_answer(alloc, request, pieces, choices, machine, files, let_go)
    }
}

// Whether the whole resolved configuration is asked for, without where its values were set.
fn is_resolved(request: Request<'_>) -> bool
    ensures { result ≡ is_resolved (request_view request.entry) }
{
    match request {
        Request {
            key: None,
            stage: Stage::Resolved,
            origins: false,
            ..
        } => true,
        _ => false,
    }
}

/// The pieces of a key; without a key there are none.
///
/// # Errors
/// What is written instead of an answer: nothing where the key isn't well formed, or that memory ran out.
pub fn pieces_of(alloc: Global, key: Option<&str>) -> Result<Vec<&str>, Option<Told>>
    ensures pieces { IfOk result (λ pieces.
        IsKeyIn (option_map (λ k. k.now) key.entry) (map (λ p. p.now) pieces.items)) }
    ensures none { IfErr result (λ instead. is_none instead ≡ true
        → IsNoKeyIn (option_map (λ k. k.now) key.entry)) }
    ensures refused { IfErr result (λ instead.
        IfSome instead (λ told. IsRefused (plain memory) (written told))) }
{
    let Some(key) = key else {
        return Ok(Vec::new(alloc));
    };
    match key_pieces(alloc, key) {
        Ok(Some(pieces)) => Ok(pieces),
        Ok(None) => Err(None),
        Err(_) => Err(Some(Told::Shown(answer_of(Err(NoMemory), 1)))),
    }
}
