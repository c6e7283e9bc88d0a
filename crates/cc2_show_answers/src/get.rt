//! What `cargo config2 get` prints of a directory's configuration, or of the value at a key of it.
ghost use Rattle.std.specs.Prelude.{◌≡◌, IfSome, is_none, map, string_bytes, true};
ghost use Rattle.cc2_error.specs.Causes.{memory, plain};
ghost use Rattle.cc2_base.specs.Told.{WhereTold};
ghost use Rattle.cc2_cli.specs.Choices.{choices_of};
ghost use Rattle.cc2_cli.specs.ShowTasks.{request_view};
ghost use Rattle.cc2_show_answers.specs.Gets.{GetGives};
ghost use Rattle.cc2_show_answers.specs.ShowQuestions.{IsKeyIn, IsNoKeyIn};
ghost use Rattle.cc2_show_answers.specs.ToldAnswers.{written};
ghost use Rattle.cc2_show_answers.specs.ToldRuns.{IsRefused};

use crate::request::pieces_of;
use crate::resolved::resolved_answer;
use crate::told::{Told, told_answer};
use crate::unmerged::unmerged_answer;
use cc2_answers::LetGo;
use cc2_base::files::Files;
use cc2_base::machine::Machine;
use cc2_cli::show::{Request, Stage};
use std::alloc::Global;

/// The configuration of a directory, or the value at a key: a line of TOML for each value, or JSON; none where the key isn't
/// well formed. It is the files under the variables and the overrides of these choices, the files alone, or the resolved
/// configuration, or what each source has by itself. What was loaded is let go as said. Of a key that isn't well formed no
/// file is asked: there is none, or the error that memory ran out.
pub fn get_to<F: Files>(
    alloc: Global,
    request: Request<'_>,
    choices: &[String],
    machine: &Machine,
    files: &F,
    let_go: LetGo,
) -> Option<Told>
    ensures none { is_none result ≡ true → IsNoKeyIn (request_view request.entry).key }
    ensures unkeyed { IsNoKeyIn (request_view request.entry).key
        → IfSome result (λ told. IsRefused (plain memory) (written told)) }
    ensures told { WhereTold (F.told files.now) (λ fs.
        IfSome result (λ told. GetGives fs machine.now
        (request_view request.entry) (choices_of (map string_bytes choices.now)) (written told))) }
{
    match pieces_of(alloc, request.key) {
        Ok(pieces) => {
            let pieces = pieces.as_slice();
            Some(get_at(alloc, request, pieces, choices, machine, files, let_go))
        }
        Err(instead) => instead,
    }
}

// The same at the pieces of a key.
fn get_at<F: Files>(
    alloc: Global,
    request: Request<'_>,
    pieces: &[&str],
    choices: &[String],
    machine: &Machine,
    files: &F,
    let_go: LetGo,
) -> Told
    ensures { IsKeyIn (request_view request.entry).key (map (λ p. p.now) pieces.now)
        → WhereTold (F.told files.now) (λ fs. GetGives fs machine.now
        (request_view request.entry) (choices_of (map string_bytes choices.now)) (written result)) }
{
    if !request.merged {
        return Told::Shown(unmerged_answer(alloc, request, pieces, choices, machine, files));
    }
    match request.stage {
        Stage::Resolved => resolved_answer(alloc, request, pieces, choices, machine, files, let_go),
        Stage::Files => told_answer(alloc, request, pieces, choices, machine, files, let_go),
        Stage::Environment => told_answer(alloc, request, pieces, choices, machine, files, let_go),
    }
}
