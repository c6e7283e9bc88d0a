//! What is printed of the resolved configuration of a directory.
ghost use Rattle.std.specs.Prelude.{◌≡◌, ◌⊎◌, map, string_bytes};
ghost use Rattle.cc2_error.specs.Causes.{memory, plain};
ghost use Rattle.cc2_base.specs.Told.{WhereTold};
ghost use Rattle.cargo_config2.specs.Config.{shown};
ghost use Rattle.cc2_answers.specs.Choices.{overrides_by};
ghost use Rattle.cc2_resolved_json.specs.Plain.{plain_at};
ghost use Rattle.cc2_show_answers.specs.Resolved.{ShowsResolved, plainly};
ghost use Rattle.cc2_show_answers.specs.ToldAnswers.{written};
ghost use Rattle.cc2_show_answers.specs.ToldRuns.{IsRefused, IsShown};
ghost use Rattle.cc2_cli.specs.ShowTasks.{request_view};

use crate::told::{Told, shown_in};
use cargo_config2::Config;
use cc2_answers::{LetGo, load_chosen};
use cc2_base::files::Files;
use cc2_base::machine::Machine;
use cc2_cli::show::Request;
use cc2_cli::{answer_of, refusal_answer};
use cc2_resolved_json::resolved_to_json;
use std::alloc::Global;

/// The answer for the resolved configuration of a directory under the variables and the overrides of these choices, or for
/// the value at the pieces of a key: each value alone, without where it was set. What was loaded is let go as said.
pub fn resolved_answer<F: Files>(
    alloc: Global,
    request: Request<'_>,
    pieces: &[&str],
    choices: &[String],
    machine: &Machine,
    files: &F,
    let_go: LetGo,
) -> Told
    ensures { WhereTold (F.told files.now) (λ fs. ShowsResolved fs machine.now
        (overrides_by (map string_bytes choices.now)) (request_view request.entry)
        (map (λ p. p.now) pieces.now) (written result)) }
{
    match load_chosen(alloc, request.dir, choices, machine, files) {
        Ok(config) => {
            let told = resolved_of(alloc, plainly(request), pieces, &config);
            let_go.take(config);
            told
        }
        Err(error) => Told::Shown(refusal_answer(alloc, &error)),
    }
}

// The request without where values were set.
fn plainly(request: Request<'_>) -> Request<'_>
    ensures { request_view result ≡ plainly (request_view request.entry) }
{
    Request {
        origins: false,
        ..request
    }
}

// The answer for a resolved configuration, or for the value at the pieces of a key.
fn resolved_of(alloc: Global, request: Request<'_>, pieces: &[&str], config: &Config) -> Told
    ensures { (request_view request.entry) ≡ plainly (request_view request.entry)
        → IsShown (request_view request.entry) (map (λ p. p.now) pieces.now)
        (plain_at (shown config.now)) (written result)
        ⊎ IsRefused (plain memory) (written result) }
{
    match resolved_to_json(alloc, config, request.tokens) {
        Ok(json) => shown_in(alloc, request, pieces, &json),
        Err(refused) => Told::Shown(answer_of(Err(refused), 1)),
    }
}
