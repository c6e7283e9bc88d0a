//! What is written of a configuration in which it is known where each value was set.
ghost use Rattle.std.specs.Prelude.{◌≡◌, ◌⊎◌, [], IfOk, Option, false, map, option_map, string_bytes, unwrap_or};
ghost use Rattle.serde_json.specs.View.{view};
ghost use Rattle.serde_json.specs.Written.{has_float};
ghost use Rattle.cc2_error.specs.Causes.{memory, plain};
ghost use Rattle.cc2_error.specs.Outcomes.{Answered};
ghost use Rattle.cc2_base.specs.Told.{WhereTold};
ghost use Rattle.cc2_de.specs.Config.{config_at};
ghost use Rattle.cc2_cli.specs.ShowTasks.{format_view, request_view, stage_view};
ghost use Rattle.cc2_answers.specs.Choices.{overrides_by};
ghost use Rattle.cc2_answers.specs.Environments.{IsBuilt, IsBuiltCause};
ghost use Rattle.cc2_show_answers.specs.ToldAnswers.{written};
ghost use Rattle.cc2_show_answers.specs.ToldRuns.{IsMapCause, IsRefused, IsShown, IsShownIn, IsStageMap, IsTextOf, Tells, form_of, unset_line};

use cc2_answers::{LetGo, load_built};
use cc2_base::files::Files;
use cc2_base::machine::Machine;
use cc2_cli::show::{Format, Request, Stage};
use cc2_cli::{Answer, answer_of, refusal_answer};
use cc2_de::Config;
use cc2_error::error::{Error, NoMemory};
use cc2_json::{Form, Json, alone_line, at_key, json_line, to_json, toml_lines};
use std::alloc::Global;

/// What is written of such a configuration, and where.
#[derive(Debug, Drop)]
pub enum Told {
    /// For standard output: the configuration, or why there is none.
    Shown(Answer),
    /// For standard error: the line that nothing is at the key. The status is 1.
    Unset(Vec<u8>),
}

/// The answer for the configuration of a directory, or for what is at the pieces of a key: of the files alone,
/// or else of the files under the variables and the overrides of these words. The files alone have no overrides. What
/// was made for it is let go as said.
pub fn told_answer<F: Files>(
    alloc: Global,
    request: Request<'_>,
    pieces: &[&str],
    choices: &[String],
    machine: &Machine,
    files: &F,
    let_go: LetGo,
) -> Told
    ensures { let os = overrides_by (map string_bytes choices.now) in
        let asked = request_view request.entry in WhereTold (F.told files.now) (λ fs.
        Tells asked (map (λ p. p.now) pieces.now)
        (IsStageMap fs machine.now asked.dir os asked.stage)
        (IsMapCause fs machine.now asked.dir os asked.stage) (written result)) }
{
    match load_told(alloc, request, choices, machine, files) {
        Ok(config) => told_of(alloc, request, pieces, config, let_go),
        Err(error) => Told::Shown(refusal_answer(alloc, &error)),
    }
}

// The configuration of a request: the files alone, or under the variables and the overrides.
fn load_told<F: Files>(
    alloc: Global,
    request: Request<'_>,
    choices: &[String],
    machine: &Machine,
    files: &F,
) -> Result<Config, Error>
    ensures { let os = overrides_by (map string_bytes choices.now) in
        let asked = request_view request.entry in WhereTold (F.told files.now) (λ fs.
        Answered config_at result (IsStageMap fs machine.now asked.dir os asked.stage)
        (IsMapCause fs machine.now asked.dir os asked.stage)) }
{
    match request.stage {
        Stage::Files => Config::load_with_cwd(alloc, request.dir, machine, files),
        Stage::Resolved => load_unresolved(alloc, request.dir, choices, machine, files),
        Stage::Environment => load_unresolved(alloc, request.dir, choices, machine, files),
    }
}

// The configuration of a directory under the variables and the overrides, without its context.
fn load_unresolved<F: Files>(
    alloc: Global,
    dir: &str,
    choices: &[String],
    machine: &Machine,
    files: &F,
) -> Result<Config, Error>
    ensures { let os = overrides_by (map string_bytes choices.now) in
        WhereTold (F.told files.now) (λ fs.
        Answered config_at result (IsBuilt fs machine.now dir.now os)
        (IsBuiltCause fs machine.now dir.now os)) }
{
    match load_built(alloc, dir, choices, machine, files) {
        Ok(configured) => Ok(configured.config),
        Err(error) => Err(error),
    }
}

// The answer for a configuration, or for what is at the pieces of a key.
fn told_of(
    alloc: Global,
    request: Request<'_>,
    pieces: &[&str],
    config: Config,
    let_go: LetGo,
) -> Told
    ensures { IsShown (request_view request.entry) (map (λ p. p.now) pieces.now) (config_at config)
        (written result)
        ⊎ IsRefused (plain memory) (written result) }
{
    match to_json(alloc, config, form_of(request)) {
        Ok(json) => {
            let told = shown_in(alloc, request, pieces, &json);
            let_go.take(json);
            told
        }
        Err(refused) => Told::Shown(answer_of(Err(refused), 1)),
    }
}

/// What a request writes of a configuration.
pub fn form_of(request: Request<'_>) -> Form
    ensures { result ≡ form_of (request_view request.entry) }
{
    Form {
        origins: request.origins,
        tokens: request.tokens,
    }
}

/// The answer for the value at the pieces of a key of a configuration's JSON.
pub fn shown_in(alloc: Global, request: Request<'_>, pieces: &[&str], json: &Json) -> Told
    ensures { has_float (view json.now) ≡ false
        → IsShownIn (request_view request.entry) (map (λ p. p.now) pieces.now) (view json.now)
        (written result)
        ⊎ IsRefused (plain memory) (written result) }
{
    match at_key(json, pieces, request.origins) {
        Some(found) => Told::Shown(answer_of(
            text_of(alloc, request.format, pieces, found, request.origins),
            0,
        )),
        None => unset(alloc, key_text(request.key)),
    }
}

// What is printed of what is at the pieces of a key.
fn text_of(
    alloc: Global,
    format: Format,
    pieces: &[&str],
    found: &Json,
    origins: bool,
) -> Result<Vec<u8>, NoMemory>
    ensures { IfOk result (λ text. has_float (view found.now) ≡ false
        → IsTextOf origins (format_view format) (map (λ p. p.now) pieces.now) (view found.now)
        text.items) }
{
    match format {
        Format::Toml => toml_lines(alloc, pieces, found, origins),
        Format::Json => alone_line(alloc, pieces, found),
        Format::JsonValue => json_line(alloc, found),
    }
}

// A key as it was written.
fn key_text(key: Option<&str>) -> &str
    ensures { result.now ≡ unwrap_or (option_map (λ k. k.now) key.entry) [] }
{
    match key {
        Some(key) => key,
        None => "",
    }
}

// The answer that nothing is at a key.
fn unset(alloc: Global, key: &str) -> Told
    ensures { (written result ≡ record { out = []; err = unset_line key.now; status = 1 })
        ⊎ IsRefused (plain memory) (written result) }
{
    match unset_line(alloc, key) {
        Ok(line) => Told::Unset(line),
        Err(refused) => Told::Shown(answer_of(Err(refused), 1)),
    }
}

// The line that nothing is at a key.
fn unset_line(alloc: Global, key: &str) -> Result<Vec<u8>, NoMemory>
    ensures { IfOk result (λ line. line.items ≡ unset_line key.now) }
{
    Ok(format!(in alloc; "error: config value `{key}` is not set\n")?.into_bytes())
}
