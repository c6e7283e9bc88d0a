//! What is written of each source of settings by itself: the command line, the variables, each file.
ghost use Rattle.std.specs.Prelude.{◌⊎◌, List, IfErr, IfOk, map, option_map, string_bytes};
ghost use Rattle.cc2_error.specs.Causes.{refusal_of};
ghost use Rattle.cc2_error.specs.Outcomes.{IsWantOfMemory};
ghost use Rattle.cc2_base.specs.Told.{WhereTold};
ghost use Rattle.cc2_base.specs.declared.machine.Machine.{Machine};
ghost use Rattle.cc2_env.specs.CommandLine.{Override};
ghost use Rattle.cc2_base.specs.Walked.{walked};
ghost use Rattle.cc2_cli.specs.Answers.{answer_text};
ghost use Rattle.cc2_cli.specs.ShowTasks.{request_view};
ghost use Rattle.cc2_answers.specs.Choices.{overrides_by};
ghost use Rattle.cc2_show_answers.specs.Sources.{IsCauseAmong, above, file, set_above};
ghost use Rattle.cc2_show_answers.specs.Unmerged.{AreBlocks, EndsUnmerged, IsUnmerged, IsUnmergedCause};

use crate::source::{Source, block};
use cc2_answers::options_by;
use cc2_base::files::Files;
use cc2_base::home::cargo_home_with_cwd;
use cc2_base::machine::Machine;
use cc2_base::walk::Walk;
use cc2_cli::show::{Request, Stage};
use cc2_cli::{Answer, answer_of, refusal_answer};
use cc2_de::{Config, set_by_overrides, set_by_variables};
use cc2_error::error::Result;
use std::alloc::Global;

/// The answer for what each source has at the pieces of a key, the strongest source first: the overrides of these words,
/// the variables, and the files, the nearest first. The files alone have neither of the first two.
pub fn unmerged_answer<F: Files>(
    alloc: Global,
    request: Request<'_>,
    pieces: &[&str],
    choices: &[String],
    machine: &Machine,
    files: &F,
) -> Answer
    ensures { let os = overrides_by (map string_bytes choices.now) in
        WhereTold (F.told files.now) (λ fs.
        EndsUnmerged fs machine.now os (request_view request.entry) (map (λ p. p.now) pieces.now)
        (answer_text result) result.status) }
{
    match unmerged(alloc, request, pieces, choices, machine, files) {
        Ok(text) => answer_of(Ok(text), 0),
        Err(error) => refusal_answer(alloc, &error),
    }
}

// The text of all sources.
fn unmerged<F: Files>(
    alloc: Global,
    request: Request<'_>,
    pieces: &[&str],
    choices: &[String],
    machine: &Machine,
    files: &F,
) -> Result<Vec<u8>>
    ensures ok { let os = overrides_by (map string_bytes choices.now) in
        WhereTold (F.told files.now) (λ fs. IfOk result (λ text.
        IsUnmerged fs machine.now os (request_view request.entry)
        (map (λ p. p.now) pieces.now) text.items)) }
    ensures refused { let os = overrides_by (map string_bytes choices.now) in
        WhereTold (F.told files.now) (λ fs. IfErr result (λ e.
        IsWantOfMemory e ⊎ IsUnmergedCause fs machine.now os (request_view request.entry)
        (map (λ p. p.now) pieces.now) (refusal_of e))) }
{
    let home = cargo_home_with_cwd(alloc, request.dir, machine)?;
    let mut text = text_above(alloc, request, pieces, choices, machine, files)?;
    let mut below = text_of_files(alloc, request, pieces, home, files)?;
    text.append(&mut below)?;
    Ok(text)
}

// The text of what is above the files. Nothing is above the files alone.
fn text_above<F: Files>(
    alloc: Global,
    request: Request<'_>,
    pieces: &[&str],
    choices: &[String],
    machine: &Machine,
    files: &F,
) -> Result<Vec<u8>>
    ensures ok { let os = overrides_by (map string_bytes choices.now) in
        let asked = request_view request.entry in WhereTold (F.told files.now) (λ fs.
        IfOk result (λ text. AreBlocks fs machine.now os asked (map (λ p. p.now) pieces.now)
        (above asked.stage) text.items)) }
    ensures refused { let os = overrides_by (map string_bytes choices.now) in
        let asked = request_view request.entry in WhereTold (F.told files.now) (λ fs.
        IfErr result (λ e. IsWantOfMemory e
        ⊎ IsCauseAmong fs machine.now asked.dir os (above asked.stage) (refusal_of e))) }
{
    match request.stage {
        Stage::Files => Ok(Vec::new(alloc)),
        Stage::Resolved => text_of_set(alloc, request, pieces, choices, machine, files),
        Stage::Environment => text_of_set(alloc, request, pieces, choices, machine, files),
    }
}

// The text of what the command line and the variables set.
fn text_of_set<F: Files>(
    alloc: Global,
    request: Request<'_>,
    pieces: &[&str],
    choices: &[String],
    machine: &Machine,
    files: &F,
) -> Result<Vec<u8>>
    ensures ok { let os = overrides_by (map string_bytes choices.now) in
        let asked = request_view request.entry in WhereTold (F.told files.now) (λ fs.
        IfOk result (λ text. AreBlocks fs machine.now os asked
        (map (λ p. p.now) pieces.now) set_above text.items)) }
    ensures refused { let os = overrides_by (map string_bytes choices.now) in
        let asked = request_view request.entry in WhereTold (F.told files.now) (λ fs.
        IfErr result (λ e. IsWantOfMemory e
        ⊎ IsCauseAmong fs machine.now asked.dir os set_above (refusal_of e))) }
{
    let options = options_by(alloc, choices)?;
    let overrides = set_by_overrides(alloc, request.dir, options, machine, files)?;
    let mut text = block(alloc, request, pieces, Source::CommandLine, overrides)?;
    let variables = set_by_variables(alloc, machine)?;
    let mut below = block(alloc, request, pieces, Source::Variables, variables)?;
    text.append(&mut below)?;
    Ok(text)
}

// The text of the files from the directory upwards, and of the cargo home's.
fn text_of_files<F: Files>(
    alloc: Global,
    request: Request<'_>,
    pieces: &[&str],
    home: Option<String>,
    files: &F,
) -> Result<Vec<u8>>
    ensures ok { (machine : Machine) (os : List Override)
        → WhereTold (F.told files.now) (λ fs. IfOk result (λ text.
        AreBlocks fs machine os (request_view request.entry) (map (λ p. p.now) pieces.now)
        (map file (walked fs request.entry.dir.now (option_map string_bytes home))) text.items)) }
    ensures refused { (machine : Machine) (os : List Override)
        → WhereTold (F.told files.now) (λ fs. IfErr result (λ e. IsWantOfMemory e
        ⊎ IsCauseAmong fs machine request.entry.dir.now os
        (map file (walked fs request.entry.dir.now (option_map string_bytes home)))
        (refusal_of e))) }
{
    let mut text = Vec::new(alloc);
    for path in Walk::with_cargo_home(alloc, request.dir, home, files) {
        let path = path?;
        let config = Config::load_file(alloc, path.as_str(), files)?;
        let mut below = block(alloc, request, pieces, Source::File(path.as_str()), config)?;
        text.append(&mut below)?;
    }
    Ok(text)
}
