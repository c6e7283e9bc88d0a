//! What is printed for a request by Cargo's own rules.
ghost use Rattle.std.specs.Prelude.{◌≡◌, ◌⊎◌, IfSome, is_none, map, true};
ghost use Rattle.std.specs.Result.{result_map_both};
ghost use Rattle.cc2_error.specs.Causes.{memory, plain, refusal_of};
ghost use Rattle.cc2_base.specs.Told.{WhereTold};
ghost use Rattle.cc2_cargo.specs.Raw.{raw_members_at};
ghost use Rattle.cc2_cli.specs.ShowTasks.{request_view};
ghost use Rattle.cc2_show_answers.specs.ShowQuestions.{IsKeyIn, IsNoKeyIn};
ghost use Rattle.cc2_show_answers.specs.ToldAnswers.{written};
ghost use Rattle.cc2_show_answers.specs.ToldRuns.{IsRefused};
ghost use Rattle.cc2_cargo_answers.specs.Gives.{CargoGives, IsOfLayers, IsOrMemory, IsShownOf};
ghost use Rattle.cc2_cargo_answers.specs.Layers.{layers_view};

use crate::json::raw_to_json;
use crate::layers::Layers;
use cargo_rules::{load_from, load_under};
use cc2_answers::LetGo;
use cc2_base::files::Files;
use cc2_base::machine::Machine;
use cc2_cargo::{Raw, RealPaths};
use cc2_cargo_settings::under_variables;
use cc2_cli::show::Request;
use cc2_cli::{answer_of, refusal_answer};
use cc2_error::error::Result;
use cc2_show_answers::{Told, form_of, pieces_of, shown_in};
use std::alloc::Global;
use std::collections::BTreeMap;

/// What these layers of a directory's configuration have at a key by Cargo's own rules: a line of TOML for each value, or JSON;
/// none where the key isn't well formed (Cargo Reference, Configuration,
/// [hierarchical structure](https://doc.rust-lang.org/cargo/reference/config.html#hierarchical-structure)). Of the request
/// the directory, the key, the format, origins and tokens count. What was loaded is let go as said. Of a key that isn't well
/// formed no file is asked: there is none, or the error that memory ran out.
pub fn get_by_cargo<F: Files, L: RealPaths>(
    alloc: Global,
    request: Request<'_>,
    layers: Layers<'_>,
    machine: &Machine,
    files: &F,
    reals: &L,
    let_go: LetGo,
) -> Option<Told>
    ensures none { is_none result ≡ true → IsNoKeyIn (request_view request.entry).key }
    ensures unkeyed { IsNoKeyIn (request_view request.entry).key
        → IfSome result (λ told. IsRefused (plain memory) (written told)) }
    ensures told { WhereTold (F.told files.now) (λ fs. WhereTold (L.told reals.now) (λ real_paths.
        IfSome result (λ told. CargoGives fs real_paths machine.now (layers_view layers.entry)
        (request_view request.entry) (written told)))) }
{
    match pieces_of(alloc, request.key) {
        Ok(pieces) => {
            let pieces = pieces.as_slice();
            let told = get_at(
                alloc, request, layers, pieces, machine, files, reals, let_go,
            );
            Some(told)
        }
        Err(instead) => instead,
    }
}

// The same at the pieces of a key.
fn get_at<F: Files, L: RealPaths>(
    alloc: Global,
    request: Request<'_>,
    layers: Layers<'_>,
    pieces: &[&str],
    machine: &Machine,
    files: &F,
    reals: &L,
    let_go: LetGo,
) -> Told
    ensures { IsKeyIn (request_view request.entry).key (map (λ p. p.now) pieces.now)
        → WhereTold (F.told files.now) (λ fs. WhereTold (L.told reals.now) (λ real_paths.
        CargoGives fs real_paths machine.now (layers_view layers.entry) (request_view request.entry)
        (written result))) }
{
    match settings_of(alloc, request.dir, layers, pieces, machine, files, reals) {
        Ok(settings) => {
            let told = shown_of(alloc, request, pieces, &settings, let_go);
            let_go.take(settings);
            told
        }
        Err(error) => Told::Shown(refusal_answer(alloc, &error)),
    }
}

/// What these layers of a directory have at each path by Cargo's own rules, where a key with these pieces asks for it; without
/// pieces all is asked for.
///
/// # Errors
/// Those of `load_from` of the files alone; else those of `load_under` and `under_variables`.
pub fn settings_of<F: Files, L: RealPaths>(
    alloc: Global,
    dir: &str,
    layers: Layers<'_>,
    pieces: &[&str],
    machine: &Machine,
    files: &F,
    reals: &L,
) -> Result<BTreeMap<String, Raw>>
    ensures { WhereTold (F.told files.now) (λ fs. WhereTold (L.told reals.now) (λ real_paths.
        IsOrMemory (IsOfLayers fs real_paths machine.now dir.now (layers_view layers.entry)
        (map (λ p. p.now) pieces.now)) (result_map_both raw_members_at refusal_of result))) }
{
    match layers {
        Layers::Files => load_from(alloc, dir, machine, files, reals),
        Layers::All(overrides) => {
            let settings = load_under(alloc, dir, overrides, machine, files, reals)?;
            under_variables(alloc, settings, machine, pieces)
        }
    }
}

// What is printed of settings at the pieces of a key.
fn shown_of(
    alloc: Global,
    request: Request<'_>,
    pieces: &[&str],
    settings: &BTreeMap<String, Raw>,
    let_go: LetGo,
) -> Told
    ensures { IsShownOf (request_view request.entry) (map (λ p. p.now) pieces.now)
        (raw_members_at settings.now) (written result)
        ⊎ IsRefused (plain memory) (written result) }
{
    match raw_to_json(alloc, settings, form_of(request)) {
        Ok(json) => {
            let told = shown_in(alloc, request, pieces, &json);
            let_go.take(json);
            told
        }
        Err(refused) => Told::Shown(answer_of(Err(refused), 1)),
    }
}
