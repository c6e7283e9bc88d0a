//! Answers by the state of a load, which is handed back in place of files.
ghost use Rattle.std.specs.Prelude.{◌≡◌, [], map, option_map, string_bytes, IfErr, IfOk};
ghost use Rattle.cc2_cli.specs.Answers.{answer_text};
ghost use Rattle.cc2_rustc.specs.Kept.{WhereBothTold};
ghost use Rattle.cc2_env.specs.Options.{chosen_cargo, IsContext};
ghost use Rattle.cargo_config2.specs.Kept.{IsNoTargetKept};
ghost use Rattle.cargo_config2.specs.Loads.{nothing_chosen};
ghost use Rattle.cc2_error.specs.Outcomes.{IsRefusal};
ghost use Rattle.cc2_resolved.specs.ShownFlags.{flag_texts};
ghost use Rattle.cc2_rustc.specs.Kept.{IsNothingKept};
ghost use Rattle.cc2_reply.specs.States.{AnswersItems, IsStateOf, PrintsBySome, StateAnswers};
ghost use Rattle.cc2_answers.specs.Items.{items_alone, items_of};
ghost use Rattle.cc2_state.specs.Views.{IsState};
ghost use Rattle.cc2_state.specs.State.{LoadState as SpecState};

use cargo_config2::{Config, Error, Queried, ResolveContext, ResolveOptions};
use cc2_answers::{are_items_alone, items_answer};
use cc2_ask::Fault;
use cc2_base::files::Files;
use cc2_base::machine::Machine;
use cc2_base::programs::Programs;
use cc2_cli::{Answer, refusal_answer};
use cc2_resolved::flags::Flags;
use cc2_state::State;
use std::alloc::Global;

/// The answer to the items that these words are, by the state that these bytes are. It is empty with the status 2 where the
/// bytes are no state, and where the words aren't items alone or ask for the table `build`.
pub fn state_answer<F: Files, P: Programs>(
    alloc: Global,
    dir: &str,
    bytes: &[u8],
    words: &[String],
    machine: &Machine,
    files: &F,
    programs: &mut P,
) -> Answer
    ensures { WhereBothTold (F.told files.now) (P.told programs.old) (λ fs answers.
        StateAnswers fs answers machine.now dir.now bytes.now (map string_bytes words.now)
        (answer_text result) result.status) }
{
    match State::read(alloc, bytes) {
        Ok(state) => words_by_state(alloc, dir, state, words, machine, files, programs),
        Err(Fault::Malformed) => no_answer(alloc),
        Err(Fault::Memory) => Answer {
            text: None,
            status: 1,
        },
    }
}

// The answer to the items that these words are, by a state.
fn words_by_state<F: Files, P: Programs>(
    alloc: Global,
    dir: &str,
    state: State,
    words: &[String],
    machine: &Machine,
    files: &F,
    programs: &mut P,
) -> Answer
    ensures { WhereBothTold (F.told files.now) (P.told programs.old) (λ fs answers.
        (s : SpecState) → IsState s state → AnswersItems fs answers machine.now dir.now s
        (items_alone (map string_bytes words.now)) (answer_text result) result.status) }
{
    if are_items_alone(words) {
        items_by_state(alloc, dir, state, words, machine, files, programs)
    } else {
        no_answer(alloc)
    }
}

// The answer to the items that words begin with, by a state.
fn items_by_state<F: Files, P: Programs>(
    alloc: Global,
    dir: &str,
    state: State,
    words: &[String],
    machine: &Machine,
    files: &F,
    programs: &mut P,
) -> Answer
    ensures { WhereBothTold (F.told files.now) (P.told programs.old) (λ fs answers.
        (s : SpecState) → IsState s state → PrintsBySome fs answers machine.now dir.now s
        (items_of (map string_bytes words.now)) (answer_text result) result.status) }
{
    match context_in(alloc, dir, machine) {
        Ok(context) => {
            let mut config = config_of(alloc, state, context);
            let answer = items_answer(alloc, &mut config, words, files, programs);
            drop(config);
            answer
        }
        Err(error) => refusal_answer(alloc, &error),
    }
}

// The context of a machine in a directory, where nothing is chosen.
fn context_in(alloc: Global, dir: &str, machine: &Machine) -> Result<ResolveContext, Error>
    ensures ok { IfOk result (λ context. string_bytes context.current_dir ≡ dir.now) }
    ensures context { IfOk result (λ context.
        IsContext nothing_chosen context.current_dir machine.now context) }
    ensures refused { IfErr result (IsRefusal (chosen_cargo nothing_chosen machine.now)) }
{
    let dir = String::from_str(alloc, dir)?;
    ResolveOptions::default().into_context(alloc, dir, machine)
}

// The configuration that has a state, in a context.
fn config_of(alloc: Global, state: State, context: ResolveContext) -> Config
    ensures state { (s : SpecState) → IsState s state → IsStateOf result s }
    ensures context { result.loaded.context ≡ context }
    ensures nothing_kept { IsNothingKept result.kept }
    ensures no_targets { IsNoTargetKept result }
{
    let queried = Queried {
        target: state.target,
        flags_overridden: state.flags_overridden,
        doc_flags_overridden: state.doc_flags_overridden,
        rustc: state.rustc,
        rustc_wrapper: state.rustc_wrapper,
        rustc_workspace_wrapper: state.rustc_workspace_wrapper,
        rustflags: flags_in(state.rustflags),
        rustdocflags: flags_in(state.rustdocflags),
    };
    Config::of_queried(alloc, queried, context)
}

// Flags of texts that may be absent.
fn flags_in(texts: Option<Vec<String>>) -> Option<Flags>
    ensures { option_map flag_texts result ≡ option_map (λ ts. map string_bytes ts.items) texts }
{
    match texts {
        Some(texts) => Some(Flags::from(texts)),
        None => None,
    }
}

/// The answer where nothing is asked.
pub fn no_answer(alloc: Global) -> Answer
    ensures text { answer_text result ≡ [] }
    ensures status { result.status ≡ 2 }
{
    Answer {
        text: Some(Vec::new(alloc)),
        status: 2,
    }
}
