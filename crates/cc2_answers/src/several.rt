//! The answer to several questions of a directory.
ghost use Rattle.std.specs.Prelude.{◌≡◌, IfSome, is_none, map, string_bytes};
ghost use Rattle.cc2_rustc.specs.Kept.{WhereBothTold};
ghost use Rattle.cc2_cli.specs.Answers.{answer_text, Shows};
ghost use Rattle.cc2_answers.specs.Choices.{overrides_by};
ghost use Rattle.cc2_answers.specs.Items.{items_in, items_of};
ghost use Rattle.cc2_answers.specs.ItemViews.{item_view};
ghost use Rattle.cc2_answers.specs.Left.{IsAsked, IsReady};
ghost use Rattle.cc2_answers.specs.Outcomes.{AreOutcome, ComesTo, IsAppended};
ghost use Rattle.cc2_answers.specs.SeveralRuns.{as_it_is, outcome_of, PrintsItems, PrintsSeveral, WordsGive};

use crate::item::item_lines;
use crate::load_chosen;
use crate::words::{Item, choices_behind, first_item};
use cargo_config2::{Config, Result};
use cc2_base::files::Files;
use cc2_base::machine::Machine;
use cc2_base::programs::Programs;
use cc2_cli::{Answer, answer_of, refusal_answer};
use std::alloc::Global;

/// The answer to the questions that these words ask of a directory; none where they are no question. The words are items, at
/// least one, and after them any number of pairs `--config TEXT` and `--config-file PATH`. An item is `build`, `rustc`,
/// `host`, `target` and a text, `cfg` with a target's text and a name, `rustc-version` or `cargo-version`.
///
/// The configuration is loaded once. The text is that of the items in turn, with an empty line after each, and the
/// status 0. Where the load is refused, or else an item, the first of them, it is that refusal alone: a line `error: ` and,
/// where there is one, a line `cause: `, with the status 1.
pub fn several_to<F: Files, P: Programs>(
    alloc: Global,
    dir: &str,
    words: &[String],
    machine: &Machine,
    files: &F,
    programs: &mut P,
) -> Option<Answer>
    ensures none { is_none result ≡ is_none (items_in (map string_bytes words.now)) }
    ensures told { WhereBothTold (F.told files.now) (P.told programs.old)
        (λ fs answers. IfSome result (λ answer.
        WordsGive fs answers machine.now dir.now (map string_bytes words.now)
        (answer_text answer) answer.status)) }
{
    match choices_behind(words) {
        Some(choices) => Some(several_answer(alloc, dir, words, choices, machine, files, programs)),
        None => None,
    }
}

/// The answer to the items that words begin with, by one configuration: the text of each in turn, with an empty line after
/// each, and the status 0; or else the first refusal alone, with the status 1.
pub fn items_answer<F: Files, P: Programs>(
    alloc: Global,
    config: &mut Config,
    words: &[String],
    files: &F,
    programs: &mut P,
) -> Answer
    ensures { WhereBothTold (F.told files.now) (P.told programs.old)
        (λ fs answers. IsReady fs answers config.old
        → PrintsItems fs answers config.old (items_of (map string_bytes words.now))
        (answer_text result) result.status) }
{
    let lines = all_lines(alloc, config, words, files, programs);
    answer_by(alloc, lines)
}

// The answer to the items that words begin with, under the overrides of these choices.
fn several_answer<F: Files, P: Programs>(
    alloc: Global,
    dir: &str,
    words: &[String],
    choices: &[String],
    machine: &Machine,
    files: &F,
    programs: &mut P,
) -> Answer
    ensures { WhereBothTold (F.told files.now) (P.told programs.old) (λ fs answers.
        PrintsSeveral fs answers machine.now dir.now (overrides_by (map string_bytes choices.now))
        (items_of (map string_bytes words.now)) (answer_text result) result.status) }
{
    match load_chosen(alloc, dir, choices, machine, files) {
        Ok(mut config) => {
            let lines = all_lines(alloc, &mut config, words, files, programs);
            drop(config);
            answer_by(alloc, lines)
        }
        Err(error) => refusal_answer(alloc, &error),
    }
}

// The answer with these lines, or for why there are none.
fn answer_by(alloc: Global, lines: Result<Vec<u8>>) -> Answer
    ensures { Shows as_it_is (outcome_of lines) result }
{
    match lines {
        Ok(lines) => answer_of(Ok(lines), 0),
        Err(error) => refusal_answer(alloc, &error),
    }
}

// The lines of the items that words begin with, in turn by one configuration, each with an empty line after it.
fn all_lines<F: Files, P: Programs>(
    alloc: Global,
    config: &mut Config,
    words: &[String],
    files: &F,
    programs: &mut P,
) -> Result<Vec<u8>>
    ensures { WhereBothTold (F.told files.now) (P.told programs.old) (λ fs answers.
        IsReady fs answers config.old
        → ComesTo (AreOutcome fs answers config.old
        (items_of (map string_bytes words.now))) result) }
{
    let mut lines = Vec::new(alloc);
    let mut rest = words;
    while let Some((item, behind)) = first_item(rest) {
        push_item(&mut lines, alloc, config, item, files, programs)?;
        rest = behind;
    }
    Ok(lines)
}

// Appends the lines of an item, and an empty line.
fn push_item<F: Files, P: Programs>(
    out: &mut Vec<u8>,
    alloc: Global,
    config: &mut Config,
    item: Item<'_>,
    files: &F,
    programs: &mut P,
) -> Result<()>
    ensures { IsAsked (F.told files.now) (P.told programs.old)
        (P.told programs.new) config.old config.new
        (λ fs answers. IsAppended fs answers config.old
        (item_view item.entry) out.old.items out.new.items result) }
{
    let lines = item_lines(alloc, config, item, files, programs)?;
    out.extend_from_slice(lines.as_slice())?;
    out.push(b'\n')?;
    Ok(())
}
