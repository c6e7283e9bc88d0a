//! A setting, by the variables that set it in their rank.
ghost use Rattle.std.specs.Prelude.{◌≡◌, ◌⊎◌, ◌∷◌, [], Some, IfOk, IfErr, OnOk, map, Contains, List, option_map};
ghost use Rattle.std.specs.Prelude.{string_bytes, codes};
ghost use Rattle.cc2_error.specs.Causes.{refusal_of};
ghost use Rattle.cc2_error.specs.Outcomes.{IsWantOfMemory};
ghost use Rattle.cc2_value.specs.Cells.{KeyPath, variable};
ghost use Rattle.cc2_value.specs.Shown.{option_at};
ghost use Rattle.cc2_leaf.specs.Commands.{command_value};
ghost use Rattle.cc2_leaf.specs.Lists.{flags_value};
ghost use Rattle.cc2_value.specs.Singles.{text_value, truth_value};
ghost use Rattle.cc2_leaf.specs.TextWays.{TextFault, IsTextFault, encoded_text_way};
ghost use Rattle.cc2_env.specs.Options.{variables_of};
ghost use Rattle.cc2_env.specs.Ranked.{text_refusal, value_refusals, is_unparsed_cause, IsRanked, IsRankCause};
ghost use Rattle.cc2_env.specs.Ranks.{variable_by, all_by, one_by, flags_rank, incremental_rank, browser_rank};
ghost use Rattle.cc2_env.specs.Ranks.{wrapper_text_way, if_filled};
ghost use Rattle.cc2_env.specs.Reads.{first_value, IsFound, IsFoundCause};
ghost use Rattle.std.specs.Str.{bytes_eq};

use crate::ResolveContext;
use cc2_base::variable::{env_text, variable_line};
use cc2_error::error::{Error, ErrorKind, Result};
use cc2_leaf::{Flags, PathAndArgs, ReadEnv, Value};
use std::alloc::Global;

/// What the first of these variables that is set makes of a setting; where none is, it stays (Cargo
/// Reference, Configuration,
/// [environment variables](https://doc.rust-lang.org/cargo/reference/config.html#environment-variables)).
pub fn read_first<T: ReadEnv>(
    alloc: Global,
    context: &ResolveContext,
    names: &[&str],
    setting: &mut Option<T>,
) -> Result<()>
    ensures ok { OnOk result (IsRanked (option_at T.MergeFrom.cell_at)
        (all_by T.text_way (map (λ name. name.now) names.now))
        (variables_of context.now) setting.old setting.new) }
    ensures refused { IfErr result
        (IsRankCause (option_at T.MergeFrom.cell_at)
        (all_by T.text_way (map (λ name. name.now) names.now))
        (variables_of context.now) setting.old) }
{
    match read_found(alloc, context, names)? {
        None => Ok(()),
        Some(read) => {
            put_in(setting, Some(read));
            Ok(())
        }
    }
}

/// The same of a setting that one variable sets (Cargo Reference, Configuration,
/// [environment variables](https://doc.rust-lang.org/cargo/reference/config.html#environment-variables)).
pub fn read_one<T: ReadEnv>(
    alloc: Global,
    context: &ResolveContext,
    name: &str,
    setting: &mut Option<T>,
) -> Result<()>
    ensures ok { OnOk result (IsRanked (option_at T.MergeFrom.cell_at) (one_by T.text_way name.now)
        (variables_of context.now) setting.old setting.new) }
    ensures refused { IfErr result
        (IsRankCause (option_at T.MergeFrom.cell_at) (one_by T.text_way name.now)
        (variables_of context.now) setting.old) }
{
    read_first(alloc, context, &[name], setting)
}

/// The same of a setting that is always there (Cargo Reference, Configuration,
/// [environment variables](https://doc.rust-lang.org/cargo/reference/config.html#environment-variables)).
pub fn read_whole<T: ReadEnv>(
    alloc: Global,
    context: &ResolveContext,
    names: &[&str],
    setting: &mut T,
) -> Result<()>
    ensures ok { OnOk result
        (IsRanked T.MergeFrom.cell_at (all_by T.text_way (map (λ name. name.now) names.now))
        (variables_of context.now) setting.old setting.new) }
    ensures refused { IfErr result
        (IsRankCause T.MergeFrom.cell_at (all_by T.text_way (map (λ name. name.now) names.now))
        (variables_of context.now) setting.old) }
{
    match read_found(alloc, context, names)? {
        None => Ok(()),
        Some(read) => {
            put_in(setting, read);
            Ok(())
        }
    }
}

/// The same of a wrapper, which an empty text takes away (Cargo Reference, Configuration,
/// [`build.rustc-wrapper`](https://doc.rust-lang.org/cargo/reference/config.html#buildrustc-wrapper)).
pub fn read_wrapper(
    alloc: Global,
    context: &ResolveContext,
    names: &[&str],
    wrapper: &mut Option<Value<String>>,
) -> Result<()>
    ensures ok { OnOk result
        (IsRanked text_value (all_by wrapper_text_way (map (λ name. name.now) names.now))
        (variables_of context.now) wrapper.old wrapper.new) }
    ensures refused { IfErr result
        (IsRankCause text_value (all_by wrapper_text_way (map (λ name. name.now) names.now))
        (variables_of context.now) wrapper.old) }
{
    match read_found(alloc, context, names)? {
        None => Ok(()),
        Some(text) => {
            put_in(wrapper, filled_text(text));
            Ok(())
        }
    }
}

// The value of the first of these variables that is set, by its text; none where none is.
fn read_found<T: ReadEnv>(
    alloc: Global,
    context: &ResolveContext,
    names: &[&str],
) -> Result<Option<T>>
    ensures ok { IfOk result (IsFound T.MergeFrom.cell_at T.text_way
        (first_value (variables_of context.now) (map (λ name. name.now) names.now))) }
    ensures refused { IfErr result (IsFoundCause T.text_way
        (first_value (variables_of context.now) (map (λ name. name.now) names.now))) }
{
    match first_set(context, names) {
        None => Ok(None),
        Some((name, value)) => Ok(Some(read_variable(alloc, name, value)?)),
    }
}

// A text that isn't empty.
fn filled_text(text: Value<String>) -> Option<Value<String>>
    ensures { result ≡ if_filled (string_bytes text.val) text }
{
    if text.val.is_empty() {
        None
    } else {
        Some(text)
    }
}

/// The same of flags: a variable whose text is split at U+001F, else those that are split at spaces
/// (Cargo Reference, Configuration,
/// [`build.rustflags`](https://doc.rust-lang.org/cargo/reference/config.html#buildrustflags)).
pub fn read_flags(
    alloc: Global,
    context: &ResolveContext,
    encoded: &str,
    spaced: &[&str],
    flags: &mut Option<Flags>,
) -> Result<()>
    ensures ok { OnOk result
        (IsRanked flags_value (flags_rank encoded.now (map (λ name. name.now) spaced.now))
        (variables_of context.now) flags.old flags.new) }
    ensures refused { IfErr result
        (IsRankCause flags_value (flags_rank encoded.now (map (λ name. name.now) spaced.now))
        (variables_of context.now) flags.old) }
{
    match context.env_value(encoded) {
        None => read_first(alloc, context, spaced, flags),
        Some(value) => {
            let text = env_text(alloc, encoded, value)?;
            let read = Flags::read_encoded(alloc, text, encoded)?;
            put_in(flags, Some(read));
            Ok(())
        }
    }
}

/// The same of
/// [`build.incremental`](https://doc.rust-lang.org/cargo/reference/config.html#buildincremental):
/// of `CARGO_INCREMENTAL` any text, which is true for `1` alone.
pub fn read_incremental(
    alloc: Global,
    context: &ResolveContext,
    incremental: &mut Option<Value<bool>>,
) -> Result<()>
    ensures ok { OnOk result
        (IsRanked truth_value incremental_rank (variables_of context.now) incremental.old
        incremental.new) }
    ensures refused { IfErr result
        (IsRankCause truth_value incremental_rank (variables_of context.now) incremental.old) }
{
    match context.env_value("CARGO_INCREMENTAL") {
        None => read_one(alloc, context, "CARGO_BUILD_INCREMENTAL", incremental),
        Some(value) => {
            let text: Value<String> = read_variable(alloc, "CARGO_INCREMENTAL", value)?;
            put_in(incremental, Some(is_one(text)));
            Ok(())
        }
    }
}

/// The same of [`doc.browser`](https://doc.rust-lang.org/cargo/reference/config.html#docbrowser),
/// for which a variable is looked at only where no file has one.
pub fn read_browser(
    alloc: Global,
    context: &ResolveContext,
    browser: &mut Option<PathAndArgs>,
) -> Result<()>
    ensures ok { OnOk result
        (IsRanked command_value browser_rank (variables_of context.now) browser.old browser.new) }
    ensures refused { IfErr result
        (IsRankCause command_value browser_rank (variables_of context.now) browser.old) }
{
    match browser {
        Some(_) => Ok(()),
        None => read_one(alloc, context, "BROWSER", browser),
    }
}

// Whether a text is `1`, defined as the text is.
fn is_one(text: Value<String>) -> Value<bool>
    ensures { (result.val ≡ bytes_eq (string_bytes text.val) (codes "1"))
        × (result.definition ≡ text.definition) }
{
    let val = text.val.as_str() == "1";
    Value {
        val,
        definition: text.definition,
    }
}

/// Replaces what was there with a value.
pub fn put_in<T: Drop>(place: &mut T, value: T)
    ensures { place.new ≡ value }
{
    *place = value;
}

// The first of these variables that is set, with its value.
fn first_set<'a>(context: &'a ResolveContext, names: &[&'a str]) -> Option<(&'a str, &'a [u8])>
    ensures { option_map (λ f. (f.0.now, f.1.now)) result
        ≡ first_value (variables_of context.now) (map (λ name. name.now) names.now) }
{
    for name in names {
        if let Some(value) = context.env_value(name) {
            return Some((name, value));
        }
    }
    None
}

/// The value of a variable that is set, by its text, with the variable as its origin (Cargo
/// Reference, Configuration,
/// [environment variables](https://doc.rust-lang.org/cargo/reference/config.html#environment-variables)).
///
/// # Errors
/// `EnvNotText` where the value is not UTF-8, else what `ReadEnv::read_env` refuses of the text; the
/// context names the variable, but for the refusals of a command. `Memory` where memory ran out.
pub fn read_variable<T: ReadEnv>(alloc: Global, name: &str, value: &[u8]) -> Result<T>
    ensures ok { IfOk result (λ read.
        (value_refusals (variable_by name.now T.text_way) value.now ≡ [])
        × ((p : KeyPath)
        → T.MergeFrom.cell_at read p ≡ T.text_way.cells (Some (variable name.now)) value.now p)) }
    ensures refused { IfErr result (λ e.
        IsWantOfMemory e ⊎ Contains (value_refusals (variable_by name.now T.text_way) value.now)
        (refusal_of e)) }
{
    let text = env_text(alloc, name, value)?;
    match T::read_env(alloc, text, name) {
        Ok(read) => Ok(read),
        Err(error) => Err(named(alloc, name, error)),
    }
}

// The refusal of a variable's text: where the text isn't in its way of reading, its line names the
// variable.
fn named(alloc: Global, name: &str, error: Error) -> Error
    ensures { (faults : List TextFault) → IsTextFault faults error
        → IsWantOfMemory result
        ⊎ Contains (map (text_refusal name.now) faults) (refusal_of result) }
{
    if !is_unparsed(&error) {
        return error;
    }
    match variable_line(alloc, name) {
        Ok(line) => error.with_context(line),
        Err(wanted) => Error::from(wanted),
    }
}

// Whether the error is that of a text that isn't in its way of reading.
fn is_unparsed(error: &Error) -> bool
    ensures { result ≡ is_unparsed_cause (refusal_of error.now).cause }
{
    matches!(error.kind(), ErrorKind::EnvParse { .. })
}
