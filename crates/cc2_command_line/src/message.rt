//! What is wrong with the arguments, as it is printed.
ghost use Rattle.std.specs.Prelude.{◌≡◌, IfOk, map, string_bytes};
ghost use Rattle.cc2_command_line.specs.FaultViews.{fault_view};
ghost use Rattle.cc2_command_line.specs.Messages as spec;
ghost use Rattle.cc2_command_line.specs.Nearest.{nearest};

use crate::fault::Fault;
use crate::nearest::nearest;
use crate::option::{Flag, Setting};
use crate::part::cut;
use std::alloc::{AllocError, Global};

// The names of the commands.
fn commands() -> &'static [&'static str]
    ensures { map (λ name. name.now) result.now ≡ spec.commands }
{
    &["get", "target", "rustc", "host", "version", "lint", "help"]
}

// The long names of the options.
fn options() -> &'static [&'static str]
    ensures { map (λ name. name.now) result.now ≡ spec.options }
{
    &[
        "--help",
        "--version",
        "--quiet",
        "--show-origin",
        "--files",
        "--resolved",
        "--tokens",
        "--build-scripts",
        "--compare",
        "--no-programs",
        "--config",
        "--color",
        "--format",
        "--merged",
        "--rules",
        "--deny",
        "--allow",
        "--target",
    ]
}

/// The message for standard error: what is wrong, a similar known word if there is one, and how to get help.
///
/// # Errors
/// `AllocError` where memory ran out.
pub fn message_of(alloc: Global, fault: &Fault<'_>) -> Result<String, AllocError>
    ensures { IfOk result (λ text. string_bytes text ≡ spec.message (fault_view fault.now)) }
{
    let reason = reason_of(alloc, fault)?;
    let hint = hint_of(alloc, fault)?;
    let reason = reason.as_str();
    let hint = hint.as_str();
    Ok(format!(in alloc;
        "error: {reason}\n{hint}\nFor more information, try `cargo config2 --help`.\n"
    )?)
}

// What is wrong, in one line.
fn reason_of(alloc: Global, fault: &Fault<'_>) -> Result<String, AllocError>
    ensures { IfOk result (λ text. string_bytes text ≡ spec.reason (fault_view fault.now)) }
{
    match *fault {
        Fault::UnknownOption(word) => Ok(format!(in alloc; "unexpected option `{word}`")?),
        Fault::NoValue(setting) => {
            let name = setting_name(setting);
            Ok(format!(in alloc; "the option `{name}` needs a value")?)
        }
        Fault::UnknownCommand(word) => Ok(format!(in alloc; "no such command: `{word}`")?),
        Fault::NoCommand => String::from_str(alloc, "no command is given"),
        Fault::UnfitFlag(flag) => unfit_reason(alloc, flag_name(flag)),
        Fault::UnfitSetting(setting) => unfit_reason(alloc, setting_name(setting)),
        Fault::Twice(setting) => {
            let name = setting_name(setting);
            Ok(format!(in alloc; "the option `{name}` is given more than once")?)
        }
        Fault::BadValue(setting, value, _) => {
            let name = setting_name(setting);
            Ok(format!(in alloc; "invalid value `{value}` for the option `{name}`")?)
        }
        Fault::Conflict(one, other) => {
            Ok(format!(in alloc; "`{one}` and `{other}` can't be used together")?)
        }
        Fault::Unexpected(word) => Ok(format!(in alloc; "unexpected argument `{word}`")?),
        Fault::Memory => String::from_str(alloc, "out of memory"),
    }
}

// An option that the command doesn't have.
fn unfit_reason(alloc: Global, name: &str) -> Result<String, AllocError>
    ensures { IfOk result (λ text. string_bytes text ≡ spec.unfit_reason name.now) }
{
    Ok(format!(in alloc; "this command has no option `{name}`")?)
}

const TARGET_TIP: &str = "\n  tip: `target` takes triples without an option\n";

// What may be meant: a similar known word, or the values that an option takes; empty if there is nothing.
fn hint_of(alloc: Global, fault: &Fault<'_>) -> Result<String, AllocError>
    ensures { IfOk result (λ text. string_bytes text ≡ spec.hint (fault_view fault.now)) }
{
    match *fault {
        Fault::UnknownOption(word) => tip_of(alloc, before_equals(word), options()),
        Fault::UnknownCommand(word) => tip_of(alloc, word, commands()),
        Fault::BadValue(_, _, values) => values_line(alloc, values),
        Fault::UnfitSetting(Setting::Target) => String::from_str(alloc, TARGET_TIP),
        _ => Ok(String::new(alloc)),
    }
}

// An option without the value after `=`.
fn before_equals(word: &str) -> &str
    ensures { result.now ≡ spec.before_equals word.now }
{
    match cut(word) {
        Some((name, _)) => name,
        None => word,
    }
}

/// A line with the known word that is most like a word; empty if there is none.
///
/// # Errors
/// `AllocError` where memory ran out.
pub fn tip_of(alloc: Global, word: &str, known: &[&str]) -> Result<String, AllocError>
    ensures { IfOk result (λ text.
        string_bytes text ≡ spec.tip (nearest word.now (map (λ k. k.now) known.now))) }
{
    match nearest(alloc, word, known)? {
        Some(near) => Ok(format!(in alloc; "\n  tip: a similar word is `{near}`\n")?),
        None => Ok(String::new(alloc)),
    }
}

fn values_line(alloc: Global, names: &[&str]) -> Result<String, AllocError>
    ensures { IfOk result (λ text.
        string_bytes text ≡ spec.values_line (map (λ n. n.now) names.now)) }
{
    let names = names.join(alloc, ", ")?;
    let names = names.as_str();
    Ok(format!(in alloc; "\n  possible values: {names}\n")?)
}

// The name of an option without a value.
fn flag_name(flag: Flag) -> &'static str
    ensures { result.now ≡ spec.flag_name flag }
{
    match flag {
        Flag::Help => "--help",
        Flag::Version => "--version",
        Flag::Quiet => "--quiet",
        Flag::ShowOrigin => "--show-origin",
        Flag::Files => "--files",
        Flag::Resolved => "--resolved",
        Flag::Tokens => "--tokens",
        Flag::BuildScripts => "--build-scripts",
        Flag::Compare => "--compare",
        Flag::NoPrograms => "--no-programs",
    }
}

// The name of an option with a value.
fn setting_name(setting: Setting) -> &'static str
    ensures { result.now ≡ spec.setting_name setting }
{
    match setting {
        Setting::Directory => "-C",
        Setting::Config => "--config",
        Setting::Color => "--color",
        Setting::Format => "--format",
        Setting::Merged => "--merged",
        Setting::Rules => "--rules",
        Setting::Deny => "--deny",
        Setting::Allow => "--allow",
        Setting::Target => "--target",
    }
}
