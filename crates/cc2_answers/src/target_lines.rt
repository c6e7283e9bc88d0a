//! The lines that print the settings of a target.
ghost use Rattle.std.specs.Prelude.{◌≡◌, ◌++◌, OnOk, IfOk, option_map};
ghost use Rattle.cc2_resolved.specs.Answers.{text_answer, command_answer, flags_answer};
ghost use Rattle.cc2_resolved.specs.TargetConfigs.{shown};
ghost use Rattle.cc2_answers.specs.TargetLines.{setting_lines, target_lines};

use cargo_config2::{Flags, NoMemory, PathAndArgs, TargetConfig};
use cc2_cli::commands::push_command;
use cc2_cli::list::push_texts;
use cc2_cli::text::{Done, push, push_quoted};
use std::alloc::Global;

// Appends the line of a linker, if there is one.
fn push_linker(out: &mut Vec<u8>, key: &str, linker: &Option<String>) -> Done
    ensures { OnOk result (out.new.items
        ≡ out.old.items ++ setting_lines key.now (option_map text_answer linker.now)) }
{
    if let Some(linker) = linker {
        push(out, key)?;
        push(out, " = ")?;
        push_quoted(out, linker.as_str())?;
        push(out, "\n")?;
    }
    Ok(())
}

// Appends the lines of a runner, if there is one.
fn push_runner(out: &mut Vec<u8>, key: &str, runner: &Option<PathAndArgs>) -> Done
    ensures { OnOk result (out.new.items
        ≡ out.old.items ++ setting_lines key.now (option_map command_answer runner.now)) }
{
    if let Some(runner) = runner {
        push_command(out, key, runner)?;
    }
    Ok(())
}

// Appends the lines of flags, if there are any.
fn push_flags(out: &mut Vec<u8>, key: &str, flags: &Option<Flags>) -> Done
    ensures { OnOk result (out.new.items
        ≡ out.old.items ++ setting_lines key.now (option_map flags_answer flags.now)) }
{
    if let Some(flags) = flags {
        push_texts(out, key, flags.flags.as_slice())?;
    }
    Ok(())
}

/// The lines of the settings of a target.
pub fn target_lines(alloc: Global, settings: &TargetConfig) -> Result<Vec<u8>, NoMemory>
    ensures { IfOk result (λ text. text.items ≡ target_lines (shown settings.now)) }
{
    let mut lines = Vec::new(alloc);
    let out = &mut lines;
    push_linker(out, "linker", &settings.linker)?;
    push_runner(out, "runner", &settings.runner)?;
    push_flags(out, "rustflags", &settings.rustflags)?;
    push_flags(out, "rustdocflags", &settings.rustdocflags)?;
    Ok(lines)
}
