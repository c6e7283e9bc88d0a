//! The lines of the resolved table `build`.
ghost use Rattle.std.specs.Prelude.{◌≡◌, ◌++◌, Option, OnOk, IfOk, map, option_map};
ghost use Rattle.cc2_resolved.specs.ShownTargets.{target_at};
ghost use Rattle.cc2_resolved.specs.Targets.{command_text};
ghost use Rattle.cc2_resolved.specs.Answers.{Answer, flags_answer, targets_answer, text_answer, truth_answer, whole_answer};
ghost use Rattle.cc2_cli.specs.CommandLines.{text_line, texts_lines};
ghost use Rattle.cc2_answers.specs.ResolvedLines.{answer_lines, resolved_lines, value_line};

use cargo_config2::{BuildConfig, Flags, NoMemory, TargetTriple, TargetTripleRef};
use cc2_cli::list;
use cc2_cli::text::{Done, push, quoted};
use cc2_resolved_tables::build_fields;
use std::alloc::Global;

macro_rules! push_fields {
    ($out:ident, $alloc:ident, $build:ident; $($key:literal $field:ident $($meant:ident)?),* $(,)?) => {{
        $(
            $build.$field.push_answer($out, $alloc, concat!("build.", $key))?;
        )*
    }};
}

// A field that may be absent, as lines.
trait PushAnswer {
    // What it shows.
    ghost answer: { Self → Option Answer };

    // Appends its lines; none where it is absent.
    fn push_answer(&self, out: &mut Vec<u8>, alloc: Global, key: &str) -> Done
        ensures { OnOk result (out.new.items
            ≡ out.old.items ++ answer_lines key.now (answer self.now)) };
}

/// The lines of the resolved table `build`: those of each field that is there, in the order of the fields.
pub(crate) fn build_lines(alloc: Global, build: &BuildConfig) -> Result<Vec<u8>, NoMemory>
    ensures { IfOk result (λ text. text.items ≡ resolved_lines build.now) }
{
    let mut lines = Vec::new(alloc);
    let out = &mut lines;
    build_fields!(push_fields!(out, alloc, build));
    Ok(lines)
}

// Appends the line of a value.
fn push_value(out: &mut Vec<u8>, key: &str, value: &[u8]) -> Done
    ensures { OnOk result (out.new.items ≡ out.old.items ++ value_line key.now value.now) }
{
    push(out, key)?;
    push(out, " = ")?;
    out.extend_from_slice(value)?;
    push(out, "\n")
}

// The line of a number.
impl PushAnswer for Option<i32> {
    ghost answer = { option_map whole_answer };

    fn push_answer(&self, out: &mut Vec<u8>, alloc: Global, key: &str) -> Done {
        if let Some(number) = self {
            let number = *number;
            let shown = format!(in alloc; "{number}")?;
            push_value(out, key, shown.as_bytes())?;
        }
        Ok(())
    }
}

// The line of a truth value.
impl PushAnswer for Option<bool> {
    ghost answer = { option_map truth_answer };

    fn push_answer(&self, out: &mut Vec<u8>, _alloc: Global, key: &str) -> Done {
        if let Some(truth) = self {
            let shown = if *truth { "true" } else { "false" };
            push_value(out, key, shown.as_bytes())?;
        }
        Ok(())
    }
}

// The line of a text.
impl PushAnswer for Option<String> {
    ghost answer = { option_map text_answer };

    fn push_answer(&self, out: &mut Vec<u8>, alloc: Global, key: &str) -> Done {
        if let Some(text) = self {
            let shown = quoted(alloc, text.as_str())?;
            push_value(out, key, shown.as_slice())?;
        }
        Ok(())
    }
}

// The lines of flags.
impl PushAnswer for Option<Flags> {
    ghost answer = { option_map flags_answer };

    fn push_answer(&self, out: &mut Vec<u8>, _alloc: Global, key: &str) -> Done {
        if let Some(flags) = self {
            list::push_texts(out, key, flags.flags.as_slice())?;
        }
        Ok(())
    }
}

// The lines of targets.
impl PushAnswer for Option<Vec<TargetTriple>> {
    ghost answer = { option_map targets_answer };

    fn push_answer(&self, out: &mut Vec<u8>, alloc: Global, key: &str) -> Done {
        if let Some(targets) = self {
            push_each(out, alloc, key, targets.as_slice())?;
        }
        Ok(())
    }
}

// Appends a line for each target, or one that says that there is none.
fn push_each(
    out: &mut Vec<u8>,
    alloc: Global,
    key: &str,
    targets: &[TargetTripleRef<'static>],
) -> Done
    ensures { OnOk result (out.new.items
        ≡ out.old.items ++ texts_lines key.now (map command_text (map target_at targets.now))) }
{
    if targets.is_empty() {
        push(out, key)?;
        return push(out, " = []\n");
    }
    for (at, target) in targets.iter().enumerate() {
        push_target(out, alloc, key, at, target)?;
    }
    Ok(())
}

// Appends the line of a target at a place of a list.
fn push_target(
    out: &mut Vec<u8>,
    alloc: Global,
    key: &str,
    at: usize,
    target: &TargetTripleRef<'_>,
) -> Done
    ensures { OnOk result (out.new.items
        ≡ out.old.items ++ text_line key.now at (command_text (target_at target.now))) }
{
    push(out, format!(in alloc; "{key}[{at}] = ")?.as_str())?;
    out.extend_from_slice(quoted(alloc, target.as_command_text())?.as_slice())?;
    push(out, "\n")
}
