//! The parts of one kind.
ghost use Rattle.std.specs.Prelude.{◌≡◌, Ok, map, option_map, IfOk, IfErr};
ghost use Rattle.cc2_command_line.specs.FaultViews.{IsFaultOf};
ghost use Rattle.cc2_command_line.specs.Parts.{part_view};
ghost use Rattle.cc2_command_line.specs.Selected as spec;
ghost use Rattle.cc2_command_line.specs.declared.fault.Fault.TheVariants.{Memory};

use crate::fault::Fault;
use crate::option::{Flag, Setting};
use crate::part::Part;
use std::alloc::Global;

/// The operands, in their order.
///
/// # Errors
/// `Fault::Memory` where memory ran out.
pub(crate) fn operands<'a>(alloc: Global, parts: &[Part<'a>]) -> Result<Vec<&'a str>, Fault<'a>>
    ensures ok { IfOk result (λ words.
        map (λ word. word.now) words.items ≡ spec.operands (map part_view parts.now)) }
    ensures wrong { IfErr result (λ fault. fault ≡ Memory) }
{
    let mut words = Vec::new(alloc);
    for part in parts {
        if let Some(word) = operand_in(part) {
            words.push(word)?;
        }
    }
    Ok(words)
}

fn operand_in<'a>(part: &Part<'a>) -> Option<&'a str>
    ensures { option_map (λ word. word.now) result ≡ spec.operand_in (part_view part.now) }
{
    match *part {
        Part::Operand(word) => Some(word),
        _ => None,
    }
}

/// The values of an option, in their order.
///
/// # Errors
/// `Fault::Memory` where memory ran out.
pub(crate) fn values<'a>(
    alloc: Global,
    parts: &[Part<'a>],
    setting: Setting,
) -> Result<Vec<&'a str>, Fault<'a>>
    ensures ok { IfOk result (λ values.
        map (λ value. value.now) values.items ≡ spec.values setting (map part_view parts.now)) }
    ensures wrong { IfErr result (λ fault. fault ≡ Memory) }
{
    let mut values = Vec::new(alloc);
    for part in parts {
        if let Some(value) = value_in(setting, part) {
            values.push(value)?;
        }
    }
    Ok(values)
}

fn value_in<'a>(setting: Setting, part: &Part<'a>) -> Option<&'a str>
    ensures { option_map (λ value. value.now) result ≡ spec.value_in setting (part_view part.now) }
{
    match *part {
        Part::Setting(found, value) if is_same(setting, found) => Some(value),
        _ => None,
    }
}

fn is_same(one: Setting, other: Setting) -> bool
    ensures { result ≡ spec.is_same one other }
{
    match (one, other) {
        (Setting::Directory, Setting::Directory) => true,
        (Setting::Config, Setting::Config) => true,
        (Setting::Color, Setting::Color) => true,
        (Setting::Format, Setting::Format) => true,
        (Setting::Merged, Setting::Merged) => true,
        (Setting::Rules, Setting::Rules) => true,
        (Setting::Deny, Setting::Deny) => true,
        (Setting::Allow, Setting::Allow) => true,
        (Setting::Target, Setting::Target) => true,
        _ => false,
    }
}

/// The value of an option, if it has one.
///
/// # Errors
/// `Fault::Twice` where it has more than one; `Fault::Memory` where memory ran out.
pub(crate) fn single<'a>(
    alloc: Global,
    parts: &[Part<'a>],
    setting: Setting,
) -> Result<Option<&'a str>, Fault<'a>>
    ensures ok { IfOk result (λ value.
        spec.single setting (map part_view parts.now) ≡ Ok (option_map (λ v. v.now) value)) }
    ensures wrong { IfErr result (λ fault.
        IsFaultOf fault (spec.single setting (map part_view parts.now))) }
{
    let values = values(alloc, parts, setting)?;
    match values.as_slice() {
        [] => Ok(None),
        [value] => Ok(Some(*value)),
        _ => Err(Fault::Twice(setting)),
    }
}

/// Whether there is an option without a value.
pub(crate) fn has_flag(parts: &[Part<'_>], flag: Flag) -> bool
    ensures { result ≡ spec.has_flag flag (map part_view parts.now) }
{
    let mut rest = parts;
    while let [part, behind @ ..] = rest {
        if is_flag(flag, part) {
            return true;
        }
        rest = behind;
    }
    false
}

fn is_flag(flag: Flag, part: &Part<'_>) -> bool
    ensures { result ≡ spec.is_flag flag (part_view part.now) }
{
    match (flag, *part) {
        (Flag::Help, Part::Flag(Flag::Help)) => true,
        (Flag::Version, Part::Flag(Flag::Version)) => true,
        (Flag::Quiet, Part::Flag(Flag::Quiet)) => true,
        (Flag::ShowOrigin, Part::Flag(Flag::ShowOrigin)) => true,
        (Flag::Files, Part::Flag(Flag::Files)) => true,
        (Flag::Resolved, Part::Flag(Flag::Resolved)) => true,
        (Flag::Tokens, Part::Flag(Flag::Tokens)) => true,
        (Flag::BuildScripts, Part::Flag(Flag::BuildScripts)) => true,
        (Flag::Compare, Part::Flag(Flag::Compare)) => true,
        (Flag::NoPrograms, Part::Flag(Flag::NoPrograms)) => true,
        _ => false,
    }
}
