//! The lines of the values of a cfg name.
ghost use Rattle.std.specs.Prelude.{◌≡◌, IfOk};
ghost use Rattle.cc2_rustc.specs.Printed.{atoms_of};
ghost use Rattle.cc2_answers.specs.CfgLines.{cfg_lines};

use cargo_config2::NoMemory;
use cargo_config2::cfg::CfgSet;
use cc2_cli::list::push_texts;
use std::alloc::Global;

/// The lines of the values of the name that rustc printed.
pub(crate) fn cfg_lines(alloc: Global, set: &CfgSet, name: &str) -> Result<Vec<u8>, NoMemory>
    ensures { IfOk result (λ text. text.items ≡ cfg_lines name.now (atoms_of set.now)) }
{
    let values = set.values(alloc, name)?;
    let mut lines = Vec::new(alloc);
    push_texts(&mut lines, "cfg", values.as_slice())?;
    Ok(lines)
}
