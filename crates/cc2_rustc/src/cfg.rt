//! Questions for the values that rustc printed for a name.
ghost use Rattle.std.specs.Prelude.{◌≡◌, IfOk};
ghost use Rattle.cc2_error.specs.Causes.{refusal_of, plain, cfg_value_cause};
ghost use Rattle.cc2_error.specs.Outcomes.{Gives};
ghost use Rattle.cc2_base.specs.Told.{WhereTold};
ghost use Rattle.cc2_rustc.specs.Printed.{atoms_of};
ghost use Rattle.cc2_rustc.specs.Readings.{cfg_answer};
ghost use Rattle.cc2_rustc.specs.Values.{values_of};

use crate::cfg_set::CfgSet;
use cc2_error::error::{CfgValueFault, Error, ErrorKind, NoMemory};
use std::alloc::{AllocError, Global};

/// Why values weren't read.
#[derive(Clone, Copy, Debug, PartialEq, Eq)]
pub enum CfgFault {
    /// Memory ran out.
    Memory,
    /// They can't be read.
    Unreadable,
}

impl From<AllocError> for CfgFault {
    ghost use Rattle.cc2_rustc.specs.declared.cfg.CfgFault.TheVariants.{Memory};

    ghost from_gives = { λ _ e. e ≡ Memory };

    fn from(_e: AllocError) -> CfgFault {
        CfgFault::Memory
    }
}

/// A cfg name whose values are read, as `target_os` (Rust Reference, Conditional compilation,
/// [Set configuration options](https://doc.rust-lang.org/reference/conditional-compilation.html#set-configuration-options)).
/// Whoever asks for a name implements it, and asks with `Config::cfg`.
///
/// `name()` answers `KEY`; what is promised of the name is promised of that call.
///
/// An implementation may say how it reads values, by their texts alone; its answers are then those of
/// this reading, or `Memory`. Nothing is promised of one that says nothing.
pub trait Cfg {
    ghost use Rattle.std.specs.Prelude.{◌≡◌, ℕ, List, Option, map, option_map, string_bytes};
    ghost use Rattle.cc2_base.specs.Told.{WhereTold};
    ghost use Rattle.cc2_rustc.specs.Readings.{Reading, ReadsAs};

    /// The name, as rustc prints it before `=`.
    const KEY: &'static str;

    /// How many values it has at most.
    const MAX: usize;

    /// What the values are read as.
    type Output: Drop;

    /// The bytes of the name.
    ghost named: { List ℕ };

    /// The constant `MAX`, as contracts name it.
    ghost MAX: { ℕ };

    /// What contracts see of an output.
    ghost Shown: { Type 0 };

    /// What this output shows.
    ghost shown: { Self.Output → Shown };

    /// The ways of reading values that the implementation agrees with.
    ghost told: { Reading Shown → Type 0 };

    /// `Self::KEY`, as every implementation answers here.
    fn name() -> &'static str
        ensures { result.now ≡ named };

    /// The default where rustc printed no value; none where there must be one.
    fn default_output() -> Option<Self::Output>
        ensures { WhereTold told (λ reading. option_map shown result ≡ reading.default) };

    /// What these values are read as. They come in byte order, each once, at least one of them and
    /// no more than `MAX`.
    ///
    /// # Errors
    /// `CfgFault::Unreadable` where they can't be read, and `CfgFault::Memory` where memory ran out.
    fn from_values(alloc: Global, values: &[String]) -> Result<Self::Output, CfgFault>
        ensures { WhereTold told (λ reading.
            ReadsAs shown result (reading.read (map string_bytes values.now))) };
}

/// The answer to the question for a name: what its values are read as, and the default where rustc
/// printed none. See the Rust Reference, Conditional compilation,
/// [Set configuration options](https://doc.rust-lang.org/reference/conditional-compilation.html#set-configuration-options).
///
/// # Errors
/// `CfgValue` with the name: `Absent` where there is no value and no default, `TooMany` where there
/// are more values than `MAX`, `Unreadable` where the values can't be read. `Memory` where memory
/// ran out.
pub fn cfg_answer<C: Cfg>(alloc: Global, set: &CfgSet) -> Result<C::Output, Error>
    ensures { WhereTold C.told (λ reading. Gives C.shown result
        (cfg_answer C.named C.MAX reading (values_of C.named (atoms_of set.now)))) }
{
    let values = set.values(alloc, C::name())?;
    if values.is_empty() {
        return match C::default_output() {
            Some(output) => Ok(output),
            None => Err(refused(alloc, C::name(), CfgValueFault::Absent)?),
        };
    }
    if values.len() > C::MAX {
        return Err(refused(alloc, C::name(), CfgValueFault::TooMany)?);
    }
    match C::from_values(alloc, values.as_slice()) {
        Ok(output) => Ok(output),
        Err(CfgFault::Memory) => Err(Error::from(NoMemory)),
        Err(CfgFault::Unreadable) => Err(refused(alloc, C::name(), CfgValueFault::Unreadable)?),
    }
}

// The refusal of a question for this name.
fn refused(alloc: Global, name: &str, fault: CfgValueFault) -> Result<Error, NoMemory>
    ensures { IfOk result (λ e. refusal_of e ≡ plain (cfg_value_cause name.now fault)) }
{
    let key = String::from_str(alloc, name)?;
    Ok(Error::new(ErrorKind::CfgValue { key, fault }))
}
