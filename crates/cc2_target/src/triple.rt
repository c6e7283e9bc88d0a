//! Whether a triple is one.
ghost use Rattle.std.specs.Prelude.{◌≡◌, ◌⊎◌, false, IfErr, OnOk};
ghost use Rattle.cc2_error.specs.Causes.{refusal_of};
ghost use Rattle.cc2_error.specs.Outcomes.{IsWantOfMemory};
ghost use Rattle.cc2_rustc.specs.Keys.{is_cfg};
ghost use Rattle.cc2_target.specs.Asked.{IsNoTriple};

use cc2_error::error::{Error, ErrorKind, Result};
use std::alloc::Global;

/// Refuses a triple that begins as the keys `cfg(..)` of `[target]` do (Cargo Reference,
/// Configuration, [`[target]`](https://doc.rust-lang.org/cargo/reference/config.html#target)).
///
/// # Errors
/// `NotTriple` where it begins with `cfg(`, and `Memory` where its text finds no memory.
pub fn judge_triple(alloc: Global, triple: &str) -> Result<()>
    ensures judged { OnOk result (is_cfg triple.now ≡ false) }
    ensures refused { IfErr result (λ e. IsWantOfMemory e ⊎ IsNoTriple triple.now (refusal_of e)) }
{
    if triple.starts_with("cfg(") {
        let triple = String::from_str(alloc, triple)?;
        return Err(Error::new(ErrorKind::NotTriple { triple }));
    }
    Ok(())
}
