//! Variables of the table `env`.
use cc2_error::error::Result;
use serde::{Described, Serialize, Serializer};
use std::alloc::Global;

/// A variable of the table `env` (Cargo Reference, Configuration,
/// [`[env]`](https://doc.rust-lang.org/cargo/reference/config.html#env)).
#[derive(Debug, Drop)]
pub struct EnvConfigValue {
    /// The variable's value (Cargo Reference, Configuration,
    /// [`[env]`](https://doc.rust-lang.org/cargo/reference/config.html#env)).
    pub value: String,
    /// Whether it overrides one that the environment has (Cargo Reference, Configuration,
    /// [`[env]`](https://doc.rust-lang.org/cargo/reference/config.html#env)).
    pub force: bool,
    /// Whether the value is still a path to be resolved; never so in a resolved configuration
    /// (Cargo Reference, Configuration,
    /// [`[env]`](https://doc.rust-lang.org/cargo/reference/config.html#env)).
    pub relative: bool,
}

impl EnvConfigValue {
    ghost use Rattle.std.specs.Prelude.{◌≡◌, IfOk, IfErr, string_bytes};
    ghost use Rattle.cc2_error.specs.Causes.{no_memory};
    ghost use Rattle.cc2_resolved.specs.Variables.{variable_of};

    /// The same variable once more.
    ///
    /// # Errors
    /// `ErrorKind::Memory` where the copy finds no memory.
    pub fn try_clone(&self, alloc: Global) -> Result<EnvConfigValue>
        ensures same { IfOk result (λ copy. variable_of copy ≡ variable_of self.now) }
        ensures refused { IfErr result (λ e. e ≡ no_memory) }
    {
        Ok(EnvConfigValue {
            value: String::from_str(alloc, self.value.as_str())?,
            force: self.force,
            relative: self.relative,
        })
    }
}

impl Described for EnvConfigValue {}

/// A text where it has no mark, else a table of its value and the marks that it has.
impl Serialize for EnvConfigValue {
    fn serialize<S: Serializer>(&self, out: &mut S) -> std::result::Result<(), S::Error> {
        if !self.force && !self.relative {
            return self.value.serialize(out);
        }
        out.begin_map(None)?;
        out.key("value")?;
        self.value.serialize(out)?;
        send_mark("force", self.force, out)?;
        send_mark("relative", self.relative, out)?;
        out.end_map()
    }
}

// Sends a mark that is set.
fn send_mark<S: Serializer>(
    key: &str,
    mark: bool,
    out: &mut S,
) -> std::result::Result<(), S::Error> {
    if mark {
        out.key(key)?;
        mark.serialize(out)?;
    }
    Ok(())
}
