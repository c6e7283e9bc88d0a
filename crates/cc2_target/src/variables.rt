//! What the variables of a triple set.
ghost use Rattle.std.specs.Prelude.{IfOk, IfErr};
ghost use Rattle.cc2_env.specs.Options.{variables_of};
ghost use Rattle.cc2_env.specs.Reads.{IsFound, IsFoundCause};
ghost use Rattle.cc2_base.specs.VariableNames.{target_variable};
ghost use Rattle.cc2_target.specs.Variables.{set_in, AreRead, IsReadCause};

use cc2_base::variable_name::target_variable;
use cc2_env::{ResolveContext, read_variable};
use cc2_error::error::Result;
use cc2_leaf::{Flags, PathAndArgs, ReadEnv, Value};
use std::alloc::Global;

/// What the four variables of a triple set (Cargo Reference, Configuration,
/// [`target.<triple>`](https://doc.rust-lang.org/cargo/reference/config.html#target)): each is
/// absent where its variable isn't set.
#[derive(Debug, Drop)]
pub struct TargetVariables {
    /// The linker, by the variable that ends with `_LINKER` (Cargo Reference, Configuration,
    /// [`target.<triple>.linker`](https://doc.rust-lang.org/cargo/reference/config.html#targettriplelinker)).
    pub linker: Option<Value<String>>,
    /// The program that runs what is built, by `_RUNNER`, split at spaces (Cargo Reference,
    /// Configuration,
    /// [`target.<triple>.runner`](https://doc.rust-lang.org/cargo/reference/config.html#targettriplerunner)).
    pub runner: Option<PathAndArgs>,
    /// Flags for rustc, by `_RUSTFLAGS`, split at spaces (Cargo Reference, Configuration,
    /// [`target.<triple>.rustflags`](https://doc.rust-lang.org/cargo/reference/config.html#targettriplerustflags)).
    pub rustflags: Option<Flags>,
    /// Flags for rustdoc, by `_RUSTDOCFLAGS`, split at spaces (Cargo Reference, Configuration,
    /// [`target.<triple>.rustdocflags`](https://doc.rust-lang.org/cargo/reference/config.html#targettriplerustdocflags)).
    pub rustdocflags: Option<Flags>,
}

impl TargetVariables {
    /// Reads the four variables of a triple, all of them in every case (Cargo Reference,
    /// Configuration,
    /// [`target.<triple>`](https://doc.rust-lang.org/cargo/reference/config.html#target)).
    ///
    /// # Errors
    /// `EnvNotText` where one of them is set and isn't UTF-8, with the line that names it.
    /// `EmptyCommand`, without such a line, where the runner's is set and blank. `Memory` where
    /// memory ran out.
    pub fn read(alloc: Global, context: &ResolveContext, triple: &str) -> Result<TargetVariables>
        ensures ok { IfOk result (AreRead (variables_of context.now) triple.now) }
        ensures refused { IfErr result (IsReadCause (variables_of context.now) triple.now) }
    {
        let linker: Option<Value<String>> = read_setting(alloc, context, triple, "_LINKER")?;
        let runner: Option<PathAndArgs> = read_setting(alloc, context, triple, "_RUNNER")?;
        let rustflags: Option<Flags> = read_setting(alloc, context, triple, "_RUSTFLAGS")?;
        let rustdocflags: Option<Flags> = read_setting(alloc, context, triple, "_RUSTDOCFLAGS")?;
        Ok(TargetVariables {
            linker,
            runner,
            rustflags,
            rustdocflags,
        })
    }
}

// What the variable of a triple that ends so sets; none where it isn't set.
fn read_setting<T: ReadEnv>(
    alloc: Global,
    context: &ResolveContext,
    triple: &str,
    what: &str,
) -> Result<Option<T>>
    ensures ok { IfOk result (IsFound T.MergeFrom.cell_at T.text_way
        (set_in (variables_of context.now) (target_variable triple.now what.now))) }
    ensures refused { IfErr result (IsFoundCause T.text_way
        (set_in (variables_of context.now) (target_variable triple.now what.now))) }
{
    let name = target_variable(alloc, triple, what)?;
    match context.env_value(name.as_str()) {
        None => Ok(None),
        Some(value) => Ok(Some(read_variable(alloc, name.as_str(), value)?)),
    }
}
