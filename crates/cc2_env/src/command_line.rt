//! What the command line sets by `--config`, above every variable and file.
ghost use Rattle.std.specs.Prelude.{◌≡◌, List, [], ◌∷◌, ◌++◌, map, IfOk, IfErr};
ghost use Rattle.cc2_error.specs.Causes.{refusal_of, plain, memory};
ghost use Rattle.cc2_env.specs.CommandLine.{override_of, overrides_in};

use cc2_error::error::Result;
use std::alloc::Global;
use std::fmt;

/// What the command line sets by one `--config` (Cargo Reference, Configuration,
/// [command-line overrides](https://doc.rust-lang.org/cargo/reference/config.html#command-line-overrides)).
#[derive(Drop)]
pub enum Override {
    /// A TOML text.
    Text(String),
    /// The file at a path, seen from the directory of the context.
    File(String),
}

/// A text is left out: it may hold a token.
impl fmt::Debug for Override {
    fn fmt<W: fmt::Write>(&self, f: &mut fmt::Formatter<W>) -> fmt::Result {
        match self {
            Override::Text(_) => f.write_str("Text(..)"),
            Override::File(path) => f.debug_tuple("File").field(path).finish(),
        }
    }
}

impl Override {
    /// The same once more.
    ///
    /// # Errors
    /// `ErrorKind::Memory` where the copy finds no memory.
    pub fn try_clone(&self) -> Result<Override>
        ensures ok { IfOk result (λ copy. override_of copy ≡ override_of self.now) }
        ensures refused { IfErr result (λ e. refusal_of e ≡ plain memory) }
    {
        match self {
            Override::Text(text) => Ok(Override::Text(text.clone()?)),
            Override::File(path) => Ok(Override::File(path.clone()?)),
        }
    }
}

/// One override more, after those that were chosen.
pub fn with_last(
    alloc: Global,
    list: Option<Vec<Override>>,
    last: Override,
) -> Result<Vec<Override>>
    ensures ok { IfOk result (λ all.
        map override_of all.items ≡ overrides_in list ++ override_of last ∷ []) }
    ensures refused { IfErr result (λ e. refusal_of e ≡ plain memory) }
{
    let mut all = match list {
        Some(list) => list,
        None => Vec::new(alloc),
    };
    all.push(last)?;
    Ok(all)
}

/// The same overrides once more.
pub fn copied_overrides(alloc: Global, overrides: &[Override]) -> Result<Vec<Override>>
    ensures ok { IfOk result (λ copy. map override_of copy.items ≡ map override_of overrides.now) }
    ensures refused { IfErr result (λ e. refusal_of e ≡ plain memory) }
{
    let mut copies = Vec::new(alloc);
    for one in overrides {
        copies.push(one.try_clone()?)?;
    }
    Ok(copies)
}

/// The same once more, where there are any.
pub fn copied_choice(
    alloc: Global,
    overrides: &Option<Vec<Override>>,
) -> Result<Option<Vec<Override>>>
    ensures ok { IfOk result (λ copy. overrides_in copy ≡ overrides_in overrides.now) }
    ensures refused { IfErr result (λ e. refusal_of e ≡ plain memory) }
{
    match overrides {
        None => Ok(None),
        Some(list) => Ok(Some(copied_overrides(alloc, list.as_slice())?)),
    }
}
