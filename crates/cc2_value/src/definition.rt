//! Where a value was set.
use cc2_error::error::Result;
use std::alloc::Global;
use std::fmt;

/// Where a value was set: the path of a file, the name of an environment variable, or the command
/// line with the path of its file, if it has one. Two are equal where they are of one variant.
#[derive(Debug, Drop)]
pub enum Definition {
    /// In the file at this path.
    Path(String),
    /// By the environment variable of this name.
    Environment(String),
    /// By `--config` on the command line: in the file at this path, or without one.
    Cli(Option<String>),
}

impl Definition {
    ghost use Rattle.std.specs.Prelude.{◌≡◌, IfOk, IfErr};
    ghost use Rattle.cc2_error.specs.Causes.{no_memory};
    ghost use Rattle.cc2_value.specs.Values.{origin_of};

    /// A copy. Fails only if memory runs out.
    pub fn try_clone(&self, _alloc: Global) -> Result<Definition>
        ensures ok { IfOk result (λ copy. origin_of copy ≡ origin_of self.now) }
        ensures refused { IfErr result (λ e. e ≡ no_memory) }
    {
        match self {
            Definition::Path(path) => Ok(Definition::Path(path.clone()?)),
            Definition::Environment(name) => Ok(Definition::Environment(name.clone()?)),
            Definition::Cli(Some(path)) => Ok(Definition::Cli(Some(path.clone()?))),
            Definition::Cli(None) => Ok(Definition::Cli(None)),
        }
    }
}

/// The path; ``environment variable `NAME` ``; `--config cli option` for a command line without a file.
impl fmt::Display for Definition {
    ghost use Rattle.std.specs.Prelude.{Some};
    ghost use Rattle.cc2_value.specs.Values.{origin_of};
    ghost use Rattle.cc2_value.specs.Origins.{origin_text};

    ghost output = { λ d. Some (origin_text (origin_of d)) };

    fn fmt<W: fmt::Write>(&self, f: &mut fmt::Formatter<W>) -> fmt::Result {
        match self {
            Definition::Path(path) => write!(f, "{path}"),
            Definition::Environment(name) => write!(f, "environment variable `{name}`"),
            Definition::Cli(Some(path)) => write!(f, "{path}"),
            Definition::Cli(None) => write!(f, "--config cli option"),
        }
    }
}

/// Equal by variant alone.
impl PartialEq for Definition {
    ghost use Rattle.std.specs.Prelude.{◌≡◌};
    ghost use Rattle.std.specs.Cmp.{partial_equiv_from_equiv};
    ghost use Rattle.cc2_value.specs.Sameness.{same_variant, same_variant_equiv};

    ghost eq = { same_variant };

    ghost laws = { partial_equiv_from_equiv same_variant_equiv };

    fn eq(&self, other: &Definition) -> bool {
        matches!(
            (self, other),
            (Definition::Path(_), Definition::Path(_))
                | (Definition::Environment(_), Definition::Environment(_))
                | (Definition::Cli(_), Definition::Cli(_))
        )
    }
}

impl Eq for Definition {
    ghost use Rattle.cc2_value.specs.Sameness.{same_variant_equiv};

    ghost laws = { same_variant_equiv };
}
