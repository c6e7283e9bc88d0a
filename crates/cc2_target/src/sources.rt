//! A target's settings, by where they come from.
ghost use Rattle.std.specs.Prelude.{◌≡◌, ◌++◌, IfOk, OnOk, map, option_map, string_bytes};
ghost use Rattle.cc2_value.specs.Values.{origin_of};
ghost use Rattle.cc2_target.specs.Sources.{is_command_line, linker_origin, runner_origin};
ghost use Rattle.cc2_target.specs.Sources.{first_present, table_in, of_table, chosen, flag_texts, joined};

use crate::variables::TargetVariables;
use cc2_error::error::NoMemory;
use cc2_leaf::{Definition, Flags, PathAndArgs, Value};
use cc2_target_table::TargetConfig;
use std::alloc::Global;

/// Where the settings of a target come from (Cargo Reference, Configuration,
/// [`[target]`](https://doc.rust-lang.org/cargo/reference/config.html#target)).
#[derive(Clone, Copy, Debug)]
pub struct TargetSources<'a> {
    /// What its variables set.
    pub variables: &'a TargetVariables,
    /// The table of its triple, where there is one (Cargo Reference, Configuration,
    /// [`[target]`](https://doc.rust-lang.org/cargo/reference/config.html#target)).
    pub table: Option<&'a TargetConfig>,
    /// The tables at keys `cfg(..)` that are true for it, in byte order of the keys (Cargo
    /// Reference, Configuration,
    /// [`[target]`](https://doc.rust-lang.org/cargo/reference/config.html#target)).
    pub true_tables: &'a [&'a TargetConfig],
}

impl<'a> TargetSources<'a> {
    /// The linker: that of the triple's table where the command line set it, else that of the variable,
    /// else that of the triple's table, else that of the first true table that has one. See the
    /// Cargo Reference, Configuration,
    /// [`target.<triple>.linker`](https://doc.rust-lang.org/cargo/reference/config.html#targettriplelinker).
    pub fn linker(&self) -> Option<&'a Value<String>>
        ensures { option_map (λ linker. linker.now) result
            ≡ chosen (λ t. t.linker) linker_origin self.now.variables.now.linker self.now }
    {
        if let Some(table) = self.table {
            if let Some(linker) = &table.linker {
                if is_command_line(&linker.definition) {
                    return Some(linker);
                }
            }
        }
        if let Some(linker) = &self.variables.linker {
            return Some(linker);
        }
        if let Some(table) = self.table {
            if let Some(linker) = &table.linker {
                return Some(linker);
            }
        }
        for true_table in self.true_tables {
            if let Some(linker) = &true_table.linker {
                return Some(linker);
            }
        }
        None
    }

    /// The runner: that of the triple's table where the command line set it, else that of the variable,
    /// else that of the triple's table, else that of the first true table that has one. See the
    /// Cargo Reference, Configuration,
    /// [`target.<triple>.runner`](https://doc.rust-lang.org/cargo/reference/config.html#targettriplerunner).
    pub fn runner(&self) -> Option<&'a PathAndArgs>
        ensures { option_map (λ runner. runner.now) result
            ≡ chosen (λ t. t.runner) runner_origin self.now.variables.now.runner self.now }
    {
        if let Some(table) = self.table {
            if let Some(runner) = &table.runner {
                if is_command_line(&runner.path.value().definition) {
                    return Some(runner);
                }
            }
        }
        if let Some(runner) = &self.variables.runner {
            return Some(runner);
        }
        if let Some(table) = self.table {
            if let Some(runner) = &table.runner {
                return Some(runner);
            }
        }
        for true_table in self.true_tables {
            if let Some(runner) = &true_table.runner {
                return Some(runner);
            }
        }
        None
    }

    /// Copies of the flags for rustc, as texts: those of the triple's table, then those of the
    /// variable, then those of each true table. See the Cargo Reference, Configuration,
    /// [`target.<triple>.rustflags`](https://doc.rust-lang.org/cargo/reference/config.html#targettriplerustflags).
    ///
    /// # Errors
    /// `NoMemory` where a flag or the list finds no memory.
    pub fn rustflags(&self, alloc: Global) -> Result<Vec<String>, NoMemory>
        ensures { IfOk result (λ flags. map string_bytes flags.items
            ≡ joined (λ t. t.rustflags) self.now.variables.now.rustflags self.now) }
    {
        let mut rustflags = Vec::new(alloc);
        if let Some(table) = self.table {
            push_flags(&mut rustflags, &table.rustflags)?;
        }
        push_flags(&mut rustflags, &self.variables.rustflags)?;
        for true_table in self.true_tables {
            push_flags(&mut rustflags, &true_table.rustflags)?;
        }
        Ok(rustflags)
    }

    /// The same of the flags for rustdoc (Cargo Reference, Configuration,
    /// [`target.<triple>.rustdocflags`](https://doc.rust-lang.org/cargo/reference/config.html#targettriplerustdocflags)).
    ///
    /// # Errors
    /// `NoMemory` where a flag or the list finds no memory.
    pub fn rustdocflags(&self, alloc: Global) -> Result<Vec<String>, NoMemory>
        ensures { IfOk result (λ flags. map string_bytes flags.items
            ≡ joined (λ t. t.rustdocflags) self.now.variables.now.rustdocflags self.now) }
    {
        let mut rustdocflags = Vec::new(alloc);
        if let Some(table) = self.table {
            push_flags(&mut rustdocflags, &table.rustdocflags)?;
        }
        push_flags(&mut rustdocflags, &self.variables.rustdocflags)?;
        for true_table in self.true_tables {
            push_flags(&mut rustdocflags, &true_table.rustdocflags)?;
        }
        Ok(rustdocflags)
    }
}

// Whether the command line is where it was set.
fn is_command_line(definition: &Option<Definition>) -> bool
    ensures { result ≡ is_command_line (option_map origin_of definition.now) }
{
    match definition {
        Some(Definition::Cli(_)) => true,
        _ => false,
    }
}

// Appends copies of flags to others, where there are any.
fn push_flags(texts: &mut Vec<String>, flags: &Option<Flags>) -> Result<(), NoMemory>
    ensures { OnOk result (map string_bytes texts.new.items
        ≡ map string_bytes texts.old.items ++ flag_texts flags.now) }
{
    if let Some(flags) = flags {
        for flag in flags.flags.iter() {
            texts.push(flag.val.clone()?)?;
        }
    }
    Ok(())
}
