//! Setting where every value in a value was set.
ghost use Rattle.std.specs.Prelude.{◌≡◌, Some, OnOk, OnErr, IfErr};
ghost use Rattle.cc2_error.specs.Causes.{no_memory};
ghost use Rattle.cc2_value.specs.Cells.{file};
ghost use Rattle.cc2_value.specs.Copies.{IsCopied};
ghost use Rattle.cc2_value.specs.Values.{origin_of};

use crate::definition::Definition;
use crate::try_clone::TryClone;
use cc2_error::error::Result;
use std::alloc::Global;

/// A value whose definitions can be set, all at once.
pub trait SetPath: TryClone {
    /// Sets the definition of each value inside to this one; the values stay as they are. Fails
    /// only if memory runs out, and then nothing is changed.
    fn set_definition(&mut self, alloc: Global, definition: &Definition) -> Result<()>
        ensures set { OnOk result
            (IsCopied Self.shown (Some (origin_of definition.now)) self.old self.new) }
        ensures kept { OnErr result (self.new ≡ self.old) }
        ensures refused { IfErr result (λ e. e ≡ no_memory) }
    {
        let copy = self.copied(alloc, Some(definition))?;
        *self = copy;
        Ok(())
    }

    /// Sets the definition of each value inside to the path; the values stay as they are. Fails
    /// only if memory runs out, and then nothing is changed.
    fn set_path(&mut self, alloc: Global, path: &str) -> Result<()>
        ensures set { OnOk result (IsCopied Self.shown (Some (file path.now)) self.old self.new) }
        ensures kept { OnErr result (self.new ≡ self.old) }
        ensures refused { IfErr result (λ e. e ≡ no_memory) }
    {
        let definition = Definition::Path(String::from_str(alloc, path)?);
        self.set_definition(alloc, &definition)
    }
}

impl<T: TryClone> SetPath for T {}
