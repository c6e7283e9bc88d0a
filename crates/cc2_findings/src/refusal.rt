//! Whether a load refuses what a file holds.
ghost use Rattle.std.specs.Prelude.{◌≡◌, ◌≢◌, IfOk, OnOk, OnErr};
ghost use Rattle.toml.specs.View.{table_view};
ghost use Rattle.cc2_error.specs.Causes.{refusal_of, memory};
ghost use Rattle.cc2_findings.specs.Values.{IsRefusal};

use cc2_de::Config;
use cc2_error::error::{Error, ErrorKind, NoMemory};
use std::alloc::Global;

// Why a load refuses a table, if it does.
pub(crate) fn refusal(alloc: Global, table: &toml::Table) -> Result<Option<Error>, NoMemory>
    ensures { IfOk result (IsRefusal (table_view table.now)) }
{
    match Config::from_table(alloc, table) {
        Ok(_) => Ok(None),
        Err(error) => {
            no_memory_wanted(&error)?;
            Ok(Some(error))
        }
    }
}

/// Nothing, where an error has another cause than out of memory.
///
/// # Errors
/// `NoMemory` where the error is out of memory.
pub fn no_memory_wanted(error: &Error) -> Result<(), NoMemory>
    ensures ok { OnOk result ((refusal_of error.now).cause ≢ memory) }
    ensures refused { OnErr result ((refusal_of error.now).cause ≡ memory) }
{
    if matches!(error.kind(), ErrorKind::Memory) {
        return Err(NoMemory);
    }
    Ok(())
}
