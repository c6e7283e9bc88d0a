//! The error of a result, apart from out of memory.
ghost use Rattle.std.specs.Prelude.{IfOk};
ghost use Rattle.cc2_lint_settings.specs.Errors.{IsErrorOf};

use cc2_error::error::{Error, NoMemory};
use cc2_findings::no_memory_wanted;

/// The error of a result, if it has one; what it has else is dropped.
///
/// # Errors
/// `NoMemory` where the error is out of memory.
pub(crate) fn refused<T: Drop>(
    answer: cc2_error::error::Result<T>,
) -> Result<Option<Error>, NoMemory>
    ensures { IfOk result (IsErrorOf answer) }
{
    match answer {
        Ok(_) => Ok(None),
        Err(error) => {
            no_memory_wanted(&error)?;
            Ok(Some(error))
        }
    }
}
