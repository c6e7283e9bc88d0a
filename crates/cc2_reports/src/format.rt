//! How reports are printed.
ghost use Rattle.std.specs.Prelude.{◌≡◌, IfOk};
ghost use Rattle.cc2_reports.specs.Printed.{printed};
ghost use Rattle.cc2_reports.specs.Problems.{problems_of};

use crate::json::json_of;
use crate::report::Report;
use crate::sarif::sarif_of;
use crate::text::text_of;
use cc2_error::error::NoMemory;
use std::alloc::Global;

/// How reports are printed.
#[derive(Clone, Copy, Debug, PartialEq, Eq)]
pub enum Format {
    /// As rustc prints its diagnostics.
    Text,
    /// One line of JSON.
    Json,
    /// One line of SARIF 2.1.0 ([its specification](https://docs.oasis-open.org/sarif/sarif/v2.1.0/sarif-v2.1.0.html)).
    Sarif,
}

/// The reports as they are printed; text may be coloured.
///
/// # Errors
/// `NoMemory` where memory ran out.
pub fn printed(
    alloc: Global,
    format: Format,
    is_coloured: bool,
    reports: &[Report],
) -> Result<Vec<u8>, NoMemory>
    ensures { IfOk result (λ text. text.items
        ≡ printed format is_coloured (problems_of reports.now)) }
{
    match format {
        Format::Text => text_of(alloc, is_coloured, reports),
        Format::Json => json_of(alloc, reports),
        Format::Sarif => sarif_of(alloc, reports),
    }
}
