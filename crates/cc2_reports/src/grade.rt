//! How many problems there are of each level, and the exit status.
ghost use Rattle.std.specs.Prelude.{◌≡◌};
ghost use Rattle.cc2_reports.specs.Grades.{count_of, counts_of, status_for};
ghost use Rattle.cc2_reports.specs.Problems.{problems_of};

use crate::level::Level;
use crate::report::Report;

/// How many problems there are of each level.
#[derive(Clone, Copy, Debug, PartialEq, Eq)]
pub struct Counts {
    /// Those that are errors.
    pub errors: usize,
    /// Those that are warnings.
    pub warnings: usize,
    /// Those that are notes.
    pub notes: usize,
}

/// How many reports there are of each level.
pub fn counts_of(reports: &[Report]) -> Counts
    ensures { result ≡ counts_of (problems_of reports.now) }
{
    Counts {
        errors: count_of(reports, Level::Error),
        warnings: count_of(reports, Level::Warning),
        notes: count_of(reports, Level::Note),
    }
}

// How many of the reports are of this level.
fn count_of(reports: &[Report], level: Level) -> usize
    ensures { result ≡ count_of level (problems_of reports.now) }
{
    let mut count = 0;
    for report in reports {
        if level.is(report.lint.level()) {
            count += 1;
        }
    }
    count
}

/// 1 if one of the reports is at this level or above it, else 0.
pub fn status_for(deny: Level, reports: &[Report]) -> u8
    ensures { result ≡ status_for deny (problems_of reports.now) }
{
    for report in reports {
        if deny.is_reached_by(report.lint.level()) {
            return 1;
        }
    }
    0
}
