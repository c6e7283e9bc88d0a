//! Which problems are reported: those that aren't allowed, each once.
ghost use Rattle.std.specs.Prelude.{◌≡◌, ◌++◌, OnOk, map};
ghost use Rattle.std.specs.List.{list_any};
ghost use Rattle.cc2_reports.specs.Problems.{problem_of, problems_of};
ghost use Rattle.cc2_reports.specs.Selected.{is_allowed, is_reported, new_among};

use crate::report::Report;
use cc2_error::error::NoMemory;

/// Appends those of these reports whose lint isn't allowed and that don't say the same as an earlier one.
///
/// # Errors
/// `NoMemory` where memory ran out.
pub fn append_new(
    all: &mut Vec<Report>,
    allowed: &[&str],
    found: Vec<Report>,
) -> Result<(), NoMemory>
    ensures { OnOk result (problems_of all.new.items ≡ problems_of all.old.items
        ++ new_among (map (λ word. word.now) allowed.now)
        (problems_of all.old.items) (problems_of found.items)) }
{
    for report in found {
        if !is_allowed(allowed, &report) && !is_reported(all.as_slice(), &report) {
            all.push(report)?;
        }
    }
    Ok(())
}

// Whether its lint is one of those that are allowed.
fn is_allowed(allowed: &[&str], report: &Report) -> bool
    ensures { result ≡ is_allowed (map (λ word. word.now) allowed.now) (problem_of report.now) }
{
    for word in allowed {
        if *word == report.lint.word() {
            return true;
        }
    }
    false
}

// Whether one of these says the same.
fn is_reported(all: &[Report], report: &Report) -> bool
    ensures { result ≡ is_reported (problems_of all.now) (problem_of report.now) }
{
    for other in all {
        if report.is_same(other) {
            return true;
        }
    }
    false
}
