//! A problem as it is reported.
ghost use Rattle.std.specs.Prelude.{◌≡◌, [], None, Some, map, string_bytes, IfOk, OnOk};
ghost use Rattle.cc2_reports.specs.Order.{AreInOrder, place_of};
ghost use Rattle.cc2_reports.specs.Problems.{are_same_keys, IsAt, SaysTheSame, problem_of, Says, says_same, subject_of};

use crate::Span;
use crate::lint::Lint;
use crate::position::Part;
use cc2_error::error::NoMemory;
use std::alloc::Global;

/// A problem as it is reported.
#[derive(Debug, Drop)]
pub struct Report {
    /// The file.
    pub file: String,
    /// The lint that it is of.
    pub lint: Lint,
    /// The keys that lead to it; none where it is the file's.
    pub path: Vec<String>,
    /// What of the last key it is about.
    pub part: Part,
    /// Keys below it that lead to the value that is wrong; mostly none.
    pub below: Vec<String>,
    /// The piece of the file that it is about, if that is found.
    pub span: Option<Span>,
    /// The line of that piece, where it may be quoted.
    pub line: Option<String>,
    /// What is wrong, in one line.
    pub message: String,
    /// What helps, if anything is, in one line.
    pub help: Option<String>,
}

impl Report {
    /// A report of a file as a whole.
    ///
    /// # Errors
    /// `NoMemory` where memory ran out.
    pub fn new(alloc: Global, file: &str, lint: Lint, message: String) -> Result<Report, NoMemory>
        ensures { IfOk result (Says (record { file = file.now; lint = lint; keys = [] })
            (string_bytes message) None) }
    {
        Ok(Report {
            file: String::from_str(alloc, file)?,
            lint,
            path: Vec::new(alloc),
            part: Part::File,
            below: Vec::new(alloc),
            span: None,
            line: None,
            message,
            help: None,
        })
    }

    /// The same of the last key of a path.
    pub fn at_key(self, path: Vec<String>) -> Report
        ensures { IsAt (map string_bytes path.items) self result }
    {
        self.about(path, Part::Key)
    }

    /// The same of the value of the last key of a path.
    pub fn at_value(self, path: Vec<String>) -> Report
        ensures { IsAt (map string_bytes path.items) self result }
    {
        self.about(path, Part::Value)
    }

    /// The same of a part of the last key of a path, or of its value.
    pub fn about(self, path: Vec<String>, part: Part) -> Report
        ensures { IsAt (map string_bytes path.items) self result }
    {
        Report { path, part, ..self }
    }

    /// The same of the value at keys below the last key of its path.
    pub fn below(self, keys: Vec<String>) -> Report
        ensures { SaysTheSame self result }
    {
        Report {
            below: keys,
            ..self
        }
    }

    /// The same of a piece of a file that isn't valid TOML: so many bytes from an offset on.
    pub fn at_bytes(self, offset: usize, length: usize) -> Report
        ensures { SaysTheSame self result }
    {
        Report {
            part: Part::Bytes { offset, length },
            ..self
        }
    }

    /// The same with this help.
    ///
    /// # Errors
    /// `NoMemory` where memory ran out.
    pub fn with_help(self, alloc: Global, help: &str) -> Result<Report, NoMemory>
        ensures { IfOk result (Says (subject_of self) (string_bytes self.message) (Some help.now)) }
    {
        Ok(Report {
            help: Some(String::from_str(alloc, help)?),
            ..self
        })
    }

    /// Whether it says the same of the same key of the same file.
    pub fn is_same(&self, other: &Report) -> bool
        ensures { result ≡ says_same (problem_of self.now) (problem_of other.now) }
    {
        self.message.as_str() == other.message.as_str()
            && are_same_keys(self.path.as_slice(), other.path.as_slice())
            && self.lint.word() == other.lint.word()
            && self.file.as_str() == other.file.as_str()
    }
}

/// Whether two lists of keys are equal.
pub fn are_same_keys(keys: &[String], others: &[String]) -> bool
    ensures { result ≡ are_same_keys (map string_bytes keys.now) (map string_bytes others.now) }
{
    keys == others
}

/// Puts the reports of a file in the order of its lines, those of the file as a whole first.
///
/// # Errors
/// `NoMemory` where memory ran out.
pub fn sort(reports: &mut Vec<Report>) -> Result<(), NoMemory>
    ensures { OnOk result (AreInOrder reports.old.items reports.new.items) }
{
    reports.sort_by_key(|report| place_of(report))?;
    Ok(())
}

// The line and the column; zeros of the file as a whole.
fn place_of(report: &Report) -> (usize, usize)
    ensures { result ≡ place_of report.now.span }
{
    match report.span {
        Some(span) => (span.start.line, span.start.column),
        None => (0, 0),
    }
}
