//! Values that a load refuses and Cargo accepts.
ghost use Rattle.std.specs.Prelude.{◌≡◌, is_some, map, option_map, string_bytes};
ghost use Rattle.std.specs.List.{list_any};
ghost use Rattle.toml.specs.View.{table_view, view};
ghost use Rattle.cc2_error.specs.Causes.{refusal_of};
ghost use Rattle.cc2_findings.specs.ClashViews.{clash_view};
ghost use Rattle.cc2_lint_settings.specs.Views.{table_of};
ghost use Rattle.cc2_lint.specs.Accepted.{has_entry, is_accepted, is_fine, is_fine_at, is_boolean, is_long_timeout, is_of_provider, is_replaced, is_word, lacks_value, file_value};
ghost use Rattle.cc2_lint.specs.Subjects.{are_same};

use cc2_error::error::{Error, ErrorKind};
use cc2_findings::{Clash, Form, LintedFile, ValueFault, member};
use cc2_reports::are_same_keys;

// The greatest number that a load takes for `http.timeout`.
const MOST_SECONDS: i64 = 4294967295;

/// Why Cargo 1.95 accepts a value that a load refuses.
#[derive(Clone, Copy, Debug, PartialEq, Eq)]
pub enum Accepted {
    /// `build.jobs` is `default`.
    DefaultJobs,
    /// `http.timeout` has more than 32 bits.
    LongTimeout,
    /// It ignores the arguments of a built-in credential provider.
    ProviderArguments,
    /// It warns of a bad `future-incompat-report.frequency`.
    Frequency,
    /// A file that takes precedence sets the key, so that it doesn't read the value.
    Overridden,
    /// Another file has the `value` of an entry of `env`.
    ValueElsewhere,
}

impl Accepted {
    /// The text for a report.
    pub fn message(self) -> &'static str {
        match self {
            Accepted::DefaultJobs => {
                "Cargo accepts `default` here; this library and cargo-config2 0.1.45 don't"
            }
            Accepted::LongTimeout => {
                "Cargo accepts such a number here; this library and cargo-config2 0.1.45 don't"
            }
            Accepted::ProviderArguments => {
                "Cargo ignores the arguments of this provider; this library and cargo-config2 0.1.45 refuse them"
            }
            Accepted::Frequency => {
                "Cargo ignores this value with a warning; this library and cargo-config2 0.1.45 refuse it"
            }
            Accepted::Overridden => {
                "Cargo doesn't read an overridden value; this library and cargo-config2 0.1.45 refuse it"
            }
            Accepted::ValueElsewhere => {
                "Cargo takes `value` from another file; this library and cargo-config2 0.1.45 don't"
            }
        }
    }
}

/// Why Cargo accepts a value that a load refuses, if it does. The value is of a file with this table, which is one of
/// these files and clashes so with the nearer ones.
pub fn reason_of(
    fault: &ValueFault,
    table: &toml::Table,
    clashes: &[Clash],
    files: &[LintedFile],
) -> Option<Accepted>
    ensures { is_some result ≡ is_accepted (table_view table.now) (map table_of files.now)
        (map clash_view clashes.now) fault.now }
{
    if is_of_provider(&fault.error) {
        return Some(Accepted::ProviderArguments);
    }
    if is_replaced(fault.path.as_slice(), clashes) {
        return Some(Accepted::Overridden);
    }
    fine_at(fault.path.as_slice(), table, files)
}

// Whether the arguments of a provider are refused.
fn is_of_provider(error: &Error) -> bool
    ensures { result ≡ is_of_provider (refusal_of error.now).cause }
{
    match error.kind() {
        ErrorKind::ProviderArgs { .. } => true,
        _ => false,
    }
}

// Whether a single value of a nearer file takes the place of that at a path.
fn is_replaced(path: &[String], clashes: &[Clash]) -> bool
    ensures { result ≡ is_replaced (map string_bytes path.now) (map clash_view clashes.now) }
{
    for clash in clashes {
        if are_same(clash.form, clash.nearer) && are_same_keys(clash.path.as_slice(), path) {
            return true;
        }
    }
    false
}

/// Whether both files set a key to a value of the same form.
pub fn are_same(form: Form, other: Form) -> bool
    ensures { result ≡ are_same form other }
{
    match (form, other) {
        (Form::Single, Form::Single)
        | (Form::Text, Form::Text)
        | (Form::List, Form::List)
        | (Form::Table, Form::Table) => true,
        _ => false,
    }
}

// Why Cargo accepts the value at a path of two keys, if it does.
fn fine_at(path: &[String], table: &toml::Table, files: &[LintedFile]) -> Option<Accepted>
    ensures { is_some result
        ≡ is_fine_at (table_view table.now) (map table_of files.now) (map string_bytes path.now) }
{
    let [section, key] = path else {
        return None;
    };
    match value_in(section.as_str(), key.as_str(), table) {
        Some(value) => fine(section.as_str(), key.as_str(), value, files),
        None => None,
    }
}

// The value at a key of a table of a file.
fn value_in<'a>(section: &str, key: &str, table: &'a toml::Table) -> Option<&'a toml::Value>
    ensures { option_map (λ v. view v.now) result
        ≡ file_value section.now key.now (table_view table.now) }
{
    match member(table, section) {
        Some(value) => value.get(key),
        None => None,
    }
}

// Why Cargo accepts this value at a key of a table, if it does.
fn fine(section: &str, key: &str, value: &toml::Value, files: &[LintedFile]) -> Option<Accepted>
    ensures { is_some result
        ≡ is_fine section.now key.now (map table_of files.now) (view value.now) }
{
    if section == "build" && key == "jobs" && is_word(value, "default") {
        Some(Accepted::DefaultJobs)
    } else if section == "http" && key == "timeout" && is_long_timeout(value) {
        Some(Accepted::LongTimeout)
    } else if section == "future-incompat-report" && key == "frequency" {
        Some(Accepted::Frequency)
    } else if section == "env" && lacks_value(value) && has_value(key, files) {
        Some(Accepted::ValueElsewhere)
    } else {
        None
    }
}

fn is_word(value: &toml::Value, word: &str) -> bool
    ensures { result ≡ is_word word.now (view value.now) }
{
    match value.as_str() {
        Some(text) => text == word,
        None => false,
    }
}

fn is_long_timeout(value: &toml::Value) -> bool
    ensures { result ≡ is_long_timeout (view value.now) }
{
    match value.as_integer() {
        Some(number) => number > MOST_SECONDS,
        None => false,
    }
}

// Whether it is an entry of `env` that is fine but for its `value`.
fn lacks_value(entry: &toml::Value) -> bool
    ensures { result ≡ lacks_value (view entry.now) }
{
    match entry.as_table() {
        Some(table) => {
            member(table, "value").is_none()
                && is_boolean(member(table, "force"))
                && is_boolean(member(table, "relative"))
        }
        None => false,
    }
}

// Whether it is a boolean, if it is there.
fn is_boolean(value: Option<&toml::Value>) -> bool
    ensures { result ≡ is_boolean (option_map (λ v. view v.now) value.entry) }
{
    match value {
        Some(value) => value.as_bool().is_some(),
        None => true,
    }
}

// Whether one of the files has a table with a `value` for this entry of `env`.
fn has_value(name: &str, files: &[LintedFile]) -> bool
    ensures { result ≡ list_any (has_entry name.now) (map table_of files.now) }
{
    for file in files {
        if has_entry(name, &file.found.table) {
            return true;
        }
    }
    false
}

fn has_entry(name: &str, table: &toml::Table) -> bool
    ensures { result ≡ has_entry name.now (table_view table.now) }
{
    match value_in("env", name, table) {
        Some(entry) => entry.get("value").is_some(),
        None => false,
    }
}
