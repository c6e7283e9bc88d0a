//! The text of a file, as far as it may be quoted.
ghost use Rattle.std.specs.Prelude.{◌≡◌, IfOk, OnOk};
ghost use Rattle.cc2_reports.specs.Positions.{source_text};

use crate::visible::acts_on_terminal;
use crate::{Location, Locator, Span};
use cc2_error::error::NoMemory;
use std::alloc::Global;

// A longer line isn't quoted.
const MOST_CHARACTERS: usize = 200;

// The keys of a registry whose values aren't secrets.
const OPEN_KEYS: &[&str] = &[
    "credential-provider",
    "default",
    "global-credential-providers",
    "index",
    "protocol",
    "secret-key-subject",
];

/// The text of a file, with the positions of its keys and values. A line that may contain a token is never quoted.
#[derive(Drop)]
pub struct Source<'a> {
    pub(crate) text: &'a str,
    pub(crate) locator: Locator<'a>,
    // The lines in which a secret begins.
    secret_lines: Vec<usize>,
    // The first line of a secret that has several lines: from it on nothing is quoted.
    closed_from: usize,
}

impl<'a> Source<'a> {
    /// The text of a file that holds this table.
    ///
    /// # Errors
    /// `NoMemory` where memory ran out.
    pub fn of_table(
        alloc: Global,
        text: &'a str,
        table: &toml::Table,
    ) -> Result<Source<'a>, NoMemory>
        ensures { IfOk result (λ source. source_text source ≡ text.now) }
    {
        let mut source = Source {
            text,
            locator: Locator::read(alloc, text)?,
            secret_lines: Vec::new(alloc),
            closed_from: usize::MAX,
        };
        let mut path = Vec::new(alloc);
        path.push(String::from_str(alloc, "registry")?)?;
        source.close_keys(alloc, &path, table.get("registry"))?;
        if let Some(toml::Value::Table(registries)) = table.get("registries") {
            for (name, registry) in registries.iter() {
                let mut path = Vec::new(alloc);
                path.push(String::from_str(alloc, "registries")?)?;
                path.push(name.clone()?)?;
                source.close_keys(alloc, &path, Some(registry))?;
            }
        }
        Ok(source)
    }

    /// The line of a place, where it may be quoted.
    ///
    /// # Errors
    /// `NoMemory` where memory ran out.
    pub fn line(&self, alloc: Global, place: Location) -> Result<Option<String>, NoMemory> {
        if place.line >= self.closed_from || self.secret_lines.contains(&place.line) {
            return Ok(None);
        }
        quoted_line(alloc, &self.locator, place)
    }

    /// The line of a place of a text that isn't valid TOML, where it may be quoted: where no secret is in the text.
    ///
    /// # Errors
    /// `NoMemory` where memory ran out.
    pub fn line_of_fault(
        &self,
        alloc: Global,
        place: Location,
    ) -> Result<Option<String>, NoMemory> {
        if may_tell(self.text) || self.text.contains('\\') {
            return Ok(None);
        }
        quoted_line(alloc, &self.locator, place)
    }

    // Marks the lines that may contain a secret of a registry's table: they aren't quoted.
    fn close_keys(
        &mut self,
        alloc: Global,
        path: &Vec<String>,
        registry: Option<&toml::Value>,
    ) -> Result<(), NoMemory>
        ensures { OnOk result (source_text self.new ≡ source_text self.old) }
    {
        let Some(toml::Value::Table(table)) = registry else {
            return Ok(());
        };
        for (key, value) in table.iter() {
            if may_be_secret(key.as_str(), value) {
                let mut path = path.clone()?;
                path.push(key.clone()?)?;
                let span = self.locator.value_span(alloc, path.as_slice())?;
                self.close(span, value.is_str())?;
            }
        }
        Ok(())
    }

    // Marks the lines of a secret: they aren't quoted.
    fn close(&mut self, span: Option<Span>, is_text: bool) -> Result<(), NoMemory>
        ensures { OnOk result (source_text self.new ≡ source_text self.old) }
    {
        let Some(Span { start, .. }) = span else {
            self.closed_from = 0;
            return Ok(());
        };
        let line = self.locator.line_at(start).unwrap_or("");
        if is_text && !line.contains("\"\"\"") && !line.contains("'''") {
            self.secret_lines.push(start.line)?;
        } else {
            self.closed_from = self.closed_from.min(start.line);
        }
        Ok(())
    }
}

/// Whether a piece of a text may be quoted in a message.
pub fn is_short(piece: &str) -> bool {
    piece.len() <= 100
        && !piece.is_empty()
        && !piece.chars().any(|character| acts_on_terminal(false, character) || character == '\t')
}

// The line of a place; none where it is too long, where it may hold a token, and where a terminal may take some of it
// for more than text.
fn quoted_line(
    alloc: Global,
    locator: &Locator<'_>,
    place: Location,
) -> Result<Option<String>, NoMemory> {
    match locator.line_at(place) {
        Some(line) if is_shown(line) => Ok(Some(String::from_str(alloc, line)?)),
        _ => Ok(None),
    }
}

fn is_shown(line: &str) -> bool {
    line.chars().count() <= MOST_CHARACTERS
        && !may_tell(line)
        && !line
            .chars()
            .any(|character| acts_on_terminal(false, character))
}

// Whether the text names a token or a secret.
fn may_tell(text: &str) -> bool {
    text.contains("token") || text.contains("secret")
}

// Whether the value at a key of a registry's table may be a secret.
fn may_be_secret(key: &str, value: &toml::Value) -> bool {
    match value {
        toml::Value::String(_) | toml::Value::Array(_) | toml::Value::Table(_) => {
            !OPEN_KEYS.contains(&key)
        }
        _ => false,
    }
}
