//! A source of settings, and what is written of it.
ghost use Rattle.std.specs.Prelude.{◌≡◌, false, true, IfOk, Some, map};
ghost use Rattle.serde_json.specs.View.{view};
ghost use Rattle.serde_json.specs.Written.{has_float};
ghost use Rattle.cc2_de.specs.Config.{config_at};
ghost use Rattle.cc2_json.specs.TomlLines.{toml_lines};
ghost use Rattle.cc2_cli.specs.ShowTasks.{request_view};
ghost use Rattle.cc2_show_answers.specs.Sources.{source_view};
ghost use Rattle.cc2_show_answers.specs.Sources.{headline};
ghost use Rattle.cc2_show_answers.specs.Unmerged.{IsBlock, block_text, is_there, lines_there};

use crate::told::form_of;
use cc2_cli::show::Request;
use cc2_de::Config;
use cc2_error::error::NoMemory;
use cc2_json::{Json, at_key, push_visible, to_json, toml_lines};
use std::alloc::Global;

/// A source of settings.
#[derive(Clone, Copy, Debug)]
pub enum Source<'a> {
    /// What the command line sets.
    CommandLine,
    /// What the environment's variables set.
    Variables,
    /// The file at a path.
    File(&'a str),
}

/// What is written of a source that has this configuration: where something is at the pieces of the key, a headline,
/// a line for each value, and an empty line; else nothing.
///
/// # Errors
/// `NoMemory` where memory ran out.
pub fn block(
    alloc: Global,
    request: Request<'_>,
    pieces: &[&str],
    source: Source<'_>,
    config: Config,
) -> Result<Vec<u8>, NoMemory>
    ensures { IfOk result (λ block.
        IsBlock (request_view request.entry) (map (λ p. p.now) pieces.now)
        (source_view source.entry) (config_at config) block.items) }
{
    let json = to_json(alloc, config, form_of(request))?;
    match at_key(&json, pieces, request.origins) {
        Some(found) => block_of(alloc, request, pieces, source, found),
        None => Ok(Vec::new(alloc)),
    }
}

// The same of what is at the key.
fn block_of(
    alloc: Global,
    request: Request<'_>,
    pieces: &[&str],
    source: Source<'_>,
    found: &Json,
) -> Result<Vec<u8>, NoMemory>
    ensures { IfOk result (λ block. has_float (view found.now) ≡ false → block.items
        ≡ block_text (is_there (Some (view found.now))) (source_view source.entry)
        (lines_there (request_view request.entry).origins (map (λ p. p.now) pieces.now)
        (Some (view found.now)))) }
{
    if is_there(found) {
        told_block(alloc, request, pieces, source, found)
    } else {
        Ok(Vec::new(alloc))
    }
}

// Whether it is more than a table without keys.
fn is_there(json: &Json) -> bool
    ensures { result ≡ is_there (Some (view json.now)) }
{
    match json.as_object() {
        Some(members) => !members.is_empty(),
        None => true,
    }
}

// The headline of a source, the lines of what is at the pieces of a key, and an empty line.
fn told_block(
    alloc: Global,
    request: Request<'_>,
    pieces: &[&str],
    source: Source<'_>,
    found: &Json,
) -> Result<Vec<u8>, NoMemory>
    ensures { IfOk result (λ block. has_float (view found.now) ≡ false → block.items
        ≡ block_text true (source_view source.entry)
        (toml_lines (request_view request.entry).origins (map (λ p. p.now) pieces.now)
        (view found.now))) }
{
    let mut block = headline(alloc, source)?;
    let mut lines = toml_lines(alloc, pieces, found, request.origins)?;
    block.append(&mut lines)?;
    block.push(b'\n')?;
    Ok(block)
}

// The comment that names a source.
fn headline(alloc: Global, source: Source<'_>) -> Result<Vec<u8>, NoMemory>
    ensures { IfOk result (λ line. line.items ≡ headline (source_view source.entry)) }
{
    match source {
        Source::CommandLine => Ok(Vec::from_slice(alloc, b"# --config cli option\n")?),
        Source::Variables => Ok(Vec::from_slice(alloc, b"# environment variables\n")?),
        Source::File(path) => {
            let mut line = Vec::from_slice(alloc, b"# ")?;
            push_visible(&mut line, path.as_bytes())?;
            line.push(b'\n')?;
            Ok(line)
        }
    }
}
