//! What a refusal prints: the context where there is one, else the line of its kind. The lines are
//! those of the crate `cargo-config2`; where it leaves one to the system or to serde, a line of our
//! own.
ghost use Rattle.std.specs.Prelude.{◌≡◌, Some, None, if◌then◌else◌, string_bytes, map, option_map};
ghost use Rattle.std.specs.Fmt.{WritesOnOk};
ghost use Rattle.cc2_error.specs.Commands.{command_of};
ghost use Rattle.cc2_error.specs.Causes.{cause_of, parse_cause, read_cause, separator_cause, cfg_value_cause, refusal_of, provider_args, not_run, program_failed, output_not_text, version_output};
ghost use Rattle.cc2_error.specs.ErrorTexts.{own_line, printed, command_text, each_behind, dotted, status_text, is_worth_showing, stream_text};

use crate::error::{CfgValueFault, Error, ErrorKind, ParseCause, ReadCause, Separator};
use crate::path_and_args::PathAndArgs;
use std::fmt;

/// The context where there is one, else the line of the kind. It refuses what the writer refuses.
impl fmt::Display for Error {
    ghost output = { λ e. Some (printed (refusal_of e)) };

    fn fmt<W: fmt::Write>(&self, f: &mut fmt::Formatter<W>) -> fmt::Result {
        match self.context() {
            Some(context) => f.write_str(context),
            None => fmt::Display::fmt(self.kind(), f),
        }
    }
}

/// The kind's own line. Of a program that failed the outputs follow, each where it is UTF-8 and
/// more than white space.
impl fmt::Display for ErrorKind {
    ghost output = { λ kind. Some (own_line (cause_of kind)) };

    fn fmt<W: fmt::Write>(&self, f: &mut fmt::Formatter<W>) -> fmt::Result {
        match self {
            ErrorKind::Memory => f.write_str("out of memory"),
            ErrorKind::ReadFile(cause) => f.write_str(read_line(*cause)),
            ErrorKind::ParseFile(cause) => write_parse_line(f, cause),
            ErrorKind::Merge {
                expected,
                found,
                ..
            } => write!(f, "expected {expected}, but found {found}"),
            ErrorKind::EnvNotText { shown } => {
                write!(f, "environment variable was not valid unicode: {shown}")
            }
            ErrorKind::EnvParse { must, found } => write!(f, "{must}, but found `{found}`"),
            ErrorKind::EmptyCommand => f.write_str(EMPTY_COMMAND),
            ErrorKind::ProviderArgs { kind } => write_provider_args(f, kind),
            ErrorKind::ProviderNoCommand => f.write_str(PROVIDER_NO_COMMAND),
            ErrorKind::NoRoot { file, value } => write!(f, "no root above `{file}` for `{value}`"),
            ErrorKind::SpecName => f.write_str("target spec path has no file name"),
            ErrorKind::CfgParse(error) => write!(f, "{error}"),
            ErrorKind::NotTriple { triple } => write!(f, "'{triple}' is not valid target triple"),
            ErrorKind::NotRun { command } => write_not_run(f, command),
            ErrorKind::ProgramFailed {
                command,
                code,
                stdout,
                stderr,
            } => write_failed(f, command, *code, stdout.as_slice(), stderr.as_slice()),
            ErrorKind::OutputNotText { command } => write_not_text(f, command),
            ErrorKind::VersionOutput { command, output } => write_no_version(f, command, output),
            ErrorKind::CfgValue { key, fault } => write_cfg_value(f, key, *fault),
            ErrorKind::Separator(separator) => f.write_str(separator_line(*separator)),
            ErrorKind::BadSpelling { must } => f.write_str(must),
        }
    }
}

const EMPTY_COMMAND: &str = "invalid length 0, expected at least one element";

const PROVIDER_NO_COMMAND: &str =
    "invalid length 1, expected at least two elements for registry of kind \"cargo:token-from-stdout\"";

fn read_line(cause: ReadCause) -> &'static str
    ensures { result.now ≡ own_line (read_cause cause) }
{
    match cause {
        ReadCause::Unreadable => "file cannot be read",
        ReadCause::NotText => "file is not UTF-8",
    }
}

fn separator_line(separator: Separator) -> &'static str
    ensures { result.now ≡ own_line (separator_cause separator) }
{
    match separator {
        Separator::Unit => "flag in rustflags must not contain its separator ('\\u{1f}')",
        Separator::Space => "flag in rustflags must not contain its separator (' ')",
    }
}

fn write_parse_line<W: fmt::Write>(f: &mut fmt::Formatter<W>, cause: &ParseCause) -> fmt::Result
    ensures { WritesOnOk W.write_str_gives f.old result (own_line (parse_cause cause.now)) f.new }
{
    match cause {
        ParseCause::WrongType { path } => {
            f.write_str("wrong type at `")?;
            write_dotted(f, path.as_slice())?;
            f.write_str("`")
        }
        ParseCause::Refused { text } => f.write_str(text.as_str()),
    }
}

fn write_provider_args<W: fmt::Write>(f: &mut fmt::Formatter<W>, kind: &str) -> fmt::Result
    ensures { WritesOnOk W.write_str_gives f.old result (own_line (provider_args kind.now)) f.new }
{
    write!(
        f,
        "args should be empty for credential provider of kind \"{kind}\""
    )
}

// The keys with a dot between two.
fn write_dotted<W: fmt::Write>(f: &mut fmt::Formatter<W>, path: &[String]) -> fmt::Result
    ensures { WritesOnOk W.write_str_gives f.old result (dotted (map string_bytes path.now)) f.new }
{
    match path.split_first() {
        Some((key, keys)) => {
            f.write_str(key.as_str())?;
            write_each_behind(f, ".", keys)
        }
        None => Ok(()),
    }
}

// Each text after the mark.
fn write_each_behind<W: fmt::Write>(
    f: &mut fmt::Formatter<W>,
    mark: &str,
    texts: &[String],
) -> fmt::Result
    ensures { WritesOnOk W.write_str_gives f.old result
        (each_behind mark.now (map string_bytes texts.now)) f.new }
{
    for text in texts {
        write!(f, "{mark}{text}")?;
    }
    Ok(())
}

// A command as it is printed.
#[derive(Clone, Copy)]
struct Quoted<'a>(&'a PathAndArgs);

impl fmt::Display for Quoted<'_> {
    ghost output = { λ quoted. Some (command_text (command_of quoted.0.now)) };

    fn fmt<W: fmt::Write>(&self, f: &mut fmt::Formatter<W>) -> fmt::Result {
        f.write_str("`")?;
        f.write_str(self.0.path.as_str())?;
        write_each_behind(f, " ", self.0.args.as_slice())?;
        f.write_str("`")
    }
}

fn write_not_run<W: fmt::Write>(f: &mut fmt::Formatter<W>, command: &PathAndArgs) -> fmt::Result
    ensures { WritesOnOk W.write_str_gives f.old result
        (own_line (not_run (command_of command.now))) f.new }
{
    let command = Quoted(command);
    write!(f, "could not execute process {command} (never executed)")
}

fn write_not_text<W: fmt::Write>(f: &mut fmt::Formatter<W>, command: &PathAndArgs) -> fmt::Result
    ensures { WritesOnOk W.write_str_gives f.old result
        (own_line (output_not_text (command_of command.now))) f.new }
{
    let command = Quoted(command);
    write!(f, "failed to parse output from {command}")
}

fn write_no_version<W: fmt::Write>(
    f: &mut fmt::Formatter<W>,
    command: &PathAndArgs,
    output: &str,
) -> fmt::Result
    ensures { WritesOnOk W.write_str_gives f.old result
        (own_line (version_output (command_of command.now) output.now)) f.new }
{
    let command = Quoted(command);
    write!(f, "unexpected version output from {command}: {output}")
}

fn write_failed<W: fmt::Write>(
    f: &mut fmt::Formatter<W>,
    command: &PathAndArgs,
    code: Option<i32>,
    stdout: &[u8],
    stderr: &[u8],
) -> fmt::Result
    ensures { WritesOnOk W.write_str_gives f.old result
        (own_line (program_failed (command_of command.now) code stdout.now stderr.now)) f.new }
{
    let command = Quoted(command);
    write!(f, "process didn't exit successfully: {command}")?;
    write_status(f, code)?;
    write_stream(f, "stdout", stdout)?;
    write_stream(f, "stderr", stderr)
}

// How the program ended.
fn write_status<W: fmt::Write>(f: &mut fmt::Formatter<W>, code: Option<i32>) -> fmt::Result
    ensures { WritesOnOk W.write_str_gives f.old result (status_text code) f.new }
{
    match code {
        Some(code) => write!(f, " (exit status: {code})"),
        None => f.write_str(" (no exit status)"),
    }
}

// What the program wrote to one of its outputs, where that is a text that isn't blank.
fn write_stream<W: fmt::Write>(f: &mut fmt::Formatter<W>, name: &str, bytes: &[u8]) -> fmt::Result
    ensures { WritesOnOk W.write_str_gives f.old result (stream_text name.now bytes.now) f.new }
{
    match text_to_show(bytes) {
        Some(text) => write!(f, "\n--- {name}\n{text}"),
        None => Ok(()),
    }
}

fn text_to_show(bytes: &[u8]) -> Option<&str>
    ensures { option_map (λ text. text.now) result
        ≡ (if is_worth_showing bytes.now then Some bytes.now else None) }
{
    match std::str::from_utf8(bytes) {
        Ok(text) if !text.trim_start().is_empty() => Some(text),
        _ => None,
    }
}

fn write_cfg_value<W: fmt::Write>(
    f: &mut fmt::Formatter<W>,
    key: &str,
    fault: CfgValueFault,
) -> fmt::Result
    ensures { WritesOnOk W.write_str_gives f.old result
        (own_line (cfg_value_cause key.now fault)) f.new }
{
    match fault {
        CfgValueFault::Absent => write!(
            f,
            "{key} cfg should be always available in cfg list from rustc --print cfg"
        ),
        CfgValueFault::TooMany => write!(f, "too many {key} cfg"),
        CfgValueFault::Unreadable => write!(f, "failed to parse value of {key} cfg"),
    }
}
