//! The targets that Cargo builds for.
ghost use Rattle.std.specs.Prelude.{◌≡◌, ◌∷◌, [], false, IfOk, codes, map, option_map, string_bytes};
ghost use Rattle.std.specs.List.{list_any};
ghost use Rattle.cc2_error.specs.Commands.{command_of};
ghost use Rattle.cc2_error.specs.Outcomes.{Gives};
ghost use Rattle.cc2_base.specs.Told.{Keeps, WhereTold};
ghost use Rattle.cc2_cargo.specs.Raw.{raw_members_at};
ghost use Rattle.cc2_cargo_settings.specs.Shown.{list_view};
ghost use Rattle.cc2_cargo_settings.specs.TextOrList.{text_or_list_at};
ghost use Rattle.cc2_cargo_target.specs.Shown.{requested_view};
ghost use Rattle.cc2_cargo_target.specs.Targets.{all_requested, is_host, misnamed, need_host, request_of, targets_of, texts_or, triple_of, triples_of, triples_with};
ghost use Rattle.cc2_rustc.specs.AskedVersions.{rustc_host};

use crate::flags::word_texts;
use cc2_base::programs::Programs;
use cc2_cargo_settings::{List, Sources, owned, text_or_list};
use cc2_error::error::{Error, ErrorKind, NoMemory, ParseCause, Result};
use cc2_error::path_and_args::PathAndArgs;
use cc2_rustc::host_of_rustc;
use std::alloc::Global;

// A target.
#[derive(Drop)]
pub(crate) enum Requested {
    Host,
    Triple(String),
}

/// The triples of the targets that Cargo builds for: those of these texts, as of `--target`; without a text those of
/// `build.target`; without any the host's. The text `host-tuple` is the host, for which rustc is run once (Cargo Reference,
/// Configuration,
/// [`build.target`](https://doc.rust-lang.org/cargo/reference/config.html#buildtarget)).
///
/// # Errors
/// - `ErrorKind::ParseFile` with the path `build.target` where neither a text nor an array of texts is there, whether it counts
///   or not; and where a text is empty or ends with `.json`;
/// - `ErrorKind::NotRun`, `ProgramFailed`, `OutputNotText` and `VersionOutput` by rustc's answer, where the host is needed;
/// - `ErrorKind::Memory` where memory ran out.
///
/// # Example
/// ```ignore
/// let triples = targets_by_cargo(alloc, sources, &rustc, &["host-tuple"], &mut programs)?;
/// ```
pub fn targets_by_cargo<P: Programs>(
    alloc: Global,
    sources: Sources<'_>,
    rustc: &PathAndArgs,
    texts: &[&str],
    programs: &mut P,
) -> Result<Vec<String>>
    ensures told { WhereTold (P.told programs.old) (λ answers.
        Gives (λ triples. map string_bytes triples.items) result
        (targets_of (raw_members_at sources.entry.settings.now) sources.entry.machine.now
        (command_of rustc.now) answers (map (λ text. text.now) texts.now))) }
    ensures same { Keeps (P.told programs.old) (P.told programs.new) }
{
    let set = build_target(alloc, sources)?;
    let texts = texts_or(alloc, texts, set)?;
    let requested = all_requested(alloc, texts.as_slice())?;
    triples_of(alloc, rustc, requested.as_slice(), programs)
}

/// What is set at `build.target`.
///
/// # Errors
/// `ErrorKind::ParseFile` with the path `build.target` where neither a text nor an array of texts is there, and
/// `ErrorKind::Memory`.
pub(crate) fn build_target(alloc: Global, sources: Sources<'_>) -> Result<Option<List>>
    ensures { Gives list_view result
        (text_or_list_at (raw_members_at sources.entry.settings.now) sources.entry.machine.now
        (codes "build" ∷ (codes "target" ∷ [])) (codes "CARGO_BUILD_TARGET")) }
{
    text_or_list(alloc, sources, &["build", "target"], "CARGO_BUILD_TARGET")
}

/// These texts, or else those of `build.target`.
///
/// # Errors
/// `NoMemory` where memory ran out.
pub(crate) fn texts_or(
    alloc: Global,
    texts: &[&str],
    set: Option<List>,
) -> std::result::Result<Vec<String>, NoMemory>
    ensures { IfOk result (λ all. map string_bytes all.items
        ≡ texts_or (map (λ text. text.now) texts.now) (list_view set)) }
{
    match texts {
        [] => word_texts(alloc, set),
        [_, ..] => owned(alloc, texts),
    }
}

/// What each of these texts asks for.
///
/// # Errors
/// `ErrorKind::ParseFile` where a text is empty or ends with `.json`, and `ErrorKind::Memory`.
pub(crate) fn all_requested(alloc: Global, texts: &[String]) -> Result<Vec<Requested>>
    ensures { Gives (λ all. map requested_view all.items) result
        (all_requested (map string_bytes texts.now)) }
{
    let mut all = Vec::new(alloc);
    for text in texts {
        all.push(request_of(alloc, text.as_str())?)?;
    }
    Ok(all)
}

// What a text asks for.
fn request_of(alloc: Global, text: &str) -> Result<Requested>
    ensures { Gives requested_view result (request_of text.now) }
{
    if text == "host-tuple" {
        return Ok(Requested::Host);
    }
    let triple = text.trim();
    if let Some(reason) = misnamed(triple) {
        let text = String::from_str(alloc, reason)?;
        return Err(Error::new(ErrorKind::ParseFile(ParseCause::Refused { text })));
    }
    Ok(Requested::Triple(String::from_str(alloc, triple)?))
}

// Why a text is no triple.
fn misnamed(text: &str) -> Option<&'static str>
    ensures { option_map (λ reason. reason.now) result ≡ misnamed text.now }
{
    if text.len() == 0 {
        return Some("target was empty");
    }
    if text.as_bytes().ends_with(b".json") {
        return Some("`.json` target specs require -Zjson-target-spec");
    }
    None
}

// The triples of targets.
fn triples_of<P: Programs>(
    alloc: Global,
    rustc: &PathAndArgs,
    requested: &[Requested],
    programs: &mut P,
) -> Result<Vec<String>>
    ensures told { WhereTold (P.told programs.old) (λ answers.
        Gives (λ triples. map string_bytes triples.items) result
        (triples_of (rustc_host false answers (command_of rustc.now))
        (map requested_view requested.now))) }
    ensures same { Keeps (P.told programs.old) (P.told programs.new) }
{
    if !need_host(requested) {
        return Ok(triples_with(alloc, "", requested)?);
    }
    let host = host_of_rustc(alloc, rustc, programs)?;
    Ok(triples_with(alloc, host.as_str(), requested)?)
}

// Whether the host is among targets, or there are none.
fn need_host(requested: &[Requested]) -> bool
    ensures { result ≡ need_host (map requested_view requested.now) }
{
    match requested {
        [] => true,
        [_, ..] => have_host(requested),
    }
}

fn have_host(requested: &[Requested]) -> bool
    ensures { result ≡ list_any is_host (map requested_view requested.now) }
{
    for one in requested {
        if is_host(one) {
            return true;
        }
    }
    false
}

fn is_host(requested: &Requested) -> bool
    ensures { result ≡ is_host (requested_view requested.now) }
{
    matches!(requested, Requested::Host)
}

// The triples of targets with this host; where there are none that of the host.
fn triples_with(
    alloc: Global,
    host: &str,
    requested: &[Requested],
) -> std::result::Result<Vec<String>, NoMemory>
    ensures { IfOk result (λ triples. map string_bytes triples.items
        ≡ triples_with host.now (map requested_view requested.now)) }
{
    match requested {
        [] => owned(alloc, &[host]),
        [_, ..] => each_triple(alloc, host, requested),
    }
}

fn each_triple(
    alloc: Global,
    host: &str,
    requested: &[Requested],
) -> std::result::Result<Vec<String>, NoMemory>
    ensures { IfOk result (λ triples. map string_bytes triples.items
        ≡ map (triple_of host.now) (map requested_view requested.now)) }
{
    let mut triples = Vec::new(alloc);
    for one in requested {
        triples.push(triple_of(alloc, host, one)?)?;
    }
    Ok(triples)
}

fn triple_of(
    alloc: Global,
    host: &str,
    requested: &Requested,
) -> std::result::Result<String, NoMemory>
    ensures { IfOk result (λ triple.
        string_bytes triple ≡ triple_of host.now (requested_view requested.now)) }
{
    match requested {
        Requested::Host => Ok(String::from_str(alloc, host)?),
        Requested::Triple(text) => Ok(text.clone()?),
    }
}
