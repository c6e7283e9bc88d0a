//! What has to be known next.
ghost use Rattle.std.specs.Prelude.{◌≡◌, ◌≢◌, ◌++◌, [], ℕ, List, true, OnOk, IfOk, map, string_bytes};
ghost use Rattle.cc2_ask.specs.Needs.{candidates_of, is_need_of, is_listed, AreListed, AreNeedsOf, is_new, need_view};
ghost use Rattle.cc2_ask.specs.Views.{given_view};
ghost use Rattle.cc2_ask.specs.Replies.{AreNew};

use crate::candidates::{candidates, is_listed};
use crate::given::Given;
use crate::need::Need;
use cc2_error::error::NoMemory;
use std::alloc::Global;

/// All that a reply asks for where this has to be known. Where it is whether a file is there, that is the content of each
/// path at which the walk from `dir` may look; where all of these are given, it is this alone.
///
/// # Errors
/// `NoMemory` where memory ran out, and where the request gives what has to be known. So it is too where a path is
/// neither one of the walk's nor one of these others.
pub fn needs_for(
    alloc: Global,
    given: &Given,
    dir: &str,
    others: &[String],
    need: Need,
) -> Result<Vec<Need>, NoMemory>
    ensures some { IfOk result (λ needs. needs.items ≢ []) }
    ensures new { IfOk result (λ needs.
        AreNew (given_view given.now) (map need_view needs.items)) }
    ensures listed { IfOk result (λ needs.
        AreNeedsOf (candidates_of dir.now given.now.machine ++ map string_bytes others.now)
        (map need_view needs.items)) }
{
    let walked = candidates(alloc, dir, &given.machine)?;
    if let Need::Exists(_) = &need {
        let contents = contents_of(alloc, given, walked.as_slice())?;
        if !contents.is_empty() {
            return Ok(contents);
        }
    }
    one_need(alloc, given, walked.as_slice(), others, need)
}

// What isn't given of the contents of these paths.
fn contents_of(alloc: Global, given: &Given, paths: &[String]) -> Result<Vec<Need>, NoMemory>
    ensures new { IfOk result (λ needs.
        AreNew (given_view given.now) (map need_view needs.items)) }
    ensures listed { (all : List (List ℕ)) → AreListed all (map string_bytes paths.now)
        → IfOk result (λ needs. AreNeedsOf all (map need_view needs.items)) }
{
    let mut needs = Vec::new(alloc);
    push_contents(given, paths, &mut needs)?;
    Ok(needs)
}

// This need alone, where it isn't given, and is a command's or of one of these paths, or of those others.
fn one_need(
    alloc: Global,
    given: &Given,
    paths: &[String],
    others: &[String],
    need: Need,
) -> Result<Vec<Need>, NoMemory>
    ensures some { IfOk result (λ needs. needs.items ≢ []) }
    ensures new { IfOk result (λ needs.
        AreNew (given_view given.now) (map need_view needs.items)) }
    ensures listed { IfOk result (λ needs. AreNeedsOf
        (map string_bytes paths.now ++ map string_bytes others.now) (map need_view needs.items)) }
{
    if given.is_new(&need) && is_need_of(&need, paths, others) {
        let mut needs = Vec::new(alloc);
        needs.push(need)?;
        return Ok(needs);
    }
    Err(NoMemory)
}

// Whether a need for a path is for one of these, or of those others.
fn is_need_of(need: &Need, paths: &[String], others: &[String]) -> bool
    ensures { result ≡ is_need_of (map string_bytes paths.now ++ map string_bytes others.now)
        (need_view need.now) }
{
    match need {
        Need::Exists(path) => is_either(path.as_str(), paths, others),
        Need::Content(path) => is_either(path.as_str(), paths, others),
        Need::Answer(_) => true,
    }
}

// Whether a path is one of these, or of those others.
#[tactic(auto, using(crate::proofs::Listed::listed_either))]
fn is_either(path: &str, paths: &[String], others: &[String]) -> bool
    ensures { result ≡ is_listed path.now
        (map string_bytes paths.now ++ map string_bytes others.now) }
{
    is_listed(path, paths) || is_listed(path, others)
}

// Appends what isn't given of the contents of these paths.
fn push_contents(given: &Given, paths: &[String], needs: &mut Vec<Need>) -> Result<(), NoMemory>
    ensures new { AreNew (given_view given.now) (map need_view needs.old.items)
        → OnOk result (AreNew (given_view given.now) (map need_view needs.new.items)) }
    ensures listed { (all : List (List ℕ)) → AreListed all (map string_bytes paths.now)
        → AreNeedsOf all (map need_view needs.old.items)
        → OnOk result (AreNeedsOf all (map need_view needs.new.items)) }
{
    for path in paths {
        push_new(given, needs, Need::Content(path.clone()?))?;
    }
    Ok(())
}

// Appends a need that isn't given.
fn push_new(given: &Given, needs: &mut Vec<Need>, need: Need) -> Result<(), NoMemory>
    ensures new { AreNew (given_view given.now) (map need_view needs.old.items)
        → OnOk result (AreNew (given_view given.now) (map need_view needs.new.items)) }
    ensures listed { (all : List (List ℕ)) → is_need_of all (need_view need) ≡ true
        → AreNeedsOf all (map need_view needs.old.items)
        → OnOk result (AreNeedsOf all (map need_view needs.new.items)) }
{
    if given.is_new(&need) {
        needs.push(need)?;
    }
    Ok(())
}
