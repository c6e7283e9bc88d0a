//! What was found of a request so far.
ghost use Rattle.std.specs.Prelude.{◌≡◌, option_map};
ghost use Rattle.cc2_cli.specs.ShowFound.{as_found, nothing_found, with_part};
ghost use Rattle.cc2_cli.specs.ShowTasks.{part_view};

use crate::parts::Part;
use crate::show::{Format, Stage};

/// What was found of a request so far.
#[derive(Clone, Copy, Debug)]
pub struct Found<'a> {
    /// The key whose value alone is shown.
    pub key: Option<&'a str>,
    /// Which configuration is shown.
    pub stage: Option<Stage>,
    /// How it is printed.
    pub format: Option<Format>,
    /// Whether it is one configuration, or each source's by itself.
    pub merged: Option<bool>,
    /// Whether each value is shown with where it was set.
    pub origins: bool,
    /// Whether tokens are shown as they are.
    pub tokens: bool,
}

impl Found<'_> {
    /// Nothing yet.
    pub fn nothing() -> Found<'static>
        ensures { as_found result ≡ nothing_found }
    {
        Found {
            key: None,
            stage: None,
            format: None,
            merged: None,
            origins: false,
            tokens: false,
        }
    }
}

/// One part more; none where one of its kind was found.
pub fn with_part<'a>(found: Found<'a>, part: Part<'a>) -> Option<Found<'a>>
    ensures { option_map as_found result ≡ with_part (as_found found.entry) (part_view part.entry) }
{
    let mut found = found;
    match part {
        Part::Key(text) if found.key.is_none() => found.key = Some(text),
        Part::Stage(stage) if found.stage.is_none() => found.stage = Some(stage),
        Part::Format(format) if found.format.is_none() => found.format = Some(format),
        Part::Merged(merged) if found.merged.is_none() => found.merged = Some(merged),
        Part::Origins if !found.origins => found.origins = true,
        Part::Tokens if !found.tokens => found.tokens = true,
        _ => return None,
    }
    Some(found)
}
