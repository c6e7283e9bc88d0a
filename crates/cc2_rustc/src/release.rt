//! The release line of the answer to `-vV`.
ghost use Rattle.std.specs.Prelude.{◌≡◌, [], ◌∷◌, option_map};
ghost use Rattle.std.specs.List.{before_first};
ghost use Rattle.std.specs.Option.{option_copied};
ghost use Rattle.cc2_value.specs.Decimals.{uint32_text};
ghost use Rattle.cc2_rustc.specs.Shown.{of_release};
ghost use Rattle.cc2_rustc.specs.Versions.{is_dot, behind_dot, numbered, numbered_text, release, release_in};

use crate::lines::behind;

// Numbers, and whether the channel is `nightly` or `dev`.
#[derive(Clone, Copy)]
pub(crate) struct Release {
    pub(crate) major: u32,
    pub(crate) minor: u32,
    pub(crate) patch: Option<u32>,
    pub(crate) nightly: bool,
}

// The release in the first line that has its prefix.
pub(crate) fn release_in(text: &str) -> Option<Release>
    ensures { option_map of_release result ≡ release_in text.now }
{
    match behind("release: ", text) {
        Some(release) => release_of(release),
        None => None,
    }
}

// Numbers with dots between them, and after the first `-` the channel.
fn release_of(text: &str) -> Option<Release>
    ensures { option_map of_release result ≡ release text.now }
{
    match text.split_once('-') {
        Some((numbers, channel)) => numbered_text(
            numbers,
            channel == "nightly" || channel == "dev",
        ),
        None => numbered_text(text, false),
    }
}

// Two or three numbers with dots between them.
fn numbered_text(text: &str, nightly: bool) -> Option<Release>
    ensures { option_map of_release result ≡ numbered_text nightly text.now }
{
    let (major, rest) = cut(text);
    match rest {
        Some(rest) => {
            let (minor, patch) = cut(rest);
            match patch {
                Some(patch) => whole(number(major), number(minor), number(patch), nightly),
                None => short(number(major), number(minor), nightly),
            }
        }
        None => None,
    }
}

// What comes before the first dot, and what follows it.
fn cut(text: &str) -> (&str, Option<&str>)
    ensures front { result.0.now ≡ before_first is_dot text.now }
    ensures rest { option_copied result.1 ≡ behind_dot text.now }
{
    match text.split_once('.') {
        Some((front, rest)) => (front, Some(rest)),
        None => (text, None),
    }
}

// A release of three numbers.
fn whole(
    major: Option<u32>,
    minor: Option<u32>,
    patch: Option<u32>,
    nightly: bool,
) -> Option<Release>
    ensures { option_map of_release result ≡ numbered nightly (major ∷ (minor ∷ (patch ∷ []))) }
{
    match (major, minor, patch) {
        (Some(major), Some(minor), Some(patch)) => Some(Release {
            major,
            minor,
            patch: Some(patch),
            nightly,
        }),
        _ => None,
    }
}

// A release of two numbers.
fn short(major: Option<u32>, minor: Option<u32>, nightly: bool) -> Option<Release>
    ensures { option_map of_release result ≡ numbered nightly (major ∷ (minor ∷ [])) }
{
    match (major, minor) {
        (Some(major), Some(minor)) => Some(Release {
            major,
            minor,
            patch: None,
            nightly,
        }),
        _ => None,
    }
}

// A whole number from 0 to 4294967295, in decimal digits, which may follow a `+`.
fn number(text: &str) -> Option<u32>
    ensures { result ≡ uint32_text text.now }
{
    text.parse::<u32>().ok()
}
