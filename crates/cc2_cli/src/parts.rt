//! The parts of what is asked of a directory, word by word.
ghost use Rattle.std.specs.Prelude.{◌≡◌, ◌∷◌, [], ◌<◌, IfSome, MatchOption, length, map, option_map, string_bytes};
ghost use Rattle.std.specs.List.{starts_with};
ghost use Rattle.cc2_cli.specs.ShowWords.{format_named, merged_named, part_named, part_valued, parted, takes_value};
ghost use Rattle.cc2_cli.specs.ShowTasks.{format_view, part_view};

use crate::show::{Format, Stage};

/// A part of what is asked of a directory.
#[derive(Clone, Copy, Debug)]
pub enum Part<'a> {
    /// The key whose value alone is shown.
    Key(&'a str),
    /// Which configuration is shown.
    Stage(Stage),
    /// How it is printed.
    Format(Format),
    /// Whether it is one configuration, or each source's by itself.
    Merged(bool),
    /// That each value is shown with where it was set.
    Origins,
    /// That tokens are shown as they are.
    Tokens,
}

/// The part that words begin with, and the words after it.
pub fn first_part(words: &[String]) -> Option<(Part<'_>, &[String])>
    ensures read { MatchOption result
        (parted (map string_bytes words.now) ≡ ([], map string_bytes words.now))
        (λ read. let behind = parted (map string_bytes read.1.now) in
        parted (map string_bytes words.now) ≡ (part_view read.0 ∷ behind.0, behind.1)) }
    ensures shorter { IfSome result (λ read. length read.1.now < length words.now) }
{
    match words {
        [] => None,
        [word] => Some((part_named(word.as_str())?, &[])),
        [word, next, behind @ ..] => {
            if takes_value(word.as_str()) {
                Some((part_valued(word.as_str(), next.as_str())?, behind))
            } else {
                Some((part_named(word.as_str())?, &words[1..]))
            }
        }
    }
}

fn takes_value(word: &str) -> bool
    ensures { result ≡ takes_value word.now }
{
    matches!(word, "--format" | "--merged")
}

// The part that an option and its value are.
fn part_valued(word: &str, value: &str) -> Option<Part<'static>>
    ensures { option_map part_view result ≡ part_valued word.now value.now }
{
    if word == "--format" {
        Some(Part::Format(format_named(value)?))
    } else {
        Some(Part::Merged(merged_named(value)?))
    }
}

// The part that a word alone is; a key is what doesn't begin as an option does.
#[tactic(auto, using(std::proofs::lemmas::Str::Pattern::starts_text))]
fn part_named(word: &str) -> Option<Part<'_>>
    ensures { option_map part_view result ≡ part_named word.now }
{
    match word {
        "--files" => Some(Part::Stage(Stage::Files)),
        "--environment" => Some(Part::Stage(Stage::Environment)),
        "--show-origin" => Some(Part::Origins),
        "--tokens" => Some(Part::Tokens),
        _ if word.starts_with("--") => None,
        _ => Some(Part::Key(word)),
    }
}

fn format_named(word: &str) -> Option<Format>
    ensures { option_map format_view result ≡ format_named word.now }
{
    match word {
        "toml" => Some(Format::Toml),
        "json" => Some(Format::Json),
        "json-value" => Some(Format::JsonValue),
        _ => None,
    }
}

fn merged_named(word: &str) -> Option<bool>
    ensures { result ≡ merged_named word.now }
{
    match word {
        "yes" => Some(true),
        "no" => Some(false),
        _ => None,
    }
}
