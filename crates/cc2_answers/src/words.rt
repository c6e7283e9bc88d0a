//! What the words after `several` ask.
ghost use Rattle.std.specs.Prelude.{◌≡◌, ◌∷◌, [], ◌<◌, IfSome, MatchOption, length, map, option_map, string_bytes};
ghost use Rattle.cc2_answers.specs.Items.{are_alone, AsksUnder, is_empty, item_named, items_alone, items_in, parted};
ghost use Rattle.std.specs.Option.{is_some};
ghost use Rattle.cc2_answers.specs.ItemViews.{item_view};

use cc2_cli::are_pairs;

/// One of several questions of a directory.
#[derive(Clone, Copy, Debug)]
pub(crate) enum Item<'a> {
    /// The table `build`, resolved.
    Build,
    /// The command for rustc.
    Rustc,
    /// The triple of the host.
    Host,
    /// The settings of the target of a text.
    Target(&'a str),
    /// The values that rustc prints for the target of a text, of a cfg name.
    Cfg(&'a str, &'a str),
    /// The version of rustc.
    RustcVersion,
    /// The version of cargo.
    CargoVersion,
}

/// The item that words begin with, and the words after it.
pub(crate) fn first_item(words: &[String]) -> Option<(Item<'_>, &[String])>
    ensures read { MatchOption result
        (parted (map string_bytes words.now) ≡ ([], map string_bytes words.now))
        (λ read. let behind = parted (map string_bytes read.1.now) in
        parted (map string_bytes words.now) ≡ (item_view read.0 ∷ behind.0, behind.1)) }
    ensures shorter { IfSome result (λ read. length read.1.now < length words.now) }
{
    match words {
        [] => None,
        [word] => Some((item_named(word.as_str())?, &[])),
        [word, text] => {
            if word.as_str() == "target" {
                Some((Item::Target(text.as_str()), &[]))
            } else {
                Some((item_named(word.as_str())?, &words[1..]))
            }
        }
        [word, text, name, behind @ ..] => {
            if word.as_str() == "target" {
                Some((Item::Target(text.as_str()), &words[2..]))
            } else if word.as_str() == "cfg" {
                Some((Item::Cfg(text.as_str(), name.as_str()), behind))
            } else {
                Some((item_named(word.as_str())?, &words[1..]))
            }
        }
    }
}

// The item that a word alone is.
fn item_named(word: &str) -> Option<Item<'_>>
    ensures { option_map item_view result ≡ item_named word.now }
{
    match word {
        "build" => Some(Item::Build),
        "rustc" => Some(Item::Rustc),
        "host" => Some(Item::Host),
        "rustc-version" => Some(Item::RustcVersion),
        "cargo-version" => Some(Item::CargoVersion),
        _ => None,
    }
}

/// The choices after the items of these words: pairs of `--config` or `--config-file` and its value. None where the words
/// are no question: no item is in front, or what is after the items is no list of pairs.
pub(crate) fn choices_behind(words: &[String]) -> Option<&[String]>
    ensures { MatchOption result (items_in (map string_bytes words.now) ≡ None)
        (λ choices. AsksUnder (map string_bytes words.now) (map string_bytes choices.now)) }
{
    let (_, behind) = first_item(words)?;
    let rest = behind_items(behind);
    if are_pairs(rest) { Some(rest) } else { None }
}

/// Whether words are items alone, at least one, and none of them is `build`.
pub fn are_items_alone(words: &[String]) -> bool
    ensures { result ≡ is_some (items_alone (map string_bytes words.now)) }
{
    let mut rest = words;
    while let Some((item, behind)) = first_item(rest) {
        if let Item::Build = item {
            return false;
        }
        rest = behind;
    }
    rest.is_empty() && !words.is_empty()
}

// The words after the items that words begin with.
fn behind_items(words: &[String]) -> &[String]
    ensures { map string_bytes result.now ≡ (parted (map string_bytes words.now)).1 }
{
    let mut rest = words;
    while let Some((_, behind)) = first_item(rest) {
        rest = behind;
    }
    rest
}
