//! What the words of a request ask.
ghost use Rattle.std.specs.Prelude.{◌≡◌, map, string_bytes};
ghost use Rattle.cc2_reply.specs.Asked.{asked_in};
ghost use Rattle.cc2_reply.specs.AskedViews.{asked_view};

use cc2_cli::{get, show};

/// A question of one of the programs, several of a directory, or its load.
#[derive(Clone, Copy, Debug)]
pub enum Question<'a> {
    /// One of `cc2_get`.
    Get(get::Question<'a>),
    /// One of `show`.
    Show(show::Question<'a>),
    /// Several of a directory, by the words after `several`.
    Several(&'a str, &'a [String]),
    /// The load of a directory, by the words after `load`.
    Load(&'a str, &'a [String]),
}

/// What these words ask: of `show` where they are `DIR show` and more after it, which are then its words after a
/// directory; several questions where they are `DIR several` and more after it; the load where they are `DIR load` and
/// more after it; else of `cc2_get`.
pub fn asked(words: &[String]) -> Question<'_>
    ensures { asked_view result ≡ asked_in (map string_bytes words.now) }
{
    match words {
        [dir, word, behind @ ..] => {
            if word.as_str() == "show" {
                Question::Show(show::asked_of(dir.as_str(), behind))
            } else if word.as_str() == "several" {
                Question::Several(dir.as_str(), behind)
            } else if word.as_str() == "load" {
                Question::Load(dir.as_str(), behind)
            } else {
                Question::Get(get::asked(words))
            }
        }
        _ => Question::Get(get::asked(words)),
    }
}
