//! What is said to the words, by a table.
ghost use Rattle.std.specs.Prelude.{◌≡◌, ℕ, List, Bool, map, string_bytes, codes, nat_eq};
ghost use Rattle.std.specs.List.{ends_with};
ghost use Rattle.cc2_standin.specs.Table.{answer, ask_cfg, asks_word};
ghost use Rattle.cc2_standin.specs.Shown.{said_view, target_passes};

use crate::written::{Said, failed, printed};

/// What is said to these words, by the first line of the table that fits: `-vV` among them asks the
/// version, `--print cfg --target T` at their end the cfg list of a target. No words are answered with
/// nothing and 0, others with nothing and 2.
pub fn said(words: &[String]) -> Said
    ensures { said_view result ≡ answer (map string_bytes words.now) }
{
    if asks_version(words) {
        return printed(b"release: 1.70.0-nightly\nhost: x86_64-unknown-linux-gnu\n");
    }
    match target_asked(words) {
        Some("fail") => failed(b"bad", 3),
        Some("bytes") => printed(b"\xFF"),
        Some(target) if is_windows(target) => printed(b"windows\n"),
        Some(_) => {
            printed(b"unix\ntarget_os=\"linux\"\ntarget_arch=\"x86_64\"\npanic=\"unwind\"\n")
        }
        None if words.is_empty() => printed(b""),
        None => failed(b"", 2),
    }
}

// Whether one of the words is `-vV`.
fn asks_version(words: &[String]) -> bool
    ensures { result ≡ asks_word (codes "-vV") (map string_bytes words.now) }
{
    words.iter().any(|word| word.as_str() == "-vV")
}

// Whether the cfg list of a target is that of Windows.
fn is_windows(target: &str) -> bool
    ensures { result ≡ ends_with nat_eq target.now (codes "b/x.json") }
{
    target.ends_with("b/x.json")
}

// The target whose cfg list is asked: the last of the words, after `--print cfg --target`.
fn target_asked(words: &[String]) -> Option<&str>
    ensures { (test : List ℕ → Bool)
        → ask_cfg test (map string_bytes words.now) ≡ target_passes test result }
{
    let (_, ending) = words.split_at(words.len().saturating_sub(4));
    match ending {
        [print, cfg, option, target]
            if print.as_str() == "--print"
                && cfg.as_str() == "cfg"
                && option.as_str() == "--target" => { Some(target.as_str()) }
        _ => None,
    }
}
