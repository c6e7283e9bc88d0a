//! The words that set something above every file and variable.
ghost use Rattle.std.specs.Prelude.{◌≡◌, map, string_bytes};
ghost use Rattle.cc2_cli.specs.Choices.{are_pairs, is_option};

/// Whether the words are pairs, each an option and its value.
pub fn are_pairs(words: &[String]) -> bool
    ensures { result ≡ are_pairs (map string_bytes words.now) }
{
    let mut rest = words;
    while let [option, _, behind @ ..] = rest {
        if !is_option(option.as_str()) {
            return false;
        }
        rest = behind;
    }
    rest.is_empty()
}

fn is_option(word: &str) -> bool
    ensures { result ≡ is_option word.now }
{
    matches!(word, "--config" | "--config-file")
}
