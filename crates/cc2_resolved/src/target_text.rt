//! What a target's text says.
ghost use Rattle.std.specs.Prelude.{◌≡◌, option_map};
ghost use Rattle.cc2_resolved.specs.Targets.{says_json, is_spec_path, triple_of};

use cc2_base::path::{extension, stem};

fn says_json(extension: &str) -> bool
    ensures { result ≡ says_json extension.now }
{
    extension.eq_ignore_ascii_case("json")
}

// Whether the text names a file: its extension is `json` in any case, or it holds `/` or `\`.
pub(crate) fn is_spec_path(text: &str) -> bool
    ensures { result ≡ is_spec_path text.now }
{
    let says_json = match extension(text) {
        Some(extension) => says_json(extension),
        None => false,
    };
    let bytes = text.as_bytes();
    says_json || bytes.contains(&b'/') || bytes.contains(&b'\\')
}

// The triple: that of a spec path, which may have none, is its file name up to the last dot.
pub(crate) fn triple_in(text: &str) -> Option<&str>
    ensures { option_map (λ triple. triple.now) result ≡ triple_of text.now }
{
    if is_spec_path(text) {
        stem(text)
    } else {
        Some(text)
    }
}
