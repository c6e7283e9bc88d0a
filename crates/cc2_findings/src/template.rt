//! The variables of a template, which `build.build-dir` is (Cargo Reference, Configuration,
//! [`build.build-dir`](https://doc.rust-lang.org/cargo/reference/config.html#buildbuild-dir)).
ghost use Rattle.std.specs.Prelude.{◌≡◌};
ghost use Rattle.cc2_findings.specs.Templates.{has_stray_brace, is_closed, lacks_variable, names_variable};

use crate::place::is_among;

// The variables of Cargo 1.95.
const VARIABLES: &[&str] = &["cargo-cache-home", "workspace-path-hash", "workspace-root"];

// Whether a brace is outside of the variables.
pub(crate) fn has_stray_brace(text: &str) -> bool
    ensures { result ≡ has_stray_brace text.now }
{
    match text.split_once('{') {
        None => is_closed(text),
        Some((before, behind)) => {
            is_closed(before) || behind.split('{').any(|piece| lacks_variable(piece))
        }
    }
}

fn lacks_variable(piece: &str) -> bool
    ensures { result ≡ lacks_variable piece.now }
{
    !names_variable(piece)
}

// Whether what follows a `{` is a variable's name, `}`, and no other `}` after it.
fn names_variable(piece: &str) -> bool
    ensures { result ≡ names_variable piece.now }
{
    match piece.split_once('}') {
        None => false,
        Some((name, behind)) => is_among(VARIABLES, name) && !is_closed(behind),
    }
}

// Whether the text has a `}`.
fn is_closed(text: &str) -> bool
    ensures { result ≡ is_closed text.now }
{
    text.as_bytes().contains(&b'}')
}

/// The first name between braces that isn't one of the variables.
pub fn unknown_variable(text: &str) -> Option<&str> {
    for piece in text.split('{').skip(1) {
        if let Some((name, _)) = piece.split_once('}') {
            if !is_among(VARIABLES, name) {
                return Some(name);
            }
        }
    }
    None
}
