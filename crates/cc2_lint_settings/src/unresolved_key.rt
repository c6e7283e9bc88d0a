//! The keys of a file at which values are looked at.
ghost use Rattle.std.specs.Prelude.{◌≡◌};
ghost use Rattle.cc2_lint_settings.specs.UnresolvedKeys.{is_program, is_program_within, looked_at};

use cc2_findings::{Look, Place, Setting};

// A key at which a value is looked at.
#[derive(Clone, Copy, Debug, Drop)]
pub(crate) struct Looked;

impl Look for Looked {
    ghost look = { looked_at };

    fn look(place: Place, key: &str, value: &toml::Value) -> Option<Looked> {
        if Setting::look(place, key, value).is_some() || is_program_within(place, key) {
            Some(Looked)
        } else {
            None
        }
    }
}

// Whether it is a linker or a runner in a value that is read as one.
fn is_program_within(place: Place, key: &str) -> bool
    ensures { result ≡ is_program_within place key.now }
{
    match place {
        Place::Whole => is_program(key),
        _ => false,
    }
}

/// Whether a program is at this key of a target's table.
pub(crate) fn is_program(key: &str) -> bool
    ensures { result ≡ is_program key.now }
{
    key == "linker" || key == "runner"
}
