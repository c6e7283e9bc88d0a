//! What the JSON shows.
ghost use Rattle.std.specs.Prelude.{◌≡◌};
ghost use Rattle.cc2_resolved_json.specs.Plain.{without_origins};

use cc2_json::Form;

/// Values alone, with tokens or without.
pub fn without_origins(tokens: bool) -> Form
    ensures { result ≡ without_origins tokens }
{
    Form {
        origins: false,
        tokens,
    }
}
