//! What debug forms show in place of a token.
ghost use Rattle.std.specs.Prelude.{◌≡◌, option_map};

use std::fmt;

/// Something that is not shown (Cargo Reference, Configuration,
/// [credentials](https://doc.rust-lang.org/cargo/reference/config.html#credentials)).
#[derive(Clone, Copy)]
pub struct Redacted;

impl fmt::Debug for Redacted {
    fn fmt<W: fmt::Write>(&self, f: &mut fmt::Formatter<W>) -> fmt::Result {
        f.write_str("[REDACTED]")
    }
}

/// What is shown of a token: that there is one (Cargo Reference, Configuration,
/// [credentials](https://doc.rust-lang.org/cargo/reference/config.html#credentials)).
pub fn hidden<T>(token: &Option<T>) -> Option<Redacted>
    ensures { result ≡ option_map (λ _. record {}) token.now }
{
    match token {
        Some(_) => Some(Redacted),
        None => None,
    }
}
