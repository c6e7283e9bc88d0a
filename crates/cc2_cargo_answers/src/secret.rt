//! Keys of secrets.
ghost use Rattle.std.specs.Prelude.{◌≡◌, ◌||◌};
ghost use Rattle.cc2_cargo_answers.specs.RawJson.{is_secret_key};

/// Whether values at and below a key are secrets: the token of a registry, and the key that signs such tokens (Cargo Reference,
/// Configuration,
/// [credentials](https://doc.rust-lang.org/cargo/reference/config.html#credentials)).
pub(crate) fn is_secret_key(key: &str) -> bool
    ensures { result ≡ is_secret_key key.now }
{
    key == "token" || key == "secret-key"
}

/// Whether values at and below a key are secrets, in a table whose values are or aren't.
pub(crate) fn is_secret_at(secret: bool, key: &str) -> bool
    ensures { result ≡ (secret || is_secret_key key.now) }
{
    secret || is_secret_key(key)
}
