//! What resolution looks at beside the values.
ghost use Rattle.std.specs.Prelude.{◌≡◌};
ghost use Rattle.std.specs.Option.{is_some};
ghost use Rattle.std.specs.BTreeMap.{get_by_text};
ghost use Rattle.cc2_resolved.specs.Sites.{site_of};

use std::collections::BTreeMap;

/// The names of the table
/// [`credential-alias`](https://doc.rust-lang.org/cargo/reference/config.html#credential-alias).
pub type AliasNames = BTreeMap<String, ()>;

/// What resolution looks at beside the values: the directory, and which names are aliases of
/// providers.
#[derive(Drop)]
pub struct Place<'a> {
    pub directory: &'a str,
    pub aliases: &'a AliasNames,
}

impl Place<'_> {
    /// Whether there is an alias of this name.
    pub(crate) fn is_alias(&self, name: &str) -> bool
        ensures { result ≡ (site_of self.now).is_alias name.now }
    {
        self.aliases.contains_key(name)
    }
}
