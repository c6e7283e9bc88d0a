//! The value at a key of a TOML table.
ghost use Rattle.std.specs.Prelude.{◌≡◌, option_map};
ghost use Rattle.toml.specs.Data.{get_member};
ghost use Rattle.toml.specs.View.{view, table_view};

/// The value at a key of a table, if there is one.
pub fn member<'a>(table: &'a toml::Table, key: &str) -> Option<&'a toml::Value>
    ensures { option_map (λ v. view v.now) result ≡ get_member key.now (table_view table.now) }
{
    table.get(key)
}
