//! Which keys are commands: of arrays there the strongest file's replaces those of others.
ghost use Rattle.std.specs.Prelude.{◌≡◌, ◌∷◌, []};
ghost use Rattle.cc2_cargo.specs.Places.{command_if, commands_from, top_below};
ghost use Rattle.cc2_cargo.specs.Raw.{Path};

/// A table by its keys, as far as these say which keys below it are commands.
#[derive(Clone, Copy, Debug)]
pub(crate) enum Place {
    /// The whole configuration.
    Top,
    /// `credential-alias`.
    CredentialAlias,
    /// `doc`.
    Doc,
    /// `host`, or a table of `target`.
    Target,
    /// `target`.
    Targets,
    /// `registry`, or a table of `registries`.
    Registry,
    /// `registries`.
    Registries,
    /// A command.
    Command,
    /// No command is here or below.
    Other,
}

impl Place {
    /// Whether it is a command.
    pub fn is_command(self) -> bool
        ensures { result ≡ commands_from self [] }
    {
        matches!(self, Place::Command)
    }

    /// The place at a key below.
    pub fn below(self, key: &str) -> Place
        ensures { (p : Path) → commands_from result p ≡ commands_from self (key.now ∷ p) }
    {
        match self {
            Place::Top => top_below(key),
            Place::CredentialAlias => Place::Command,
            Place::Doc => command_if(key == "browser"),
            Place::Target => command_if(key == "runner"),
            Place::Targets => Place::Target,
            Place::Registry => command_if(key == "credential-provider"),
            Place::Registries => Place::Registry,
            Place::Command => Place::Other,
            Place::Other => Place::Other,
        }
    }
}

// The place at a key of the whole configuration.
fn top_below(key: &str) -> Place
    ensures { result ≡ top_below key.now }
{
    match key {
        "credential-alias" => Place::CredentialAlias,
        "doc" => Place::Doc,
        "host" => Place::Target,
        "registries" => Place::Registries,
        "registry" => Place::Registry,
        "target" => Place::Targets,
        _ => Place::Other,
    }
}

// A command, or another place.
fn command_if(is_command: bool) -> Place
    ensures { result ≡ command_if is_command }
{
    if is_command {
        Place::Command
    } else {
        Place::Other
    }
}
