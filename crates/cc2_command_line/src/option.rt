//! The names of options.
ghost use Rattle.std.specs.Prelude.{◌≡◌};
ghost use Rattle.cc2_command_line.specs.Options.{flag_named, setting_named};

/// An option without a value.
#[derive(Clone, Copy, Debug, PartialEq, Eq)]
pub enum Flag {
    /// `-h`, `--help`: how the program or a command is used.
    Help,
    /// `-V`, `--version`: the program's version.
    Version,
    /// `-q`, `--quiet`: no summary.
    Quiet,
    /// `--show-origin`: each value with where it was set.
    ShowOrigin,
    /// `--files`: the files alone.
    Files,
    /// `--resolved`: relative paths and programs resolved.
    Resolved,
    /// `--tokens`: tokens as they are.
    Tokens,
    /// `--build-scripts`: what build scripts and procedural macros get.
    BuildScripts,
    /// `--compare`: where cargo-config2 0.1.45 and Cargo differ, too.
    Compare,
    /// `--no-programs`: no program is run.
    NoPrograms,
}

/// An option with a value.
#[derive(Clone, Copy, Debug, PartialEq, Eq)]
pub enum Setting {
    /// `-C DIRECTORY`: the directory to start in.
    Directory,
    /// `--config KEY=VALUE` or `--config PATH`: an override.
    Config,
    /// `--color WHEN`: whether output is coloured.
    Color,
    /// `--format FORMAT`: how the answer is printed.
    Format,
    /// `--merged yes` or `--merged no`: one configuration, or each source by itself.
    Merged,
    /// `--rules crate` or `--rules cargo`: the rules by which files are read.
    Rules,
    /// `--deny LEVEL`: the level of findings from which on the status is 1.
    Deny,
    /// `--allow LINT`: a lint that isn't reported.
    Allow,
    /// `--target TRIPLE`: a target for which `cfg(..)` tables are compared.
    Target,
}

/// The option without a value of this name.
pub(crate) fn flag_named(word: &str) -> Option<Flag>
    ensures { result ≡ flag_named word.now }
{
    match word {
        "-h" | "--help" => Some(Flag::Help),
        "-V" | "--version" => Some(Flag::Version),
        "-q" | "--quiet" => Some(Flag::Quiet),
        "--show-origin" => Some(Flag::ShowOrigin),
        "--files" => Some(Flag::Files),
        "--resolved" => Some(Flag::Resolved),
        "--tokens" => Some(Flag::Tokens),
        "--build-scripts" => Some(Flag::BuildScripts),
        "--compare" => Some(Flag::Compare),
        "--no-programs" => Some(Flag::NoPrograms),
        _ => None,
    }
}

/// The option with a value of this name.
pub(crate) fn setting_named(word: &str) -> Option<Setting>
    ensures { result ≡ setting_named word.now }
{
    match word {
        "-C" => Some(Setting::Directory),
        "--config" => Some(Setting::Config),
        "--color" => Some(Setting::Color),
        "--format" => Some(Setting::Format),
        "--merged" => Some(Setting::Merged),
        "--rules" => Some(Setting::Rules),
        "--deny" => Some(Setting::Deny),
        "--allow" => Some(Setting::Allow),
        "--target" => Some(Setting::Target),
        _ => None,
    }
}
