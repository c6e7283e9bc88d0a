//! The help of the program and of its commands.
ghost use Rattle.std.specs.Prelude.{◌≡◌};
ghost use Rattle.cc2_command_line.specs.Helps.{help_text, version_line};
ghost use Rattle.cc2_command_line.specs.Helps.{get_help, host_help, lint_help, program_help, rustc_help, target_help, version_help};

use crate::command::Verb;

/// What `--version` prints.
pub fn version_text() -> &'static str
    ensures { result.now ≡ version_line }
{
    "cargo-config2 1.1.0 (hiuskero; cargo-config2 0.1.45)\n"
}

/// What `--help` prints: of a command, or of the program.
pub fn help_of(verb: Option<Verb>) -> &'static str
    ensures { result.now ≡ help_text verb }
{
    match verb {
        None => program_help(),
        Some(Verb::Get) => get_help(),
        Some(Verb::Target) => target_help(),
        Some(Verb::Rustc) => rustc_help(),
        Some(Verb::Host) => host_help(),
        Some(Verb::Version) => version_help(),
        Some(Verb::Lint) => lint_help(),
    }
}

fn program_help() -> &'static str
    ensures { result.now ≡ program_help }
{
    "\
Prints Cargo's configuration and where each value comes from

Usage: cargo config2 [OPTIONS] <COMMAND>

Commands:
  get [KEY]           Print the configuration, or the value of a key
  target [TRIPLE]...  Print the linker, runner and flags for targets
  rustc               Print the command that runs rustc
  host                Print the target triple of the host
  version             Print the versions of rustc and cargo
  lint [PATH]...      Report mistakes in configuration files
  help [COMMAND]      Print this help, or the help of a command

Options:
  -C <DIRECTORY>                 Change to DIRECTORY before doing anything
      --config <KEY=VALUE|PATH>  Override a configuration value; may be repeated, the last one wins
      --color <WHEN>             Coloring: auto, always, never [default: auto]
  -q, --quiet                    Do not print the summary of lint
      --no-programs              Run no program; it is an error where an answer needs one
  -h, --help                     Print help
  -V, --version                  Print version

The configuration is that of the current directory: its .cargo/config.toml, those of the directories above it, and that
of Cargo's home, under Cargo's environment variables. Without HOME the home directory is looked up in /etc/passwd.

Exit status: 0, or 1 if the configuration has an error, or 2 if the arguments are wrong.
"
}

fn get_help() -> &'static str
    ensures { result.now ≡ get_help }
{
    "\
Prints the configuration, or the value of a key

Usage: cargo config2 get [OPTIONS] [KEY]

Arguments:
  [KEY]  Key, such as build.jobs or \"target.'cfg(unix)'.runner\"

Options:
      --format <FORMAT>          Output format: toml, json, json-value [default: toml]
      --show-origin              Print where each value is set
      --merged <yes|no>          Print one merged configuration, or each source by itself [default: yes]
      --files                    Print the files alone, without environment variables
      --rules <RULES>            Whose rules: cargo, as Cargo 1.95 itself, or crate, as the crate cargo-config2 0.1.45 [default: cargo]
      --resolved                 Print the resolved configuration: relative paths joined, flags and aliases split
      --tokens                   Print the tokens of registries, which are hidden otherwise
  -C <DIRECTORY>                 Change to DIRECTORY before doing anything
      --config <KEY=VALUE|PATH>  Override a configuration value; may be repeated, the last one wins
  -h, --help                     Print help

Cargo's rules read every key, and files with those that they include. --resolved and --merged no go by the crate's rules.

Examples:
  cargo config2 get build.rustflags --show-origin
  cargo config2 get --format json
  cargo config2 get http --files --merged no
  cargo config2 get profile --files

Exit status: 0, or 1 if the key is not set or the configuration has an error, or 2 if the arguments are wrong.
"
}

fn target_help() -> &'static str
    ensures { result.now ≡ target_help }
{
    "\
Prints the linker, runner and flags for targets

Usage: cargo config2 target [OPTIONS] [TRIPLE]...

Arguments:
  [TRIPLE]...  Targets [default: those of build.target, else the host]

Options:
      --build-scripts            Print what build scripts and procedural macros get when these targets are built
      --format <FORMAT>          Output format: toml, json [default: toml]
      --rules <RULES>            Whose rules: cargo, as Cargo 1.95 itself, or crate, as the crate cargo-config2 0.1.45 [default: cargo]
      --no-programs              Run no program; it is an error where an answer needs one
  -C <DIRECTORY>                 Change to DIRECTORY before doing anything
      --config <KEY=VALUE|PATH>  Override a configuration value; may be repeated, the last one wins
  -h, --help                     Print help

Tables such as [target.'cfg(unix)'] are used where rustc says that they match.
It runs the rustc that the configuration and the variables name, as Cargo does. In a tree that you don't trust this may be
any program.

Examples:
  cargo config2 target
  cargo config2 target x86_64-unknown-linux-gnu wasm32-wasip1 --format json
  cargo config2 target x86_64-unknown-linux-gnu --build-scripts
  cargo config2 target x86_64-unknown-linux-gnu --rules crate
"
}

fn rustc_help() -> &'static str
    ensures { result.now ≡ rustc_help }
{
    "\
Prints the command that runs rustc: its wrappers, rustc and their arguments

Usage: cargo config2 rustc [OPTIONS]

Options:
      --rules <RULES>            Whose rules: cargo, as Cargo 1.95 itself, or crate, as the crate cargo-config2 0.1.45 [default: cargo]
  -C <DIRECTORY>                 Change to DIRECTORY before doing anything
      --config <KEY=VALUE|PATH>  Override a configuration value; may be repeated, the last one wins
  -h, --help                     Print help
"
}

fn host_help() -> &'static str
    ensures { result.now ≡ host_help }
{
    "\
Prints the target triple of the host, as `cargo -vV` or `rustc -vV` has it

Usage: cargo config2 host [OPTIONS]

Options:
      --rules <RULES>            Whose rules: cargo, as Cargo 1.95 itself, or crate, as the crate cargo-config2 0.1.45 [default: cargo]
      --no-programs              Run no program; it is an error where an answer needs one
  -C <DIRECTORY>                 Change to DIRECTORY before doing anything
      --config <KEY=VALUE|PATH>  Override a configuration value; may be repeated, the last one wins
  -h, --help                     Print help

It runs the rustc that the configuration and the variables name, as Cargo does. In a tree that you don't trust this may be
any program.
"
}

fn version_help() -> &'static str
    ensures { result.now ≡ version_help }
{
    "\
Prints the versions of the rustc and the cargo that the configuration chooses, and by which Cargo's rules answers are

Usage: cargo config2 version [OPTIONS]

Options:
      --no-programs              Run no program; it is an error where an answer needs one
  -C <DIRECTORY>                 Change to DIRECTORY before doing anything
      --config <KEY=VALUE|PATH>  Override a configuration value; may be repeated, the last one wins
  -h, --help                     Print help

It runs the rustc and the cargo that the configuration and the variables name. In a tree that you don't trust these may be
any program.
"
}

fn lint_help() -> &'static str
    ensures { result.now ≡ lint_help }
{
    "\
Reports mistakes in configuration files

Usage: cargo-config2 lint [OPTIONS] [PATH]...

Arguments:
  [PATH]...  Directories, each with those above it and Cargo's home, and files [default: the current directory]

Options:
      --deny <LEVEL>     Exit with 1 from this level on: note, warning, error [default: error]
      --allow <LINT>     Do not report this lint; may be repeated
      --target <TRIPLE>  Report cfg tables that conflict for a target; may be repeated
      --compare          Report where Cargo and the crate cargo-config2 0.1.45 differ, for each --target too
      --no-programs      Run no program; it is an error where --target needs one
      --format <FORMAT>  Output format: text, json, sarif [default: text]
      --color <WHEN>     Coloring: auto, always, never [default: auto]
  -q, --quiet            Do not print the summary
  -C <DIRECTORY>         Change to DIRECTORY before doing anything
  -h, --help             Print help

With --target it runs the rustc that the configuration and the variables name, where it needs one; without it, nothing.
Run it as cargo-config2: Cargo stops at a file that it can't read before it starts `cargo config2`.

Examples:
  cargo-config2 lint --deny warning
  cargo-config2 lint .cargo/config.toml --allow token
  cargo-config2 lint --target x86_64-unknown-linux-gnu --format sarif
"
}
