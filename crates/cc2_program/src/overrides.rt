//! The overrides of `--config`: a file where there is one at the path, else a TOML text.
ghost use Rattle.std.specs.Prelude.{◌≡◌, IfOk, map, string_bytes};
ghost use Rattle.cc2_base.specs.Told.{WhereTold};
ghost use Rattle.cc2_cli.specs.Choices.{choices_of};
ghost use Rattle.cc2_program.specs.Overrides.{choice_by, name_by};

use cc2_base::files::Files;
use cc2_base::path::join;
use cc2_error::error::NoMemory;
use std::alloc::Global;

/// The overrides as pairs: `--config-file` and a path where something is at the path, looked up from the directory, else
/// `--config` and the text (Cargo, [`--config`](https://doc.rust-lang.org/cargo/commands/cargo.html#common-options)).
///
/// # Errors
/// `NoMemory` where memory ran out.
pub fn choices_by<F: Files>(
    alloc: Global,
    dir: &str,
    configs: &[&str],
    files: &F,
) -> Result<Vec<String>, NoMemory>
    ensures { WhereTold (F.told files.now) (λ fs. IfOk result (λ words.
        choices_of (map string_bytes words.items)
        ≡ map (choice_by fs dir.now) (map (λ c. c.now) configs.now))) }
{
    let mut words = Vec::new(alloc);
    for config in configs {
        let name = name_by(alloc, dir, *config, files)?;
        words.push(String::from_str(alloc, name)?)?;
        words.push(String::from_str(alloc, *config)?)?;
    }
    Ok(words)
}

// The name of the pair that an override is.
fn name_by<F: Files>(
    alloc: Global,
    dir: &str,
    config: &str,
    files: &F,
) -> Result<&'static str, NoMemory>
    ensures { WhereTold (F.told files.now) (λ fs. IfOk result (λ name.
        name.now ≡ name_by fs dir.now config.now)) }
{
    if config.is_empty() {
        return Ok("--config");
    }
    if files.exists(join(alloc, dir, config)?.as_str())? {
        Ok("--config-file")
    } else {
        Ok("--config")
    }
}
