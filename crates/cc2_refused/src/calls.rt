//! Calls of the library, each made again where memory ran out in it.
use crate::again;
use crate::commands::{command, flag, options};
use crate::stood::programs;
use cargo_config2::de::SetPath;
use cargo_config2::{
    Config, Error, Files, Machine, ProgramTable, ResolveContext, ResolveOptions, TargetTripleRef,
    de,
};
use std::alloc::Global;
use std::fmt::Debug;

/// What a call comes to, with a line in front where memory ran out in it once; none for other words.
///
/// # Errors
/// `ErrorKind::Memory` where memory ran out elsewhere, or a second time; those of the call.
pub fn answer<F: Files>(
    alloc: Global,
    words: &[String],
    machine: &Machine,
    files: &F,
) -> Result<Option<String>, Error> {
    let [call, dir] = words else {
        return Ok(None);
    };
    let dir = dir.as_str();
    let text = match call.as_str() {
        "command" => command(alloc)?,
        "flag" => flag(alloc)?,
        "options" => kept(alloc)?,
        "load" => load(alloc, dir, machine, files)?,
        "env" => env(alloc, dir, machine, files)?,
        "overrides" => overrides(alloc, dir, machine, files)?,
        "path" => path(alloc, dir, machine, files)?,
        "target" => target(alloc, dir, machine, files)?,
        "host" => host(alloc, dir, machine, files)?,
        _ => return Ok(None),
    };
    Ok(Some(text))
}

// The text, after a line that names a refused call.
fn told(alloc: Global, refused: bool, text: String) -> Result<String, Error> {
    if refused {
        Ok(format!(in alloc; "refused once\n{text}")?)
    } else {
        Ok(text)
    }
}

// The debug form of a value in a line. A configuration that has the value is dropped before the next `?`: alive there it
// is dear to prove.
fn line<T: Debug>(alloc: Global, value: &T) -> Result<String, Error> {
    Ok(format!(in alloc; "{value:?}\n")?)
}

// Options that keep variables, as they are shown.
fn kept(alloc: Global) -> Result<String, Error> {
    let mut refused = false;
    let options = again!(refused, options(alloc));
    let shown = line(alloc, &options);
    drop(options);
    told(alloc, refused, shown?)
}

// A load, and its table `build`.
fn load<F: Files>(alloc: Global, dir: &str, machine: &Machine, files: &F) -> Result<String, Error> {
    let mut refused = false;
    let config = again!(refused, Config::load_with_cwd(alloc, dir, machine, files));
    let build = line(alloc, &config.build);
    drop(config);
    told(alloc, refused, build?)
}

// The table `build` of a configuration as files have it.
fn build_of(alloc: Global, refused: bool, config: de::Config) -> Result<String, Error> {
    let build = line(alloc, &config.build);
    drop(config);
    told(alloc, refused, build?)
}

fn in_directory(
    alloc: Global,
    options: ResolveOptions,
    dir: &str,
    machine: &Machine,
) -> Result<ResolveContext, Error> {
    let dir = String::from_str(alloc, dir)?;
    options.into_context(alloc, dir, machine)
}

// What variables make of the files, and its table `build`.
fn env<F: Files>(alloc: Global, dir: &str, machine: &Machine, files: &F) -> Result<String, Error> {
    let context = in_directory(alloc, ResolveOptions::default(), dir, machine)?;
    by_env(alloc, dir, machine, &context, files)
}

fn by_env<F: Files>(
    alloc: Global,
    dir: &str,
    machine: &Machine,
    context: &ResolveContext,
    files: &F,
) -> Result<String, Error> {
    let mut refused = false;
    let config = again!(refused, under_env(alloc, dir, machine, context, files));
    build_of(alloc, refused, config)
}

fn under_env<F: Files>(
    alloc: Global,
    dir: &str,
    machine: &Machine,
    context: &ResolveContext,
    files: &F,
) -> Result<de::Config, Error> {
    let config = de::Config::load_with_cwd(alloc, dir, machine, files)?;
    config.apply_env(alloc, context)
}

// What overrides make of the files, and its table `build`.
fn overrides<F: Files>(
    alloc: Global,
    dir: &str,
    machine: &Machine,
    files: &F,
) -> Result<String, Error> {
    let mut refused = false;
    let options = again!(refused, two_overrides(alloc));
    let context = in_directory(alloc, options, dir, machine)?;
    by_overrides(alloc, refused, dir, machine, &context, files)
}

fn by_overrides<F: Files>(
    alloc: Global,
    refused: bool,
    dir: &str,
    machine: &Machine,
    context: &ResolveContext,
    files: &F,
) -> Result<String, Error> {
    let mut refused = refused;
    let config = again!(
        refused,
        under_overrides(alloc, dir, machine, context, files)
    );
    build_of(alloc, refused, config)
}

fn two_overrides(alloc: Global) -> Result<ResolveOptions, Error> {
    let options = ResolveOptions::default();
    let options = options.config_text(alloc, String::from_str(alloc, "build.jobs = 2")?)?;
    options.config_file(alloc, String::from_str(alloc, "o.toml")?)
}

fn under_overrides<F: Files>(
    alloc: Global,
    dir: &str,
    machine: &Machine,
    context: &ResolveContext,
    files: &F,
) -> Result<de::Config, Error> {
    let config = de::Config::load_with_cwd(alloc, dir, machine, files)?;
    config.apply_overrides(alloc, context, files)
}

// Where the values of `build` were set, before their path is set and after it; in between, after a refusal.
fn path<F: Files>(alloc: Global, dir: &str, machine: &Machine, files: &F) -> Result<String, Error> {
    let mut config = de::Config::load_with_cwd(alloc, dir, machine, files)?;
    let text = path_set(alloc, &mut config);
    drop(config);
    text
}

fn path_set(alloc: Global, config: &mut de::Config) -> Result<String, Error> {
    let mut refused = false;
    let before = origins(alloc, config)?;
    if config.set_path(alloc, "/n").is_err() {
        refused = true;
        let kept = origins(alloc, config)?;
        if kept.as_str() != before.as_str() {
            return told(alloc, refused, kept);
        }
        config.set_path(alloc, "/n")?;
    }
    let after = origins(alloc, config)?;
    told(alloc, refused, format!(in alloc; "{before}{after}")?)
}

// A line for each value of `build` that the rows set.
fn origins(alloc: Global, config: &de::Config) -> Result<String, Error> {
    let mut text = String::new(alloc);
    if let Some(jobs) = &config.build.jobs {
        let origin = &jobs.definition;
        text.push_str(format!(in alloc; "{origin:?}\n")?.as_str())?;
    }
    if let Some(dir) = &config.build.target_dir {
        let origin = &dir.definition;
        text.push_str(format!(in alloc; "{origin:?}\n")?.as_str())?;
    }
    if let Some(flags) = &config.build.rustflags {
        for flag in flags.flags.iter() {
            let origin = &flag.definition;
            text.push_str(format!(in alloc; "{origin:?}\n")?.as_str())?;
        }
    }
    Ok(text)
}

// The flags of the target `x`, asked for twice.
fn target<F: Files>(
    alloc: Global,
    dir: &str,
    machine: &Machine,
    files: &F,
) -> Result<String, Error> {
    let mut config = Config::load_with_cwd(alloc, dir, machine, files)?;
    let text = flags_twice(alloc, &mut config, files);
    drop(config);
    text
}

fn flags_twice<F: Files>(alloc: Global, config: &mut Config, files: &F) -> Result<String, Error> {
    let mut refused = false;
    let mut programs = programs(
        alloc,
        &[("rustc", &["--print", "cfg", "--target", "x"], "unix\n")],
    )?;
    let first = again!(refused, flags(alloc, config, files, &mut programs));
    let second = flags(alloc, config, files, &mut programs)?;
    told(alloc, refused, format!(in alloc; "{first}{second}")?)
}

fn flags<F: Files>(
    alloc: Global,
    config: &mut Config,
    files: &F,
    programs: &mut ProgramTable,
) -> Result<String, Error> {
    let target = TargetTripleRef::new("x")?;
    let flags = config.rustflags(alloc, &target, files, programs)?;
    Ok(format!(in alloc; "{flags:?}\n")?)
}

// The host, where cargo prints none, asked for twice.
fn host<F: Files>(alloc: Global, dir: &str, machine: &Machine, files: &F) -> Result<String, Error> {
    let mut config = Config::load_with_cwd(alloc, dir, machine, files)?;
    let text = triple_twice(alloc, &mut config, files);
    drop(config);
    text
}

fn triple_twice<F: Files>(alloc: Global, config: &mut Config, files: &F) -> Result<String, Error> {
    let mut refused = false;
    let mut programs = programs(
        alloc,
        &[
            ("cargo", &["-vV"], "release: 1.70.0\n"),
            ("rustc", &["-vV"], "release: 1.70.0\nhost: h\n"),
        ],
    )?;
    let first = again!(refused, triple(alloc, config, files, &mut programs));
    let second = triple(alloc, config, files, &mut programs)?;
    told(alloc, refused, format!(in alloc; "{first}{second}")?)
}

fn triple<F: Files>(
    alloc: Global,
    config: &mut Config,
    files: &F,
    programs: &mut ProgramTable,
) -> Result<String, Error> {
    let host = config.host_triple(alloc, files, programs)?;
    let host = host.as_str();
    Ok(format!(in alloc; "{host}\n")?)
}
