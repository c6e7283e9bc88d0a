//! The lines of the table `build`.
ghost use Rattle.std.specs.Prelude.{◌≡◌, IfOk};
ghost use Rattle.cc2_de.specs.Config.{config_at};
ghost use Rattle.cc2_cli.specs.Lines.{build_lines};

use cc2_cli::settings::PushLines;
use cc2_de::Config;
use cc2_error::error::NoMemory;
use cc2_tables::build_fields;
use std::alloc::Global;

macro_rules! push_fields {
    ($out:ident, $build:ident; $($key:literal $field:ident),* $(,)?) => {{
        $(
            $build.$field.push_lines($out, $key)?;
        )*
    }};
}

/// The lines of the table `build`.
pub fn build_lines(alloc: Global, config: &Config) -> std::result::Result<Vec<u8>, NoMemory>
    ensures { IfOk result (λ text. text.items ≡ build_lines (config_at config.now)) }
{
    let mut lines = Vec::new(alloc);
    let out = &mut lines;
    let build = &config.build;
    build_fields!(push_fields!(out, build));
    Ok(lines)
}
