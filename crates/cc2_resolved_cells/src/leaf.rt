//! Lists, commands, providers, targets and variables in bytes.
use crate::provider::{push_provider, push_providers};
use crate::value::CellValue;
use crate::words::{push_command, push_targets, push_texts};
use cc2_ask::push_field;
use cc2_error::path_and_args::PathAndArgs;
use cc2_resolved::env::EnvConfigValue;
use cc2_resolved::flags::Flags;
use cc2_resolved::provider::{CredentialProvider, GlobalCredentialProviders};
use cc2_resolved::string_list::StringList;
use cc2_resolved::target_triple::TargetTriple;
use std::alloc::AllocError;

impl CellValue for Flags {
    ghost use Rattle.cc2_resolved.specs.Answers.{flags_answer};

    ghost answer = { flags_answer };

    fn push_value(&self, out: &mut Vec<u8>) -> Result<(), AllocError> {
        push_texts(out, self.flags.as_slice())
    }
}

impl CellValue for StringList {
    ghost use Rattle.cc2_resolved.specs.Answers.{list_answer};

    ghost answer = { list_answer };

    fn push_value(&self, out: &mut Vec<u8>) -> Result<(), AllocError> {
        push_texts(out, self.list.as_slice())
    }
}

impl CellValue for PathAndArgs {
    ghost use Rattle.cc2_resolved.specs.Answers.{command_answer};

    ghost answer = { command_answer };

    fn push_value(&self, out: &mut Vec<u8>) -> Result<(), AllocError> {
        push_command(out, self)
    }
}

impl CellValue for CredentialProvider {
    ghost use Rattle.cc2_resolved.specs.Answers.{provider_answer};

    ghost answer = { provider_answer };

    fn push_value(&self, out: &mut Vec<u8>) -> Result<(), AllocError> {
        push_provider(out, self)
    }
}

impl CellValue for GlobalCredentialProviders {
    ghost use Rattle.cc2_resolved.specs.Answers.{providers};
    ghost use Rattle.cc2_resolved.specs.Providers.{providers_of};

    ghost answer = { λ g. providers (providers_of g) };

    fn push_value(&self, out: &mut Vec<u8>) -> Result<(), AllocError> {
        push_providers(out, self.as_ref())
    }
}

impl CellValue for Vec<TargetTriple> {
    ghost use Rattle.cc2_resolved.specs.Answers.{targets_answer};

    ghost answer = { targets_answer };

    fn push_value(&self, out: &mut Vec<u8>) -> Result<(), AllocError> {
        push_targets(out, self.as_slice())
    }
}

/// The variable's value and its two marks.
impl CellValue for EnvConfigValue {
    ghost use Rattle.cc2_resolved.specs.Answers.{variable_answer};

    ghost answer = { variable_answer };

    fn push_value(&self, out: &mut Vec<u8>) -> Result<(), AllocError> {
        out.push(b'v')?;
        push_field(out, self.value.as_bytes())?;
        out.push(u8::from(self.force))?;
        out.push(u8::from(self.relative))?;
        Ok(())
    }
}
