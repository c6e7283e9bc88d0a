//! Values of resolved settings: what each shows, and its copy.
ghost use Rattle.std.specs.Prelude.{◌≡◌, IfOk, IfErr, map};
ghost use Rattle.cc2_error.specs.Causes.{no_memory};
ghost use Rattle.cc2_resolved.specs.ShownTargets.{target_at};
ghost use Rattle.cc2_resolved.specs.Answers.{Answer, targets_of};

use crate::flags::Flags;
use crate::provider::CredentialProvider;
use crate::target_triple::TargetTriple;
use cc2_error::error::Result;
use cc2_error::path_and_args::PathAndArgs;
use std::alloc::Global;

/// A value that a resolved setting can have.
pub trait ResolvedValue: Drop {
    /// What it shows.
    ghost answer: { Self → Answer };

    /// A copy. Fails only if memory runs out.
    fn copied(&self, alloc: Global) -> Result<Self>
        ensures same { IfOk result (λ copy. answer copy ≡ answer self.now) }
        ensures refused { IfErr result (λ e. e ≡ no_memory) };
}

impl ResolvedValue for Flags {
    ghost use Rattle.cc2_resolved.specs.Answers.{flags_answer};

    ghost answer = { flags_answer };

    fn copied(&self, alloc: Global) -> Result<Flags> {
        Flags::try_clone(self, alloc)
    }
}

impl ResolvedValue for PathAndArgs {
    ghost use Rattle.cc2_resolved.specs.Answers.{command_answer};

    ghost answer = { command_answer };

    fn copied(&self, alloc: Global) -> Result<PathAndArgs> {
        Ok(PathAndArgs::try_clone(self, alloc)?)
    }
}

impl ResolvedValue for CredentialProvider {
    ghost use Rattle.cc2_resolved.specs.Answers.{provider_answer};

    ghost answer = { provider_answer };

    fn copied(&self, alloc: Global) -> Result<CredentialProvider> {
        CredentialProvider::try_clone(self, alloc)
    }
}

impl ResolvedValue for Vec<TargetTriple> {
    ghost use Rattle.cc2_resolved.specs.Answers.{targets_answer};

    ghost answer = { targets_answer };

    fn copied(&self, alloc: Global) -> Result<Vec<TargetTriple>> {
        copied_targets(alloc, self.as_slice())
    }
}

// The same targets once more.
fn copied_targets(alloc: Global, targets: &[TargetTriple]) -> Result<Vec<TargetTriple>>
    ensures same { IfOk result (λ copies. targets_of copies ≡ map target_at targets.now) }
    ensures refused { IfErr result (λ e. e ≡ no_memory) }
{
    let mut copies = Vec::new(alloc);
    for target in targets {
        copies.push(target.try_clone(alloc)?)?;
    }
    Ok(copies)
}
