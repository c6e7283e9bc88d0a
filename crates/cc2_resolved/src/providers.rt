//! Providers of credentials for every registry.
ghost use Rattle.std.specs.Prelude.{map};
ghost use Rattle.cc2_error.specs.Outcomes.{Gives};
ghost use Rattle.cc2_leaf.specs.Providers.{setting_of_provider};
ghost use Rattle.cc2_resolved.specs.Answers.{each_provider};
ghost use Rattle.cc2_resolved.specs.Resolving.{provider_in};
ghost use Rattle.cc2_resolved.specs.Sites.{site_of};
ghost use Rattle.cc2_resolved.specs.Turns.{in_turn};

use crate::place::Place;
use crate::provider::CredentialProvider;
use crate::provider_kind::resolve_kind;
use cc2_error::error::Result;
use std::alloc::Global;

/// The providers, each resolved as one of a single registry is, in their order (Cargo Reference,
/// Configuration,
/// [`registry.global-credential-providers`](https://doc.rust-lang.org/cargo/reference/config.html#registryglobal-credential-providers)).
///
/// # Errors
/// Those of `resolve_kind`, of the first that is refused.
pub fn resolve_providers(
    alloc: Global,
    place: &Place<'_>,
    providers: Vec<cc2_leaf::CredentialProvider>,
) -> Result<Vec<CredentialProvider>>
    ensures { Gives each_provider result
        (in_turn (λ s. provider_in (site_of place.now) s.payload)
        (map setting_of_provider providers.items)) }
{
    let mut resolved = Vec::new(alloc);
    for provider in providers {
        resolved.push(resolve_kind(alloc, place, provider.kind)?)?;
    }
    Ok(resolved)
}
