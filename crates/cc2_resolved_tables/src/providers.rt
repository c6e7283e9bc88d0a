//! Providers of credentials for every registry, each resolved as one of a single registry is.

use crate::slot::Slot;
use cc2_error::error::Result;
use cc2_resolved::provider::GlobalCredentialProviders;
use cc2_resolved::{Place, resolve_providers};
use std::alloc::Global;
use std::mem::replace;

impl Slot for cc2_leaf::GlobalCredentialProviders {
    ghost use Rattle.cc2_leaf.specs.ManyProviders.{providers_value};
    ghost use Rattle.cc2_resolved.specs.Answers.{providers_answer, shown_at};
    ghost use Rattle.cc2_resolved.specs.Resolving.{settled_providers};
    ghost use Rattle.cc2_resolved.specs.Rows.{by};

    type Resolved = GlobalCredentialProviders;

    ghost look = { providers_value };

    ghost how = { by settled_providers };

    ghost shown = { λ g. shown_at (providers_answer g) };

    fn settle(
        &mut self,
        alloc: Global,
        place: &Place<'_>,
        resolved: &mut GlobalCredentialProviders,
    ) -> Result<()> {
        let providers = replace(self, cc2_leaf::GlobalCredentialProviders::empty(alloc));
        match resolve_providers(alloc, place, providers.into_vec()) {
            Ok(each) => {
                *resolved = GlobalCredentialProviders::from(each);
                Ok(())
            }
            Err(error) => Err(error),
        }
    }
}
