//! Global providers of credentials as JSON.
ghost use Rattle.std.specs.Prelude.{◌≡◌, IfOk, map};
ghost use Rattle.serde_json.specs.Data.{array};
ghost use Rattle.serde_json.specs.View.{view, items_of};
ghost use Rattle.cc2_leaf.specs.Providers.{setting_of_provider};
ghost use Rattle.cc2_json.specs.Forms.{setting_data};

use crate::Json;
use crate::form::Form;
use crate::into_json::IntoJson;
use crate::leaf::provider_json;
use cc2_leaf::{CredentialProvider, GlobalCredentialProviders};
use std::alloc::{AllocError, Global};

/// An array of the providers; none where there is none.
impl IntoJson for GlobalCredentialProviders {
    fn into_json(self, alloc: Global, form: Form) -> Result<Option<Json>, AllocError> {
        if self.is_empty() {
            return Ok(None);
        }
        Ok(Some(array(each_json(alloc, form, self.as_ref())?)))
    }
}

fn array(items: Vec<Json>) -> Json
    ensures { view result ≡ array (items_of (map view items.items)) }
{
    Json::Array(items)
}

fn each_json(
    alloc: Global,
    form: Form,
    providers: &[CredentialProvider],
) -> Result<Vec<Json>, AllocError>
    ensures { IfOk result (λ items.
        map view items.items ≡ map (setting_data form.origins)
        (map setting_of_provider providers.now)) }
{
    let mut items = Vec::new(alloc);
    for provider in providers {
        items.push(provider_json(alloc, form, provider)?)?;
    }
    Ok(items)
}
