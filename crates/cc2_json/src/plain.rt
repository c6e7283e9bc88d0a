//! What a value is as JSON without where it was set.
ghost use Rattle.std.specs.Prelude.{◌≡◌, IfOk};
ghost use Rattle.serde_json.specs.View.{view};
ghost use Rattle.cc2_json.specs.Forms.{payload_data};

use crate::Json;
use cc2_leaf::{Color, Frequency, Plain, RegistriesProtocol, VersionControlSoftware, When};
use std::alloc::{AllocError, Global};

/// What a `Value` can have, as JSON: a number, a truth value or a text.
pub trait PlainJson: Plain {
    /// The value as JSON.
    fn plain_json(&self, alloc: Global) -> Result<Json, AllocError>
        ensures { IfOk result (λ json. view json ≡ payload_data (Self.payload self.now)) };
}

impl PlainJson for bool {
    fn plain_json(&self, _alloc: Global) -> Result<Json, AllocError> {
        Ok(Json::from(*self))
    }
}

impl PlainJson for i32 {
    fn plain_json(&self, _alloc: Global) -> Result<Json, AllocError> {
        Ok(Json::from(*self))
    }
}

impl PlainJson for u32 {
    fn plain_json(&self, _alloc: Global) -> Result<Json, AllocError> {
        Ok(Json::from(*self))
    }
}

impl PlainJson for String {
    fn plain_json(&self, alloc: Global) -> Result<Json, AllocError> {
        Json::try_from_str(alloc, self.as_str())
    }
}

impl PlainJson for Color {
    fn plain_json(&self, alloc: Global) -> Result<Json, AllocError> {
        Json::try_from_str(alloc, self.as_str())
    }
}

impl PlainJson for Frequency {
    fn plain_json(&self, alloc: Global) -> Result<Json, AllocError> {
        Json::try_from_str(alloc, self.as_str())
    }
}

impl PlainJson for RegistriesProtocol {
    fn plain_json(&self, alloc: Global) -> Result<Json, AllocError> {
        Json::try_from_str(alloc, self.as_str())
    }
}

impl PlainJson for VersionControlSoftware {
    fn plain_json(&self, alloc: Global) -> Result<Json, AllocError> {
        Json::try_from_str(alloc, self.as_str())
    }
}

impl PlainJson for When {
    fn plain_json(&self, alloc: Global) -> Result<Json, AllocError> {
        Json::try_from_str(alloc, self.as_str())
    }
}
