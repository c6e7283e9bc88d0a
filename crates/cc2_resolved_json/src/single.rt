//! Numbers, truth values, texts and spelled values of resolved settings, as JSON.
use crate::leaf::PlainValue;
use cc2_json::Json;
use cc2_leaf::{Color, Frequency, RegistriesProtocol, VersionControlSoftware, When};
use std::alloc::{AllocError, Global};

impl PlainValue for i32 {
    ghost use Rattle.std.specs.Prelude.{refl};

    ghost whole = { λ a. refl };

    fn plain_json(&self, _alloc: Global) -> Result<Json, AllocError> {
        Ok(Json::from(*self))
    }
}

impl PlainValue for u32 {
    ghost use Rattle.std.specs.Prelude.{refl};

    ghost whole = { λ a. refl };

    fn plain_json(&self, _alloc: Global) -> Result<Json, AllocError> {
        Ok(Json::from(*self))
    }
}

impl PlainValue for bool {
    ghost use Rattle.std.specs.Prelude.{refl};

    ghost whole = { λ a. refl };

    fn plain_json(&self, _alloc: Global) -> Result<Json, AllocError> {
        Ok(Json::from(*self))
    }
}

impl PlainValue for String {
    ghost use Rattle.std.specs.Prelude.{refl};

    ghost whole = { λ a. refl };

    fn plain_json(&self, alloc: Global) -> Result<Json, AllocError> {
        Json::try_from_str(alloc, self.as_str())
    }
}

impl PlainValue for Color {
    ghost use Rattle.std.specs.Prelude.{refl};

    ghost whole = { λ a. refl };

    fn plain_json(&self, alloc: Global) -> Result<Json, AllocError> {
        Json::try_from_str(alloc, self.as_str())
    }
}

impl PlainValue for Frequency {
    ghost use Rattle.std.specs.Prelude.{refl};

    ghost whole = { λ a. refl };

    fn plain_json(&self, alloc: Global) -> Result<Json, AllocError> {
        Json::try_from_str(alloc, self.as_str())
    }
}

impl PlainValue for RegistriesProtocol {
    ghost use Rattle.std.specs.Prelude.{refl};

    ghost whole = { λ a. refl };

    fn plain_json(&self, alloc: Global) -> Result<Json, AllocError> {
        Json::try_from_str(alloc, self.as_str())
    }
}

impl PlainValue for VersionControlSoftware {
    ghost use Rattle.std.specs.Prelude.{refl};

    ghost whole = { λ a. refl };

    fn plain_json(&self, alloc: Global) -> Result<Json, AllocError> {
        Json::try_from_str(alloc, self.as_str())
    }
}

impl PlainValue for When {
    ghost use Rattle.std.specs.Prelude.{refl};

    ghost whole = { λ a. refl };

    fn plain_json(&self, alloc: Global) -> Result<Json, AllocError> {
        Json::try_from_str(alloc, self.as_str())
    }
}
