//! Numbers, truth values, texts and spelled values of resolved settings.
use crate::resolved_value::ResolvedValue;
use cc2_error::error::Result;
use cc2_leaf::{Color, Frequency, RegistriesProtocol, Spelled, VersionControlSoftware, When};
use std::alloc::Global;

impl ResolvedValue for i32 {
    ghost use Rattle.cc2_resolved.specs.Answers.{whole_answer};

    ghost answer = { whole_answer };

    fn copied(&self, _alloc: Global) -> Result<i32> {
        Ok(*self)
    }
}

impl ResolvedValue for u32 {
    ghost use Rattle.cc2_resolved.specs.Answers.{counting_answer};

    ghost answer = { counting_answer };

    fn copied(&self, _alloc: Global) -> Result<u32> {
        Ok(*self)
    }
}

impl ResolvedValue for bool {
    ghost use Rattle.cc2_resolved.specs.Answers.{truth_answer};

    ghost answer = { truth_answer };

    fn copied(&self, _alloc: Global) -> Result<bool> {
        Ok(*self)
    }
}

impl ResolvedValue for String {
    ghost use Rattle.cc2_resolved.specs.Answers.{text_answer};

    ghost answer = { text_answer };

    fn copied(&self, _alloc: Global) -> Result<String> {
        Ok(self.clone()?)
    }
}

impl ResolvedValue for Color {
    ghost use Rattle.cc2_value.specs.Spellings.{color_spelling};
    ghost use Rattle.cc2_resolved.specs.Answers.{spelled_answer};

    ghost answer = { spelled_answer color_spelling };

    fn copied(&self, _alloc: Global) -> Result<Color> {
        Ok(*self)
    }
}

impl ResolvedValue for Frequency {
    ghost use Rattle.cc2_value.specs.Spellings.{frequency_spelling};
    ghost use Rattle.cc2_resolved.specs.Answers.{spelled_answer};

    ghost answer = { spelled_answer frequency_spelling };

    fn copied(&self, _alloc: Global) -> Result<Frequency> {
        Ok(*self)
    }
}

impl ResolvedValue for RegistriesProtocol {
    ghost use Rattle.cc2_value.specs.Spellings.{protocol_spelling};
    ghost use Rattle.cc2_resolved.specs.Answers.{spelled_answer};

    ghost answer = { spelled_answer protocol_spelling };

    fn copied(&self, _alloc: Global) -> Result<RegistriesProtocol> {
        Ok(self.same())
    }
}

impl ResolvedValue for VersionControlSoftware {
    ghost use Rattle.cc2_value.specs.Spellings.{vcs_spelling};
    ghost use Rattle.cc2_resolved.specs.Answers.{spelled_answer};

    ghost answer = { spelled_answer vcs_spelling };

    fn copied(&self, _alloc: Global) -> Result<VersionControlSoftware> {
        Ok(*self)
    }
}

impl ResolvedValue for When {
    ghost use Rattle.cc2_value.specs.Spellings.{when_spelling};
    ghost use Rattle.cc2_resolved.specs.Answers.{spelled_answer};

    ghost answer = { spelled_answer when_spelling };

    fn copied(&self, _alloc: Global) -> Result<When> {
        Ok(*self)
    }
}
