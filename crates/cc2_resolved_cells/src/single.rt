//! Numbers, truth values, texts and spelled values in bytes.
use crate::value::CellValue;
use crate::words::push_text;
use cc2_leaf::{Color, Frequency, RegistriesProtocol, VersionControlSoftware, When};
use std::alloc::AllocError;

/// A sign and the absolute value.
impl CellValue for i32 {
    ghost use Rattle.cc2_resolved.specs.Answers.{whole_answer};

    ghost answer = { whole_answer };

    fn push_value(&self, out: &mut Vec<u8>) -> Result<(), AllocError> {
        out.push(b'i')?;
        out.push(u8::from(*self < 0))?;
        out.extend_from_slice(self.unsigned_abs().to_le_bytes().as_slice())
    }
}

impl CellValue for u32 {
    ghost use Rattle.cc2_resolved.specs.Answers.{counting_answer};

    ghost answer = { counting_answer };

    fn push_value(&self, out: &mut Vec<u8>) -> Result<(), AllocError> {
        out.push(b'i')?;
        out.push(0)?;
        out.extend_from_slice(self.to_le_bytes().as_slice())
    }
}

impl CellValue for bool {
    ghost use Rattle.cc2_resolved.specs.Answers.{truth_answer};

    ghost answer = { truth_answer };

    fn push_value(&self, out: &mut Vec<u8>) -> Result<(), AllocError> {
        out.push(b'b')?;
        out.push(u8::from(*self))?;
        Ok(())
    }
}

impl CellValue for String {
    ghost use Rattle.cc2_resolved.specs.Answers.{text_answer};

    ghost answer = { text_answer };

    fn push_value(&self, out: &mut Vec<u8>) -> Result<(), AllocError> {
        push_text(out, self.as_str())
    }
}

impl CellValue for Color {
    ghost use Rattle.cc2_value.specs.Spellings.{color_spelling};
    ghost use Rattle.cc2_resolved.specs.Answers.{spelled_answer};

    ghost answer = { spelled_answer color_spelling };

    fn push_value(&self, out: &mut Vec<u8>) -> Result<(), AllocError> {
        push_text(out, self.as_str())
    }
}

impl CellValue for Frequency {
    ghost use Rattle.cc2_value.specs.Spellings.{frequency_spelling};
    ghost use Rattle.cc2_resolved.specs.Answers.{spelled_answer};

    ghost answer = { spelled_answer frequency_spelling };

    fn push_value(&self, out: &mut Vec<u8>) -> Result<(), AllocError> {
        push_text(out, self.as_str())
    }
}

impl CellValue for RegistriesProtocol {
    ghost use Rattle.cc2_value.specs.Spellings.{protocol_spelling};
    ghost use Rattle.cc2_resolved.specs.Answers.{spelled_answer};

    ghost answer = { spelled_answer protocol_spelling };

    fn push_value(&self, out: &mut Vec<u8>) -> Result<(), AllocError> {
        push_text(out, self.as_str())
    }
}

impl CellValue for VersionControlSoftware {
    ghost use Rattle.cc2_value.specs.Spellings.{vcs_spelling};
    ghost use Rattle.cc2_resolved.specs.Answers.{spelled_answer};

    ghost answer = { spelled_answer vcs_spelling };

    fn push_value(&self, out: &mut Vec<u8>) -> Result<(), AllocError> {
        push_text(out, self.as_str())
    }
}

impl CellValue for When {
    ghost use Rattle.cc2_value.specs.Spellings.{when_spelling};
    ghost use Rattle.cc2_resolved.specs.Answers.{spelled_answer};

    ghost answer = { spelled_answer when_spelling };

    fn push_value(&self, out: &mut Vec<u8>) -> Result<(), AllocError> {
        push_text(out, self.as_str())
    }
}
