//! What values, and words that are spelled, send to a serializer.
ghost use Rattle.serde.specs.Event.{Sends, text};
ghost use Rattle.cc2_value.specs.Spellings.{color_spelling, frequency_spelling, protocol_spelling, vcs_spelling, when_spelling};

use crate::color::Color;
use crate::frequency::Frequency;
use crate::registries_protocol::RegistriesProtocol;
use crate::value::Value;
use crate::version_control_software::VersionControlSoftware;
use crate::when::When;
use serde::{Described, Serialize, Serializer};

impl<T: Described> Described for Value<T> {
    ghost writes = { λ value. T.writes value.val };
}

/// The value alone, without where it was set.
impl<T: Serialize> Serialize for Value<T> {
    fn serialize<S: Serializer>(&self, out: &mut S) -> Result<(), S::Error> {
        self.val.serialize(out)
    }
}

impl Described for Color {
    ghost writes = { λ e. Sends (text (color_spelling e)) };
}

/// Its text.
impl Serialize for Color {
    fn serialize<S: Serializer>(&self, out: &mut S) -> Result<(), S::Error> {
        out.str(self.as_str())
    }
}

impl Described for Frequency {
    ghost writes = { λ e. Sends (text (frequency_spelling e)) };
}

/// Its text.
impl Serialize for Frequency {
    fn serialize<S: Serializer>(&self, out: &mut S) -> Result<(), S::Error> {
        out.str(self.as_str())
    }
}

impl Described for RegistriesProtocol {
    ghost writes = { λ e. Sends (text (protocol_spelling e)) };
}

/// Its text.
impl Serialize for RegistriesProtocol {
    fn serialize<S: Serializer>(&self, out: &mut S) -> Result<(), S::Error> {
        out.str(self.as_str())
    }
}

impl Described for VersionControlSoftware {
    ghost writes = { λ e. Sends (text (vcs_spelling e)) };
}

/// Its text.
impl Serialize for VersionControlSoftware {
    fn serialize<S: Serializer>(&self, out: &mut S) -> Result<(), S::Error> {
        out.str(self.as_str())
    }
}

impl Described for When {
    ghost writes = { λ e. Sends (text (when_spelling e)) };
}

/// Its text.
impl Serialize for When {
    fn serialize<S: Serializer>(&self, out: &mut S) -> Result<(), S::Error> {
        out.str(self.as_str())
    }
}
