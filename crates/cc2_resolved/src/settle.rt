//! Texts, resolved in place.
ghost use Rattle.std.specs.Prelude.{OnOk, IfErr, option_map};
ghost use Rattle.cc2_value.specs.Singles.{text_value};
ghost use Rattle.cc2_resolved.specs.Answers.{shown_at, text_answer};
ghost use Rattle.cc2_resolved.specs.Resolving.{meant_as};
ghost use Rattle.cc2_resolved.specs.Rows.{IsResolved, IsCause, by};
ghost use Rattle.cc2_resolved.specs.Sites.{site_of};

use crate::place::Place;
use crate::roots::{Meant, resolve_text};
use cc2_error::error::Result;
use cc2_leaf::Value;
use std::alloc::Global;

/// Resolves a text that is meant so in place, and takes it (Cargo Reference, Configuration,
/// [config-relative paths](https://doc.rust-lang.org/cargo/reference/config.html#config-relative-paths)).
pub fn settle_text(
    text: &mut Option<Value<String>>,
    alloc: Global,
    place: &Place<'_>,
    meant: Meant,
    resolved: &mut Option<String>,
) -> Result<()>
    ensures ok { OnOk result (IsResolved (by (meant_as meant)) (site_of place.now)
        (text_value text.old) (shown_at (option_map text_answer resolved.new))) }
    ensures refused { IfErr result
        (IsCause (by (meant_as meant)) (site_of place.now) (text_value text.old)) }
{
    match text.take() {
        None => {
            *resolved = None;
            Ok(())
        }
        Some(value) => match resolve_text(alloc, place.directory, meant, value) {
            Ok(answer) => {
                *resolved = Some(answer);
                Ok(())
            }
            Err(error) => Err(error),
        },
    }
}
