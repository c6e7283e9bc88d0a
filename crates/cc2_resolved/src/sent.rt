//! What a list of texts sends to a serializer.
ghost use Rattle.std.specs.Prelude.{OnOk};
ghost use Rattle.cc2_resolved.specs.Events.{text_events, SendsAll};
ghost use Rattle.cc2_resolved.specs.Texts.{texts_of};

use serde::{Serialize, Serializer};

// Sends the texts as a sequence.
pub(crate) fn send_texts<S: Serializer>(texts: &[String], out: &mut S) -> Result<(), S::Error>
    ensures { OnOk result (SendsAll (text_events (texts_of texts.now))
        (S.written out.old) (S.written out.new)) }
{
    texts.serialize(out)
}
