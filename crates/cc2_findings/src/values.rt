//! Which keys of a file are set to values that a load refuses.
ghost use Rattle.std.specs.Prelude.{◌≡◌, IfOk};
ghost use Rattle.toml.specs.View.{table_view};
ghost use Rattle.cc2_findings.specs.Values.{AreRefused, IsLoadRefusal, is_one, setting_at, setting_in, settings_of};

use crate::alone::{Judge, ValueFault, faults_alone};
use crate::finding::Look;
use crate::place::Place;
use crate::refusal::refusal;
use cc2_error::error::{Error, NoMemory};
use std::alloc::Global;

/// A value is read at a key (Cargo Reference, Configuration,
/// [configuration keys](https://doc.rust-lang.org/cargo/reference/config.html#configuration-keys)).
#[derive(Clone, Copy, Debug, Drop)]
pub struct Setting;

impl Look for Setting {
    ghost look = { setting_at };

    fn look(place: Place, key: &str, value: &toml::Value) -> Option<Setting> {
        if is_one(place) {
            return None;
        }
        setting_in(place.below(key, value.is_table()), value.is_table())
    }
}

// A load refuses it.
#[derive(Clone, Copy, Debug, Drop)]
struct Load;

impl Judge for Load {
    ghost judges = { IsLoadRefusal };

    fn refusal(
        &self,
        alloc: Global,
        _keys: &[String],
        table: &toml::Table,
    ) -> Result<Option<Error>, NoMemory> {
        refusal(alloc, table)
    }
}

/// The keys of a file, in the order of its tables, that are set to values which a load refuses: those for which it
/// refuses a file that sets the key so, and nothing else. See the Cargo Reference, Configuration,
/// [configuration format](https://doc.rust-lang.org/cargo/reference/config.html#configuration-format).
///
/// # Errors
/// `NoMemory` where memory ran out.
pub fn value_faults(alloc: Global, table: &toml::Table) -> Result<Vec<ValueFault>, NoMemory>
    ensures { IfOk result (λ found.
        AreRefused (table_view table.now) (settings_of (table_view table.now)) found.items) }
{
    faults_alone::<Setting, Load>(alloc, table, &Load)
}

// Whether the value there is read as one, whatever keys it has.
fn is_one(place: Place) -> bool
    ensures { result ≡ is_one place }
{
    matches!(place, Place::Whole | Place::Variable)
}

// Whether a value is read at this place: not where it is a table of further keys.
fn setting_in(place: Option<Place>, is_table: bool) -> Option<Setting>
    ensures { result ≡ setting_in place is_table }
{
    match place {
        Some(place) if !is_table || is_one(place) => Some(Setting),
        _ => None,
    }
}
