//! Merging raw values, whatever their keys are: of two single values the stronger is kept, of two arrays the
//! weaker one's items come first, but for commands, and tables merge key by key.
ghost use Rattle.std.specs.Prelude.{◌≡◌, [], None, Some, true, false, string_bytes, IfSome, IfNone};
ghost use Rattle.std.specs.BTreeMap.{Updates};
ghost use Rattle.std.specs.String.{string_cmp};
ghost use Rattle.cc2_error.specs.Causes.{refusal_of, plain, memory, mixed};
ghost use Rattle.cc2_cargo.specs.Merging.{IsNotRawOver, IsRawOver, items_over, precedes};
ghost use Rattle.cc2_cargo.specs.Places.{commands_from};
ghost use Rattle.cc2_cargo.specs.Raw.{array_origin, raw_at, raw_entry_at, raw_members_at};
ghost use Rattle.cc2_cargo.specs.RawReading.{IsFaulted};
ghost use Rattle.cc2_cargo.specs.declared.raw.Raw.TheBlock.{Array, Single};
ghost use Rattle.cc2_cargo.specs.declared.raw.Raw.TheViews.{Table};

use crate::raw::{Place, Raw, RawArray, is_of_override, name_fault};
use cc2_error::error::{Error, ErrorKind, Shape};
use cc2_value::{Value, mixed, put};
use std::alloc::Global;
use std::collections::BTreeMap;
use std::mem::replace;

// These put a value in the place of a weaker one. They record an error, and give false then: a level of them takes
// little of the stack.
#[cycle(merge)]
fn put_raw(
    alloc: Global,
    place: Place,
    strong: Raw,
    weak: &mut Raw,
    fault: &mut Option<Error>,
) -> bool
    ensures ok { result ≡ true →
        IsRawOver (commands_from place) (raw_at strong) (raw_at weak.old) (raw_at weak.new) }
    ensures refused { result ≡ false → IsFaulted fault.new
        (IsNotRawOver (commands_from place) (raw_at strong) (raw_at weak.old)) }
{
    match strong {
        Raw::Table(members) => put_table(alloc, place, members, weak, fault),
        Raw::Array(array) => put_array(alloc, place, array, weak, fault),
        Raw::Single(value) => put_single(alloc, place, value, weak, fault),
    }
}

#[cycle(merge)]
fn put_table(
    alloc: Global,
    place: Place,
    strong: BTreeMap<String, Raw>,
    weak: &mut Raw,
    fault: &mut Option<Error>,
) -> bool
    ensures ok { result ≡ true → IsRawOver (commands_from place) (raw_at (Table strong))
        (raw_at weak.old) (raw_at weak.new) }
    ensures refused { result ≡ false → IsFaulted fault.new
        (IsNotRawOver (commands_from place) (raw_at (Table strong)) (raw_at weak.old)) }
{
    match replace(weak, Raw::Table(BTreeMap::new(alloc))) {
        Raw::Table(members) => {
            let mut members = members;
            let is_put = put_members(alloc, place, strong, &mut members, fault);
            *weak = Raw::Table(members);
            is_put
        }
        Raw::Array(_) => differ(alloc, Shape::Table, Shape::Array, fault),
        Raw::Single(_) => differ(alloc, Shape::Table, Shape::String, fault),
    }
}

/// Puts members over weaker ones; false where there is an error, which is recorded.
#[cycle(merge)]
pub(crate) fn put_members(
    alloc: Global,
    place: Place,
    strong: BTreeMap<String, Raw>,
    members: &mut BTreeMap<String, Raw>,
    fault: &mut Option<Error>,
) -> bool
    ensures ok { result ≡ true → IsRawOver (commands_from place) (raw_members_at strong)
        (raw_members_at members.old) (raw_members_at members.new) }
    ensures refused { result ≡ false → IsFaulted fault.new
        (IsNotRawOver (commands_from place) (raw_members_at strong) (raw_members_at members.old)) }
{
    for (key, raw) in strong {
        if !put_member(alloc, place, key, raw, members, fault) {
            return false;
        }
    }
    true
}

#[cycle(merge)]
fn put_member(
    alloc: Global,
    place: Place,
    key: String,
    strong: Raw,
    members: &mut BTreeMap<String, Raw>,
    fault: &mut Option<Error>,
) -> bool
    ensures ok { result ≡ true → IsRawOver (commands_from place)
        (raw_entry_at (string_bytes key) strong) (raw_members_at members.old)
        (raw_members_at members.new) }
    ensures refused { result ≡ false → IsFaulted fault.new (IsNotRawOver (commands_from place)
        (raw_entry_at (string_bytes key) strong) (raw_members_at members.old)) }
{
    match members.get_mut(key.as_str()) {
        None => insert(members, key, strong, fault),
        Some(member) => {
            if put_raw(alloc, place.below(key.as_str()), strong, member, fault) {
                return true;
            }
            name_fault(alloc, key.as_str(), fault);
            false
        }
    }
}

// Puts a value at a key.
#[inline(never)]
fn insert(
    members: &mut BTreeMap<String, Raw>,
    key: String,
    raw: Raw,
    fault: &mut Option<Error>,
) -> bool
    ensures ok { result ≡ true → Updates string_cmp members.old members.new key (Some raw) }
    ensures refused { result ≡ false → IsFaulted fault.new (λ e. refusal_of e ≡ plain memory) }
{
    if put(members, key, raw).is_ok() {
        return true;
    }
    *fault = Some(Error::new(ErrorKind::Memory));
    false
}

// Puts an array over a weaker one, whose items come first; at a command it replaces the weaker one.
#[inline(never)]
fn put_array(
    alloc: Global,
    place: Place,
    strong: RawArray,
    weak: &mut Raw,
    fault: &mut Option<Error>,
) -> bool
    ensures ok { result ≡ true → IsRawOver (commands_from place) (raw_at (Array strong))
        (raw_at weak.old) (raw_at weak.new) }
    ensures refused { result ≡ false → IsFaulted fault.new
        (IsNotRawOver (commands_from place) (raw_at (Array strong)) (raw_at weak.old)) }
{
    match weak {
        Raw::Array(array) => join(place, strong, array, fault),
        Raw::Table(_) => differ(alloc, Shape::Array, Shape::Table, fault),
        Raw::Single(_) => differ(alloc, Shape::Array, Shape::String, fault),
    }
}

// Puts the items of an array behind those of a weaker one; at a command they take the place of these. Where the array is set as a
// whole is kept of the one that Cargo reads first.
fn join(place: Place, strong: RawArray, weak: &mut RawArray, fault: &mut Option<Error>) -> bool
    ensures ok { result ≡ true → IsRawOver (commands_from place) (raw_at (Array strong))
        (raw_at (Array weak.old)) (raw_at (Array weak.new)) }
    ensures refused { result ≡ false → IsFaulted fault.new (λ e. refusal_of e ≡ plain memory) }
{
    let is_first = precedes(&strong, weak);
    let RawArray {
        items,
        definition,
        turn,
    } = strong;
    if !put_items(place, items, &mut weak.items) {
        *fault = Some(Error::new(ErrorKind::Memory));
        return false;
    }
    if is_first {
        weak.definition = definition;
        weak.turn = turn;
    }
    true
}

// Puts items behind weaker ones; at a command they take the place of these. It is false where memory ran out.
fn put_items(
    place: Place,
    strong: Vec<Value<toml::Value>>,
    weak: &mut Vec<Value<toml::Value>>,
) -> bool
    ensures { result ≡ true → weak.new.items
        ≡ items_over (commands_from place []) strong.items weak.old.items }
{
    if place.is_command() {
        *weak = strong;
        return true;
    }
    let mut strong = strong;
    weak.append(&mut strong).is_ok()
}

// Whether Cargo takes what two arrays come to to be set where the first is: files precede overrides, then turns count.
fn precedes(one: &RawArray, other: &RawArray) -> bool
    ensures { result ≡ precedes (array_origin one.now) (array_origin other.now) }
{
    if is_of_override(&one.definition) {
        return is_of_override(&other.definition) && one.turn <= other.turn;
    }
    is_of_override(&other.definition) || one.turn <= other.turn
}

// Puts a single value in the place of a weaker one.
#[inline(never)]
fn put_single(
    alloc: Global,
    place: Place,
    value: Value<toml::Value>,
    weak: &mut Raw,
    fault: &mut Option<Error>,
) -> bool
    ensures ok { result ≡ true → IsRawOver (commands_from place) (raw_at (Single value))
        (raw_at weak.old) (raw_at weak.new) }
    ensures refused { result ≡ false → IsFaulted fault.new
        (IsNotRawOver (commands_from place) (raw_at (Single value)) (raw_at weak.old)) }
{
    match weak {
        Raw::Single(_) => {
            *weak = Raw::Single(value);
            true
        }
        Raw::Array(_) => differ(alloc, Shape::String, Shape::Array, fault),
        Raw::Table(_) => differ(alloc, Shape::String, Shape::Table, fault),
    }
}

// Records that these shapes meet, the stronger one's first.
#[inline(never)]
fn differ(alloc: Global, expected: Shape, found: Shape, fault: &mut Option<Error>) -> bool
    ensures refused { IsFaulted fault.new (λ e. refusal_of e ≡ plain (mixed [] expected found)) }
    ensures never { result ≡ false }
{
    *fault = Some(mixed(alloc, expected, found));
    false
}
