//! One value of the text: that it is there, of its kind and in its range.
ghost use Rattle.std.specs.Prelude.{◌≡◌, ◌≤◌, length, option_map, nat_le, IfOk};
ghost use Rattle.std.specs.List.{list_all};
ghost use Rattle.toml.specs.Data.{as_integer, as_table, as_array, as_str, no_items};
ghost use Rattle.toml.specs.View.{view, table_view, items_view};
ghost use Rattle.sd_topotext.specs.Gives.{Gives};
ghost use Rattle.sd_plan.specs.topo.Network.{is_name, is_name_byte};
ghost use Rattle.sd_topotext.specs.Meaning.{place, value, there, of_kind, in_range, number, number_or, text, array, array_or_none};

use crate::fault::{Key, Place, TopoFault};
use toml::{Table, Value};

/// The greatest time that a text may give, in picoseconds: a second.
pub(super) const SECOND: u64 = 1_000_000_000_000;

/// The value at a key.
pub(super) fn member(table: &Table, key: Key) -> Option<&Value>
    ensures { option_map (λ v. view v.now) result ≡ value key (table_view table.now) }
{
    table.get(key.in_table())
}

/// The value at a key, or that it is missing.
fn value_at(table: &Table, key: Key, entry: u32) -> Result<&Value, TopoFault>
    ensures { Gives (λ v. view v.now) result (there (place key entry) (value key
        (table_view table.now))) }
{
    match member(table, key) {
        Some(value) => Ok(value),
        None => Err(TopoFault::Missing(Place { key, entry })),
    }
}

/// The string that a value is.
pub(super) fn text_of(value: &Value, place: Place) -> Result<&str, TopoFault>
    ensures { Gives (λ s. s.now) result (of_kind place (as_str (view value.now))) }
{
    match value.as_str() {
        Some(text) => Ok(text),
        None => Err(TopoFault::WrongKind(place)),
    }
}

/// The table that an entry is.
pub(super) fn table_of(value: &Value, place: Place) -> Result<&Table, TopoFault>
    ensures { Gives (λ t. table_view t.now) result (of_kind place (as_table (view value.now))) }
{
    match value.as_table() {
        Some(table) => Ok(table),
        None => Err(TopoFault::WrongKind(place)),
    }
}

/// The whole number that a value is.
fn integer_of(value: &Value, place: Place) -> Result<i64, TopoFault>
    ensures { Gives (λ z. z) result (of_kind place (as_integer (view value.now))) }
{
    match value.as_integer() {
        Some(number) => Ok(number),
        None => Err(TopoFault::WrongKind(place)),
    }
}

/// The elements of an array.
fn items_of(value: &Value, place: Place) -> Result<&[Value], TopoFault>
    ensures { Gives (λ vs. items_view vs.now) result (of_kind place (as_array (view value.now))) }
{
    match value.as_array() {
        Some(array) => Ok(array.as_slice()),
        None => Err(TopoFault::WrongKind(place)),
    }
}

/// A number that is within its range.
fn number_within(number: i64, place: Place, least: u64, most: u64) -> Result<u64, TopoFault>
    ensures { Gives (λ n. n) result (in_range place least most number) }
{
    if number < 0 {
        return Err(TopoFault::Range(place));
    }
    let number = number as u64;
    if number < least || number > most {
        return Err(TopoFault::Range(place));
    }
    Ok(number)
}

/// The number at a key.
#[tactic(auto, unfolding(crate::specs::Meaning::number))]
pub(super) fn number_at(
    table: &Table,
    key: Key,
    entry: u32,
    least: u64,
    most: u64,
) -> Result<u64, TopoFault>
    ensures given { Gives (λ n. n) result (number key entry least most (table_view table.now)) }
    ensures range { IfOk result (λ n. (least ≤ n) × (n ≤ most)) }
{
    let value = value_at(table, key, entry)?;
    let number = integer_of(value, Place { key, entry })?;
    number_within(number, Place { key, entry }, least, most)
}

/// The number at a key that may be missing.
#[tactic(auto, unfolding(crate::specs::Meaning::number_or))]
pub(super) fn number_or(
    table: &Table,
    key: Key,
    entry: u32,
    most: u64,
    default: u64,
) -> Result<u64, TopoFault>
    requires { default ≤ most }
    ensures given { Gives (λ n. n) result (number_or key entry most default
        (table_view table.now)) }
    ensures range { IfOk result (λ n. n ≤ most) }
{
    match member(table, key) {
        Some(_) => number_at(table, key, entry, 0, most),
        None => Ok(default),
    }
}

/// The string at a key.
#[tactic(auto, unfolding(crate::specs::Meaning::text))]
pub(super) fn text_at(table: &Table, key: Key, entry: u32) -> Result<&str, TopoFault>
    ensures { Gives (λ s. s.now) result (text key entry (table_view table.now)) }
{
    let value = value_at(table, key, entry)?;
    text_of(value, Place { key, entry })
}

/// The elements of the array at a key.
#[tactic(auto, unfolding(crate::specs::Meaning::array))]
pub(super) fn array_at(table: &Table, key: Key, entry: u32) -> Result<&[Value], TopoFault>
    ensures { Gives (λ vs. items_view vs.now) result (array key entry (table_view table.now)) }
{
    let value = value_at(table, key, entry)?;
    items_of(value, Place { key, entry })
}

/// The elements of the array at a key that may be missing.
#[tactic(auto, unfolding(crate::specs::Meaning::array_or_none))]
pub(super) fn array_or_none(table: &Table, key: Key, entry: u32) -> Result<&[Value], TopoFault>
    ensures { Gives (λ vs. items_view vs.now) result (array_or_none key entry
        (table_view table.now)) }
{
    match member(table, key) {
        Some(_) => array_at(table, key, entry),
        None => Ok(&[]),
    }
}

/// Whether a byte may stand in a name.
fn is_name_byte(byte: u8) -> bool
    ensures { result ≡ is_name_byte byte }
{
    byte.is_ascii_alphanumeric() || byte == b'-' || byte == b'_' || byte == b'.'
}

/// Whether a name has only such bytes.
fn has_name_bytes(bytes: &[u8]) -> bool
    ensures { result ≡ list_all is_name_byte bytes.now }
{
    bytes.iter().all(|byte| is_name_byte(*byte))
}

/// Whether a name is within the limits of names.
pub(super) fn is_name(name: &str) -> bool
    ensures { result ≡ is_name name.now }
{
    !name.is_empty() && name.len() <= 64 && has_name_bytes(name.as_bytes())
}
