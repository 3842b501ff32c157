//! Values, and how they are put into tables and arrays.
ghost use Rattle.std.specs.Prelude.{◌≡◌, ◌++◌, ◌∷◌, [], OnOk, string_bytes};
ghost use Rattle.toml.specs.Data.{string, array, table};
ghost use Rattle.toml.specs.View.{view, table_view, array_view};
ghost use Rattle.sd_topotext.specs.Printed.{put_word, whole};

use sd_num::NoMemory;
use std::alloc::Global;
use toml::Value;
use toml::value::{Array, Table};

/// A table as a value.
pub(crate) fn of_table(members: Table) -> Value
    ensures { view result ≡ table (table_view members) }
{
    Value::Table(members)
}

/// An array as a value.
pub(crate) fn of_array(items: Array) -> Value
    ensures { view result ≡ array (array_view items) }
{
    Value::Array(items)
}

/// A text as a value.
pub(crate) fn of_text(text: String) -> Value
    ensures { view result ≡ string (string_bytes text) }
{
    Value::String(text)
}

/// A number as a value.
fn of_number(number: u32) -> Value
    ensures { view result ≡ whole number }
{
    Value::Integer(i64::from(number))
}

/// Adds a value at the end of an array.
pub(crate) fn push(items: &mut Array, value: Value) -> Result<(), NoMemory>
    ensures { OnOk result (items.new.items ≡ items.old.items ++ value ∷ []) }
{
    match items.push(value) {
        Ok(()) => Ok(()),
        Err(_) => Err(NoMemory),
    }
}

/// Puts a value at a key.
pub(crate) fn put(
    alloc: Global,
    members: &mut Table,
    key: &str,
    value: Value,
) -> Result<(), NoMemory>
    ensures { OnOk result (table_view members.new
        ≡ put_word key.now (view value) (table_view members.old)) }
{
    let Ok(word) = String::from_str(alloc, key) else {
        return Err(NoMemory);
    };
    match members.insert(word, value) {
        Ok(_) => Ok(()),
        Err(_) => Err(NoMemory),
    }
}

/// Puts a number at a key.
pub(crate) fn put_number(
    alloc: Global,
    members: &mut Table,
    key: &str,
    number: u32,
) -> Result<(), NoMemory>
    ensures { OnOk result (table_view members.new
        ≡ put_word key.now (whole number) (table_view members.old)) }
{
    put(alloc, members, key, of_number(number))
}
