//! One value of the text: that it is there, of its kind and in its range.
ghost use Rattle.std.specs.Prelude.{◌≡◌, ◌≤◌, ◌^◌, option_map, IfOk};
ghost use Rattle.serde_json.specs.Find.{as_str, as_array};
ghost use Rattle.serde_json.specs.View.{view, items_view};
ghost use Rattle.sd_plantext.specs.Gives.{Gives};
ghost use Rattle.sd_plantext.specs.Meaning.{place, value, there, of_kind, an_object, whole, number, version_in, wait_in, array};

use crate::fault::{PlanFault, PlanKey, PlanPlace};
use serde_json::Value;

/// The greatest wait, in picoseconds.
const LONGEST_WAIT: u64 = 1 << 60;

/// The value at a key of an object; null counts as nothing.
pub(super) fn member(object: &Value, key: PlanKey) -> Option<&Value>
    ensures { option_map (λ v. view v.now) result ≡ value key (view object.now) }
{
    match object.get(key.in_object()) {
        Some(found) if found.is_null() => None,
        found => found,
    }
}

/// The value at a key, or that it is missing.
pub(super) fn value_at(object: &Value, key: PlanKey, entry: u32) -> Result<&Value, PlanFault>
    ensures { Gives (λ v. view v.now) result (there (place key entry) (value key
        (view object.now))) }
{
    match member(object, key) {
        Some(value) => Ok(value),
        None => Err(PlanFault::Missing(PlanPlace { key, entry })),
    }
}

/// The object that a value is.
pub(super) fn object_of(value: &Value, place: PlanPlace) -> Result<&Value, PlanFault>
    ensures { Gives (λ v. view v.now) result (an_object place (view value.now)) }
{
    if !value.is_object() {
        return Err(PlanFault::WrongKind(place));
    }
    Ok(value)
}

/// The string that a value is.
pub(super) fn text_of(value: &Value, place: PlanPlace) -> Result<&str, PlanFault>
    ensures { Gives (λ s. s.now) result (of_kind place (as_str (view value.now))) }
{
    match value.as_str() {
        Some(text) => Ok(text),
        None => Err(PlanFault::WrongKind(place)),
    }
}

/// The whole number that a value is.
fn whole_of(value: &Value, place: PlanPlace) -> Result<u64, PlanFault>
    ensures { Gives (λ n. n) result (of_kind place (whole (view value.now))) }
{
    match value.as_u64() {
        Some(number) => Ok(number),
        None => Err(PlanFault::WrongKind(place)),
    }
}

/// The elements of an array.
fn items_of(value: &Value, place: PlanPlace) -> Result<&[Value], PlanFault>
    ensures { Gives (λ vs. items_view vs.now) result (of_kind place (as_array (view value.now))) }
{
    match value.as_array() {
        Some(array) => Ok(array.as_slice()),
        None => Err(PlanFault::WrongKind(place)),
    }
}

/// The whole number at a key.
#[tactic(auto, unfolding(crate::specs::Meaning::number))]
fn number_at(object: &Value, key: PlanKey) -> Result<u64, PlanFault>
    ensures { Gives (λ n. n) result (number key (view object.now)) }
{
    let value = value_at(object, key, 0)?;
    whole_of(value, PlanPlace { key, entry: 0 })
}

/// The version, which is 1.
#[tactic(auto, unfolding(crate::specs::Meaning::version_in))]
pub(super) fn version_at(object: &Value) -> Result<u64, PlanFault>
    ensures { Gives (λ n. n) result (version_in (view object.now)) }
{
    let version = number_at(object, PlanKey::Version)?;
    if version != 1 {
        return Err(PlanFault::Version(version));
    }
    Ok(version)
}

/// The wait at a key.
#[tactic(auto, unfolding(crate::specs::Meaning::wait_in))]
pub(super) fn wait_at(object: &Value, key: PlanKey) -> Result<u64, PlanFault>
    ensures { Gives (λ n. n) result (wait_in key (view object.now)) }
{
    let wait = number_at(object, key)?;
    if wait > LONGEST_WAIT {
        return Err(PlanFault::Range(PlanPlace { key, entry: 0 }));
    }
    Ok(wait)
}

/// The elements of the array at a key.
#[tactic(auto, unfolding(crate::specs::Meaning::array))]
pub(super) fn array_at(object: &Value, key: PlanKey) -> Result<&[Value], PlanFault>
    ensures { Gives (λ vs. items_view vs.now) result (array key (view object.now)) }
{
    let value = value_at(object, key, 0)?;
    items_of(value, PlanPlace { key, entry: 0 })
}
