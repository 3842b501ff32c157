//! The rows of a text, each set at the place of its device.
ghost use Rattle.std.specs.Prelude.{◌≡◌, ◌<◌, ◌+◌, Some, None, true, length, vec_len, slice_set, OnOk, IfOk, IfErr};
ghost use Rattle.serde_json.specs.View.{view, items_view};
ghost use Rattle.sd_plan.specs.topo.Network.{device_names};
ghost use Rattle.sd_plan.specs.topo.Topologies.{network};
ghost use Rattle.sd_plantext.specs.Counted.{filled};
ghost use Rattle.sd_plantext.specs.Gives.{Gives, Fails};
ghost use Rattle.sd_plantext.specs.Meaning.{named, hop_in, backup_in, row_in, is_free, device_in, one_more_row, rows_from, no_rows, rows_in};

use super::names::{Kind, named_at};
use super::values::{array_at, member, object_of};
use crate::fault::{PlanFault, PlanKey, PlanPlace};
use sd_plan::topo::Topology;
use sd_plan::{Hop, PlanRow, RowList};
use serde_json::Value;
use std::alloc::Global;

/// The parent and the link that are named at two keys of a row.
#[tactic(auto, unfolding(crate::specs::Meaning::hop_in))]
fn hop_at(
    topo: &Topology,
    object: &Value,
    parent: PlanKey,
    link: PlanKey,
    entry: u32,
) -> Result<Hop, PlanFault>
    ensures { Gives (λ hop. hop) result (hop_in (network topo.now) parent link entry
        (view object.now)) }
{
    let parent = named_at(topo, Kind::Device, object, parent, entry)?;
    let link = named_at(topo, Kind::Link, object, link, entry)?;
    Ok(Hop { parent, link })
}

/// A row's backup, none where both its keys are missing.
#[tactic(auto, unfolding(crate::specs::Meaning::backup_in))]
fn backup_at(topo: &Topology, object: &Value, entry: u32) -> Result<Option<Hop>, PlanFault>
    ensures { Gives (λ hop. hop) result (backup_in (network topo.now) entry (view object.now)) }
{
    let has_parent = member(object, PlanKey::RowsBackup).is_some();
    let has_link = member(object, PlanKey::RowsBackupLink).is_some();
    if !(has_parent || has_link) {
        return Ok(None);
    }
    let hop = hop_at(
        topo,
        object,
        PlanKey::RowsBackup,
        PlanKey::RowsBackupLink,
        entry,
    )?;
    Ok(Some(hop))
}

/// What a row says of its device.
#[tactic(auto, unfolding(crate::specs::Meaning::row_in))]
fn row_at(topo: &Topology, object: &Value, entry: u32) -> Result<PlanRow, PlanFault>
    ensures { Gives (λ row. row) result (row_in (network topo.now) entry (view object.now)) }
{
    let primary = hop_at(topo, object, PlanKey::RowsParent, PlanKey::RowsLink, entry)?;
    let backup = backup_at(topo, object, entry)?;
    Ok(PlanRow { primary, backup })
}

/// Whether a device has no row so far.
#[tactic(auto, using(crate::proofs::Rows::free_here))]
fn is_free(rows: &[Option<PlanRow>], device: u32) -> bool
    requires { device < length rows.now }
    ensures { result ≡ is_free rows.now device }
{
    rows[device as usize].is_none()
}

/// The device that a row names.
#[tactic(auto, using(crate::proofs::Sound::device_named))]
fn device_named(topo: &Topology, object: &Value, entry: u32) -> Result<u32, PlanFault>
    ensures given { Gives (λ n. n) result (named PlanKey.RowsDevice entry
        (device_names (network topo.now)) (view object.now)) }
    ensures range { IfOk result (λ n. n < length (network topo.now).devices) }
{
    named_at(topo, Kind::Device, object, PlanKey::RowsDevice, entry)
}

/// The device of a row, which has none so far.
#[tactic(auto, unfolding(crate::specs::Meaning::device_in))]
fn device_at(
    topo: &Topology,
    rows: &[Option<PlanRow>],
    object: &Value,
    entry: u32,
) -> Result<u32, PlanFault>
    requires { length rows.now ≡ length (network topo.now).devices }
    ensures given { Gives (λ n. n) result (device_in (network topo.now) entry rows.now
        (view object.now)) }
    ensures range { IfOk result (λ n. n < length rows.now) }
    ensures free { IfOk result (λ n. is_free rows.now n ≡ true) }
{
    let key = PlanKey::RowsDevice;
    let device = device_named(topo, object, entry)?;
    if !is_free(rows, device) {
        return Err(PlanFault::TwiceNamed(PlanPlace { key, entry }));
    }
    Ok(device)
}

/// Sets the row of an entry at the place of its device.
#[tactic(auto, unfolding(crate::specs::Meaning::one_more_row))]
fn add_row(
    topo: &Topology,
    rows: &mut Vec<Option<PlanRow>>,
    item: &Value,
    entry: u32,
) -> Result<(), PlanFault>
    requires { vec_len rows.old ≡ length (network topo.now).devices }
    ensures ok { OnOk result (one_more_row (network topo.now) entry rows.old.items (view item.now)
        ≡ Ok rows.new.items) }
    ensures len { OnOk result (vec_len rows.new ≡ vec_len rows.old) }
    ensures filled { OnOk result (filled rows.new.items ≡ filled rows.old.items + 1) }
    ensures err { IfErr result (λ e. Fails e (one_more_row (network topo.now) entry rows.old.items
        (view item.now))) }
{
    let key = PlanKey::Rows;
    let object = object_of(item, PlanPlace { key, entry })?;
    let device = device_at(topo, rows.as_slice(), object, entry)?;
    let row = row_at(topo, object, entry)?;
    rows[device as usize] = Some(row);
    Ok(())
}

/// The rows of all entries.
fn all_rows(
    alloc: Global,
    topo: &Topology,
    items: &[Value],
) -> Result<Vec<Option<PlanRow>>, PlanFault>
    ensures { Gives (λ v. v.items) result (rows_from (network topo.now) 1 (no_rows
        (network topo.now)) (items_view items.now)) }
{
    let mut rows = match vec![in alloc; None; topo.devices() as usize] {
        Ok(rows) => rows,
        Err(_) => return Err(PlanFault::Memory),
    };
    let mut entry = 1;
    for item in items {
        match add_row(topo, &mut rows, item, entry) {
            Ok(()) => entry += 1,
            Err(fault) => return Err(fault),
        }
    }
    Ok(rows)
}

/// Perhaps a row for each device.
#[tactic(auto, unfolding(crate::specs::Meaning::rows_in))]
pub(super) fn rows_at(alloc: Global, topo: &Topology, object: &Value) -> Result<RowList, PlanFault>
    ensures { Gives (λ l. l) result (rows_in (network topo.now) (view object.now)) }
{
    let items = array_at(object, PlanKey::Rows)?;
    match all_rows(alloc, topo, items) {
        Ok(rows) => return Ok(RowList::from_vec(rows)),
        Err(fault) => return Err(fault),
    }
}
