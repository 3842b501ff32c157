//! The network of leaves and spines that a generated case has: as a topology, and as a text.
ghost use Rattle.std.specs.Prelude.{◌≡◌, ◌≤◌, false, Some, IfOk};
ghost use Rattle.toml.specs.Text.{IsDocumentText};
ghost use Rattle.sd_topotext.specs.Reading.{tree_of};
ghost use Rattle.sd_gen.specs.fabric.Texts.{IsFabricText};
ghost use Rattle.sd_gen.specs.fabric.Trees.{fabric_tree};

mod arrays;
mod names;
mod pages;
mod parts;
mod topology;
mod values;

use arrays::devices_value;
use pages::{add_links, add_racks, add_tables, front_text};
use sd_num::NoMemory;
use std::alloc::Global;
pub use topology::fabric_topology;

/// The text of a network in which each leaf has a link to each spine, printed with `toml`: a
/// topology of version 1 with devices `s0`, `s1` and so on, then `l0`, `l1` and so on, a link
/// `k` i `-` j from each leaf i to each spine j, and a domain `rack` i of each leaf with its links.
/// All spines may be roots. Delays are from 400 ns to 1 us.
pub fn fabric_text(alloc: Global, leaves: u32, spines: u32) -> Result<Vec<u8>, NoMemory>
    requires some_leaves { 2 ≤ leaves }
    requires few_leaves { leaves ≤ 256 }
    requires some_spines { 3 ≤ spines }
    requires few_spines { spines ≤ 32 }
    // as `toml` writes the whole tree, though it is printed part by part
    ensures written { IfOk result
        (λ text. IsDocumentText false (fabric_tree leaves spines) text.items) }
    ensures tree { IfOk result (λ text. tree_of text.items ≡ Some (fabric_tree leaves spines)) }
    ensures means { IfOk result (λ text. IsFabricText leaves spines text.items) }
{
    let mut text = front_text(alloc, spines)?;
    let devices = devices_value(alloc, leaves, spines)?;
    add_tables(alloc, &mut text, "device", devices)?;
    add_racks(alloc, &mut text, leaves, spines)?;
    add_links(alloc, &mut text, leaves, spines)?;
    Ok(text.into_bytes())
}
