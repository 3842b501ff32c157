//! The text of a network, printed part by part: the tree of a part is small, and is dropped before
//! that of the next one is made.
ghost use Rattle.std.specs.Prelude.{◌≡◌, ◌+◌, ◌<◌, ◌^◌, ◌++◌, List, false, codes, length, map, flat_map, IfOk, OnOk, string_bytes};
ghost use Rattle.toml.specs.Data.{Members};
ghost use Rattle.toml.specs.Tables.{Expression};
ghost use Rattle.toml.specs.Text.{IsDocumentText, expressions};
ghost use Rattle.toml.specs.View.{table_view, view};
ghost use Rattle.sd_num.specs.Lists.{below};
ghost use Rattle.sd_gen.specs.fabric.Pages.{HasLines, front_tree, section_of};
ghost use Rattle.sd_gen.specs.fabric.Trees.{link_tree, numbers_tree, rack_tree, tables as tables_of};

use crate::fabric::arrays::{links_value, racks_value, roots_value};
use crate::fabric::names::push_text;
use crate::fabric::values::{put, put_number};
use sd_num::NoMemory;
use std::alloc::Global;
use toml::{Table, Value};

/// The numbers at the top.
fn numbers_table(alloc: Global) -> Result<Table, NoMemory>
    ensures { IfOk result (λ t. table_view t ≡ numbers_tree) }
{
    let mut members = Table::new(alloc);
    put_number(alloc, &mut members, "depth", 3)?;
    put_number(alloc, &mut members, "loss", 1)?;
    put_number(alloc, &mut members, "tick", 60_000_000)?;
    put_number(alloc, &mut members, "period", 100_000_000)?;
    put_number(alloc, &mut members, "grain", 1000)?;
    put_number(alloc, &mut members, "ppm", 200)?;
    put_number(alloc, &mut members, "version", 1)?;
    Ok(members)
}

/// A table as a document of its own.
fn document(alloc: Global, table: &Table) -> Result<String, NoMemory>
    ensures { IfOk result
        (λ text. IsDocumentText false (table_view table.now) (string_bytes text)) }
{
    match toml::table_to_string(alloc, table) {
        Ok(text) => Ok(text),
        Err(_) => Err(NoMemory),
    }
}

/// The front of the text: the numbers, and the roots.
pub(crate) fn front_text(alloc: Global, spines: u32) -> Result<String, NoMemory>
    requires { 0 < spines }
    ensures { IfOk result (λ text. HasLines (expressions (front_tree spines)) (string_bytes text)) }
{
    let mut members = numbers_table(alloc)?;
    let roots = roots_value(alloc, spines)?;
    put(alloc, &mut members, "roots", roots)?;
    document(alloc, &members)
}

/// Adds tables under their key, an empty line before them.
pub(crate) fn add_tables(
    alloc: Global,
    text: &mut String,
    key: &str,
    tables: Value,
) -> Result<(), NoMemory>
    ensures { OnOk result ((lines : List Expression) (all : List Members)
        → view tables ≡ tables_of all → 0 < length all → HasLines lines (string_bytes text.old)
        → HasLines (lines ++ section_of key.now all) (string_bytes text.new)) }
{
    let mut members = Table::new(alloc);
    put(alloc, &mut members, key, tables)?;
    let section = document(alloc, &members)?;
    push_text(text, "\n")?;
    push_text(text, section.as_str())
}

/// Adds the racks of all leaves.
pub(crate) fn add_racks(
    alloc: Global,
    text: &mut String,
    leaves: u32,
    spines: u32,
) -> Result<(), NoMemory>
    requires { spines + leaves < 2 ^ 32 }
    ensures { OnOk result ((lines : List Expression) → HasLines lines (string_bytes text.old)
        → HasLines (lines ++ section_of (codes "domain") (map (rack_tree spines) (below leaves)))
        (string_bytes text.new)) }
{
    'racks: for leaf in 0..leaves {
        let racks = racks_value(alloc, spines, leaf)?;
        add_tables(alloc, text, "domain", racks)?;
    }
    Ok(())
}

/// Adds all links: those of the first leaf, then those of the second, and so on.
pub(crate) fn add_links(
    alloc: Global,
    text: &mut String,
    leaves: u32,
    spines: u32,
) -> Result<(), NoMemory>
    requires some { 0 < spines }
    requires few { spines + leaves < 2 ^ 32 }
    ensures { OnOk result ((lines : List Expression) → HasLines lines (string_bytes text.old)
        → HasLines (lines ++ section_of (codes "link")
        (flat_map (λ i. map (link_tree i) (below spines)) (below leaves)))
        (string_bytes text.new)) }
{
    'links: for leaf in 0..leaves {
        let links = links_value(alloc, spines, leaf)?;
        add_tables(alloc, text, "link", links)?;
    }
    Ok(())
}
