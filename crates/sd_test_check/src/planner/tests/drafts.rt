//! Drafts that differ in one row are counted as drafts that are counted anew.
use crate::planner::tests::places::all_there;
use sd_plan::Hop;
use sd_planner::Neighbour;
use sd_search::draft::{Change, Draft, Greedy, Ground, Pair, Parallel, Tally};
use sd_test_examples::topology_of;
use std::process::Abort;
use std::test::Fail;

/// Eight devices in a ring with chords, and two listed domains.
const MESH: &str =
    "version = 2\nppm = 200\ngrain = 1000\nperiod = 100000000\ntick = 10000000\nloss = 1\ndepth = 8\nroots = [\"a\", \"c\", \"e\"]\n[[device]]\nname = \"a\"\n[[device]]\nname = \"b\"\n[[device]]\nname = \"c\"\n[[device]]\nname = \"d\"\n[[device]]\nname = \"e\"\n[[device]]\nname = \"f\"\n[[device]]\nname = \"g\"\n[[device]]\nname = \"h\"\n[[link]]\nname = \"ab\"\nends = [\"a\", \"b\"]\nmin = 400000\nmax = 1000000\n[[link]]\nname = \"bc\"\nends = [\"b\", \"c\"]\nmin = 400000\nmax = 1000000\n[[link]]\nname = \"cd\"\nends = [\"c\", \"d\"]\nmin = 400000\nmax = 1000000\n[[link]]\nname = \"de\"\nends = [\"d\", \"e\"]\nmin = 400000\nmax = 1000000\n[[link]]\nname = \"ef\"\nends = [\"e\", \"f\"]\nmin = 400000\nmax = 1000000\n[[link]]\nname = \"fg\"\nends = [\"f\", \"g\"]\nmin = 400000\nmax = 1000000\n[[link]]\nname = \"gh\"\nends = [\"g\", \"h\"]\nmin = 400000\nmax = 1000000\n[[link]]\nname = \"ha\"\nends = [\"h\", \"a\"]\nmin = 400000\nmax = 1000000\n[[link]]\nname = \"ae\"\nends = [\"a\", \"e\"]\nmin = 400000\nmax = 1000000\n[[link]]\nname = \"bf\"\nends = [\"b\", \"f\"]\nmin = 400000\nmax = 1000000\n[[link]]\nname = \"cg\"\nends = [\"c\", \"g\"]\nmin = 400000\nmax = 1000000\n[[link]]\nname = \"dh\"\nends = [\"d\", \"h\"]\nmin = 400000\nmax = 1000000\n[[link]]\nname = \"ac\"\nends = [\"a\", \"c\"]\nmin = 400000\nmax = 1000000\n[[domain]]\nname = \"rack\"\ndevices = [\"b\", \"f\"]\nlinks = [\"gh\"]\n[[domain]]\nname = \"tray\"\nlinks = [\"ae\", \"cg\"]\n";

/// A draft with another row of one device: by an even turn another primary, by an odd one another
/// backup.
fn change(ground: &Ground<'_>, draft: &mut Draft, d: u32, turn: u32) {
    let neighbours: &[Neighbour] = ground.neighbours(d);
    if neighbours.is_empty() || d == draft.root {
        return;
    }
    let to = neighbours[turn as usize / 2 % neighbours.len()];
    let hop = Hop {
        parent: to.device,
        link: to.link,
    };
    if turn % 2 == 0 {
        if !draft.leads_over(hop.parent, d, 8) {
            draft.set_primary(d, hop);
        }
    } else {
        draft.set_backup(d, Some(hop));
    }
}

#[test]
fn a_changed_row_counts_as_all_rows(rt: HostRuntime) -> Result<(), Fail> {
    let alloc = rt.alloc();
    let topo = topology_of(alloc, MESH)?;
    let absent = all_there(alloc, &topo);
    let ground = Ground::new(alloc, &topo, &absent)?;
    let mut greedy = Greedy::new(alloc, &ground)?;
    let pair = Pair {
        root: 0,
        backup_root: 2,
    };
    let mut here = greedy.draft(alloc, &ground, pair, Parallel::Never)?;
    let mut tally = Tally::new(alloc, &ground)?;
    let mut anew = Tally::new(alloc, &ground)?;
    let mut kept = tally.count(&ground, &here, &here, Change::All, u64::MAX)?;
    tally.keep();
    let mut next = here.copy(alloc)?;
    for turn in 0..400_u32 {
        let d = turn * 5 % 8;
        next.copy_from(&here);
        change(&ground, &mut next, d, turn);
        let changed = tally.count(&ground, &here, &next, Change::Row(d), u64::MAX)?;
        let whole = anew.count(&ground, &next, &next, Change::All, u64::MAX)?;
        assert_eq!(rt; changed, whole);
        if changed <= kept || turn % 7 == 0 {
            tally.keep();
            here.copy_from(&next);
            kept = changed;
        }
    }
    // past a limit, what is told lies above it
    let told = anew.count(&ground, &here, &here, Change::All, 0)?;
    assert_eq!(rt; told > 0, kept > 0);
    assert!(rt; told <= kept);
    Ok(())
}
