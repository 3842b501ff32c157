//! Small networks with several accepted plans each, whose waits are as short as they may be.

use sd_plan::topo::Thing;

/// A topology with its plans, as texts.
#[derive(Clone, Copy)]
pub(super) struct Network {
    pub(super) topology: &'static str,
    /// The first is in force at the beginning.
    pub(super) plans: &'static [&'static str],
    /// What fails while the plan of each place is in force, so that the next one fits.
    pub(super) failures: &'static [Option<Thing>],
}

/// All of them.
pub(super) const NETWORKS: [Network; 4] = [PAIR, TRIANGLE, SQUARE, FABRIC];

/// Devices a and b (0 and 1), and two links between them (0 and 1). There is one plan.
const PAIR: Network = Network {
    topology: r#"
version = 1
ppm = 1000
grain = 2
period = 100
tick = 70
loss = 0
depth = 1
roots = ["a", "b"]
device = [{ name = "a" }, { name = "b" }]
link = [
    { name = "one", ends = ["a", "b"], min = 1, max = 4 },
    { name = "two", ends = ["b", "a"], min = 2, max = 6 },
]
"#,
    plans: &[
        r#"{"version":1,"root":"a","backup_root":"b","wait_first":940,"wait_second":940,"wait":4700,"absent_devices":[],"absent_links":[],"rows":[{"device":"b","parent":"a","link":"one","backup":"a","backup_link":"two"}]}"#,
    ],
    failures: &[Some(Thing::Device(0))],
};

/// Devices r, b and x (0 to 2), and the links rb, rx, bx and xb (0 to 3), the last two of which join
/// b and x. Oscillators differ, and so do the two directions of links. r is left out of the second
/// plan, and comes back with the third; the fourth leaves bx out.
const TRIANGLE: Network = Network {
    topology: r#"
version = 2
ppm = 1000
grain = 2
period = 100
tick = 60
loss = 1
depth = 2
roots = ["r", "b"]
device = [{ name = "r" }, { name = "b", ppm = 2000, grain = 3 }, { name = "x", ppm = 100, grain = 0 }]
link = [
    { name = "rb", ends = ["r", "b"], min = 1, max = 4, back_min = 0, back_max = 5 },
    { name = "rx", ends = ["r", "x"], min = 2, max = 5, back_min = 1, back_max = 3 },
    { name = "bx", ends = ["b", "x"], min = 1, max = 3, back_min = 1, back_max = 4 },
    { name = "xb", ends = ["x", "b"], min = 0, max = 2 },
]
"#,
    plans: &[
        r#"{"version":1,"root":"r","backup_root":"b","wait_first":1240,"wait_second":1240,"wait":6200,"absent_devices":[],"absent_links":[],"rows":[{"device":"b","parent":"r","link":"rb","backup":"x","backup_link":"bx"},{"device":"x","parent":"r","link":"rx","backup":"b","backup_link":"bx"}]}"#,
        r#"{"version":1,"root":"b","backup_root":"x","wait_first":1240,"wait_second":1240,"wait":6200,"absent_devices":["r"],"absent_links":[],"rows":[{"device":"x","parent":"b","link":"bx","backup":"b","backup_link":"xb"}]}"#,
        r#"{"version":1,"root":"b","backup_root":"x","wait_first":1240,"wait_second":1240,"wait":6200,"absent_devices":[],"absent_links":[],"rows":[{"device":"r","parent":"b","link":"rb","backup":"x","backup_link":"rx"},{"device":"x","parent":"b","link":"bx","backup":"b","backup_link":"xb"}]}"#,
        r#"{"version":1,"root":"b","backup_root":"r","wait_first":1240,"wait_second":1240,"wait":6200,"absent_devices":[],"absent_links":["bx"],"rows":[{"device":"r","parent":"b","link":"rb","backup":"x","backup_link":"rx"},{"device":"x","parent":"b","link":"xb","backup":"r","backup_link":"rx"}]}"#,
    ],
    failures: &[
        Some(Thing::Device(0)),
        None,
        Some(Thing::Link(2)),
        Some(Thing::Link(1)),
    ],
};

/// Devices r, b, x and y (0 to 3) in a ring with a diagonal: the links rb, rx, bx, by and xy (0 to
/// 4), of which rb and by may fail together. r is left out of the second plan, and comes back with
/// the third.
pub(super) const SQUARE: Network = Network {
    topology: r#"
version = 1
ppm = 2000
grain = 2
period = 100
tick = 60
loss = 0
depth = 3
roots = ["r", "b"]
device = [{ name = "r" }, { name = "b" }, { name = "x" }, { name = "y" }]
link = [
    { name = "rb", ends = ["r", "b"], min = 1, max = 3 },
    { name = "rx", ends = ["r", "x"], min = 0, max = 4 },
    { name = "bx", ends = ["b", "x"], min = 2, max = 4 },
    { name = "by", ends = ["b", "y"], min = 1, max = 2 },
    { name = "xy", ends = ["y", "x"], min = 1, max = 4 },
]
domain = [{ name = "tray", links = ["rb", "by"] }]
"#,
    plans: &[
        r#"{"version":1,"root":"r","backup_root":"b","wait_first":910,"wait_second":910,"wait":4550,"absent_devices":[],"absent_links":[],"rows":[{"device":"b","parent":"r","link":"rb","backup":"x","backup_link":"bx"},{"device":"x","parent":"r","link":"rx","backup":"y","backup_link":"xy"},{"device":"y","parent":"b","link":"by","backup":"x","backup_link":"xy"}]}"#,
        r#"{"version":1,"root":"b","backup_root":"x","wait_first":910,"wait_second":910,"wait":4550,"absent_devices":["r"],"absent_links":[],"rows":[{"device":"x","parent":"b","link":"bx","backup":"y","backup_link":"xy"},{"device":"y","parent":"b","link":"by","backup":"x","backup_link":"xy"}]}"#,
        r#"{"version":1,"root":"b","backup_root":"x","wait_first":910,"wait_second":910,"wait":4550,"absent_devices":[],"absent_links":[],"rows":[{"device":"r","parent":"b","link":"rb","backup":"x","backup_link":"rx"},{"device":"x","parent":"b","link":"bx","backup":"y","backup_link":"xy"},{"device":"y","parent":"b","link":"by","backup":"x","backup_link":"xy"}]}"#,
    ],
    failures: &[Some(Thing::Device(0)), None, Some(Thing::Link(3))],
};

/// Two spines s1 and s2 (0, 1), three leaves l1 to l3 (2 to 4), and a link from each spine to each
/// leaf, a1 to a3 and b1 to b3 (0 to 5). l3 is left out of the second plan, and comes back with the
/// third; the fourth leaves a2 out.
pub(super) const FABRIC: Network = Network {
    topology: r#"
version = 1
ppm = 1000
grain = 1
period = 100
tick = 60
loss = 1
depth = 3
roots = ["s1", "s2"]
device = [{ name = "s1" }, { name = "s2" }, { name = "l1" }, { name = "l2" }, { name = "l3" }]
link = [
    { name = "a1", ends = ["s1", "l1"], min = 1, max = 3 },
    { name = "a2", ends = ["s1", "l2"], min = 1, max = 3 },
    { name = "a3", ends = ["s1", "l3"], min = 1, max = 3 },
    { name = "b1", ends = ["s2", "l1"], min = 2, max = 4 },
    { name = "b2", ends = ["s2", "l2"], min = 2, max = 4 },
    { name = "b3", ends = ["s2", "l3"], min = 2, max = 4 },
]
domain = [
    { name = "rack1", devices = ["l1"], links = ["a1", "b1"] },
    { name = "rack2", devices = ["l2"], links = ["a2", "b2"] },
    { name = "rack3", devices = ["l3"], links = ["a3", "b3"] },
]
"#,
    plans: &[
        r#"{"version":1,"root":"s1","backup_root":"s2","wait_first":1230,"wait_second":1230,"wait":6140,"absent_devices":[],"absent_links":[],"rows":[{"device":"s2","parent":"l1","link":"b1","backup":"l2","backup_link":"b2"},{"device":"l1","parent":"s1","link":"a1","backup":"s2","backup_link":"b1"},{"device":"l2","parent":"s1","link":"a2","backup":"s2","backup_link":"b2"},{"device":"l3","parent":"s1","link":"a3","backup":"s2","backup_link":"b3"}]}"#,
        r#"{"version":1,"root":"s1","backup_root":"s2","wait_first":1230,"wait_second":1230,"wait":6140,"absent_devices":["l3"],"absent_links":[],"rows":[{"device":"s2","parent":"l1","link":"b1","backup":"l2","backup_link":"b2"},{"device":"l1","parent":"s1","link":"a1","backup":"s2","backup_link":"b1"},{"device":"l2","parent":"s1","link":"a2","backup":"s2","backup_link":"b2"}]}"#,
        r#"{"version":1,"root":"s1","backup_root":"s2","wait_first":1230,"wait_second":1230,"wait":6140,"absent_devices":[],"absent_links":[],"rows":[{"device":"s2","parent":"l1","link":"b1","backup":"l2","backup_link":"b2"},{"device":"l1","parent":"s1","link":"a1","backup":"s2","backup_link":"b1"},{"device":"l2","parent":"s1","link":"a2","backup":"s2","backup_link":"b2"},{"device":"l3","parent":"s1","link":"a3","backup":"s2","backup_link":"b3"}]}"#,
        r#"{"version":1,"root":"s1","backup_root":"s2","wait_first":1230,"wait_second":1230,"wait":6140,"absent_devices":[],"absent_links":["a2"],"rows":[{"device":"s2","parent":"l1","link":"b1","backup":"l3","backup_link":"b3"},{"device":"l1","parent":"s1","link":"a1","backup":"s2","backup_link":"b1"},{"device":"l2","parent":"s2","link":"b2"},{"device":"l3","parent":"s1","link":"a3","backup":"s2","backup_link":"b3"}]}"#,
    ],
    failures: &[
        Some(Thing::Device(4)),
        None,
        Some(Thing::Link(1)),
        Some(Thing::Device(0)),
    ],
};
