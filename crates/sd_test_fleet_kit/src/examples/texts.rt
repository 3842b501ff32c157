//! The networks, with their plans by number.

/// A topology with its plans, as texts.
#[derive(Clone, Copy)]
pub struct Example {
    pub topology: &'static str,
    /// The first is in force at the beginning.
    pub plans: &'static [&'static str],
}

/// Devices a and b (0 and 1), and two links between them (0 and 1). There is one plan.
pub const PAIR: Example = Example {
    topology: r#"
version = 1
ppm = 50000
grain = 3
period = 100
tick = 60
loss = 1
depth = 1
roots = ["a", "b"]
device = [{ name = "a" }, { name = "b" }]
link = [
    { name = "one", ends = ["a", "b"], min = 4, max = 15 },
    { name = "two", ends = ["b", "a"], min = 10, max = 60 },
]
"#,
    plans: &[
        r#"{"version":1,"root":"a","backup_root":"b","wait_first":250,"wait_second":150,"wait":800,"absent_devices":[],"absent_links":[],"rows":[{"device":"b","parent":"a","link":"one","backup":"a","backup_link":"two"}]}"#,
    ],
};

/// Devices r, b and x (0 to 2), and the links rb, rx and bx (0 to 2), whose two directions differ,
/// as oscillators do. b is the root of the second plan and r that of the third; nothing is left out.
pub const TRIANGLE: Example = Example {
    topology: r#"
version = 2
ppm = 40000
grain = 2
period = 90
tick = 60
loss = 1
depth = 2
roots = ["r", "b"]
device = [{ name = "r" }, { name = "b", ppm = 90000, grain = 7 }, { name = "x", ppm = 1000, grain = 0 }]
link = [
    { name = "rb", ends = ["r", "b"], min = 5, max = 20, back_min = 1, back_max = 50 },
    { name = "rx", ends = ["r", "x"], min = 4, max = 30, back_min = 0, back_max = 8 },
    { name = "bx", ends = ["b", "x"], min = 10, max = 40, back_min = 3, back_max = 12 },
]
"#,
    plans: &[
        r#"{"version":1,"root":"r","backup_root":"b","wait_first":300,"wait_second":200,"wait":700,"absent_devices":[],"absent_links":[],"rows":[{"device":"b","parent":"r","link":"rb","backup":"x","backup_link":"bx"},{"device":"x","parent":"r","link":"rx","backup":"b","backup_link":"bx"}]}"#,
        r#"{"version":1,"root":"b","backup_root":"x","wait_first":280,"wait_second":180,"wait":600,"absent_devices":[],"absent_links":[],"rows":[{"device":"r","parent":"b","link":"rb","backup":"x","backup_link":"rx"},{"device":"x","parent":"b","link":"bx","backup":"r","backup_link":"rx"}]}"#,
        r#"{"version":1,"root":"r","backup_root":"x","wait_first":260,"wait_second":160,"wait":500,"absent_devices":[],"absent_links":[],"rows":[{"device":"b","parent":"r","link":"rb","backup":"x","backup_link":"bx"},{"device":"x","parent":"b","link":"bx","backup":"r","backup_link":"rx"}]}"#,
    ],
};

/// Devices r, b, x and y (0 to 3) in a ring with a diagonal: the links rb, rx, bx, by and xy (0 to
/// 4). The second plan leaves r out, with its links; the third is the first again.
pub const SQUARE: Example = Example {
    topology: r#"
version = 1
ppm = 60000
grain = 5
period = 80
tick = 60
loss = 1
depth = 3
roots = ["r", "b"]
device = [{ name = "r" }, { name = "b" }, { name = "x" }, { name = "y" }]
link = [
    { name = "rb", ends = ["r", "b"], min = 5, max = 25 },
    { name = "rx", ends = ["r", "x"], min = 2, max = 40 },
    { name = "bx", ends = ["b", "x"], min = 7, max = 30 },
    { name = "by", ends = ["b", "y"], min = 0, max = 18 },
    { name = "xy", ends = ["y", "x"], min = 12, max = 22 },
]
"#,
    plans: &[
        r#"{"version":1,"root":"r","backup_root":"b","wait_first":240,"wait_second":160,"wait":500,"absent_devices":[],"absent_links":[],"rows":[{"device":"b","parent":"r","link":"rb","backup":"x","backup_link":"bx"},{"device":"x","parent":"r","link":"rx","backup":"y","backup_link":"xy"},{"device":"y","parent":"b","link":"by","backup":"x","backup_link":"xy"}]}"#,
        r#"{"version":1,"root":"b","backup_root":"x","wait_first":230,"wait_second":150,"wait":450,"absent_devices":["r"],"absent_links":["rb","rx"],"rows":[{"device":"x","parent":"b","link":"bx","backup":"y","backup_link":"xy"},{"device":"y","parent":"b","link":"by","backup":"x","backup_link":"xy"}]}"#,
        r#"{"version":1,"root":"r","backup_root":"b","wait_first":240,"wait_second":160,"wait":500,"absent_devices":[],"absent_links":[],"rows":[{"device":"b","parent":"r","link":"rb","backup":"x","backup_link":"bx"},{"device":"x","parent":"r","link":"rx","backup":"y","backup_link":"xy"},{"device":"y","parent":"b","link":"by","backup":"x","backup_link":"xy"}]}"#,
    ],
};

/// Two spines s1 and s2 (0, 1), three leaves l1 to l3 (2 to 4), and a link from each spine to each
/// leaf, a1 to a3 and b1 to b3 (0 to 5). The second plan leaves l3 out; in the third s2 is the root,
/// and l3 has no backup.
pub const FABRIC: Example = Example {
    topology: r#"
version = 1
ppm = 30000
grain = 1
period = 100
tick = 60
loss = 1
depth = 3
roots = ["s1", "s2"]
device = [{ name = "s1" }, { name = "s2" }, { name = "l1" }, { name = "l2" }, { name = "l3" }]
link = [
    { name = "a1", ends = ["s1", "l1"], min = 6, max = 30 },
    { name = "a2", ends = ["s1", "l2"], min = 6, max = 30 },
    { name = "a3", ends = ["s1", "l3"], min = 6, max = 30 },
    { name = "b1", ends = ["s2", "l1"], min = 8, max = 45 },
    { name = "b2", ends = ["s2", "l2"], min = 8, max = 45 },
    { name = "b3", ends = ["s2", "l3"], min = 8, max = 45 },
]
"#,
    plans: &[
        r#"{"version":1,"root":"s1","backup_root":"s2","wait_first":260,"wait_second":170,"wait":600,"absent_devices":[],"absent_links":[],"rows":[{"device":"s2","parent":"l1","link":"b1","backup":"l2","backup_link":"b2"},{"device":"l1","parent":"s1","link":"a1","backup":"s2","backup_link":"b1"},{"device":"l2","parent":"s1","link":"a2","backup":"s2","backup_link":"b2"},{"device":"l3","parent":"s1","link":"a3","backup":"s2","backup_link":"b3"}]}"#,
        r#"{"version":1,"root":"s1","backup_root":"s2","wait_first":260,"wait_second":170,"wait":600,"absent_devices":["l3"],"absent_links":[],"rows":[{"device":"s2","parent":"l1","link":"b1","backup":"l2","backup_link":"b2"},{"device":"l1","parent":"s1","link":"a1","backup":"s2","backup_link":"b1"},{"device":"l2","parent":"s1","link":"a2","backup":"s2","backup_link":"b2"}]}"#,
        r#"{"version":1,"root":"s2","backup_root":"s1","wait_first":220,"wait_second":140,"wait":500,"absent_devices":[],"absent_links":[],"rows":[{"device":"s1","parent":"l1","link":"a1","backup":"l2","backup_link":"a2"},{"device":"l1","parent":"s2","link":"b1","backup":"s1","backup_link":"a1"},{"device":"l2","parent":"s2","link":"b2","backup":"s1","backup_link":"a2"},{"device":"l3","parent":"s2","link":"b3"}]}"#,
    ],
};
