//! The texts of the networks, and of their plans.

/// Two spines s1 and s2 (0, 1), three leaves l1 to l3 (2 to 4), and a link from each spine to each
/// leaf, a1 to a3 and b1 to b3 (0 to 5).
pub const FABRIC: &str = r#"
version = 1
ppm = 200
grain = 1000
period = 100000000
tick = 10000000
loss = 1
depth = 3
roots = ["s1", "s2"]
device = [{ name = "s1" }, { name = "s2" }, { name = "l1" }, { name = "l2" }, { name = "l3" }]
link = [
    { name = "a1", ends = ["s1", "l1"], min = 400000, max = 1000000 },
    { name = "a2", ends = ["s1", "l2"], min = 400000, max = 1000000 },
    { name = "a3", ends = ["s1", "l3"], min = 400000, max = 1000000 },
    { name = "b1", ends = ["s2", "l1"], min = 400000, max = 1000000 },
    { name = "b2", ends = ["s2", "l2"], min = 400000, max = 1000000 },
    { name = "b3", ends = ["s2", "l3"], min = 400000, max = 1000000 },
]
"#;

/// Each leaf follows s1 and falls back on s2, which is behind l1 and falls back on l2.
pub const FABRIC_PLAN: &str =
    r#"{"absent_devices":[],"absent_links":[],"backup_root":"s2","root":"s1","rows":[{"backup":"l2","backup_link":"b2","device":"s2","link":"b1","parent":"l1"},{"backup":"s2","backup_link":"b1","device":"l1","link":"a1","parent":"s1"},{"backup":"s2","backup_link":"b2","device":"l2","link":"a2","parent":"s1"},{"backup":"s2","backup_link":"b3","device":"l3","link":"a3","parent":"s1"}],"version":1,"wait":3600000000,"wait_first":720000000,"wait_second":720000000}"#;

/// The greedy plan of the fabric, as it is printed.
pub const FABRIC_GREEDY: &str =
    "{\"absent_devices\":[],\"absent_links\":[],\"backup_root\":\"s2\",\"root\":\"s1\",\"rows\":[{\"backup\":\"l2\",\"backup_link\":\"b2\",\"device\":\"s2\",\"link\":\"b1\",\"parent\":\"l1\"},{\"backup\":\"s2\",\"backup_link\":\"b1\",\"device\":\"l1\",\"link\":\"a1\",\"parent\":\"s1\"},{\"backup\":\"s2\",\"backup_link\":\"b2\",\"device\":\"l2\",\"link\":\"a2\",\"parent\":\"s1\"},{\"backup\":\"s2\",\"backup_link\":\"b3\",\"device\":\"l3\",\"link\":\"a3\",\"parent\":\"s1\"}],\"version\":1,\"wait\":3561917200,\"wait_first\":712269454,\"wait_second\":712269454}\n";

/// The greedy plan of the fabric without its leaf l3.
pub const FABRIC_RENEWED: &str =
    "{\"absent_devices\":[\"l3\"],\"absent_links\":[],\"backup_root\":\"s2\",\"root\":\"s1\",\"rows\":[{\"backup\":\"l2\",\"backup_link\":\"b2\",\"device\":\"s2\",\"link\":\"b1\",\"parent\":\"l1\"},{\"backup\":\"s2\",\"backup_link\":\"b1\",\"device\":\"l1\",\"link\":\"a1\",\"parent\":\"s1\"},{\"backup\":\"s2\",\"backup_link\":\"b2\",\"device\":\"l2\",\"link\":\"a2\",\"parent\":\"s1\"}],\"version\":1,\"wait\":3561917200,\"wait_first\":712269454,\"wait_second\":712269454}\n";

/// Devices r, b, x and y (0 to 3), and the links rb, rx, bx, by and xy (0 to 4).
pub const SQUARE: &str = r#"
version = 1
ppm = 200
grain = 1000
period = 100000000
tick = 10000000
loss = 1
depth = 3
roots = ["r", "b"]
device = [{ name = "r" }, { name = "b" }, { name = "x" }, { name = "y" }]
link = [
    { name = "rb", ends = ["r", "b"], min = 400000, max = 1000000 },
    { name = "rx", ends = ["r", "x"], min = 400000, max = 1000000 },
    { name = "bx", ends = ["b", "x"], min = 400000, max = 1000000 },
    { name = "by", ends = ["b", "y"], min = 400000, max = 1000000 },
    { name = "xy", ends = ["x", "y"], min = 400000, max = 1000000 },
]
"#;

/// The square where rx and by may fail together.
pub const SQUARE_TRAY: &str = r#"
version = 1
ppm = 200
grain = 1000
period = 100000000
tick = 10000000
loss = 1
depth = 3
roots = ["r", "b"]
device = [{ name = "r" }, { name = "b" }, { name = "x" }, { name = "y" }]
link = [
    { name = "rb", ends = ["r", "b"], min = 400000, max = 1000000 },
    { name = "rx", ends = ["r", "x"], min = 400000, max = 1000000 },
    { name = "bx", ends = ["b", "x"], min = 400000, max = 1000000 },
    { name = "by", ends = ["b", "y"], min = 400000, max = 1000000 },
    { name = "xy", ends = ["x", "y"], min = 400000, max = 1000000 },
]
domain = [{ name = "tray", links = ["rx", "by"] }]
"#;

/// b and x follow r, y follows b; each falls back on a neighbour.
pub const SQUARE_PLAN: &str =
    r#"{"absent_devices":[],"absent_links":[],"backup_root":"b","root":"r","rows":[{"backup":"x","backup_link":"bx","device":"b","link":"rb","parent":"r"},{"backup":"y","backup_link":"xy","device":"x","link":"rx","parent":"r"},{"backup":"x","backup_link":"xy","device":"y","link":"by","parent":"b"}],"version":1,"wait":3600000000,"wait_first":720000000,"wait_second":720000000}"#;

/// Devices r, b and x (0 to 2), and the links rb, rx and bx (0 to 2).
pub const TRIANGLE: &str = r#"
version = 1
ppm = 200
grain = 1000
period = 100000000
tick = 90000000
loss = 1
depth = 2
roots = ["r", "b"]
device = [{ name = "r" }, { name = "b" }, { name = "x" }]
link = [
    { name = "rb", ends = ["r", "b"], min = 400000, max = 1000000 },
    { name = "rx", ends = ["r", "x"], min = 400000, max = 1000000 },
    { name = "bx", ends = ["b", "x"], min = 400000, max = 1000000 },
]
"#;

/// The triangle in version 2.
pub const TRIANGLE_2: &str = r#"
version = 2
ppm = 200
grain = 1000
period = 100000000
tick = 90000000
loss = 1
depth = 2
roots = ["r", "b"]
device = [{ name = "r" }, { name = "b" }, { name = "x" }]
link = [
    { name = "rb", ends = ["r", "b"], min = 400000, max = 1000000 },
    { name = "rx", ends = ["r", "x"], min = 400000, max = 1000000 },
    { name = "bx", ends = ["b", "x"], min = 400000, max = 1000000 },
]
"#;

/// b and x follow r and fall back on each other.
pub const TRIANGLE_PLAN: &str =
    r#"{"absent_devices":[],"absent_links":[],"backup_root":"b","root":"r","rows":[{"backup":"x","backup_link":"bx","device":"b","link":"rb","parent":"r"},{"backup":"b","backup_link":"bx","device":"x","link":"rx","parent":"r"}],"version":1,"wait":6730000000,"wait_first":1345000000,"wait_second":1345000000}"#;

/// Six links of 5 ps between five devices without drift: r, x, b in a ring and r, b, d, y in
/// another. The domain f has the root and the link between x and b.
pub const DRIFTLESS: &str = r#"
version = 1
ppm = 0
grain = 0
period = 241
tick = 200
loss = 1
depth = 3
roots = ["r", "b"]
device = [{ name = "r" }, { name = "x" }, { name = "b" }, { name = "d" }, { name = "y" }]
link = [
    { name = "rx", ends = ["r", "x"], min = 5, max = 5 },
    { name = "z", ends = ["x", "b"], min = 5, max = 5 },
    { name = "rb", ends = ["r", "b"], min = 5, max = 5 },
    { name = "bd", ends = ["b", "d"], min = 5, max = 5 },
    { name = "dy", ends = ["d", "y"], min = 5, max = 5 },
    { name = "ry", ends = ["r", "y"], min = 5, max = 5 },
]
domain = [{ name = "f", devices = ["r"], links = ["z"] }]
"#;

/// A plan of it whose first wait is longer than it need be.
pub const DRIFTLESS_PLAN: &str =
    r#"{"version": 1, "root": "r", "backup_root": "b", "wait_first": 20000, "wait_second": 3206, "wait": 32824, "absent_devices": [], "absent_links": [], "rows": [{"device": "x", "parent": "r", "link": "rx", "backup": "b", "backup_link": "z"}, {"device": "b", "parent": "x", "link": "z", "backup": "r", "backup_link": "rb"}, {"device": "d", "parent": "b", "link": "bd", "backup": "y", "backup_link": "dy"}, {"device": "y", "parent": "r", "link": "ry", "backup": "d", "backup_link": "dy"}]}"#;
