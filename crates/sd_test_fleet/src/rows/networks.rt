//! The networks: the worked triangle, with one plan or with two.

use sd_device::Node;
use sd_fleet::Fleet;
use sd_test_examples::{TRIANGLE, TRIANGLE_PLAN};
use sd_test_fleet_kit::examples::{Example, fleet_of};
use std::alloc::Global;
use std::test::Fail;

/// A fleet of an example before any event. It promises nothing: what the fleet does is compared.
pub(super) fn new_fleet<N: Node>(alloc: Global, example: &Example) -> Result<Fleet<N>, Fail> {
    Ok(fleet_of(alloc, example)?)
}

/// Its links rb, rx and bx (0 to 2) join the devices r, b and x (0 to 2). There is one plan.
pub(super) const ONE_PLAN: Example = Example {
    topology: TRIANGLE,
    plans: &[TRIANGLE_PLAN],
};

/// The same plan comes twice.
pub(super) const SAME_PLAN: Example = Example {
    topology: TRIANGLE,
    plans: &[TRIANGLE_PLAN, TRIANGLE_PLAN],
};

/// In the second plan x is the backup root.
pub(super) const OTHER_PLAN: Example = Example {
    topology: TRIANGLE,
    plans: &[
        TRIANGLE_PLAN,
        r#"{"absent_devices":[],"absent_links":[],"backup_root":"x","root":"r","rows":[{"backup":"x","backup_link":"bx","device":"b","link":"rb","parent":"r"},{"backup":"b","backup_link":"bx","device":"x","link":"rx","parent":"r"}],"version":1,"wait":6730000000,"wait_first":1345000000,"wait_second":1345000000}"#,
    ],
};

/// The least and the greatest delay of the link rx add up to an odd number.
pub(super) const ODD_SUM: Example = Example {
    topology: r#"
version = 1
ppm = 200
grain = 1000
period = 100000000
tick = 90000000
loss = 1
depth = 2
roots = ["r", "b"]
device = [{ name = "r" }, { name = "b" }, { name = "x" }]
link = [
    { name = "rb", ends = ["r", "b"], min = 400000, max = 1000000 },
    { name = "rx", ends = ["r", "x"], min = 400000, max = 600001 },
    { name = "bx", ends = ["b", "x"], min = 400000, max = 1000000 },
]
"#,
    plans: &[TRIANGLE_PLAN],
};
