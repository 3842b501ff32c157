//! The schedules and other texts that runs are over, and what they write.

/// The plan with backup root x: b follows r and falls back on x, x follows r and falls back on b.
pub(crate) const SECOND_PLAN: &str =
    r#"{"absent_devices":[],"absent_links":[],"backup_root":"x","root":"r","rows":[{"backup":"x","backup_link":"bx","device":"b","link":"rb","parent":"r"},{"backup":"b","backup_link":"bx","device":"x","link":"rx","parent":"r"}],"version":1,"wait":6730000000,"wait_first":1345000000,"wait_second":1345000000}"#;

/// A start, an ask five microseconds later and an end.
pub(crate) const GROWTH: &str = "\
start 1000000 0 0 1000000 500
ask 6000000 0 5000000
end 6000000
";

/// The same without its last newline.
pub(crate) const GROWTH_CUT: &str = "\
start 1000000 0 0 1000000 500
ask 6000000 0 5000000
end 6000000";

/// A round of the triangle, and an ask.
pub(crate) const BASE: &str = "\
start 0 0 0 0 500
start 0 1 0 0 800000
start 0 2 0 0 800000
tick 90000000 0 90000000
tick 90000000 1 90000000
tick 90000000 2 90000000
tick 110000000 0 110000000
recv 110700000 1 110700000 1
recv 111000000 2 111000000 2
recv 111400000 2 111400000 3
recv 111700000 1 111700000 4
ask 121000000 2 121000000
end 121000000
";

/// A round, and a renewal: the second plan is staged, given and committed, and a round later all
/// devices are sealed.
pub(crate) const RENEWAL: &str = "\
start 0 0 0 0 500
start 0 1 0 0 800000
start 0 2 0 0 800000
tick 90000000 0 90000000
tick 90000000 1 90000000
tick 90000000 2 90000000
tick 110000000 0 110000000
recv 110700000 1 110700000 1
recv 111000000 2 111000000 2
recv 111400000 2 111400000 3
recv 111700000 1 111700000 4
stage 112000000
give 112000000 0
give 112000000 1
give 112000000 2
commit 112000000 0 112000000
tick 170000000 0 170000000
tick 170000000 1 170000000
tick 170000000 2 170000000
tick 215000000 0 215000000
recv 215700000 1 215700000 5
ask 215700000 1 215700000
ask 215700000 2 215700000
recv 216000000 2 216000000 6
seal 216000000 0
seal 216000000 1
seal 216000000 2
recv 216400000 2 216400000 7
recv 216700000 1 216700000 8
end 216700000
";

/// Three asks of the root.
pub(crate) const ORDERS: &str = "\
start 0 0 0 0 500
start 0 1 0 0 800000
start 0 2 0 0 800000
ask 1000000 0 1000000
ask 1003000 0 1003000
ask 1004000 0 1004000
end 1004000
";

/// What `order` writes of them, in five writes.
pub(crate) const ORDERED: &str = "\
report 4 r 1000000 1700
begin 4 r 1001700
report 5 r 1003000 1701
begin 5 r 1004701
report 6 r 1004000 1701
ended 6 4
begin 6 r 1005701
done 7 3
waits 3 1 0
";

/// What `drill` writes of the triangle, a write for each domain and one for the last line.
pub(crate) const DRILLED: &str = "\
nobound device r r
bound device r b 4916851
bound device r x 5449722
bound device b r 4916851
nobound device b b
bound device b x 5449722
bound device x r 4916851
bound device x b 4916851
nobound device x x
bound link rb r 4916851
bound link rb b 4916851
bound link rb x 5449722
bound link rx r 4916851
bound link rx b 4916851
bound link rx x 5449722
bound link bx r 4916851
bound link bx b 4916851
bound link bx x 5449722
done 6 3
";

/// What `bounds` writes of it.
pub(crate) const BOUNDED: &str = "\
nobound device r r 1516436
bounds device r b 4916851 4160603 1816436
bounds device r x 5449722 4460603 1816436
bounds device b r 4916851 4160603 1516436
nobound device b b 1816436
bounds device b x 5449722 4460603 1816436
bounds device x r 4916851 4160603 1516436
bounds device x b 4916851 4160603 1816436
nobound device x x 1816436
bounds link rb r 4916851 4160603 1516436
bounds link rb b 4916851 4160603 1816436
bounds link rb x 5449722 4460603 1816436
bounds link rx r 4916851 4160603 1516436
bounds link rx b 4916851 4160603 1816436
bounds link rx x 5449722 4460603 1816436
bounds link bx r 4916851 4160603 1516436
bounds link bx b 4916851 4160603 1816436
bounds link bx x 5449722 4460603 1816436
done 6 3
";

/// The triangle as `migrate` writes it.
pub(crate) const MIGRATED: &str = r#"depth = 2
domain = []
grain = 1000
loss = 1
period = 100000000
ppm = 200
roots = ["r", "b"]
tick = 90000000
version = 2

[[device]]
grain = 1000
name = "r"
ppm = 200
side = "root"

[[device]]
grain = 1000
name = "b"
ppm = 200
side = "root"

[[device]]
grain = 1000
name = "x"
ppm = 200
side = "root"

[[link]]
back_max = 1000000
back_min = 400000
ends = ["r", "b"]
max = 1000000
min = 400000
name = "rb"

[[link]]
back_max = 1000000
back_min = 400000
ends = ["r", "x"]
max = 1000000
min = 400000
name = "rx"

[[link]]
back_max = 1000000
back_min = 400000
ends = ["b", "x"]
max = 1000000
min = 400000
name = "bx"
"#;

/// All devices start, the root sends a round, and each message is received.
pub(crate) const SCHEDULE: &str = "\
start 0 0 0 0 500
start 0 1 0 0 800000
start 0 2 0 0 800000
tick 90000000 0 90000000
tick 90000000 1 90000000
tick 90000000 2 90000000
tick 110000000 0 110000000
recv 110700000 1 110700000 1
recv 111000000 2 111000000 2
recv 111400000 2 111400000 3
recv 111700000 1 111700000 4
";

/// The root starts where it sent, and each other device where it accepted a message.
pub(crate) const OPENING: &str = "\
start 110000000 0 110000000 110000000 22500
start 110700000 1 110700000 110700000 323500
start 111000000 2 111000000 110700000 323500
tick 111400000 2 111400000
tick 111700000 1 111700000
";

/// Up to the second tick of the root: a log without an end.
pub(crate) const LOG: &str = "\
start 0 0 0 0 500
start 0 1 0 0 800000
start 0 2 0 0 800000
tick 90000000 0 90000000
tick 90000000 1 90000000
tick 90000000 2 90000000
tick 110000000 0 110000000
";

/// What `record` writes of it, a line a write, and of its end.
pub(crate) const RECORDED: &str = "\
start 0 0 0 0 500
start 0 1 0 0 800000
start 0 2 0 0 800000
tick 90000000 0 90000000
tick 90000000 1 90000000
tick 90000000 2 90000000
tick 110000000 0 110000000
input log 8 NoEnd
";

/// Lines of two logs.
pub(crate) const FEED: &str = "\
1 ask 5 0 5
2 ask 4 1 4
1 ask 7 0 7
2 past 7
2 ask 7 1 7
1 past 8
1 ask 9 0 9
2 end 8
";

/// What is settled of them in four writes.
pub(crate) const MERGED: &str = "\
ask 4 1 4
ask 5 0 5
ask 7 0 7
ask 7 1 7
end 8
ask 9 0 9
";
