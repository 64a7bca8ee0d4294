//! Plans, and what they come to.

use far_pool::{Layout, Plan, Unplanned};

/// Bytes near, objects, their length, and what that comes to.
type Row = (u64, u64, u16, Result<Layout, Unplanned>);

#[rattlefmt::skip]
const ROWS: &[Row] = &[
    (67_108_864, 1_000_000, 64, Ok(Layout { heaps: 489, logs: 33 })),
    (262_144, 2048, 64, Ok(Layout { heaps: 1, logs: 64 })),
    (262_143, 2048, 64, Ok(Layout { heaps: 1, logs: 63 })),
    (262_144, 2049, 64, Ok(Layout { heaps: 2, logs: 32 })),
    (1 << 30, 0, 64, Ok(Layout { heaps: 4096, logs: 64 })),
    (12_288, 1, 64, Ok(Layout { heaps: 1, logs: 3 })),
    (12_287, 1, 64, Err(Unplanned::Near(12_288))),
    (40_960, 1, 4088, Ok(Layout { heaps: 1, logs: 10 })),
    (40_959, 1, 4088, Err(Unplanned::Near(40_960))),
    (0, 1_000_000, 64, Err(Unplanned::Near(6_008_832))),
    (1 << 20, 100, 0, Err(Unplanned::Length)),
    (1 << 20, 100, 4089, Err(Unplanned::Length)),
    (1 << 40, 4_294_967_297, 64, Err(Unplanned::Objects(4_294_967_296))),
    (u64::MAX, 4_294_967_296, 64, Ok(Layout { heaps: 2_097_152, logs: 64 })),
];

fn is_so(row: &Row) -> bool {
    let plan = Plan {
        near: row.0,
        objects: row.1,
        typical: row.2,
    };
    plan.lay_out() == row.3
}

#[test]
fn plans_come_to_layouts(rt: HostRuntime) {
    for row in ROWS {
        assert!(rt; is_so(row), "{} {} {}", row.0, row.1, row.2);
    }
}

// As measured: 49,664 bytes a heap of 32 logs.
#[test]
fn a_layout_tells_what_lies_beside(rt: HostRuntime) {
    let layout = Layout {
        heaps: 512,
        logs: 32,
    };
    assert!(rt; layout.near() == 67_108_864 && layout.metadata() == 25_427_968);
}

#[test]
fn a_plan_by_bytes_alone(rt: HostRuntime) {
    let plan = Plan::for_near(67_108_864);
    assert!(rt; plan.objects == 3_728_270 && plan.lay_out().is_ok());
    assert!(rt; Plan::for_near(u64::MAX).lay_out().is_ok());
}

#[rattlefmt::skip]
const TOLD: &[(Unplanned, &str)] = &[
    (Unplanned::Length, "an object has 1 to 4088 bytes"),
    (Unplanned::Objects(9), "a worker has at most 9 objects"),
    (Unplanned::Near(8), "there is no room near for so many objects: 8 bytes would do"),
];

#[test]
fn why_there_is_no_layout_is_told(rt: HostRuntime) {
    for (why, told) in TOLD {
        match format!(in rt.alloc(); "{why}") {
            Ok(text) => assert!(rt; text.as_str() == *told),
            Err(_) => assert!(rt; false),
        }
    }
}
