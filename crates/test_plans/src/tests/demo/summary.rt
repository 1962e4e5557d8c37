//! The line that sums up a demonstration.

use dn_demo::summary;
use dn_demo::summary::Summary;

#[test]
fn prints_what_was_counted(rt: HostRuntime) {
    let counted = Summary {
        agents: 64,
        nodes: 130,
        grants: 1024,
        revoked: 512,
        rows: 513,
        records: 1536,
        image: 2_097_672,
    };
    let line = summary::summary_text(rt.alloc(), counted).expect(&rt, "memory");
    assert!(rt;
        line.as_slice()
            == b"demo 64: nodes 130 grants 1024 revoked 512 rows 513 records 1536 image 2097672\n".as_slice()
    );
}
