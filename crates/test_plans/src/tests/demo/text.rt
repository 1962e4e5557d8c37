//! The generated text.

use dn_demo::text;

/// The text for one agent.
const ONE: &str = "\
    dram is accept [0x0-0xffffffff];\n\
    bus is map [0x100000000-0x1ffffffff to dram at 0x0];\n\
    for i in 0..0;\n\
    agent a[i] is map [0x0-0xffffff to u[i] at 0x0];\n\
    unit u[i] kind pages page 12 slots 4096 reach 40 to bus;\n\
    end;\n\
    begin;\n\
    grant g_0_0 a[0] dram 0x0 0x3000;\n\
    grant g_0_1 a[0] dram 0x4000 0x3000;\n\
    grant g_0_2 a[0] dram 0x8000 0x3000;\n\
    grant g_0_3 a[0] dram 0xc000 0x3000;\n\
    grant g_0_4 a[0] dram 0x10000 0x3000;\n\
    grant g_0_5 a[0] dram 0x14000 0x3000;\n\
    grant g_0_6 a[0] dram 0x18000 0x3000;\n\
    grant g_0_7 a[0] dram 0x1c000 0x3000;\n\
    grant g_0_8 a[0] dram 0x20000 0x3000;\n\
    grant g_0_9 a[0] dram 0x24000 0x3000;\n\
    grant g_0_10 a[0] dram 0x28000 0x3000;\n\
    grant g_0_11 a[0] dram 0x2c000 0x3000;\n\
    grant g_0_12 a[0] dram 0x30000 0x3000;\n\
    grant g_0_13 a[0] dram 0x34000 0x3000;\n\
    grant g_0_14 a[0] dram 0x38000 0x3000;\n\
    grant g_0_15 a[0] dram 0x3c000 0x3000;\n\
    revoke g_0_1;\n\
    revoke g_0_3;\n\
    revoke g_0_5;\n\
    revoke g_0_7;\n\
    revoke g_0_9;\n\
    revoke g_0_11;\n\
    revoke g_0_13;\n\
    revoke g_0_15;\n";

#[test]
fn writes_the_text_of_one_agent(rt: HostRuntime) {
    let made = text::demo_text(rt.alloc(), 1).expect(&rt, "memory");
    assert!(rt; made.as_slice() == ONE.as_bytes());
}

/// How many bytes the text for 64 agents has.
const MOST: usize = 49_989;

#[test]
fn writes_the_text_of_64_agents(rt: HostRuntime) {
    let made = text::demo_text(rt.alloc(), 64).expect(&rt, "memory");
    assert!(rt; made.len() == MOST);
    let head =
        b"dram is accept [0x0-0xffffffff];\nbus is map [0x100000000-0x1ffffffff to dram at 0x0];\nfor i in 0..63;\n";
    assert!(rt; made.as_slice().starts_with(head));
    let tail = b"revoke g_63_11;\nrevoke g_63_13;\nrevoke g_63_15;\n";
    assert!(rt; made.as_slice().ends_with(tail));
}
