//! The device in memory.

use crate::slots::are_words;
use dn_base::device::{TableEvent, Tables};
use dn_base::memory_tables::MemTables;

#[test]
fn keeps_as_many_events_as_there_is_room_for(rt: HostRuntime) {
    let alloc = rt.alloc();
    let mut device = MemTables::new(alloc, 1, Vec::new(alloc)).expect(&rt, "a device");
    device.make(0, 1).expect(&rt, "a unit");
    device.write(0, 0, 7).expect(&rt, "a write");
    device.fence().expect(&rt, "a fence");
    assert!(rt; are_words(Some(device.words(0)), &[7]));
    let made = [TableEvent::Make { unit: 0, words: 1 }];
    assert!(rt; device.log() == made.as_slice());
}
