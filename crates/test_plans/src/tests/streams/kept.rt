//! The words of each fault, and the lists and texts that structs keep.

use dn_base::device::DeviceFault;
use dn_base::device::DeviceOrMemory::{Device, OutOfMemory};
use dn_base::items::Items;
use dn_base::sink::WriteFault;
use dn_base::source::ReadFault;
use dn_base::text::Text;
use dn_base::whole::InputFault;

#[test]
fn names_each_fault(rt: HostRuntime) {
    let alloc = rt.alloc();
    let printed = format!(in alloc;
        "{} {} {} {} {}",
        ReadFault::Failed,
        WriteFault::Failed,
        WriteFault::OutOfMemory,
        InputFault::Failed,
        InputFault::OutOfMemory
    )
    .expect(&rt, "memory");
    assert!(rt; printed.as_str() == "Failed Failed OutOfMemory Failed OutOfMemory");
}

#[test]
fn names_each_fault_of_a_device(rt: HostRuntime) {
    let printed = format!(in rt.alloc(); "{Device} {OutOfMemory} {DeviceFault}").expect(
        &rt, "memory",
    );
    assert!(rt; printed.as_str() == "Device OutOfMemory DeviceFault");
}

#[test]
fn keeps_items_and_texts(rt: HostRuntime) {
    let alloc = rt.alloc();
    let mut items = Items::new(alloc);
    items.push(1).expect(&rt, "memory");
    items.push(2).expect(&rt, "memory");
    assert!(rt; items.as_slice() == [1, 2].as_slice());
    let again = Items::from_vec(items.into_vec());
    assert!(rt; again.as_slice() == [1, 2].as_slice());
    let text = Text::of(alloc, "núcleo").expect(&rt, "memory");
    assert!(rt; text.as_str() == "núcleo");
    let again = text.share().expect(&rt, "memory");
    assert!(rt; again.as_str() == "núcleo");
}
