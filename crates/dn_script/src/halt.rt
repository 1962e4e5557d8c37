//! Why an answer stops before its end.

ghost use Rattle.std.specs.Prelude.{◌≡◌};
ghost use Rattle.dn_script.specs.Terms.{ending_status, make_halt, refusal_or_halt, reply_or_halt};
ghost use Rattle.dn_script.specs.declared.halt.RunHalt.TheVariants.{NoMemory as no_memory};

use crate::OutOfMemory;
use dn_base::device::DeviceOrMemory;
use dn_base::items::Items;
use dn_grant::fault::GrantFault;
use std::fmt::Display;

/// The sink failed.
pub const WRITE_FAULT: u8 = 3;
/// The device failed.
pub const DEVICE_FAULT: u8 = 6;
/// There was no memory.
pub const NO_MEMORY: u8 = 7;

/// Why an answer stops before its end.
#[derive(Clone, Copy, Debug, PartialEq, Eq)]
pub enum RunHalt {
    /// A write failed. The sink counts it.
    WriteFault,
    /// A call of the device failed. The device counts it.
    DeviceFault,
    /// There was no memory for the next piece, or to keep it in.
    NoMemory,
}

impl From<OutOfMemory> for RunHalt {
    ghost from_gives = { λ _ e. e ≡ no_memory };

    fn from(_e: OutOfMemory) -> RunHalt {
        RunHalt::NoMemory
    }
}

impl From<DeviceOrMemory> for RunHalt {
    ghost from_gives = { λ fault e. e ≡ make_halt fault };

    fn from(fault: DeviceOrMemory) -> RunHalt {
        match fault {
            DeviceOrMemory::Device => RunHalt::DeviceFault,
            DeviceOrMemory::OutOfMemory => RunHalt::NoMemory,
        }
    }
}

/// The status of an answer that was given whole, or of the halt before that.
pub fn status_of(ended: Result<u8, RunHalt>) -> u8
    ensures { result ≡ ending_status ended }
{
    match ended {
        Ok(status) => status,
        Err(RunHalt::WriteFault) => WRITE_FAULT,
        Err(RunHalt::DeviceFault) => DEVICE_FAULT,
        Err(RunHalt::NoMemory) => NO_MEMORY,
    }
}

/// The reply. `Err` is what stops the run where there was no memory for it.
pub(crate) fn reply_or_halt(reply: Result<Items<u8>, OutOfMemory>) -> Result<Items<u8>, RunHalt>
    ensures { result ≡ reply_or_halt reply }
{
    Ok(reply?)
}

/// The refusal for which nothing was granted. `Err` is what the fault stops the run by: a fault of the device, or want of
/// memory.
pub fn refusal_or_halt<R: Display>(fault: GrantFault<R>) -> Result<R, RunHalt>
    ensures { result ≡ refusal_or_halt fault }
{
    match fault {
        GrantFault::Refused(why) => Ok(why),
        GrantFault::Device => Err(RunHalt::DeviceFault),
        GrantFault::OutOfMemory => Err(RunHalt::NoMemory),
    }
}
