//! Why there is no audit.

use dn_image::fault::ImageFault;
use thiserror::Error;

/// Why bytes have no audit, or want of memory.
#[derive(Clone, Copy, Debug, PartialEq, Eq, Error)]
pub enum AuditFault {
    /// The bytes are no image of the net. It is never the fault's `OutOfMemory`.
    #[error("Image")]
    Image(ImageFault),
    /// There was no memory for the report.
    #[error("OutOfMemory")]
    OutOfMemory,
}
