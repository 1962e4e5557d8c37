//! The line that sums up a demonstration.

ghost use Rattle.std.specs.Prelude.{◌≡◌, ◌++◌, IfOk, OnOk};
ghost use Rattle.std.specs.String.{string_bytes};
ghost use Rattle.dn_demo.specs.Terms.{left_text, made_counts_text, summary_text};

use crate::OutOfMemory;
use std::alloc::Global;

/// What is counted once the grants and revokes of a demonstration are done.
#[derive(Clone, Copy, Debug, PartialEq, Eq)]
pub struct Summary {
    /// The number that the demonstration was asked for, which is that of its agents.
    pub agents: u8,
    /// The nodes of the net.
    pub nodes: u16,
    /// The grants that were made.
    pub grants: u64,
    /// The grants that were revoked.
    pub revoked: u64,
    /// The rows of the views of all agents together, for reading.
    pub rows: u64,
    /// The slots that hold a record.
    pub records: u64,
    /// The size of the image of the tables, in bytes.
    pub image: u64,
}

/// The summary, a line with its end. `Err` is want of memory.
pub fn summary_text(alloc: Global, summary: Summary) -> Result<Vec<u8>, OutOfMemory>
    ensures { IfOk result (λ v. v.items ≡ summary_text summary) }
{
    let mut out = String::new(alloc);
    write_made(&mut out, summary)?;
    write_left(&mut out, summary)?;
    Ok(out.into_bytes())
}

/// Appends what was made: the nodes, the grants and the revokes.
fn write_made(out: &mut String, summary: Summary) -> Result<(), OutOfMemory>
    ensures { OnOk result (string_bytes out.new
        ≡ string_bytes out.old ++ made_counts_text summary) }
{
    write!(
        out,
        "demo {}: nodes {} grants {} revoked {}",
        summary.agents, summary.nodes, summary.grants, summary.revoked
    )
}

/// Appends what is left: the rows of the views, the records, and the size of the image.
fn write_left(out: &mut String, summary: Summary) -> Result<(), OutOfMemory>
    ensures { OnOk result (string_bytes out.new ≡ string_bytes out.old ++ left_text summary) }
{
    write!(
        out,
        " rows {} records {} image {}\n",
        summary.rows, summary.records, summary.image
    )
}
