//! Events as C has them.

ghost use Rattle.std.specs.Prelude.{◌≡◌, ◌-◌, ◌≤◌, ◌++◌, drop, length, map, min, take};
ghost use Rattle.netconf_c.specs.Calls.{event_of};

use dn_base::device::TableEvent;

/// An event that is to be done, as C has it.
#[repr(C)]
#[derive(Clone, Copy, Default)]
pub struct Event {
    /// 0: the unit has `word` words, all 0. 1: word `word` of the unit is `value`. 2: no lookup is
    /// in flight.
    pub kind: u32,
    /// The number of the unit's node.
    pub unit: u32,
    /// The number of a word, or of words.
    pub word: u32,
    /// 0.
    pub unused: u32,
    /// What a word is set to.
    pub value: u64,
}

/// An event as C has it.
fn event_of(event: TableEvent) -> Event
    ensures { result ≡ event_of event }
{
    match event {
        TableEvent::Make { unit, words } => Event {
            kind: 0,
            unit: u32::from(unit),
            word: words,
            unused: 0,
            value: 0,
        },
        TableEvent::Write { unit, word, value } => Event {
            kind: 1,
            unit: u32::from(unit),
            word,
            unused: 0,
            value,
        },
        TableEvent::Fence => Event {
            kind: 2,
            unit: 0,
            word: 0,
            unused: 0,
            value: 0,
        },
    }
}

/// Writes the events from a number on to the front of a slice, as many as there are or there is
/// room for, and answers how many.
pub(crate) fn copy_events(pending: &[TableEvent], from: usize, out: &mut [Event]) -> usize
    ensures count { result ≡ min (length pending.now - from) (length out.old) }
    ensures copied { out.new
        ≡ map event_of (take result (drop from pending.now)) ++ drop result out.old }
{
    let count = pending.len().saturating_sub(from).min(out.len());
    for at in 0..count {
        out[at] = event_of(pending[from + at]);
    }
    count
}
