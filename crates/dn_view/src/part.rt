//! To which of two kinds of names a name comes.

/// To what names come.
#[derive(Clone, Copy)]
pub enum FlatPart {
    /// The accepted names.
    Accepts,
    /// The names in units.
    Stops,
}
