//! What a pass knows of itself and its store.

/// The parameters of a pass, which it knows in addition to its seat: its number, and the size of
/// its store.
#[derive(Clone, Copy)]
pub struct PassParameters {
    /// The number of the pass, from 1.
    pub number: u32,
    /// How many passes the store has.
    pub passes: u32,
    /// How many rows the store has.
    pub rows: u32,
}
