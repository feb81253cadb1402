//! The life of a row.

/// Whether a row is free, and if not, from which version on it is reached, and from which one on no
/// more.
#[derive(Clone, Copy)]
pub enum Life {
    /// No version reaches the row.
    Free,
    /// The row was taken for version `birth`. That version and all later ones reach it.
    Born { birth: u64 },
    /// The row was taken for version `birth` and killed by version `death`. The versions from
    /// `birth` to before `death` reach it.
    Dead { birth: u64, death: u64 },
}
