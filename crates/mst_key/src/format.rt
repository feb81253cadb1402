//! The formats of a tree.

/// The format of a tree: the base of its layers, and how its node texts are written.
#[derive(Clone, Copy, Debug, PartialEq, Eq)]
pub enum Format {
    /// Layers count hexadecimal digits, and a node text holds each value.
    One,
    /// Layers count base-four digits, and a node text holds the SHA-256 of each value.
    Two,
}
