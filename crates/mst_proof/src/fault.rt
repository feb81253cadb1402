//! The refusals of a proof.
use thiserror::Error;

/// The first test that a proof fails. The tests of the frame come first, in the order of
/// `FormatByte` to `LeftOver`, and then those of each text in turn.
#[derive(Clone, Copy, Debug, PartialEq, Eq, Error)]
pub enum ProofFault {
    /// The first byte is not the number of the format, 01 or 02.
    #[error("P1")]
    FormatByte,
    /// The format's byte, the number of texts, a length, a text or, in format 2, the tail is cut
    /// short.
    #[error("P2")]
    CutShort,
    /// Bytes are left over after the last text, in format 2 after the tail.
    #[error("P3")]
    LeftOver,
    /// A text is not that of a node.
    #[error("P4")]
    NoNode,
    /// The digest of a text is not the expected one: the root, or that of the child in the node
    /// above. Also if there is no text, and the root is not that of the empty map.
    #[error("P5")]
    OtherDigest,
    /// The layer of a node is not below that of the node above.
    #[error("P6")]
    LayerNotBelow,
    /// A key of a node lies outside the gap in which the node stands.
    #[error("P7")]
    KeyOutside,
    /// The key's gap has a child, and no text follows.
    #[error("P8")]
    Unfinished,
    /// A text follows although the key was decided.
    #[error("P9")]
    TextBehind,
    /// The tail does not claim what the texts show: its first byte is neither 00 nor 01, it has a
    /// value of more than 64 bytes or one for an absent key, or the value is not the one whose
    /// SHA-256 the last text holds. In format 2 only.
    #[error("P10")]
    OtherValue,
}
