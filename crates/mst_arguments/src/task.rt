//! What a program is to do, and how it ends.
use mst_key::{Format, Memory};
use mst_report::ProofKind;
use mst_words::Shape;

/// How large the store of a script is.
#[derive(Clone, Copy)]
pub struct Size {
    /// How many rows it has.
    pub rows: u32,
    /// How many passes it has.
    pub passes: u32,
}

/// The numbers of a load.
#[derive(Clone, Copy)]
pub struct Load {
    /// How many threads read.
    pub readers: u32,
    /// How many threads write.
    pub writers: u32,
    /// How many calls each thread makes.
    pub calls: u32,
}

/// What the first word after the program's name may be.
#[derive(Clone, Copy)]
pub enum Subcommand {
    /// `run`: a script.
    Run,
    /// `verify`: a proof.
    Verify,
    /// `replay`: events of a core.
    Replay,
    /// `load`: readers and writers at once.
    Load,
}

/// What the words of a command line ask for.
#[derive(Drop)]
pub enum Task<'a> {
    /// To answer a script over a store of this size, opened in this format.
    Run(Shape),
    /// To answer a script over a sharded map, each shard of this size and opened in this format,
    /// for the word of its splits.
    RunSharded(Shape, &'a str),
    /// To say what a proof of this kind in this format shows, for the words of a root digest and a
    /// key.
    Verify(ProofKind, Format, &'a str, &'a str),
    /// To refuse a format that is neither 1 nor 2, of a script or of a proof.
    UnknownFormat,
    /// To answer the events of a core.
    Replay,
    /// To let readers and writers work at one store at once, and to report what they left.
    Load(Load),
    /// To write this text, which is about the words or the program.
    Help(String),
}

/// How a program ended that was not cut short.
#[derive(Clone, Copy)]
pub enum Ending {
    /// It did what the words ask for.
    Done,
    /// It read what is no proof of an answer.
    ProofRefused,
}

/// Why a program ended early, and what it says on standard error.
#[derive(Drop)]
pub enum Refusal {
    /// The words are refused: this is said of them.
    Words(String),
    /// A word is not UTF-8.
    NotText,
    /// The store cannot have this size, a load these numbers, or there is no such format.
    Shape,
    /// The word for the splits spells none that a sharded map may have.
    Splits,
    /// The word for the root digest is not 64 hexadecimal digits.
    BadRoot,
    /// The word for the key is not the hexadecimal form of 1 to 32 bytes.
    BadKey,
    /// A read or a write failed.
    Device,
    /// A growth was refused, or a thread could not be started.
    Memory(Memory),
}
