//! The refusal of memory. Only this file makes one, and only from what the library returns if it
//! was refused memory.
ghost use Rattle.std.specs.Prelude.{◌≡◌, ◌↔◌, IsSome};
ghost use Rattle.hex.specs.declared.error.FromHexError.TheVariants.{OutOfMemory};
ghost use Rattle.std.specs.IoError.{error_kind};
ghost use Rattle.std.specs.declared.io.ErrorKind.TheVariants as kind;

use hex::FromHexError;
use std::alloc::{AllocError, AllocFailed};
use std::io;
use std::thread::SpawnError;
use thiserror::Error;

/// The allocator refused a growth: there was no memory for it.
#[derive(Clone, Copy, Debug, PartialEq, Eq, Error)]
#[error("no memory")]
pub struct Memory {
    refused: AllocError,
}

impl From<AllocError> for Memory {
    fn from(refused: AllocError) -> Memory {
        Memory { refused }
    }
}

impl<T: Drop> From<AllocFailed<T>> for Memory {
    fn from(refused: AllocFailed<T>) -> Memory {
        Memory::from(AllocError::from(refused))
    }
}

impl<F: Drop> From<SpawnError<F>> for Memory {
    fn from(refused: SpawnError<F>) -> Memory {
        Memory::from(AllocError::from(refused))
    }
}

impl From<Memory> for io::Error {
    fn from(memory: Memory) -> io::Error {
        io::Error::from(memory.refused)
    }
}

impl Memory {
    /// The refusal of memory that kept hexadecimal digits from being decoded, or `None` for any
    /// other error.
    pub fn of_digits(error: FromHexError) -> Option<Memory>
        ensures exact { IsSome result ↔ error ≡ OutOfMemory }
    {
        match error {
            FromHexError::OutOfMemory => Some(Memory {
                refused: AllocError,
            }),
            _ => None,
        }
    }

    /// The refusal of memory that made a call of the system fail, or `None` for any other error.
    pub fn of_call(error: &io::Error) -> Option<Memory>
        ensures exact { IsSome result ↔ error_kind error.now ≡ kind.OutOfMemory }
    {
        match error.kind() {
            io::ErrorKind::OutOfMemory => Some(Memory {
                refused: AllocError,
            }),
            _ => None,
        }
    }
}
