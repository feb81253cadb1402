//! An answer as it is returned to C.
ghost use Rattle.std.specs.Prelude.{◌≡◌, ◌≤◌, ◌++◌, length, drop};
ghost use Rattle.mst_verifier.specs.Codes.{code_of, room_after};
ghost use Rattle.mst_verifier.specs.Question.{answer_to};

use crate::codes::{ABSENT, SHORT_ROOM, refusal_code};
use crate::question::{Kind, answer};

/// Puts the bytes first, and keeps those after them.
fn put(room: &mut [u8], bytes: &[u8])
    requires fits { length bytes.now ≤ length room.old }
    ensures room { room.new ≡ bytes.now ++ drop (length bytes.now) room.old }
{
    room[..bytes.len()].copy_from_slice(bytes);
}

/// The code of the answer. The value that it shows then stands first in the room, if it fits.
pub(crate) fn tell(
    kind: Kind,
    format: u32,
    root: &[u8],
    key: &[u8],
    proof: &[u8],
    room: &mut [u8],
) -> i32
    ensures code { result ≡ code_of (length room.old)
        (answer_to kind format root.now key.now proof.now) }
    ensures room { room.new ≡ room_after room.old
        (answer_to kind format root.now key.now proof.now) }
{
    match answer(kind, format, root, key, proof) {
        Ok(Some(value)) => {
            let bytes = value.bytes();
            if room.len() < bytes.len() {
                return SHORT_ROOM;
            }
            put(room, bytes);
            bytes.len() as i32
        }
        Ok(None) => ABSENT,
        Err(refusal) => refusal_code(refusal),
    }
}
