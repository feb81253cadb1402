//! All that a source gives, up to a limit.
ghost use Rattle.std.specs.Prelude.{◌≡◌, ◌<◌, ◌≤◌, ◌-◌, ◌+◌, ◌^◌, ◌++◌, length, Err, IfOk, IfErr, OnOk, MatchOption};
ghost use Rattle.mst_script.specs.Scripts.{OnMemory};
ghost use Rattle.mst_command.specs.Reading.{GaveAll, GaveMore};

use mst_devices::Source;
use mst_key::Memory;
use mst_script::RunFault;
use std::alloc::{AllocError, Allocator};

/// How many bytes are read at most at a time.
const PIECE: usize = 4_096;

// Appends bytes. If the room is too small it is doubled, but is never more than `most`.
fn append<A: Allocator>(bytes: &mut Vec<u8, A>, more: &[u8], most: usize) -> Result<(), AllocError>
    requires fits { length bytes.old.items + length more.now ≤ most }
    ensures appended { OnOk result (bytes.new.items ≡ bytes.old.items ++ more.now) }
{
    let needed = bytes.len() + more.len();
    if needed > bytes.capacity() {
        let room = needed.max(bytes.capacity().saturating_mul(2)).min(most);
        bytes.reserve_exact(room - bytes.len())?;
    }
    bytes.extend_from_slice(more)
}

/// Returns all bytes that the source gives, or `None` if they are more than `most`; then it is not
/// read to its end, but at most one piece of 4,096 bytes beyond that number. The memory grows with
/// what is read, up to `most` bytes.
///
/// Returns `Device` if a read failed, and `Memory` if a growth was refused.
pub fn read_up_to<S: Source, A: Allocator>(
    alloc: A,
    source: &mut S,
    most: usize,
) -> Result<Option<Vec<u8, A>>, RunFault>
    requires source { S.failures source.old < 2 ^ 64 - 1 }
    ensures all { IfOk result
        (λ read. MatchOption read (GaveMore S.gives most source.old source.new)
        (λ bytes. GaveAll S.gives S.left most source.old bytes.items source.new)) }
    ensures steady { OnOk result (S.failures source.new ≡ S.failures source.old) }
    ensures device { result ≡ Err RunFault.Device → S.failures source.old < S.failures source.new }
    ensures memory { IfErr result
        (λ fault. OnMemory fault (S.failures source.new ≡ S.failures source.old)) }
{
    let mut bytes = Vec::new(alloc);
    let mut piece = [0; PIECE];
    loop {
        let Ok(count) = source.read(&mut piece) else {
            return Err(RunFault::Device);
        };
        if count == 0 {
            return Ok(Some(bytes));
        }
        if count > most - bytes.len() {
            return Ok(None);
        }
        if let Err(refused) = append(&mut bytes, &piece[..count], most) {
            return Err(RunFault::Memory(Memory::from(refused)));
        }
    }
}
