//! The answer to a line.
ghost use Rattle.std.specs.Prelude.{◌≡◌, ◌<◌, ◌-◌, ◌^◌, OnOk, OnErr};
ghost use Rattle.mst_devices.specs.Device.{Puts, Breaks};
ghost use Rattle.mst_requests.specs.Texts.{line_of};
ghost use Rattle.mst_sharded_script.specs.Answers.{text_of, part_words, block_words};

use mst_blocks::{BlockFault, PartFault};
use mst_devices::{Device, Pending, Sink};
use mst_requests::{Answer, put_answer};
use mst_store::ApplyFault;
use std::alloc::Allocator;

/// The answer to a line.
#[derive(Drop)]
pub enum ShardedAnswer<A: Allocator> {
    /// An answer that a store gives too.
    Store(Answer<A>),
    /// Another has written to a shard or to the directory. No script does that.
    Overtaken,
    /// The line asks for what a sharded map does not have.
    NoSuch,
}

// Why a shard or the directory was refused its part of a block, as an answer.
fn part_answer<A: Allocator>(fault: PartFault) -> ShardedAnswer<A>
    ensures { text_of result ≡ line_of (part_words fault) }
{
    match fault {
        PartFault::Refused(ApplyFault::Busy) => ShardedAnswer::Store(Answer::Busy),
        PartFault::Refused(ApplyFault::VersionsSpent) => ShardedAnswer::Store(Answer::Spent),
        PartFault::Refused(ApplyFault::Memory(refused)) => {
            ShardedAnswer::Store(Answer::Memory(refused))
        }
        PartFault::Refused(ApplyFault::NoRoom) => ShardedAnswer::Store(Answer::NoRoom),
        PartFault::Overtaken => ShardedAnswer::Overtaken,
    }
}

/// Why a block was refused, as an answer.
pub fn block_answer<A: Allocator>(fault: BlockFault) -> ShardedAnswer<A>
    ensures { text_of result ≡ line_of (block_words fault) }
{
    match fault {
        BlockFault::Memory(refused) => ShardedAnswer::Store(Answer::Memory(refused)),
        BlockFault::Shard(_, fault) => part_answer(fault),
        BlockFault::Directory(fault) => part_answer(fault),
    }
}

/// Puts an answer after what waits, line by line.
pub fn put_sharded<W: Sink, A: Allocator, B: Allocator>(
    sink: &mut W,
    pending: &mut Pending<A>,
    answer: &ShardedAnswer<B>,
) -> Result<(), Device>
    requires { W.failures sink.old < 2 ^ 64 - 1 }
    ensures ok { OnOk result
        (Puts W.takes sink.old pending.old (text_of answer.now) sink.new pending.new) }
    ensures steady { OnOk result (W.failures sink.new ≡ W.failures sink.old) }
    ensures err { OnErr result (Breaks W.takes sink.old pending.old (text_of answer.now) sink.new) }
    ensures failed { OnErr result (W.failures sink.old < W.failures sink.new) }
{
    match answer {
        ShardedAnswer::Store(answer) => put_answer(sink, pending, answer),
        ShardedAnswer::Overtaken => pending.put(sink, b"overtaken\n"),
        ShardedAnswer::NoSuch => pending.put(sink, b"fault L7\n"),
    }
}
