//! The numbers that the library returns.
ghost use Rattle.std.specs.Prelude.{◌≡◌, ◌≤◌, pos};
ghost use Rattle.mst_verifier.specs.Codes.{refusal_code as code_of_refusal, sharded_code as code_of_sharded, test_number as number_of_test};

use crate::question::Refusal;
use mst_proof::ProofFault;
use mst_sharded_proof::ShardedFault;

/// The proof shows that the key is absent.
pub(crate) const ABSENT: i32 = -1;

/// The room is too small for the value that the proof shows.
pub(crate) const SHORT_ROOM: i32 = -2;

/// The proof frames no first text.
pub(crate) const NO_TEXT: i64 = -1;

/// The number of a test of a proof, 1 to 10.
fn test_number(fault: ProofFault) -> i32
    ensures number { result ≡ pos (number_of_test fault) }
    ensures bound { number_of_test fault ≤ 10 }
{
    match fault {
        ProofFault::FormatByte => 1,
        ProofFault::CutShort => 2,
        ProofFault::LeftOver => 3,
        ProofFault::NoNode => 4,
        ProofFault::OtherDigest => 5,
        ProofFault::LayerNotBelow => 6,
        ProofFault::KeyOutside => 7,
        ProofFault::Unfinished => 8,
        ProofFault::TextBehind => 9,
        ProofFault::OtherValue => 10,
    }
}

/// The number of a test of a proof of a sharded map: after that of a part the part's own test.
fn sharded_code(fault: ShardedFault) -> i32
    ensures code { result ≡ code_of_sharded fault }
{
    match fault {
        ShardedFault::FormatByte => -100,
        ShardedFault::CutShort => -200,
        ShardedFault::NoKey => -300,
        ShardedFault::Directory(fault) => -400 - test_number(fault),
        ShardedFault::NotListed => -500,
        ShardedFault::NoListing => -600,
        ShardedFault::KeyBelow => -700,
        ShardedFault::KeyNotBelow => -800,
        ShardedFault::Shard(fault) => -900 - test_number(fault),
    }
}

/// The number of a refusal.
pub(crate) fn refusal_code(refusal: Refusal) -> i32
    ensures code { result ≡ code_of_refusal refusal }
{
    match refusal {
        Refusal::Format => -3,
        Refusal::Root => -4,
        Refusal::Key => -5,
        Refusal::Proof(ProofFault::FormatByte) => -11,
        Refusal::Proof(ProofFault::CutShort) => -12,
        Refusal::Proof(ProofFault::LeftOver) => -13,
        Refusal::Proof(ProofFault::NoNode) => -14,
        Refusal::Proof(ProofFault::OtherDigest) => -15,
        Refusal::Proof(ProofFault::LayerNotBelow) => -16,
        Refusal::Proof(ProofFault::KeyOutside) => -17,
        Refusal::Proof(ProofFault::Unfinished) => -18,
        Refusal::Proof(ProofFault::TextBehind) => -19,
        Refusal::Proof(ProofFault::OtherValue) => -20,
        Refusal::ShardedProof(fault) => sharded_code(fault),
    }
}
