//! How a program ends: what it says on standard error, and the exit status.
ghost use Rattle.std.specs.Prelude.{◌≡◌, ◌<◌, ◌-◌, ◌^◌, ◌⊎◌, []};
ghost use Rattle.mst_devices.specs.Device.{Breaks};
ghost use Rattle.mst_arguments.specs.Commanding.{status_of, told};

use crate::task::Refusal;
use mst_devices::{Sink, write_all};

/// The exit status of a program that did what the words ask for.
pub const DONE: u8 = 0;

/// The exit status of a program that read what is no proof of an answer.
pub const PROOF_REFUSED: u8 = 1;

const REFUSED: u8 = 2;

const DEVICE: u8 = 3;

const MEMORY: u8 = 4;

/// Says why a program ended early, and returns the exit status. If the write of it fails, the
/// status is that of a failed device.
pub fn complain<W: Sink>(err: &mut W, why: &Refusal) -> u8
    requires { W.failures err.old < 2 ^ 64 - 1 }
    ensures status { (W.failures err.new ≡ W.failures err.old) → result ≡ status_of why.now }
    ensures told { (W.failures err.new ≡ W.failures err.old)
        → W.takes err.old (told why.now) err.new }
    ensures failed { (W.failures err.new ≡ W.failures err.old)
        ⊎ ((W.failures err.old < W.failures err.new) × (result ≡ 3)) }
    ensures broke { W.failures err.old < W.failures err.new
        → Breaks W.takes err.old [] (told why.now) err.new }
{
    let text = match why {
        Refusal::Words(text) => text.as_str(),
        Refusal::NotText => "error: invalid UTF-8 was detected in one or more arguments\n",
        Refusal::Shape => "shape\n",
        Refusal::Splits => "splits\n",
        Refusal::BadRoot => "bad root\n",
        Refusal::BadKey => "bad key\n",
        Refusal::Device => "device\n",
        Refusal::Memory(_) => "memory\n",
    };
    match (write_all(err, text.as_bytes()), why) {
        (Err(_), _) | (_, Refusal::Device) => DEVICE,
        (_, Refusal::Memory(_)) => MEMORY,
        _ => REFUSED,
    }
}
