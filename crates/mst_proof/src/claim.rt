//! What a proof claims of the key, after its texts.
ghost use Rattle.std.specs.Prelude.{◌≡◌};
ghost use Rattle.mst_proof.specs.Frame as spec;

use crate::fault::ProofFault;
use mst_key::{Format, Value};

/// What the tail of a proof claims.
#[derive(Drop)]
pub(crate) enum Claim {
    /// There is no tail, as in format 1.
    Nothing,
    /// The key is absent.
    Absence,
    /// The key has this value.
    Given(Value),
    /// Neither: another first byte, or a value of more than 64 bytes.
    Unfit,
}

/// The claim, if nothing is left over after it.
fn alone(claim: Claim, rest: &[u8]) -> Result<Claim, ProofFault>
    ensures alone { result ≡ spec.alone claim rest.now }
{
    match rest {
        [] => Ok(claim),
        [_, ..] => Err(ProofFault::LeftOver),
    }
}

/// The claim of a value.
fn given(value: &[u8]) -> Claim
    ensures given { result ≡ spec.given value.now }
{
    match Value::new(value) {
        Ok(value) => Claim::Given(value),
        Err(_) => Claim::Unfit,
    }
}

/// The claim of a value after its length.
fn value_of(bytes: &[u8]) -> Result<Claim, ProofFault>
    ensures value { result ≡ spec.value_at bytes.now }
{
    match bytes {
        [] => Err(ProofFault::CutShort),
        [size, rest @ ..] => {
            let size = *size as usize;
            if rest.len() < size {
                Err(ProofFault::CutShort)
            } else {
                let (value, left) = rest.split_at(size);
                alone(given(value), left)
            }
        }
    }
}

/// What the bytes after the texts claim, or the fault of the frame there.
pub(crate) fn claim_of(format: Format, bytes: &[u8]) -> Result<Claim, ProofFault>
    ensures claim { result ≡ spec.claim_at format bytes.now }
{
    match format {
        Format::One => alone(Claim::Nothing, bytes),
        Format::Two => match bytes {
            [] => Err(ProofFault::CutShort),
            [0, rest @ ..] => alone(Claim::Absence, rest),
            [1, rest @ ..] => value_of(rest),
            [_, rest @ ..] => alone(Claim::Unfit, rest),
        },
    }
}
