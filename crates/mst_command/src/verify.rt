//! A proof of standard input, verified.
ghost use Rattle.std.specs.Prelude.{◌≡◌, ◌<◌, ◌-◌, ◌+◌, ◌^◌, ◌↔◌, ◌⊎◌, Some, None, IfOk, OnOk, IfErr, IsErrOf, IsSome};
ghost use Rattle.mst_report.specs.Words.{root_of, key_of};
ghost use Rattle.mst_script.specs.Scripts.{OnMemory};
ghost use Rattle.mst_arguments.specs.Commanding.{EndsVerify, IsDevice, Unread, Untouched};
ghost use Rattle.mst_command.specs.Programs.{RanVerify, BrokeVerify, IsSaid, ending_of};

use crate::input::read_up_to;
use mst_arguments::{Ending, Refusal};
use mst_devices::{Device, Sink, Source, write_all};
use mst_key::{Format, Key};
use mst_report::{LIMIT, ProofKind, Report, key_in, report_on, root_in};
use mst_script::RunFault;
use std::alloc::Allocator;

// How the program ends that said this.
fn ending(report: &Report) -> Ending
    ensures { result ≡ ending_of report.now }
{
    if report.is_refusal() {
        Ending::ProofRefused
    } else {
        Ending::Done
    }
}

// What the source gives, as the text of a proof of this kind in this format.
fn read_report<A: Allocator + Copy, S: Source>(
    alloc: A,
    kind: ProofKind,
    format: Format,
    root: &[u8; 32],
    key: &Key,
    source: &mut S,
) -> Result<Report, RunFault>
    requires source { S.failures source.old < 2 ^ 64 - 1 }
    ensures report { IfOk result (λ report. IsSaid S.gives S.left kind format root.now key.now
        source.old report source.new) }
    ensures steady { OnOk result (S.failures source.new ≡ S.failures source.old) }
    ensures device { result ≡ Err RunFault.Device → S.failures source.old < S.failures source.new }
    ensures memory { IfErr result
        (λ fault. OnMemory fault (S.failures source.new ≡ S.failures source.old)) }
{
    let Some(text) = read_up_to(alloc, source, LIMIT)? else {
        return Ok(Report::Long);
    };
    match report_on(alloc, kind, format, root, key, text.as_slice()) {
        Ok(report) => Ok(report),
        Err(refused) => Err(RunFault::Memory(refused)),
    }
}

/// Says what the proof of this kind in this format that the source gives shows of a key, for the
/// words of a root digest and of the key.
///
/// Returns `BadRoot` if `root` spells no root digest, otherwise `BadKey` if `key` spells no key,
/// both before anything is read. Otherwise returns `Device` if a read or a write failed, or
/// `Memory` if a growth was refused.
pub fn run_verify<A: Allocator + Copy, S: Source, W: Sink>(
    alloc: A,
    kind: ProofKind,
    format: Format,
    root: &str,
    key: &str,
    source: &mut S,
    out: &mut W,
) -> Result<Ending, Refusal>
    requires source { S.failures source.old < 2 ^ 64 - 1 }
    requires out { W.failures out.old < 2 ^ 64 - 1 }
    ensures ran { IfOk result
        (λ ending. RanVerify S.gives S.left W.takes
        (kind, Some format, root.now, key.now) source.old out.old ending source.new out.new) }
    ensures steady { OnOk result
        (S.failures source.new + W.failures out.new ≡ S.failures source.old + W.failures out.old) }
    ensures device { IfErr result
        (λ why. IsDevice why (S.failures source.old + W.failures out.old)
        (S.failures source.new + W.failures out.new)) }
    ensures stopped { IsErrOf result Refusal.Device → (out.new ≡ out.old)
        ⊎ BrokeVerify S.gives S.left W.takes
        (kind, Some format, root.now, key.now) source.old out.old source.new out.new }
    ensures unread { IfErr result (λ why. Unread why source.old source.new) }
    ensures unwritten { IfErr result (λ why. Untouched why out.old out.new) }
    ensures ends { IfErr result (λ why. EndsVerify why) }
    ensures root { IsErrOf result Refusal.BadRoot ↔ (root_of root.now ≡ None) }
    ensures key { IsErrOf result Refusal.BadKey
        ↔ (IsSome (root_of root.now) × (key_of key.now ≡ None)) }
{
    let Some(root) = root_in(root) else {
        return Err(Refusal::BadRoot);
    };
    let Some(key) = key_in(key) else {
        return Err(Refusal::BadKey);
    };
    let report = match read_report(alloc, kind, format, &root, &key, source) {
        Ok(report) => report,
        Err(RunFault::Device) => return Err(Refusal::Device),
        Err(RunFault::Memory(refused)) => return Err(Refusal::Memory(refused)),
    };
    match write_all(out, report.line().as_slice()) {
        Ok(()) => Ok(ending(&report)),
        Err(Device) => Err(Refusal::Device),
    }
}
