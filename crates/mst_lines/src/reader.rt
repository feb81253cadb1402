//! Lines, one after another, of what a source gives.
ghost use Rattle.std.specs.Prelude.{◌≡◌, ◌⊎◌, ◌<◌, ◌≤◌, ◌-◌, ◌+◌, ◌^◌, ◌++◌, ◌∷◌, [], List, ℕ, true, false, length, OnOk, OnErr, IfOk};
ghost use Rattle.mst_lines.specs.Lines.{IsWithout, kept_with};
ghost use Rattle.mst_lines.specs.Reading.{Cuts, Ends, Fails};

use crate::line::LineBuffer;
use crate::separator::cut;
use mst_devices::{Device, Pending, Sink, Source};
use std::alloc::{AllocError, Allocator};
use std::marker::Model;

/// How many bytes are read at most at a time.
const PIECE: usize = 65_536;

/// What was read of a source and is in no line yet. It is the caller's to name the same source each
/// time.
#[derive(Drop)]
pub struct Reader<A: Allocator> {
    piece: Vec<u8, A>,
    at: usize,
    end: usize,
}

/// Contracts see the bytes that are left.
impl<A: Allocator> Model for Reader<A> {
    ghost use Rattle.std.specs.Prelude.{List, ℕ, ◌<◌, ◌≤◌, ◌-◌, length, take, drop};

    ghost Value = { List ℕ };

    ghost view = { λ r. take (r.end - r.at) (drop r.at r.piece.items) };

    ghost invariant = { λ r.
        (r.at ≤ r.end) × (r.end ≤ length r.piece.items) × (0 < length r.piece.items) };
}

// The memory that is read into, a piece at a time.
fn blank_piece<A: Allocator>(alloc: A) -> Result<Vec<u8, A>, AllocError>
    ensures size { IfOk result (λ piece. length piece.items ≡ 65536) }
{
    vec![in alloc; 0; PIECE]
}

impl<A: Allocator> Reader<A> {
    /// Takes all the memory. Nothing was read yet.
    pub fn new(alloc: A) -> Result<Reader<A>, AllocError>
        ensures empty { IfOk result (λ r. r ≡ []) }
    {
        let piece = blank_piece(alloc)?;
        Ok(Reader {
            piece,
            at: 0,
            end: 0,
        })
    }

    // Whether a newline was left. What stands before it is added to the line, or all that is left
    // if there is none.
    fn cut_line(&mut self, line: &mut LineBuffer) -> bool
        ensures cut { result ≡ true → (front : List ℕ) × IsWithout 10 front
            × (self.old ≡ front ++ 10 ∷ self.new) × (line.new ≡ kept_with line.old front) }
        ensures none { result ≡ false → IsWithout 10 self.old × (self.new ≡ [])
            × (line.new ≡ kept_with line.old self.old) }
    {
        let left = &self.piece[self.at..self.end];
        match cut(left, b'\n') {
            Some((front, others)) => {
                line.extend(front);
                self.at = self.end - others.len();
                true
            }
            None => {
                line.extend(left);
                self.at = self.end;
                false
            }
        }
    }

    // Reads more bytes in place of none, and says whether there were any.
    fn read_more<S: Source>(&mut self, source: &mut S) -> Result<bool, Device>
        requires few { S.failures source.old < 2 ^ 64 - 1 }
        ensures given { OnOk result (S.gives source.old self.new source.new) }
        ensures fewer { OnOk result (length self.new + S.left source.new ≤ S.left source.old) }
        ensures some { IfOk result (λ more. more ≡ true → 0 < length self.new) }
        ensures end { IfOk result (λ more. more ≡ false → (self.new ≡ [])
            × (S.left source.new ≡ 0)) }
        ensures steady { OnOk result (S.failures source.new ≡ S.failures source.old) }
        ensures err { OnErr result (S.gives source.old [] source.new) }
        ensures none { OnErr result (self.new ≡ []) }
        ensures failed { OnErr result (S.failures source.old < S.failures source.new) }
    {
        self.at = 0;
        self.end = 0;
        let count = source.read(self.piece.as_mut_slice())?;
        self.end = count;
        Ok(count > 0)
    }

    /// Returns whether there is one more line that ends in a newline. The buffer then keeps that
    /// line, and otherwise the rest that the source ends in.
    ///
    /// What waits before the sink is written before each read, so that a user who reads the answers
    /// before giving the next line does not have to wait for them. If a write failed, nothing was
    /// read; if something was read or a read failed, all was written. Returns `Device` if a read or
    /// a write failed.
    pub fn next<S: Source, W: Sink, B: Allocator>(
        &mut self,
        source: &mut S,
        sink: &mut W,
        pending: &mut Pending<B>,
        line: &mut LineBuffer,
    ) -> Result<bool, Device>
        requires source { S.failures source.old < 2 ^ 64 - 1 }
        requires sink { W.failures sink.old < 2 ^ 64 - 1 }
        ensures line { IfOk result (λ more. more ≡ true
            → Cuts S.gives W.takes self.old source.old sink.old pending.old line.new self.new
            source.new sink.new pending.new) }
        ensures fewer { IfOk result (λ more. more ≡ true
            → length self.new + S.left source.new < length self.old + S.left source.old) }
        ensures end { IfOk result (λ more. more ≡ false
            → Ends S.gives W.takes self.old source.old sink.old pending.old line.new source.new
            sink.new) }
        ensures empty { IfOk result (λ more. more ≡ false → (pending.new ≡ [])
            × (S.left source.new ≡ 0)) }
        ensures steady_source { OnOk result (S.failures source.new ≡ S.failures source.old) }
        ensures steady_sink { OnOk result (W.failures sink.new ≡ W.failures sink.old) }
        ensures err { OnErr result
            (Fails S.gives W.takes W.failures self.old source.old sink.old pending.old source.new
            sink.new) }
        ensures failed { OnErr result
            (S.failures source.old + W.failures sink.old < S.failures source.new
            + W.failures sink.new) }
        ensures order { OnOk result ((source.new ≡ source.old)
            ⊎ (W.takes sink.old pending.old sink.new × (pending.new ≡ []))) }
        ensures writes_first { OnErr result (W.failures sink.old < W.failures sink.new
            → source.new ≡ source.old) }
        ensures reads_last { OnErr result (S.failures source.old < S.failures source.new
            → W.takes sink.old pending.old sink.new × (pending.new ≡ [])) }
    {
        line.clear();
        loop {
            if self.cut_line(line) {
                return Ok(true);
            }
            pending.flush(sink)?;
            if !self.read_more(source)? {
                return Ok(false);
            }
        }
    }
}
