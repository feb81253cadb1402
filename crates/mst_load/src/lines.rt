//! A report as it is written.
ghost use Rattle.std.specs.Prelude.{◌≡◌, ◌≤◌, ◌+◌, ◌++◌, length, decimal};
ghost use Rattle.hex.specs.Hex.{encode_lower};
ghost use Rattle.mst_load.specs.Lines.{line_of, lines_of};

use crate::engine::Report;
use arrayvec::ArrayVec;
use itoa::Buffer;

/// The four lines of a report. The longest have 198 bytes.
pub type Lines = ArrayVec<u8, 512>;

/// Appends bytes that fit.
fn extend(lines: &mut Lines, bytes: &[u8])
    requires { length lines.old.items + length bytes.now ≤ 512 }
    ensures { lines.new.items ≡ lines.old.items ++ bytes.now }
{
    let _ = lines.try_extend_from_slice(bytes);
}

/// Appends the line of a count.
fn extend_count(lines: &mut Lines, name: &[u8], count: u64)
    requires room { length lines.old.items ≤ 64 }
    requires short { length name.now ≤ 8 }
    ensures line { lines.new.items ≡ lines.old.items ++ line_of name.now (decimal count) }
    ensures size { length lines.new.items ≤ length lines.old.items + 64 }
{
    let mut buffer = Buffer::new();
    extend(lines, name);
    extend(lines, buffer.format(count).as_bytes());
    extend(lines, b"\n");
}

/// Appends the line of a digest.
fn extend_digest(lines: &mut Lines, name: &[u8], digest: &[u8; 32])
    requires room { length lines.old.items ≤ 256 }
    requires short { length name.now ≤ 8 }
    ensures line { lines.new.items ≡ lines.old.items ++ line_of name.now (encode_lower digest.now) }
    ensures size { length lines.new.items ≤ length lines.old.items + 80 }
{
    let mut digits = [0; 64];
    let _ = hex::encode_to_slice(digest.as_slice(), &mut digits[..]);
    extend(lines, name);
    extend(lines, &digits[..]);
    extend(lines, b"\n");
}

impl Report {
    /// The lines of the report: `events`, `falls`, `root` and `built`, each with its number or its
    /// digest in lower case.
    #[tactic(auto, unfolding(crate::specs::Lines::lines_of))]
    pub fn lines(&self) -> Lines
        ensures lines { result.items ≡ lines_of self.now }
    {
        let mut lines = ArrayVec::new();
        extend_count(&mut lines, b"events ", self.events);
        extend_count(&mut lines, b"falls ", self.falls);
        extend_digest(&mut lines, b"root ", &self.root);
        extend_digest(&mut lines, b"built ", &self.built);
        lines
    }
}
