//! What the tests share: a new table with its dealer, and an event.
ghost use Rattle.std.specs.Prelude.{◌≡◌, ◌<◌, ◌≤◌, [], IfOk};
ghost use Rattle.mst_words.specs.Layout.{most_passes, table_words};
ghost use Rattle.mst_versions.specs.Known.{most_rows};
ghost use Rattle.mst_words.specs.World.{dealer};
ghost use Rattle.mst_key.specs.History.{IsMigration, IsBatch};
ghost use Rattle.mst_key.specs.declared.format.Format.TheVariants.{One};

use mst_arena::Desk;
use mst_key::{Change, Event, Format, Key, Memory, Value};
use mst_versions::PassParameters;
use mst_words::{Board, Shape, Token};
use std::alloc::Allocator;
use std::process::Abort;

// A table for this many rows and passes, of the empty map in format 1, and the dealer's token.
pub(crate) fn opened<A: Allocator + Copy>(
    alloc: A,
    rows: u32,
    passes: u32,
) -> Result<(Board<A>, Token<A>), Memory>
    requires some { (0 < rows) × (rows ≤ most_rows) }
    requires few { (0 < passes) × (passes ≤ most_passes) }
    ensures ok { IfOk result (λ r. (r.1.table_id ≡ r.0) × (r.0.words ≡ table_words rows)
        × (r.1.me ≡ (dealer rows passes One 1, []))) }
{
    let shape = Shape {
        rows,
        passes,
        format: Format::One,
    };
    let desk = Desk::new(alloc, rows, passes + 2, 0)?;
    Board::open(alloc, shape, desk)
}

// The parameters of a pass of a table for this many passes and rows.
pub(crate) fn parameters(number: u32, passes: u32, rows: u32) -> PassParameters
    ensures { result ≡ record { number = number; passes = passes; rows = rows } }
{
    PassParameters {
        number,
        passes,
        rows,
    }
}

// The event that a pass makes by putting the key a.
pub(crate) fn putting<'a>(rt: &impl Abort, pass: u32, value: &'a [u8]) -> Event<'a>
    ensures mine { result.pass ≡ pass }
    ensures keyed { IsMigration result.change → ⊥ }
    ensures single { IsBatch result.change → ⊥ }
{
    let key = Key::new(b"a").expect(rt, "1 to 32 bytes");
    let value = Value::new(value).expect(rt, "at most 64 bytes");
    Event {
        pass,
        change: Change::Put(key, value),
    }
}
