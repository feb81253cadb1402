//! Laws of what is read of a source. Each function does nothing: its contract is the law.

ghost use Rattle.std.specs.Prelude.{◌+◌, ◌<◌, ◌≤◌, ℕ, List};
ghost use Rattle.mst_devices.specs.Device.{Counted, GaveKnown, left_of};
ghost use Rattle.mst_command.specs.Reading.{GaveAll, GaveMore};

/// A source over a reader of std counts how many bytes it has left. If all of it is read, it loses
/// no more than the limit; if it gives more, it loses at most 4,096 bytes beyond that.
pub fn reading_laws()
    ensures all { (most : ℕ) (s t : Counted) (bytes : List ℕ)
        → GaveAll GaveKnown left_of most s bytes t → s.left ≤ t.left + most }
    ensures more { (most : ℕ) (s t : Counted) → GaveMore GaveKnown most s t
        → (t.left + most < s.left) × (s.left ≤ t.left + most + 4096) }
{}
