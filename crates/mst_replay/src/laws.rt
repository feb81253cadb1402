//! Laws of the lines of a replay. Each function does nothing: its contract is the law.

ghost use Rattle.std.specs.Prelude.{◌≡◌, ◌↔◌, ℕ, List, [], Option, None, Some, codes};
ghost use Rattle.mst_pin.specs.State.{State, opening};
ghost use Rattle.mst_replay.specs.declared.command.Command.{Command};
ghost use Rattle.mst_replay.specs.declared.command.Command.TheVariants.{Open};
ghost use Rattle.mst_replay.specs.declared.reply.Reply.{Reply};
ghost use Rattle.mst_replay.specs.declared.reply.Reply.TheVariants.{FaultLine, Record, Records};
ghost use Rattle.mst_replay.specs.Laws.{IsFault};
ghost use Rattle.mst_replay.specs.Line.{IsSpelt};
ghost use Rattle.mst_replay.specs.Replay.{Replays};

/// A line that is no command's text, and before the first core each line that does not ask for a
/// core, is answered `fault line` and changes nothing. Once there is a core, no other line is a
/// fault.
pub fn fault_lines()
    ensures other { (s t : Option State) (line : List ℕ) (reply : Reply)
        → ((command : Command) → ¬ (IsSpelt command line)) → Replays s line reply t
        → (reply ≡ FaultLine) × (t ≡ s) }
    ensures early { (t : Option State) (line : List ℕ) (reply : Reply)
        → ((passes : ℕ) → ¬ (IsSpelt (Open passes) line)) → Replays None line reply t
        → (reply ≡ FaultLine) × (t ≡ None) }
    ensures only { (s : State) (t : Option State) (line : List ℕ)
        → Replays (Some s) line FaultLine t → (command : Command) → ¬ (IsSpelt command line) }
{}

/// Lines that were worked by hand, with all that each is answered.
pub fn worked_lines()
    // no word, another word, a blank too many before or after
    ensures empty { IsFault [] }
    ensures word { IsFault (codes "pins 1") }
    ensures blank { IsFault (codes "pin  1") }
    ensures behind { IsFault (codes "transfer ") }
    // no number, a leading zero, and numbers out of range
    ensures number { IsFault (codes "pin ") }
    ensures zero { IsFault (codes "pin 01") }
    ensures pass { IsFault (codes "pin 256") }
    ensures few { IsFault (codes "passes 0") }
    ensures many { IsFault (codes "passes 33") }
    ensures row { IsFault (codes "write 64") }
    // rows that do not ascend
    ensures order { IsFault (codes "publish 1 3,0") }
    // an event before the core, and in a new core
    ensures early { (t : Option State) (reply : Reply) → Replays None (codes "pin 1") reply t
        ↔ ((reply ≡ FaultLine) × (t ≡ None)) }
    ensures later { (t : Option State) (reply : Reply)
        → Replays (Some (opening 2)) (codes "pin 1") reply t → reply ≡ Record 0 }
    // a core of two passes, whatever stood before
    ensures opens { (s t : Option State) (reply : Reply) → Replays s (codes "passes 2") reply t
        ↔ ((reply ≡ Records 4) × (t ≡ Some (opening 2))) }
{}
