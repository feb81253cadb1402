//! Words that name a task, each option in any spelling and order.
ghost use Rattle.std.specs.Prelude.{◌≡◌, ℕ, Some, IfSome, IfNone, false};
ghost use Rattle.std.specs.Option.{option_map};
ghost use Rattle.mst_arguments.specs.Loads.{IsLoadOf};
ghost use Rattle.mst_arguments.specs.Options.{IsNumber};
ghost use Rattle.mst_arguments.specs.Commanding.{AsksFor, IsPlain, IsRunOf, IsSizeIn, asks_run, is_replay_alone as asks_replay_alone, is_whole_verify as asks_whole_verify, value_or as named_or};

use crate::numbers::plain_load;
use crate::options::{are_words_of, value_of};
use crate::task::{Size, Subcommand, Task};
use crate::words::{script_task, verify_task};

// The value of the option, or else the usual one.
fn value_or<'a>(usual: &'a str, option: &str, words: &[&'a str]) -> &'a str
    ensures { result.now ≡ named_or usual.entry.now option.now words.now }
{
    value_of(option, words).unwrap_or(usual)
}

// The words for the rows and the passes, if the words are those of a script.
fn run_words<'a>(words: &[&'a str]) -> Option<(&'a str, &'a str)>
    ensures { option_map (λ w. (w.0.now, w.1.now)) result ≡ asks_run words.now }
{
    match words {
        [_, name, others @ ..] if *name == "run" && are_words_of(Subcommand::Run, others) => Some(
            (
                value_or("1024", "--rows", others),
                value_or("4", "--passes", others),
            ),
        ),
        _ => None,
    }
}

/// The number below 2^32 that the word spells: digits, perhaps after a sign.
pub fn number(word: &str) -> Option<u32>
    ensures some { IfSome result (λ n. IsNumber word.now n) }
    ensures only { (n : ℕ) → IsNumber word.now n → result ≡ Some n }
{
    let n = word.parse::<i64>().ok()?;
    u32::try_from(n).ok()
}

// The size that two words name.
fn size_in(rows: &str, passes: &str) -> Option<Size>
    ensures some { IfSome result (λ size. IsSizeIn (rows.now, passes.now) size) }
    ensures only { (size : _) → IsSizeIn (rows.now, passes.now) size → result ≡ Some size }
{
    let rows = number(rows)?;
    let passes = number(passes)?;
    Some(Size { rows, passes })
}

// The size of the store, if the words are those of a script.
fn plain_run(words: &[&str]) -> Option<Size>
    ensures some { IfSome result (λ size. IsRunOf words.now size) }
    ensures only { (size : _) → IsRunOf words.now size → result ≡ Some size }
{
    let (rows, passes) = run_words(words)?;
    size_in(rows, passes)
}

// Whether the words are those of a replay.
fn is_replay_alone(words: &[&str]) -> bool
    ensures { result ≡ asks_replay_alone words.now }
{
    match words {
        [_, name, others @ ..] => *name == "replay" && are_words_of(Subcommand::Replay, others),
        _ => false,
    }
}

// Whether the words are those of a proof.
fn is_whole_verify(words: &[&str]) -> bool
    ensures { result ≡ asks_whole_verify words.now }
{
    match words {
        [_, name, others @ ..] => *name == "verify" && are_words_of(Subcommand::Verify, others),
        _ => false,
    }
}

// The task, if the words are those of a proof.
fn plain_verify<'a>(words: &[&'a str]) -> Option<Task<'a>>
    ensures asked { IfSome result (λ task. AsksFor words.now task) }
    ensures plain { IfNone result (asks_whole_verify words.now ≡ false) }
{
    if is_whole_verify(words) {
        verify_task(words)
    } else {
        None
    }
}

// The task, if the words are those of a replay or a proof.
fn plain_reader<'a>(words: &[&'a str]) -> Option<Task<'a>>
    ensures asked { IfSome result (λ task. AsksFor words.now task) }
    ensures plain { IfNone result ((asks_replay_alone words.now ≡ false)
        × (asks_whole_verify words.now ≡ false)) }
{
    if is_replay_alone(words) {
        Some(Task::Replay)
    } else {
        plain_verify(words)
    }
}

// The task, if the words name one and are not those of a script.
fn plain_other<'a>(words: &[&'a str]) -> Option<Task<'a>>
    ensures asked { IfSome result (λ task. AsksFor words.now task) }
    ensures plain { IfNone result ((asks_replay_alone words.now ≡ false)
        × (asks_whole_verify words.now ≡ false) × ((size : _) → ¬ (IsLoadOf words.now size))) }
{
    match plain_load(words) {
        Some(size) => Some(Task::Load(size)),
        None => plain_reader(words),
    }
}

/// The task that words name: `run` with `--rows N`, `--passes N` and `--format F` at most once
/// each, `replay` alone, `verify` with two words and perhaps `--sharded` and `--format F`, or
/// `load` with `--readers N`, `--writers N` and `--calls N`. The options stand in any order, those
/// with a value as two words or joined by `=`; a `--` may stand behind them. Each N is below 2^32.
pub fn plain_task<'a>(words: &[&'a str]) -> Option<Task<'a>>
    ensures asked { IfSome result (λ task. AsksFor words.now task) }
    ensures plain { IfNone result (¬ (IsPlain words.now)) }
{
    match plain_run(words) {
        Some(size) => Some(script_task(words, size)),
        None => plain_other(words),
    }
}
