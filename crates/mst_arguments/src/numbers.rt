//! Words of a load, which name its numbers.
ghost use Rattle.std.specs.Prelude.{◌≡◌, IfSome, Some};
ghost use Rattle.std.specs.Option.{option_map};
ghost use Rattle.mst_arguments.specs.Loads.{IsLoadIn, IsLoadOf, load_options_of, load_words as words_of_load};

use crate::options::{are_words_of, value_of};
use crate::plain::number;
use crate::task::{Load, Subcommand};

// The words for the readers, the writers and the calls among those after the command.
fn load_options<'a>(words: &[&'a str]) -> Option<(&'a str, &'a str, &'a str)>
    ensures { option_map (λ w. (w.0.now, w.1.now, w.2.now)) result ≡ load_options_of words.now }
{
    let readers = value_of("--readers", words)?;
    let writers = value_of("--writers", words)?;
    let calls = value_of("--calls", words)?;
    Some((readers, writers, calls))
}

// The same, if the words are those of a load.
fn load_words<'a>(words: &[&'a str]) -> Option<(&'a str, &'a str, &'a str)>
    ensures { option_map (λ w. (w.0.now, w.1.now, w.2.now)) result ≡ words_of_load words.now }
{
    match words {
        [_, name, others @ ..] if *name == "load" && are_words_of(Subcommand::Load, others) => {
            load_options(others)
        }
        _ => None,
    }
}

// The numbers that three words name.
fn load_in(readers: &str, writers: &str, calls: &str) -> Option<Load>
    ensures some { IfSome result (λ size. IsLoadIn (readers.now, writers.now, calls.now) size) }
    ensures only { (size : _) → IsLoadIn (readers.now, writers.now, calls.now) size
        → result ≡ Some size }
{
    let readers = number(readers)?;
    let writers = number(writers)?;
    let calls = number(calls)?;
    Some(Load {
        readers,
        writers,
        calls,
    })
}

/// The numbers of the load, if the words are those of one.
pub fn plain_load(words: &[&str]) -> Option<Load>
    ensures some { IfSome result (λ size. IsLoadOf words.now size) }
    ensures only { (size : _) → IsLoadOf words.now size → result ≡ Some size }
{
    let (readers, writers, calls) = load_words(words)?;
    load_in(readers, writers, calls)
}
