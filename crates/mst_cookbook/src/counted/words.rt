//! The words of the command line.
use super::kinds::{self, Kind};
use mst_key::Format;

/// Calls of one kind at a map of this many keys, in a format.
#[derive(Drop)]
pub struct Calls {
    pub kind: &'static Kind,
    pub name: &'static str,
    /// Whether the keys rise.
    pub rise: bool,
    pub keys: u32,
    pub calls: u32,
    pub format: Format,
}

/// How the program is called.
pub const HELP: &str = "\
mst_cookbook KIND KEYS CALLS [1|2]
  puts so many keys, and makes so many calls of one kind in a store of the format;
  tools/counts counts their instructions
mst_cookbook load KEYS CALLS [1|2]
  puts so many keys by one batch into an empty store, so many times
KIND is one of: put, put in batches of N (1, 10, 100, 1000 or 10000; each put is a call),
  remove and put back, version, get, get of a pinned version, next, range of 100, prove, verify,
  migrate (to the other format, and back); of a map of 32 shards, or of stores that have its keys:
  get of a reader, get in stores of one shard, put of a listing, snapshot of a block,
  block of 1 edit, block of 1 edit and its snapshot, block of 1000 edits,
  batches in stores of one shard (of 1000 edits in all), batch of listings";

// The number that a word spells, if it is above 0.
fn number(word: &str) -> Option<u32> {
    match word.parse::<u32>() {
        Ok(number) if number > 0 => Some(number),
        _ => None,
    }
}

// The format that the last word names, if there is one, and format 1 if there is none.
fn format(last: &[String]) -> Option<Format> {
    match last {
        [] => Some(Format::One),
        [word] => match number(word.as_str()) {
            Some(1) => Some(Format::One),
            Some(2) => Some(Format::Two),
            _ => None,
        },
        _ => None,
    }
}

// The calls that these words name.
fn calls_of(kind: &str, keys: &str, calls: &str, last: &[String]) -> Option<Calls> {
    match (
        kinds::named(kind),
        number(keys),
        number(calls),
        format(last),
    ) {
        (Some((kind, name, rise)), Some(keys), Some(calls), Some(format)) => Some(Calls {
            kind,
            name,
            rise,
            keys,
            calls,
            format,
        }),
        _ => None,
    }
}

/// The calls that the words of the command line ask for, of which the first is the program's name.
pub fn asked(words: &[String]) -> Option<Calls> {
    match words {
        [_, kind, keys, calls, last @ ..] => {
            calls_of(kind.as_str(), keys.as_str(), calls.as_str(), last)
        }
        _ => None,
    }
}
