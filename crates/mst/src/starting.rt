//! The whole program, from the words that the system gave it to its exit status.
ghost use Rattle.std.specs.Prelude.{◌≡◌, ◌≢◌, ◌<◌, ◌-◌, ◌^◌, ◌⊎◌, IfOk, IfErr};
ghost use Rattle.std.specs.IoError.{error_kind};
ghost use Rattle.std.specs.declared.io.ErrorKind.TheVariants.{OutOfMemory};
ghost use Rattle.std.specs.Vec.Iter.{into_iter_items};
ghost use Rattle.mst.specs.Commanded.{AreTexts, Commanded, HadNoMemory, HadNoWords};

use crate::program::command;
use crate::progress::Watch;
use mst_arguments::{Refusal, complain};
use mst_devices::{Sink, Source};
use mst_store::Memory;
use std::alloc::{AllocGlobal, Global};
use std::env::Args;
use std::io;
use std::io::IsTerminal;
use std::sync::Wait;
use std::thread::Threads;

// The texts that the system gave.
fn texts_of(alloc: Global, arguments: Args) -> Result<Vec<String>, Memory>
    ensures { IfOk result (λ texts. texts.items ≡ into_iter_items arguments) }
{
    let mut texts = Vec::new(alloc);
    for text in arguments {
        texts.push(text)?;
    }
    Ok(texts)
}

// The words, each a part of the text that holds it.
fn words_of<'a>(alloc: Global, texts: &'a [String]) -> Result<Vec<&'a str>, Memory>
    ensures { IfOk result (λ words. AreTexts words.items texts.now) }
{
    let mut words = Vec::new(alloc);
    for text in texts {
        words.push(text.as_str())?;
    }
    Ok(words)
}

// Why the system gave no words.
fn refusal_of(error: &io::Error) -> Refusal
    ensures memory { error_kind error.now ≡ OutOfMemory
        → (refused : _) × (result ≡ Refusal.Memory refused) }
    ensures not_text { error_kind error.now ≢ OutOfMemory → result ≡ Refusal.NotText }
{
    match Memory::of_call(error) {
        Some(refused) => Refusal::Memory(refused),
        None => Refusal::NotText,
    }
}

// Does what these words ask for.
fn run_words<R, P, S: Source, O: Sink, E: Sink>(
    rt: &R,
    alloc: Global,
    arguments: Args,
    errors: P,
    source: &mut S,
    out: &mut O,
    err: &mut E,
) -> u8
where
    R: Threads + Wait + AllocGlobal + Sync,
    P: Eprint + IsTerminal + Sync + Drop,
    requires source { S.failures source.old < 2 ^ 64 - 1 }
    requires out { O.failures out.old < 2 ^ 64 - 1 }
    requires err { E.failures err.old < 2 ^ 64 - 1 }
    ensures { ((words : _) × AreTexts words (into_iter_items arguments)
        × Commanded S.gives S.left S.failures O.takes O.failures E.takes E.failures words source.old
        out.old err.old result source.new out.new err.new)
        ⊎ HadNoMemory E.takes E.failures source.old out.old err.old result source.new out.new
        err.new }
{
    let texts = match texts_of(alloc, arguments) {
        Ok(texts) => texts,
        Err(refused) => return complain(err, &Refusal::Memory(refused)),
    };
    let words = match words_of(alloc, &texts) {
        Ok(words) => words,
        Err(refused) => return complain(err, &Refusal::Memory(refused)),
    };
    let watch = Watch::of(&words, errors.is_terminal(), errors);
    command(rt, alloc, &words, &watch, source, out, err)
}

/// The whole program: it does what the words ask for that it got from the system, and returns the
/// exit status, as [`command`] does. A load says on `errors` how far it is, if that is a terminal.
///
/// If memory for the words is refused, or one of them is not UTF-8, it says so on `err` and does
/// nothing else.
pub fn run_program<R, P, S: Source, O: Sink, E: Sink>(
    rt: &R,
    alloc: Global,
    arguments: io::Result<Args>,
    errors: P,
    source: &mut S,
    out: &mut O,
    err: &mut E,
) -> u8
where
    R: Threads + Wait + AllocGlobal + Sync,
    P: Eprint + IsTerminal + Sync + Drop,
    requires source { S.failures source.old < 2 ^ 64 - 1 }
    requires out { O.failures out.old < 2 ^ 64 - 1 }
    requires err { E.failures err.old < 2 ^ 64 - 1 }
    ensures commanded { IfOk arguments
        (λ texts. ((words : _) × AreTexts words (into_iter_items texts)
        × Commanded S.gives S.left S.failures O.takes O.failures E.takes E.failures words source.old
        out.old err.old result source.new out.new err.new)
        ⊎ HadNoMemory E.takes E.failures source.old out.old err.old result source.new out.new
        err.new) }
    ensures memory { IfErr arguments (λ error. error_kind error ≡ OutOfMemory
        → HadNoMemory E.takes E.failures source.old out.old err.old result source.new out.new
        err.new) }
    ensures not_text { IfErr arguments (λ error. error_kind error ≢ OutOfMemory
        → HadNoWords E.takes E.failures Refusal.NotText source.old out.old err.old result source.new
        out.new err.new) }
{
    match arguments {
        Ok(arguments) => run_words(rt, alloc, arguments, errors, source, out, err),
        Err(error) => complain(err, &refusal_of(&error)),
    }
}
