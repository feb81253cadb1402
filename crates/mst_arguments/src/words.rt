//! What words ask for, by the words alone.
ghost use Rattle.std.specs.Prelude.{◌≡◌, ◌↔◌, IfSome, IfNone, true, None};
ghost use Rattle.std.specs.Option.{option_map};
ghost use Rattle.mst_arguments.specs.Commanding.{AskHelp, AskText, AskVersion, AsksFor, IsHelp, IsRunOf, IsVersion, NamesShape, asks_verify, asks_version_alone, format_in as named_format, is_whole_verify, splits_in as named_splits};

use crate::options::{format_named, kind_named, operand, value_of};
use crate::task::{Size, Task};
use mst_key::Format;
use mst_report::ProofKind;
use mst_words::Shape;

// Whether a word asks for help.
fn is_help(word: &str) -> bool
    ensures { (result ≡ true) ↔ IsHelp word.now }
{
    match word.as_bytes() {
        [b'-', b'h', ..] => true,
        _ => word == "help" || word == "--help",
    }
}

// Whether some word asks for help.
fn ask_help(words: &[&str]) -> bool
    ensures { (result ≡ true) ↔ AskHelp words.now }
{
    for word in words {
        if is_help(word) {
            return true;
        }
    }
    false
}

// Whether a word asks for the version.
fn is_version(word: &str) -> bool
    ensures { (result ≡ true) ↔ IsVersion word.now }
{
    match word.as_bytes() {
        [b'-', b'V', ..] => true,
        _ => word == "--version",
    }
}

// Whether the first word after the program's name asks for the version.
fn ask_version(words: &[&str]) -> bool
    ensures { (result ≡ true) ↔ AskVersion words.now }
{
    match words {
        [_, name, ..] => is_version(name),
        _ => false,
    }
}

/// Whether the words are the program's name and `--version` or `-V` alone.
pub fn ask_version_alone(words: &[&str]) -> bool
    ensures alone { result ≡ asks_version_alone words.now }
    ensures text { result ≡ true → AskText words.now }
{
    match words {
        [_, name] => *name == "--version" || *name == "-V",
        _ => false,
    }
}

/// Whether some word asks for help, or the first after the program's name for the version.
pub fn ask_text(words: &[&str]) -> bool
    ensures { (result ≡ true) ↔ AskText words.now }
{
    ask_help(words) || ask_version(words)
}

// The format that the words after the command name.
fn format_in(words: &[&str]) -> Option<Format>
    ensures { result ≡ named_format words.now }
{
    match words {
        [_, _, others @ ..] => format_named(others),
        _ => Some(Format::One),
    }
}

// The words of a proof: its kind, its format, and the words for the root digest and the key.
type ProofWords<'a> = (ProofKind, Option<Format>, &'a str, &'a str);

// The words of a proof, if the first word after the program's name is `verify`.
fn verify_words<'a>(words: &[&'a str]) -> Option<ProofWords<'a>>
    ensures { option_map (λ w. (w.0, w.1, w.2.now, w.3.now)) result ≡ asks_verify words.now }
{
    match words {
        [_, name, others @ ..] if *name == "verify" => Some((
            kind_named(others),
            format_named(others),
            operand(others, false, 0),
            operand(others, false, 1),
        )),
        _ => None,
    }
}

/// The task of the words of a proof.
pub fn verify_task<'a>(words: &[&'a str]) -> Option<Task<'a>>
    requires { is_whole_verify words.now ≡ true }
    ensures asked { IfSome result (λ task. AsksFor words.now task) }
    ensures other { IfNone result (asks_verify words.now ≡ None) }
{
    let (kind, format, root, key) = verify_words(words)?;
    match format {
        Some(format) => Some(Task::Verify(kind, format, root, key)),
        None => Some(Task::UnknownFormat),
    }
}

// The word for the splits, if the words after the command name one.
fn splits_in<'a>(words: &[&'a str]) -> Option<&'a str>
    ensures { option_map (λ w. w.now) result ≡ named_splits words.now }
{
    match words {
        [_, _, others @ ..] => value_of("--splits", others),
        _ => None,
    }
}

// The task of the words of a script over stores of this shape.
fn task_over<'a>(words: &[&'a str], shape: Shape) -> Task<'a>
    requires { NamesShape words.now shape }
    ensures { AsksFor words.now result }
{
    match splits_in(words) {
        Some(splits) => Task::RunSharded(shape, splits),
        None => Task::Run(shape),
    }
}

/// The task of the words of a script over stores of this size, in the format that they name.
pub fn script_task<'a>(words: &[&'a str], size: Size) -> Task<'a>
    requires { IsRunOf words.now size }
    ensures { AsksFor words.now result }
{
    let Some(format) = format_in(words) else {
        return Task::UnknownFormat;
    };
    let shape = Shape {
        rows: size.rows,
        passes: size.passes,
        format,
    };
    task_over(words, shape)
}
