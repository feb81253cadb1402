//! What words come to that name no task: texts about the program, which `clap` makes.
ghost use Rattle.std.specs.Prelude.{◌≡◌, ◌↔◌, IfOk, IfErr, IsSome, OnErr, false, string_bytes};
ghost use Rattle.clap.specs.Values.{kind_of};
ghost use Rattle.clap.specs.declared.error.kind.ErrorKind.TheVariants.{OutOfMemory};
ghost use Rattle.mst_arguments.specs.Commanding.{AsksFor, EndsWords, IsPlain, asks_version_alone, version_text};

use crate::plain::plain_task;
use crate::task::{Refusal, Task};
use crate::words::{ask_text, ask_version_alone};
use clap::error::ErrorKind;
use clap::{Arg, ArgAction, Command, Error, value_parser};
use mst_key::Memory;
use std::alloc::{AllocError, Global};

/// What the help says after the commands and the options.
const AFTER_HELP: &str = "Examples:
  mst run --rows 64 --passes 2 < script
  mst run --format 2 < script
  mst run --splits 40,80,c0 < script
  mst verify ROOT KEY < proof
  mst verify --format 2 ROOT KEY < proof
  mst verify --sharded ROOT KEY < proof
  mst load --readers 4 --writers 2 --calls 1000

Exit statuses:
  0  what the words ask for is done
  1  the proof is refused
  2  the words are refused
  3  a read or a write failed
  4  memory was refused, or a thread could not be started";

/// The number of the program's version.
const VERSION: &str = "0.4.0-dev";

/// The text of the version, if nothing else is asked.
const VERSION_TEXT: &str = "mst 0.4.0-dev\n";

// An argument with its help, and what clap does where it finds one.
fn argument<'a>(alloc: Global, name: &'a str, action: ArgAction, help: &'a str) -> Arg<'a> {
    Arg::new(alloc, name).action(action).help(help)
}

// An option with a value, which the help calls by this name.
fn option<'a>(alloc: Global, name: &'a str, value: &'a str, help: &'a str) -> Arg<'a> {
    argument(alloc, name, ArgAction::Set, help)
        .long(name)
        .value_name(value)
}

// An option that is a number.
fn number_option<'a>(alloc: Global, name: &'a str, help: &'a str) -> Arg<'a> {
    option(alloc, name, "N", help).value_parser(value_parser!(u32))
}

// An option that is a number and has to be given.
fn required_number<'a>(alloc: Global, name: &'a str, help: &'a str) -> Arg<'a> {
    number_option(alloc, name, help).required(true)
}

// An option that is a number and has a default.
fn usual_number<'a>(alloc: Global, name: &'a str, help: &'a str, usual: &'a str) -> Arg<'a> {
    number_option(alloc, name, help).default_value(usual)
}

// The option that names a format. Values other than 1 and 2 are refused by the task that the words
// ask for, and not by clap.
fn format_option<'a>(alloc: Global, help: &'a str) -> Arg<'a> {
    option(alloc, "format", "F", help).default_value("1")
}

// The option that makes a script's map a sharded one. Values that are no splits are refused by the
// task that the words ask for, and not by clap.
fn splits_option<'a>(alloc: Global) -> Arg<'a> {
    let help = "The splits of a sharded map: rising hexadecimal keys";
    option(alloc, "splits", "K,K,..", help)
}

// A word that has to be given.
fn required_word<'a>(alloc: Global, name: &'a str, help: &'a str) -> Arg<'a> {
    argument(alloc, name, ArgAction::Set, help).required(true)
}

// The option of a proof of a sharded map, which has no value.
fn sharded_switch<'a>(alloc: Global) -> Arg<'a> {
    let help = "The proof is of a sharded map, in two parts";
    argument(alloc, "sharded", ArgAction::SetTrue, help).long("sharded")
}

// A command with its arguments.
fn command<'a>(
    alloc: Global,
    name: &'a str,
    about: &'a str,
    arguments: Vec<Arg<'a>>,
) -> Result<Command<'a>, AllocError> {
    Command::new(alloc, name).about(about).args(arguments)
}

// The command of a load.
fn load_command<'a>(alloc: Global) -> Result<Command<'a>, AllocError> {
    let about = "Lets threads read and write one store at once, and reports what they left";
    let options = vec![in alloc;
        required_number(alloc, "readers", "How many threads read, 1 to 24"),
        required_number(alloc, "writers", "How many threads write, 1 to 8"),
        required_number(alloc, "calls", "How many calls each makes, 1 to 100000"),
    ]?;
    command(alloc, "load", about, options)
}

// The command of a script.
fn run_command<'a>(alloc: Global) -> Result<Command<'a>, AllocError> {
    let about = "Answers the lines of standard input, each of them a command of a pass";
    let rows = "How many rows the store has, 4 to 65535";
    let passes = "How many passes the store has, 1 to 32";
    let format = "The format in which the store opens, 1 or 2";
    let options = vec![in alloc;
        usual_number(alloc, "rows", rows, "1024"),
        usual_number(alloc, "passes", passes, "4"),
        format_option(alloc, format),
        splits_option(alloc),
    ]?;
    command(alloc, "run", about, options)
}

// The command that verifies a proof.
fn verify_command<'a>(alloc: Global) -> Result<Command<'a>, AllocError> {
    let about = "Says what the proof on standard input, in hexadecimal, shows of a key";
    let root = "The root digest of the map, 64 hexadecimal digits";
    let key = "The key, 1 to 32 bytes of two hexadecimal digits each";
    let format = "The format of the root digest and the proof, 1 or 2";
    let arguments = vec![in alloc;
        required_word(alloc, "ROOT", root),
        required_word(alloc, "KEY", key),
        sharded_switch(alloc),
        format_option(alloc, format),
    ]?;
    command(alloc, "verify", about, arguments)
}

// The command that replays events.
fn replay_command<'a>(alloc: Global) -> Command<'a> {
    Command::new(alloc, "replay").about(
        "Answers the lines of standard input, each of them an event of the core of pins",
    )
}

// The program without its commands.
fn bare_program<'a>(alloc: Global) -> Command<'a> {
    Command::new(alloc, "mst")
        .about("A map of short keys to short values, shared by several passes")
        .subcommand_required(true)
        .arg_required_else_help(true)
        .version(VERSION)
        .after_help(AFTER_HELP)
}

// The program with one more command, if there was memory for that.
fn with_command<'a>(
    program: Command<'a>,
    made: Result<Command<'a>, AllocError>,
) -> Result<Command<'a>, AllocError> {
    match made {
        Ok(command) => program.subcommand(command),
        Err(refused) => {
            drop(program);
            Err(refused)
        }
    }
}

// The program, with its commands.
fn program<'a>(alloc: Global) -> Result<Command<'a>, AllocError> {
    let program = with_command(bare_program(alloc), run_command(alloc))?;
    let program = with_command(program, verify_command(alloc))?;
    let program = program.subcommand(replay_command(alloc))?;
    with_command(program, load_command(alloc))
}

// The error that clap finds in words that name no task, or one that says so, should it find none.
fn error_of<'a>(program: &mut Command<'a>, words: &'a [&'a str]) -> Result<Error, AllocError> {
    match program.try_get_matches_from_mut(words) {
        Ok(matches) => {
            drop(matches);
            program.error(ErrorKind::InvalidSubcommand, "the words name no task")
        }
        Err(error) => Ok(error),
    }
}

// The error that clap finds in words that name no task.
fn error_in(alloc: Global, words: &[&str]) -> Result<Error, AllocError> {
    let mut program = program(alloc)?;
    error_of(&mut program, words)
}

// The refusal of memory that kept clap from its work, if it was one.
fn refusal_in(error: &Error) -> Option<Memory>
    ensures exact { IsSome result ↔ kind_of error.now ≡ OutOfMemory }
{
    match error.kind() {
        ErrorKind::OutOfMemory => Some(Memory::from(AllocError)),
        _ => None,
    }
}

// What is said by clap's error: if the words ask for help or the version, that is the task, and all
// else is a refusal.
fn answer_words(alloc: Global, words: &[&str], error: &Error) -> Result<Task<'static>, Refusal>
    requires plain { ¬ (IsPlain words.now) }
    requires version { asks_version_alone words.now ≡ false }
    ensures help { IfOk result (λ task. AsksFor words.now task) }
    ensures refused { IfErr result (λ why. EndsWords why) }
{
    if let Some(refused) = refusal_in(error) {
        return Err(Refusal::Memory(refused));
    }
    let text = match format!(in alloc; "{error}") {
        Ok(text) => text,
        Err(refused) => return Err(Refusal::Memory(Memory::from(refused))),
    };
    if error.use_stderr() || !ask_text(words) {
        return Err(Refusal::Words(text));
    }
    Ok(Task::Help(text))
}

// The text of the version, which is made without clap.
fn version_told(alloc: Global) -> Result<String, AllocError>
    ensures { IfOk result (λ text. string_bytes text ≡ version_text) }
{
    VERSION_TEXT.to_string(alloc)
}

// What words come to that name no task and do not ask for the version alone.
fn clap_task(alloc: Global, words: &[&str]) -> Result<Task<'static>, Refusal>
    requires plain { ¬ (IsPlain words.now) }
    requires version { asks_version_alone words.now ≡ false }
    ensures asked { IfOk result (λ task. AsksFor words.now task) }
    ensures refused { IfErr result (λ why. EndsWords why) }
{
    match error_in(alloc, words) {
        Ok(error) => answer_words(alloc, words, &error),
        Err(refused) => Err(Refusal::Memory(Memory::from(refused))),
    }
}

// What words come to that name no task.
fn other_task(alloc: Global, words: &[&str]) -> Result<Task<'static>, Refusal>
    requires { ¬ (IsPlain words.now) }
    ensures asked { IfOk result (λ task. AsksFor words.now task) }
    ensures refused { IfErr result (λ why. EndsWords why) }
{
    if !ask_version_alone(words) {
        return clap_task(alloc, words);
    }
    match version_told(alloc) {
        Ok(text) => Ok(Task::Help(text)),
        Err(refused) => Err(Refusal::Memory(Memory::from(refused))),
    }
}

/// Returns what all words ask for, with the program's name: the task that they name, or a text
/// about the program, or clap's own text if they are refused. Words that name a task are never
/// refused here, and take no memory.
pub fn task_of<'a>(alloc: Global, words: &[&'a str]) -> Result<Task<'a>, Refusal>
    ensures asked { IfOk result (λ task. AsksFor words.now task) }
    ensures refused { IfErr result (λ why. EndsWords why) }
    ensures other { OnErr result (¬ (IsPlain words.now)) }
{
    match plain_task(words) {
        Some(task) => Ok(task),
        None => other_task(alloc, words),
    }
}
