//! What the words after a command say by their options, and what they say apart from them.
ghost use Rattle.std.specs.Prelude.{◌≡◌, [], ◌||◌, get_or, map, false};
ghost use Rattle.std.specs.Option.{option_map};
ghost use Rattle.mst_arguments.specs.declared.task.Subcommand.TheVariants.{Run};
ghost use Rattle.mst_arguments.specs.Options.{are_words as are_all, are_words_of as are_all_of, cut as cut_at, first as first_of, format_named as named_by, format_of as named, format_or as named_or, has_switch as switch_in, is_flag as has_dash, is_new_option as is_named_first, is_new_switch as is_switched_first, is_option as is_named, is_switch as is_switched, kind_named as kind_by, joined as joined_to, name_of as name_at, operand_count as count_of, operands, significant as zeroless, value_of as value_behind, without_plus as plusless};

use crate::task::Subcommand;
use mst_key::Format;
use mst_report::ProofKind;

// A numeral without a plus that begins it.
fn without_plus(numeral: &[u8]) -> &[u8]
    ensures { result.now ≡ plusless numeral.now }
{
    match numeral {
        [b'+', digits @ ..] => digits,
        _ => numeral,
    }
}

// Digits without the zeros that begin them. Calls nest no deeper than one word has digits.
fn significant(digits: &[u8]) -> &[u8]
    ensures { result.now ≡ zeroless digits.now }
{
    match digits {
        [b'0', others @ ..] => significant(others),
        _ => digits,
    }
}

// The format whose number the word spells: `01` and `+1` are 1.
fn format_of(word: &[u8]) -> Option<Format>
    ensures { result ≡ named word.now }
{
    let digits = significant(without_plus(word));
    if digits == b"1".as_slice() {
        return Some(Format::One);
    }
    if digits == b"2".as_slice() {
        return Some(Format::Two);
    }
    None
}

// The format that is named, 1 if none is.
fn format_or(word: Option<&str>) -> Option<Format>
    ensures { result ≡ named_or (option_map (λ w. w.now) word.entry) }
{
    match word {
        Some(word) => format_of(word.as_bytes()),
        None => Some(Format::One),
    }
}

/// The format that words name by `--format`: 1 if they name none, and `None` if its value is
/// neither 1 nor 2.
pub fn format_named(words: &[&str]) -> Option<Format>
    ensures { result ≡ named_by words.now }
{
    format_or(value_of("--format", words))
}

// The word cut at its first `=`, if it has one.
fn cut(word: &str) -> Option<(&str, &str)>
    ensures { option_map (λ parts. (parts.0.now, parts.1.now)) result ≡ cut_at word.now }
{
    word.split_once('=')
}

// The option that the word names, alone or in front of `=`.
fn name_of(word: &str) -> &str
    ensures { result.now ≡ name_at word.now }
{
    match cut(word) {
        Some((name, _)) => name,
        None => word,
    }
}

// The value, if the word is the option with `=` and a value.
fn joined<'a>(option: &str, word: &'a str) -> Option<&'a str>
    ensures { option_map (λ w. w.now) result ≡ joined_to option.now word.entry.now }
{
    match cut(word) {
        Some((name, value)) if name == option => Some(value),
        _ => None,
    }
}

// The first word, if there is one.
fn first<'a>(words: &[&'a str]) -> Option<&'a str>
    ensures { option_map (λ w. w.now) result ≡ first_of words.now }
{
    match words {
        [word, ..] => Some(word),
        [] => None,
    }
}

/// The value of the option: the word after it, or what follows `=` in its own, in front of a `--`.
/// Calls nest no deeper than a command line has words.
pub fn value_of<'a>(option: &str, words: &[&'a str]) -> Option<&'a str>
    ensures { option_map (λ w. w.now) result ≡ value_behind option.now words.now }
{
    let [word, others @ ..] = words else {
        return None;
    };
    if *word == "--" {
        return None;
    }
    if *word == option {
        return first(others);
    }
    match joined(option, word) {
        Some(value) => Some(value),
        None => value_of(option, others),
    }
}

// Whether the switch is a word in front of a `--`. Calls nest no deeper than a command line has
// words.
fn has_switch(switch: &str, words: &[&str]) -> bool
    ensures { result ≡ switch_in switch.now words.now }
{
    let [word, others @ ..] = words else {
        return false;
    };
    if *word == "--" {
        return false;
    }
    *word == switch || has_switch(switch, others)
}

/// The kind of a proof that words name: of a sharded map with `--sharded`, otherwise of one tree.
pub fn kind_named(words: &[&str]) -> ProofKind
    ensures { result ≡ kind_by words.now }
{
    if has_switch("--sharded", words) {
        ProofKind::Sharded
    } else {
        ProofKind::Plain
    }
}

// The word at this place, or none.
fn word_at<'a>(words: &[&'a str], place: usize) -> &'a str
    ensures { result.now ≡ get_or (map (λ w. w.now) words.now) place [] }
{
    match words.get(place) {
        Some(word) => word,
        None => "",
    }
}

/// The operand at this place, or none: a word that is no `--sharded`, no `--format F` and no
/// `--format=F`, or any after a `--`. If `is_value`, the first word is the F of an option. Calls
/// nest no deeper than a command line has words.
pub fn operand<'a>(words: &[&'a str], is_value: bool, place: usize) -> &'a str
    ensures { result.now ≡ get_or (operands is_value words.now) place [] }
{
    let [word, others @ ..] = words else {
        return "";
    };
    if is_value {
        return operand(others, false, place);
    }
    if *word == "--" {
        return word_at(others, place);
    }
    if *word == "--format" {
        return operand(others, true, place);
    }
    if *word == "--sharded" {
        return operand(others, false, place);
    }
    match joined("--format", word) {
        Some(_) => operand(others, false, place),
        None if place == 0 => word,
        None => operand(others, false, place - 1),
    }
}

// Whether a script has this option.
fn is_script_option(name: &str) -> bool
    ensures { result ≡ is_named Run name.now }
{
    name == "--rows" || name == "--passes" || name == "--format" || name == "--splits"
}

// Whether the command has this option.
fn is_option(command: Subcommand, name: &str) -> bool
    ensures { result ≡ is_named command name.now }
{
    match command {
        Subcommand::Run => is_script_option(name),
        Subcommand::Verify => name == "--format",
        Subcommand::Replay => false,
        Subcommand::Load => name == "--readers" || name == "--writers" || name == "--calls",
    }
}

// Whether the word is a switch of the command.
fn is_switch(command: Subcommand, word: &str) -> bool
    ensures { result ≡ is_switched command word.now }
{
    match command {
        Subcommand::Verify => word == "--sharded",
        _ => false,
    }
}

// How many operands the command has.
fn operand_count(command: Subcommand) -> usize
    ensures { result ≡ count_of command }
{
    match command {
        Subcommand::Verify => 2,
        _ => 0,
    }
}

// Whether the word is a dash and more: neither an operand nor the value of an option.
fn is_flag(word: &str) -> bool
    ensures { result ≡ has_dash word.now }
{
    match word.as_bytes() {
        [first, _, ..] => *first == b'-',
        _ => false,
    }
}

// Whether a name is that of an option of the command, which these words do not give again.
fn is_new_option(command: Subcommand, name: &str, words: &[&str]) -> bool
    ensures { result ≡ is_named_first command name.now words.now }
{
    is_option(command, name) && value_of(name, words).is_none()
}

// Whether a word is a switch of the command, which these words do not give again.
fn is_new_switch(command: Subcommand, word: &str, words: &[&str]) -> bool
    ensures { result ≡ is_switched_first command word.now words.now }
{
    is_switch(command, word) && !has_switch(word, words)
}

// Whether the words are switches and options of the command, each of them once and an option with
// its value, and `count` operands. If `is_value`, the first word is the value of an option. Calls
// nest no deeper than a command line has words.
fn are_words(command: Subcommand, is_value: bool, count: usize, words: &[&str]) -> bool
    ensures { result ≡ are_all command is_value count words.now }
{
    let [word, others @ ..] = words else {
        return !is_value && count == 0;
    };
    if is_value {
        return !is_flag(word) && are_words(command, false, count, others);
    }
    if *word == "--" {
        return others.len() == count;
    }
    if is_switch(command, word) {
        return is_new_switch(command, word, others) && are_words(command, false, count, others);
    }
    if is_flag(word) {
        return is_new_option(command, name_of(word), others)
            && are_words(command, cut(word).is_none(), count, others);
    }
    count > 0 && are_words(command, false, count - 1, others)
}

/// Whether the words after a command are what it takes: its options and switches, each of them at
/// most once, and its operands, after a `--` operands alone.
pub fn are_words_of(command: Subcommand, words: &[&str]) -> bool
    ensures { result ≡ are_all_of command words.now }
{
    are_words(command, false, operand_count(command), words)
}
