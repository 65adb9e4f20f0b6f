//! Commands from the words of lines.
ghost use Rattle.std.specs.Prelude.{ℕ, ◌≡◌, ◌≢◌, ◌∷◌, List, [], IfSome, IfNone, IfOk, IfErr, OnOk, OnErr, IsErrOf, MatchOption};
ghost use Rattle.lhm_commands.specs.Grammar.{words_of, lines_of, SpellsNumber};
ghost use Rattle.lhm_commands.specs.Commands.{SpellNumbers, StartWithNumber, name_text, mode_text, command_name, numbers_of, SayRest, IsSaidBy, AreCommandsOf, IsInvalid};
ghost use Rattle.lhm_commands.specs.Stop.{StopsLines};

use super::grammar::{number, split_line, split_word};
use super::stop::Stop;
use linked_hash_map::Mode;
use linked_hash_map::replay::{Command, PairList};
use std::alloc::{AllocFailed, Global};

/// The error of words that say no command.
#[derive(Clone, Copy, Debug, PartialEq)]
struct NotACommand;

/// Why a line gives no command.
#[derive(Clone, Copy, Debug, PartialEq)]
enum LineError {
    /// Its words say no command.
    NotACommand,
    /// Memory was refused for its pairs.
    OutOfMemory,
}

impl From<NotACommand> for LineError {
    ghost use Rattle.lhm_commands.specs.declared.parser.LineError.{LineError};

    ghost from_gives = { λ _ error. error ≡ LineError.NotACommand };

    fn from(_error: NotACommand) -> LineError {
        LineError::NotACommand
    }
}

impl<T: Drop> From<AllocFailed<T>> for LineError {
    ghost use Rattle.lhm_commands.specs.declared.parser.LineError.{LineError};

    ghost from_gives = { λ _ error. error ≡ LineError.OutOfMemory };

    fn from(_error: AllocFailed<T>) -> LineError {
        LineError::OutOfMemory
    }
}

/// Checks that there is no word.
fn no_number(rest: &[u8]) -> Result<(), NotACommand>
    ensures ok { OnOk result (SpellNumbers (words_of rest.now) []) }
    ensures err { OnErr result (¬ SpellNumbers (words_of rest.now) []) }
{
    match split_word(rest) {
        None => Ok(()),
        Some(_) => Err(NotACommand),
    }
}

/// Returns the number that a word is.
fn parse_number(word: &[u8]) -> Result<u64, NotACommand>
    ensures ok { IfOk result (λ n. SpellsNumber word.now n) }
    ensures err { OnErr result ((n : ℕ) → ¬ SpellsNumber word.now n) }
{
    match number(word) {
        Some(n) => Ok(n),
        None => Err(NotACommand),
    }
}

/// Splits off the first word, which has to be a number.
fn split_number(rest: &[u8]) -> Result<(u64, &[u8]), NotACommand>
    ensures ok { IfOk result (λ parts.
        StartWithNumber (words_of rest.now) parts.0 (words_of parts.1.now)) }
    ensures err { OnErr result ((n : ℕ) (others : List (List ℕ))
        → ¬ StartWithNumber (words_of rest.now) n others) }
{
    let Some((word, after)) = split_word(rest) else {
        return Err(NotACommand);
    };
    Ok((parse_number(word)?, after))
}

/// Returns the number that the only word is.
fn one_number(rest: &[u8]) -> Result<u64, NotACommand>
    ensures ok { IfOk result (λ n. SpellNumbers (words_of rest.now) (n ∷ [])) }
    ensures err { OnErr result ((n : ℕ) → ¬ SpellNumbers (words_of rest.now) (n ∷ [])) }
{
    let (n, after) = split_number(rest)?;
    no_number(after)?;
    Ok(n)
}

/// Returns the numbers that the only two words are.
fn two_numbers(rest: &[u8]) -> Result<(u64, u64), NotACommand>
    ensures ok { IfOk result (λ pair. SpellNumbers (words_of rest.now) (pair.0 ∷ pair.1 ∷ [])) }
    ensures err { OnErr result ((k v : ℕ) → ¬ SpellNumbers (words_of rest.now) (k ∷ v ∷ [])) }
{
    let (k, after) = split_number(rest)?;
    let v = one_number(after)?;
    Ok((k, v))
}

/// Returns the pairs that the words are, two numbers each.
fn pairs(alloc: Global, rest: &[u8]) -> Result<Vec<(u64, u64)>, LineError>
    ensures ok { IfOk result (λ pairs. SpellNumbers (words_of rest.now) (numbers_of pairs.items)) }
    ensures err { IsErrOf result LineError.NotACommand
        → (pairs : List (ℕ × ℕ)) → ¬ SpellNumbers (words_of rest.now) (numbers_of pairs) }
{
    let mut pairs = Vec::new(alloc);
    let mut rest = rest;
    while let Some((word, after)) = split_word(rest) {
        let k = parse_number(word)?;
        let (v, after) = split_number(after)?;
        pairs.push((k, v))?;
        rest = after;
    }
    Ok(pairs)
}

/// Returns the mode that a word is.
fn mode_of(word: &[u8]) -> Option<Mode>
    ensures known { IfSome result (λ mode. word.now ≡ mode_text mode) }
    ensures unknown { IfNone result ((mode : Mode) → word.now ≢ mode_text mode) }
{
    match word {
        b"touch" => Some(Mode::Touch),
        b"keep" => Some(Mode::Keep),
        _ => None,
    }
}

/// Returns the mode that the only word is.
fn mode(rest: &[u8]) -> Result<Mode, NotACommand>
    ensures ok { IfOk result (λ mode. words_of rest.now ≡ mode_text mode ∷ []) }
    ensures err { OnErr result ((mode : Mode) → words_of rest.now ≢ mode_text mode ∷ []) }
{
    let Some((word, after)) = split_word(rest) else {
        return Err(NotACommand);
    };
    no_number(after)?;
    match mode_of(word) {
        Some(mode) => Ok(mode),
        None => Err(NotACommand),
    }
}

/// The name of a command.
#[derive(Clone, Copy)]
enum Name {
    Insert,
    Write,
    Refresh,
    Remove,
    PopFront,
    PopBack,
    Clear,
    Drain,
    Extend,
    OrInsert,
    EntryInsert,
    EntryRemove,
    Reserve,
    Shrink,
    SetMode,
}

/// Returns the name that a word is.
fn name_of(word: &[u8]) -> Option<Name>
    ensures known { IfSome result (λ name. word.now ≡ name_text name) }
    ensures unknown { IfNone result ((name : Name) → word.now ≢ name_text name) }
{
    match word {
        b"insert" => Some(Name::Insert),
        b"write" => Some(Name::Write),
        b"refresh" => Some(Name::Refresh),
        b"remove" => Some(Name::Remove),
        b"popfront" => Some(Name::PopFront),
        b"popback" => Some(Name::PopBack),
        b"clear" => Some(Name::Clear),
        b"drain" => Some(Name::Drain),
        b"extend" => Some(Name::Extend),
        b"orinsert" => Some(Name::OrInsert),
        b"eput" => Some(Name::EntryInsert),
        b"eremove" => Some(Name::EntryRemove),
        b"reserve" => Some(Name::Reserve),
        b"shrink" => Some(Name::Shrink),
        b"mode" => Some(Name::SetMode),
        _ => None,
    }
}

/// Returns the command, after which there has to be no word.
fn without_number(command: Command<u64, u64>, rest: &[u8]) -> Result<Command<u64, u64>, NotACommand>
    ensures command { IfOk result (λ same. same ≡ command) }
    ensures ok { OnOk result (SpellNumbers (words_of rest.now) []) }
    ensures err { OnErr result (¬ SpellNumbers (words_of rest.now) []) }
{
    no_number(rest)?;
    Ok(command)
}

/// Returns the command of a name that the words after it say.
fn named(alloc: Global, name: Name, rest: &[u8]) -> Result<Command<u64, u64>, LineError>
    ensures name { IfOk result (λ command. command_name command ≡ name) }
    ensures rest { IfOk result (λ command. SayRest command (words_of rest.now)) }
    ensures err { IsErrOf result LineError.NotACommand
        → ((command : Command ℕ ℕ) → command_name command ≡ name
        → ¬ SayRest command (words_of rest.now)) }
{
    match name {
        Name::Insert => {
            let (k, v) = two_numbers(rest)?;
            Ok(Command::Insert(k, v))
        }
        Name::Write => {
            let (k, v) = two_numbers(rest)?;
            Ok(Command::Write(k, v))
        }
        Name::Refresh => Ok(Command::Refresh(one_number(rest)?)),
        Name::Remove => Ok(Command::Remove(one_number(rest)?)),
        Name::PopFront => Ok(without_number(Command::PopFront, rest)?),
        Name::PopBack => Ok(without_number(Command::PopBack, rest)?),
        Name::Clear => Ok(without_number(Command::Clear, rest)?),
        Name::Drain => Ok(without_number(Command::Drain, rest)?),
        Name::Extend => Ok(Command::Extend(PairList::from(pairs(alloc, rest)?))),
        Name::OrInsert => {
            let (k, v) = two_numbers(rest)?;
            Ok(Command::OrInsert(k, v))
        }
        Name::EntryInsert => {
            let (k, v) = two_numbers(rest)?;
            Ok(Command::EntryInsert(k, v))
        }
        Name::EntryRemove => Ok(Command::EntryRemove(one_number(rest)?)),
        Name::Reserve => Ok(Command::Reserve(one_number(rest)? as usize)),
        Name::Shrink => Ok(without_number(Command::Shrink, rest)?),
        Name::SetMode => Ok(Command::SetMode(mode(rest)?)),
    }
}

/// Returns the command that a line says, or `None` if the line is blank.
fn command(alloc: Global, line: &[u8]) -> Result<Option<Command<u64, u64>>, LineError>
    ensures ok { IfOk result (λ found. MatchOption found (words_of line.now ≡ [])
        (λ command. IsSaidBy command (words_of line.now))) }
    ensures err { IsErrOf result LineError.NotACommand → IsInvalid line.now }
{
    let Some((word, rest)) = split_word(line) else {
        return Ok(None);
    };
    match name_of(word) {
        Some(name) => Ok(Some(named(alloc, name, rest)?)),
        None => Err(LineError::NotACommand),
    }
}

/// Returns the commands of all lines in order, or the number of the first line that has words and
/// is no command.
///
/// Lines are counted from 1, and blank lines count. Memory can be refused before that line is
/// found.
pub fn commands(alloc: Global, bytes: &[u8]) -> Result<Vec<Command<u64, u64>>, Stop>
    ensures ok { IfOk result (λ commands. AreCommandsOf (lines_of bytes.now) commands.items) }
    ensures err { IfErr result (StopsLines (lines_of bytes.now)) }
{
    let mut commands = Vec::new(alloc);
    let mut rest = bytes;
    let mut line_number = 0;
    while !rest.is_empty() {
        let (line, after) = split_line(rest);
        line_number += 1;
        match command(alloc, line) {
            Ok(None) => {}
            Ok(Some(command)) => commands.push(command)?,
            Err(LineError::NotACommand) => return Err(Stop::NotACommand(line_number)),
            Err(LineError::OutOfMemory) => return Err(Stop::OutOfMemory),
        }
        rest = after;
    }
    Ok(commands)
}
