//! Commands: what texts say, and what they make of a document.

ghost use Rattle.std.specs.Prelude.{◌≡◌, ◌≢◌, Err, IfErr, Ok, OnErr, OnOk, option_map, string_bytes};
ghost use Rattle.ordered_json.specs.Read.{read};
ghost use Rattle.ordered_json.specs.View.{view};
ghost use Rattle.ordered_json.specs.declared.edit.EditError.TheVariants.{NoRoom};
ghost use Rattle.json_commands.specs.Commands.{cut, edit, edit_named, edit_of, edit_with, said};
ghost use Rattle.json_commands.specs.Runs.{Says};

use super::stop::Stop;
use ordered_json::{EditError, ReadError, Value, from_str};
use std::alloc::Global;
use std::hash::RandomState;

/// A command, by JSON pointers (RFC 6901).
#[derive(Debug, Drop)]
pub enum Command {
    /// Sets the value at a pointer.
    Set(String, Value),
    /// Removes the value at a pointer.
    Remove(String),
    /// Gives the member at a pointer another name.
    Rename(String, String),
    /// Moves the member at a pointer right behind another one of its object, or else before it.
    Move(String, bool, String),
    /// Applies a merge patch (RFC 7396).
    Merge(Value),
    /// Sorts the members of the object at a pointer, and of all objects in it, by their names.
    Sort(String),
    /// Takes the value at a pointer for the document.
    Get(String),
}

impl Command {
    /// Edits a document, which stays as it is if this returns an error.
    pub fn apply(self, document: &mut Value, alloc: Global) -> Result<(), EditError>
        ensures document { OnOk result (edit self (view document.old) ≡ Ok (view document.new)) }
        ensures why { IfErr result (λ error. error ≢ NoRoom
            → edit self (view document.old) ≡ Err error) }
        ensures unchanged { OnErr result (view document.new ≡ view document.old) }
    {
        match self {
            Command::Set(pointer, value) => match document.set(pointer.as_str(), value, alloc) {
                Ok(()) => Ok(()),
                Err(refused) => Err(refused.error),
            },
            Command::Remove(pointer) => match document.remove(pointer.as_str(), alloc) {
                Ok(_removed) => Ok(()),
                Err(error) => Err(error),
            },
            Command::Rename(pointer, name) => {
                document.rename(pointer.as_str(), name.as_str(), alloc)
            }
            Command::Move(pointer, true, other) => {
                document.move_after(pointer.as_str(), other.as_str(), alloc)
            }
            Command::Move(pointer, false, other) => {
                document.move_before(pointer.as_str(), other.as_str(), alloc)
            }
            Command::Merge(patch) => match document.merge(patch) {
                Ok(()) => Ok(()),
                Err(_refused) => Err(EditError::NoRoom),
            },
            Command::Sort(pointer) => document.sort_keys(pointer.as_str(), alloc),
            Command::Get(pointer) => {
                if document.pointer(pointer.as_str()).is_none() {
                    return Err(EditError::Absent);
                }
                match document.pointer_mut(pointer.as_str()) {
                    Some(target) => {
                        let value = target.take();
                        *document = value;
                        Ok(())
                    }
                    None => Err(EditError::Absent),
                }
            }
        }
    }
}

/// Cuts a text at its first space.
fn cut_word(text: &str) -> Option<(&str, &str)>
    ensures { option_map (λ p. (p.0.now, p.1.now)) result ≡ cut text.now }
{
    text.split_once(' ')
}

/// What reads texts: of commands, by their numbers, and of the input by 0.
#[derive(Clone, Copy)]
pub struct Parser {
    /// The memory of what is read.
    pub alloc: Global,
    /// The hasher of the objects that are read.
    pub hasher: RandomState,
}

impl Parser {
    /// Returns the command that text `number` says.
    pub fn command(&self, number: usize, text: &str) -> Result<Command, Stop>
        ensures { Says number (edit_of text.now) edit result }
    {
        match cut_word(text) {
            Some((name, rest)) => self.named(number, name, rest),
            None => Err(Stop::NoCommand(number)),
        }
    }

    /// Returns the command that a name and what is behind it say.
    fn named(&self, number: usize, name: &str, rest: &str) -> Result<Command, Stop>
        ensures { Says number (edit_named name.now rest.now) edit result }
    {
        if name == "get" {
            return Ok(Command::Get(self.text(number, rest)?));
        }
        if name == "remove" {
            return Ok(Command::Remove(self.text(number, rest)?));
        }
        if name == "sort" {
            return Ok(Command::Sort(self.text(number, rest)?));
        }
        if name == "merge" {
            return Ok(Command::Merge(self.value(number, rest)?));
        }
        match cut_word(rest) {
            Some((word, last)) => self.with(number, name, self.text(number, word)?, last),
            None => Err(Stop::NoCommand(number)),
        }
    }

    /// Returns the command that a name, a pointer and what is behind them say.
    fn with(&self, number: usize, name: &str, pointer: String, last: &str) -> Result<Command, Stop>
        ensures { Says number
            (edit_with name.now (string_bytes pointer) last.now) edit result }
    {
        if name == "set" {
            return Ok(Command::Set(pointer, self.value(number, last)?));
        }
        if name == "rename" {
            return Ok(Command::Rename(pointer, self.text(number, last)?));
        }
        let Some((side, other)) = cut_word(last) else {
            return Err(Stop::NoCommand(number));
        };
        if name == "move" && side == "after" {
            return Ok(Command::Move(pointer, true, self.text(number, other)?));
        }
        if name == "move" && side == "before" {
            return Ok(Command::Move(pointer, false, self.text(number, other)?));
        }
        Err(Stop::NoCommand(number))
    }

    /// Returns the text that a word says: itself, or the string that it is in JSON.
    fn text(&self, number: usize, word: &str) -> Result<String, Stop>
        ensures { Says number (said word.now) string_bytes result }
    {
        if !word.starts_with('"') {
            return Ok(String::from_str(self.alloc, word)?);
        }
        match self.value(number, word)?.as_str() {
            Some(text) => Ok(String::from_str(self.alloc, text)?),
            None => Err(Stop::NoCommand(number)),
        }
    }

    /// Returns the value of a JSON text.
    pub fn value(&self, number: usize, text: &str) -> Result<Value, Stop>
        ensures { Says number (read text.now) view result }
    {
        match from_str(self.alloc, self.hasher, text) {
            Ok(value) => Ok(value),
            Err(ReadError::Invalid { line, column }) => { Err(Stop::NoJson(number, line, column)) }
            Err(ReadError::NoRoom) => Err(Stop::OutOfMemory),
        }
    }
}
