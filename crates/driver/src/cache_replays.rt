//! `replay` of a cache: commands that are read first and run by one call.

use super::caches::Cache;
use super::call::Call;
use super::key::Key;
use super::value::Value;
use lru_cache::replay::{Answer, replay};

/// A command of the words of a line.
type Command = lru_cache::replay::Command<Key, Value>;

/// Reads the next command, which is none if its name is not known.
fn next_command(call: &Call) -> Option<Command> {
    match call.word() {
        "insert" => Some(Command::Insert(call.key(), call.value())),
        "get" => Some(Command::Get(call.key())),
        "remove" => Some(Command::Remove(call.key())),
        "removelru" => Some(Command::RemoveLru),
        "setcapacity" => Some(Command::SetCapacity(call.size())),
        "clear" => Some(Command::Clear),
        _ => None,
    }
}

/// Reads all commands of a line.
fn commands(call: &Call) -> Vec<Command> {
    let mut commands = Vec::new(call.alloc);
    for _ in 0..call.words_left() {
        if let Some(command) = next_command(call) {
            call.note(commands.push(command));
        }
    }
    commands
}

/// Appends how long the list of answers is, and each of them.
fn show_answers(answers: Vec<Answer<Key, Value>>, call: &Call) {
    call.show_size(answers.len(), answers.capacity());
    for answer in answers {
        call.show(&answer);
    }
}

/// Runs the commands of a line.
pub fn replay_all(cache: &mut Cache, call: &Call) {
    call.end();
    let commands = commands(call);
    call.begin();
    let returned = replay(cache, commands);
    call.end();
    match returned {
        Ok(answers) => show_answers(answers, call),
        Err(_commands) => call.push_str("refused "),
    }
}
