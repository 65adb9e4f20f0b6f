//! `replay`: commands that are read first and run by one call.

use super::Map;
use super::call::Call;
use super::key::Key;
use super::list::{SHOWN, list};
use super::order::mode_named;
use super::value::Value;
use linked_hash_map::replay::{Answer, PairList, Reply, replay};

/// A command of the words of a line.
type Command = linked_hash_map::replay::Command<Key, Value>;

/// Reads a number of pairs, and as many of them.
fn list_of_pairs(call: &Call) -> PairList<Key, Value> {
    let mut pairs = Vec::new(call.alloc);
    for _ in 0..call.number() {
        call.note(pairs.push((call.key(), call.value())));
    }
    PairList::from_vec(pairs)
}

/// Reads the next command, which is none if its name is not known.
fn next_command(call: &Call) -> Option<Command> {
    match call.word() {
        "insert" => Some(Command::Insert(call.key(), call.value())),
        "write" => Some(Command::Write(call.key(), call.value())),
        "orinsert" => Some(Command::OrInsert(call.key(), call.value())),
        "entryinsert" => Some(Command::EntryInsert(call.key(), call.value())),
        "refresh" => Some(Command::Refresh(call.key())),
        "remove" => Some(Command::Remove(call.key())),
        "entryremove" => Some(Command::EntryRemove(call.key())),
        "reserve" => Some(Command::Reserve(call.size())),
        "setmode" => Some(Command::SetMode(mode_named(call.word()))),
        "extend" => Some(Command::Extend(list_of_pairs(call))),
        "popfront" => Some(Command::PopFront),
        "popback" => Some(Command::PopBack),
        "clear" => Some(Command::Clear),
        "drain" => Some(Command::Drain),
        "shrink" => Some(Command::Shrink),
        _ => None,
    }
}

/// Reads all commands of a line.
fn commands(call: &Call) -> Vec<Command> {
    let mut commands = Vec::new(call.alloc);
    for _ in 0..call.words_left() {
        if let Some(command) = next_command(call) {
            call.note(commands.push(command));
        }
    }
    commands
}

/// Appends the ends of the list that an answer has, if not all of it is shown, and returns whether
/// that is so.
fn show_ends(answer: &Answer<Key, Value>, call: &Call) -> bool {
    match answer {
        Answer::Pairs(pairs) if pairs.len() > SHOWN => {
            call.push_str("Pairs");
            list(pairs.len(), pairs.as_slice().iter(), call);
            call.push_str(" ");
            true
        }
        _ => false,
    }
}

/// Appends a reply, and of a list that it has the length and the capacity.
fn show_reply(reply: Reply<Key, Value>, call: &Call) {
    if show_ends(&reply.answer, call) {
        call.show_size(reply.len, reply.capacity);
    } else {
        call.show(&reply);
    }
    show_list_size(reply.answer, call);
}

/// Appends the length and the capacity of the list that an answer has.
fn show_list_size(answer: Answer<Key, Value>, call: &Call) {
    match answer {
        Answer::Pairs(list) => {
            let pairs = list.into_vec();
            call.push_str("pairs ");
            call.show_size(pairs.len(), pairs.capacity());
        }
        other => drop(other),
    }
}

/// Runs the commands of a line, and appends how long the list of replies is, and each of them.
pub fn replay_all(call: &Call, map: &mut Map) {
    call.end();
    let commands = commands(call);
    call.begin();
    let returned = replay(map, commands);
    call.end();
    let Ok(replies) = returned else {
        return call.push_str("refused ");
    };
    call.show_size(replies.len(), replies.capacity());
    for reply in replies {
        show_reply(reply, call);
    }
}
