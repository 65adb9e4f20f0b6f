//! The text of replies and of the final list.
ghost use Rattle.std.specs.Prelude.{◌≡◌, ◌++◌, OnOk, string_bytes, flat_map};
ghost use Rattle.lhm_commands.specs.Text.{pair_text, answer_text, reply_text, list_text};

use linked_hash_map::Iter;
use linked_hash_map::replay::{Answer, Reply};
use std::alloc::AllocError;

/// Appends a pair of a list.
fn push_pair(text: &mut String, key: u64, value: u64) -> Result<(), AllocError>
    ensures { OnOk result (string_bytes text.new
        ≡ string_bytes text.old ++ pair_text (key, value)) }
{
    write!(text, " {key}:{value}")
}

/// Appends a list of pairs.
fn push_pairs(text: &mut String, pairs: &[(u64, u64)]) -> Result<(), AllocError>
    ensures { OnOk result
        (string_bytes text.new ≡ string_bytes text.old ++ flat_map pair_text pairs.now) }
{
    for (key, value) in pairs {
        push_pair(text, *key, *value)?;
    }
    Ok(())
}

/// Appends an answer.
fn push_answer(text: &mut String, answer: &Answer<u64, u64>) -> Result<(), AllocError>
    ensures { OnOk result (string_bytes text.new
        ≡ string_bytes text.old ++ answer_text answer.now) }
{
    match answer {
        Answer::New => write!(text, "new"),
        Answer::Old(value) => write!(text, "old {value}"),
        Answer::Found => write!(text, "found"),
        Answer::Missing => write!(text, "missing"),
        Answer::Absent(key, value) => write!(text, "absent {key} {value}"),
        Answer::Refused(key, value) => write!(text, "refused {key} {value}"),
        Answer::Pair(key, value) => write!(text, "pair {key} {value}"),
        Answer::Empty => write!(text, "empty"),
        Answer::Pairs(pairs) => {
            write!(text, "pairs")?;
            push_pairs(text, pairs.as_slice())
        }
        Answer::Stopped(n, key, value) => write!(text, "stopped {n} {key} {value}"),
        Answer::Done => write!(text, "done"),
        Answer::TooLarge => write!(text, "toolarge"),
        Answer::NoRoom => write!(text, "noroom"),
    }
}

/// Appends the line of a reply.
fn push_reply(text: &mut String, reply: &Reply<u64, u64>) -> Result<(), AllocError>
    ensures { OnOk result (string_bytes text.new ≡ string_bytes text.old ++ reply_text reply.now) }
{
    push_answer(text, &reply.answer)?;
    let len = reply.len;
    let capacity = reply.capacity;
    writeln!(text, " len={len} cap={capacity}")
}

/// Appends a line for each reply.
pub fn push_replies(text: &mut String, replies: &[Reply<u64, u64>]) -> Result<(), AllocError>
    ensures { OnOk result
        (string_bytes text.new ≡ string_bytes text.old ++ flat_map reply_text replies.now) }
{
    for reply in replies {
        push_reply(text, reply)?;
    }
    Ok(())
}

/// Appends the line of the final list.
pub fn push_list(text: &mut String, pairs: Iter<'_, u64, u64>) -> Result<(), AllocError>
    ensures { OnOk result (string_bytes text.new ≡ string_bytes text.old ++ list_text pairs.entry) }
{
    write!(text, "list")?;
    for (key, value) in pairs {
        push_pair(text, *key, *value)?;
    }
    writeln!(text)
}
