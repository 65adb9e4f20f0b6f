//! Errors and small types, runs of commands, and a table of sessions.

use super::super::support::checks::{check, check_eq, given};
use super::map::new;
use linked_hash_map::replay::{Answer, Command, PairList, Reply};
use linked_hash_map::sessions::{Put, PutReason, PutRefused, SessionIter, Sessions};
use linked_hash_map::{LinkedHashMap, Mode, NoRoom, Probe, Refused, ReserveError, replay};
use std::alloc::Global;
use std::fmt::Debug;
use std::hash::{BuildHasher, Hash};
use std::process::Abort;

fn refused_parts<K: Drop, V: Drop>(refused: Refused<K, V>) -> (K, V) {
    (refused.key, refused.value)
}

fn probe_parts(probe: Probe) -> (usize, usize) {
    (probe.visited, probe.compared)
}

fn reserve_error_codes() -> (isize, isize) {
    (
        ReserveError::TooLarge as isize,
        ReserveError::NoRoom as isize,
    )
}

fn put_reason_codes() -> (isize, isize) {
    (PutReason::TooHeavy as isize, PutReason::NoRoom as isize)
}

/// Checks what a type derives that can be compared and shown.
fn assert_shown<T: Debug + PartialEq>(rt: &impl Abort, alloc: Global, value: &T, text: &str) {
    check!(rt; value == value);
    check_eq!(rt; given!(rt; format!(in alloc; "{value:?}")).as_str(), text);
}

/// Twice a value that can be copied.
fn copies<T: Copy>(value: T) -> (T, T) {
    (value, value)
}

/// Ends a value that can be dropped.
fn drop_value<T: Drop>(value: T) {
    drop(value)
}

/// Uses the errors and the small types.
pub fn use_types(rt: &impl Abort, alloc: Global) {
    check_eq!(rt; (reserve_error_codes(), put_reason_codes()), ((1, 2), (1, 2)));
    let (probe, same) = copies(Probe {
        visited: 2,
        compared: 1,
    });
    check_eq!(rt; (probe_parts(probe), probe_parts(same)), ((2, 1), (2, 1)));
    check_eq!(rt; copies(Mode::Keep), (Mode::Keep, Mode::Keep));
    check_eq!(rt; refused_parts(Refused { key: 1, value: 2 }), (1, 2));
    drop_value(NoRoom);
    drop_value(ReserveError::TooLarge);
    drop_value(Refused { key: 1, value: 2 });
    show_types(rt, alloc, probe);
    show_runs(rt, alloc);
    show_sessions(rt, alloc);
}

/// Compares and shows a value of each type of the map that derives both.
fn show_types(rt: &impl Abort, alloc: Global, probe: Probe) {
    assert_shown(rt, alloc, &probe, "Probe { visited: 2, compared: 1 }");
    assert_shown(rt, alloc, &Mode::Touch, "Touch");
    assert_shown(rt, alloc, &ReserveError::TooLarge, "TooLarge");
    assert_shown(rt, alloc, &NoRoom, "NoRoom");
    let refused = Refused { key: 1, value: 2 };
    assert_shown(rt, alloc, &refused, "Refused { key: 1, value: 2 }");
}

/// Does so with the types of runs.
fn show_runs(rt: &impl Abort, alloc: Global) {
    let command: Command<u64, u64> = Command::Insert(1, 2);
    assert_shown(rt, alloc, &command, "Insert(1, 2)");
    let answer: Answer<u64, u64> = Answer::Old(2);
    assert_shown(rt, alloc, &answer, "Old(2)");
    let reply = Reply {
        answer,
        len: 1,
        capacity: 3,
    };
    assert_shown(
        rt,
        alloc,
        &reply,
        "Reply { answer: Old(2), len: 1, capacity: 3 }",
    );
}

/// Does so with the types of tables of sessions.
fn show_sessions(rt: &impl Abort, alloc: Global) {
    assert_shown(rt, alloc, &PutReason::TooHeavy, "TooHeavy");
    let refused = PutRefused {
        reason: PutReason::NoRoom,
        payload: 7,
    };
    assert_shown(
        rt,
        alloc,
        &refused,
        "PutRefused { reason: NoRoom, payload: 7 }",
    );
    let put = Put {
        old: Some(7),
        gone: Vec::new(alloc),
    };
    assert_shown(rt, alloc, &put, "Put { old: Some(7), gone: [] }");
}

/// A command of each kind.
fn commands(rt: &impl Abort, alloc: Global) -> Vec<Command<u64, u64>> {
    let pairs: Vec<(u64, u64)> = Vec::new(alloc);
    let commands: [Command<u64, u64>; 15] = [
        Command::Insert(1, 1),
        Command::Write(1, 1),
        Command::Refresh(1),
        Command::Remove(1),
        Command::PopFront,
        Command::PopBack,
        Command::Clear,
        Command::Drain,
        Command::Extend(PairList::from_vec(pairs)),
        Command::OrInsert(1, 1),
        Command::EntryInsert(1, 1),
        Command::EntryRemove(1),
        Command::Reserve(1),
        Command::Shrink,
        Command::SetMode(Mode::Keep),
    ];
    given!(rt; Vec::from_array(alloc, commands))
}

/// What the variant of an answer carries.
fn answer_parts<K: Drop, V: Drop>(
    answer: Answer<K, V>,
) -> (Option<usize>, Option<K>, Option<V>, Option<Vec<(K, V)>>) {
    match answer {
        Answer::Old(v) => (None, None, Some(v), None),
        Answer::Absent(k, v) => (None, Some(k), Some(v), None),
        Answer::Refused(k, v) => (None, Some(k), Some(v), None),
        Answer::Pair(k, v) => (None, Some(k), Some(v), None),
        Answer::Pairs(list) => (None, None, None, Some(list.into_vec())),
        Answer::Stopped(n, k, v) => (Some(n), Some(k), Some(v), None),
        Answer::New
        | Answer::Found
        | Answer::Missing
        | Answer::Empty
        | Answer::Done
        | Answer::TooLarge
        | Answer::NoRoom => (None, None, None, None),
    }
}

fn reply_parts<K: Drop, V: Drop>(reply: Reply<K, V>) -> (Answer<K, V>, usize, usize) {
    (reply.answer, reply.len, reply.capacity)
}

fn replay_all<K: Eq + Hash + Drop, V: Drop, S: BuildHasher>(
    map: &mut LinkedHashMap<K, V, S>,
    commands: Vec<Command<K, V>>,
) -> Result<Vec<Reply<K, V>>, Vec<Command<K, V>>> {
    replay::replay(map, commands)
}

/// Runs a command of each kind.
pub fn run_commands(rt: &impl Abort, alloc: Global) {
    let mut map: LinkedHashMap<u64, u64> = new(alloc);
    let mut replies = given!(rt; replay_all(&mut map, commands(rt, alloc)));
    check_eq!(rt; replies.len(), 15);
    let last = given!(rt; replies.pop().ok_or("no reply"));
    check_eq!(rt; reply_parts(last), (Answer::Done, 0, 0));
    let stopped = answer_parts(Answer::Stopped(2, 3, 4));
    check_eq!(rt; stopped, (Some(2), Some(3), Some(4), None));
}

fn sessions_new<T>(alloc: Global, limit: u64) -> Sessions<T> {
    Sessions::new(alloc, limit)
}

fn sessions_put<T: Drop>(
    sessions: &mut Sessions<T>,
    id: u64,
    weight: u64,
    payload: T,
) -> Result<Put<T>, PutRefused<T>> {
    sessions.put(id, weight, payload)
}

fn sessions_touch<T>(sessions: &mut Sessions<T>, id: u64) -> Option<&mut T> {
    sessions.touch(id)
}

fn sessions_remove<T>(sessions: &mut Sessions<T>, id: u64) -> Option<T> {
    sessions.remove(id)
}

fn sessions_total<T>(sessions: &Sessions<T>) -> u64 {
    sessions.total()
}

fn sessions_len<T>(sessions: &Sessions<T>) -> usize {
    sessions.len()
}

fn sessions_iter<T>(sessions: &Sessions<T>) -> SessionIter<'_, T> {
    sessions.iter()
}

fn session_iter_next<'a, T>(iter: &mut SessionIter<'a, T>) -> Option<(u64, u64, &'a T)> {
    iter.next()
}

fn put_parts<T: Drop>(put: Put<T>) -> (Option<T>, Vec<(u64, u64, T)>) {
    (put.old, put.gone)
}

fn put_refused_parts<T: Drop>(refused: PutRefused<T>) -> (PutReason, T) {
    (refused.reason, refused.payload)
}

/// Calls a table of sessions.
pub fn keep_sessions(rt: &impl Abort, alloc: Global) {
    let mut sessions = sessions_new(alloc, 5);
    let put = given!(rt; sessions_put(&mut sessions, 1, 2, 7));
    check_eq!(rt; put_parts(put), (None, Vec::new(alloc)));
    check_eq!(rt; sessions_touch(&mut sessions, 1).copied(), Some(7));
    check_eq!(rt; (sessions_total(&sessions), sessions_len(&sessions)), (2, 1));
    check_eq!(rt; session_iter_next(&mut sessions_iter(&sessions)), Some((1, 2, &7)));
    check_eq!(rt; sessions_remove(&mut sessions, 1), Some(7));
    let refused = sessions_put(&mut sessions, 1, 6, 8).map_err(put_refused_parts);
    check!(rt; refused == Err((PutReason::TooHeavy, 8)));
}
