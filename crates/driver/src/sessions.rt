//! Calls of a table of sessions.

use super::call::Call;
use super::list::{Digest, SHOWN, list};
use super::lookups::write_lent;
use super::refusal::Refusal;
use super::retaining::{Calls, keep_and_increase};
use super::stop::Stop;
use super::value::Value;
use linked_hash_map::sessions::{Put, PutRefused, Sessions};
use std::alloc::Global;
use std::cell::Cell;

/// The tables that the lines speak of.
pub type Table = Sessions<Value>;

/// Says which of the two reasons it is, and the payload.
impl Refusal for PutRefused<Value> {
    fn show(&self, call: &Call) {
        call.push_str("refused ");
        call.show(&self.reason);
        call.show_numbered(&self.payload, self.payload.serial());
    }
}

/// Appends a session that went.
fn show_gone(session: &(u64, u64, Value), call: &Call) {
    call.show_session(("", " "), session.0, session.1, &session.2);
}

/// Appends the first session that went, the last and a digest.
fn show_ends(sessions: &[(u64, u64, Value)], call: &Call) {
    if let Some(first) = sessions.first() {
        show_gone(first, call);
    }
    if let Some(last) = sessions.last() {
        show_gone(last, call);
    }
    let mut digest = Digest::default();
    for session in sessions {
        digest.add(&(session.0, session.1, &session.2));
    }
    call.show(&digest.sum);
}

/// Appends the sessions that went in order, or if they are many, the ends.
fn show_all_gone(sessions: &[(u64, u64, Value)], call: &Call) {
    if sessions.len() > SHOWN {
        return show_ends(sessions, call);
    }
    for session in sessions {
        show_gone(session, call);
    }
}

/// Appends what a put returned: the old payload, and those that went.
fn show_put(put: Put<Value>, call: &Call) {
    call.show(&put.old);
    call.push_str("gone ");
    call.show_size(put.gone.len(), put.gone.capacity());
    show_all_gone(put.gone.as_slice(), call);
}

fn put(table: &mut Table, call: &Call) {
    let (id, weight) = (call.number(), call.number());
    match table.put(id, weight, call.value()) {
        Ok(put) => show_put(put, call),
        Err(refused) => call.show_refused(refused),
    }
}

/// The sessions that a put hands out, kept in a vector with room.
#[derive(Drop)]
struct Handed {
    sessions: Cell<Vec<(u64, u64, Value)>>,
    alloc: Global,
}

impl Handed {
    /// Adds one.
    fn add(&self, id: u64, weight: u64, payload: Value) {
        let mut sessions = self.sessions.replace(Vec::new(self.alloc));
        let _ = sessions.push((id, weight, payload));
        self.sessions.set(sessions);
    }

    /// Takes them all.
    fn take(&self) -> Vec<(u64, u64, Value)> {
        self.sessions.replace(Vec::new(self.alloc))
    }
}

/// Puts a session, and hands those that go to a closure.
fn put_into(
    table: &mut Table,
    call: &Call,
    handed: &Handed,
) -> Result<Option<Value>, PutRefused<Value>> {
    let (id, weight) = (call.number(), call.number());
    let payload = call.value();
    let guard = call.guard();
    call.begin();
    let returned = table.put_with(id, weight, payload, move |id, weight, payload| {
        guard.hold();
        handed.add(id, weight, payload);
    });
    call.end();
    returned
}

/// Appends what a put returned: the old payload, and those that were handed out.
fn show_handed(old: Option<Value>, handed: &Handed, call: &Call) {
    call.show(&old);
    call.push_str("handed ");
    let sessions = handed.take();
    show_all_gone(sessions.as_slice(), call);
}

fn put_with(table: &mut Table, call: &Call) {
    call.end();
    let Ok(sessions) = Vec::with_capacity(call.alloc, table.len()) else {
        return call.note(Err::<(), _>(Stop::OutOfMemory));
    };
    let handed = Handed {
        sessions: Cell::new(sessions),
        alloc: call.alloc,
    };
    match put_into(table, call, &handed) {
        Ok(old) => show_handed(old, &handed, call),
        Err(refused) => call.show_refused(refused),
    }
    drop(handed);
}

/// Keeps the payloads that are not a number modulo 7, and adds the number of the call to each.
fn retain(table: &mut Table, call: &Call) {
    let number = call.number();
    let guard = call.guard();
    let calls = Calls::new(call.counts());
    let noted = &calls;
    table.retain(move |_id, _weight, payload| {
        guard.hold();
        keep_and_increase(payload, number, noted.note())
    });
    calls.show(call);
}

/// Puts the ids below a count, each in a window, until one is refused.
fn fill(table: &mut Table, call: &Call) {
    let (count, weight) = (call.number(), call.number());
    for number in 0..count {
        let payload = Value::new(number, call.counts());
        call.begin();
        if !call.is_given(table.put(number, weight, payload)) {
            return call.show_refused_number(number);
        }
    }
    call.show(&count);
}

/// Makes a step for each letter, and appends what each gives and how much is left. Each step is
/// within a window.
fn iterate(table: &Table, steps: &str, call: &Call) {
    let mut sessions = table.iter();
    for _letter in steps.bytes() {
        call.begin();
        call.show(&sessions.next());
        call.show_two(&sessions.size_hint(), &sessions.len());
    }
    call.drop_within(sessions);
}

/// Runs the call of a line, and returns whether there is one.
fn run_call(call: &Call, table: &mut Table) -> bool {
    match call.name() {
        "put" => put(table, call),
        "put_with" => put_with(table, call),
        "touch" => call.show(&table.touch(call.number())),
        "touch_mut" => write_lent(table.touch(call.number()), call.value(), call),
        "remove" => call.show(&table.remove(call.number())),
        "retain" => retain(table, call),
        "reserve" => call.show_refusal(table.reserve(call.size())),
        "capacity" => call.show(&table.capacity()),
        "total" => call.show(&table.total()),
        "limit" => call.show(&table.limit()),
        "len" => call.show(&table.len()),
        "iter" => iterate(table, call.word(), call),
        "fill" => fill(table, call),
        "new" => call.replace(table, Table::new(call.alloc, call.number())),
        "with_capacity" => {
            let (limit, capacity) = (call.number(), call.size());
            call.store(table, Table::with_capacity(call.alloc, limit, capacity));
        }
        "drop" => call.drop_and_replace(table, Table::new(call.alloc, 0)),
        _ => return false,
    }
    true
}

/// Runs the call of a line, appends what it returns, the total and the list, and returns whether
/// there is such a call.
pub fn run(call: &Call, table: &mut Table) -> bool {
    let is_known = run_call(call, table);
    if is_known {
        call.push_str("| ");
        call.show(&table.total());
        call.push_str("|");
        list(table.len(), table.iter(), call);
    }
    is_known
}
