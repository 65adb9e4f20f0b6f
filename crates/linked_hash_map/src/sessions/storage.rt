//! How the sessions of a table are stored. No function here drops a payload.
ghost use Rattle.std.specs.Prelude.{◌≡◌, ◌+◌, ◌<◌, ◌≤◌, length, take, drop, nat_eq, not, is_some, max, None, option_map, IsTrue, IsFalse, OnOk, OnErr};
ghost use Rattle.std.specs.List.{FoldsTo};
ghost use Rattle.linked_hash_map.specs.Pairs as pairs;
ghost use Rattle.linked_hash_map.specs.SessionHandOuts.{CalledWithSession, CallableWithEachSession};
ghost use Rattle.linked_hash_map.specs.SessionPuts.{AreLeaving};
ghost use Rattle.linked_hash_map.specs.SessionTables.{session_of, payload_of, total_weight, without, with_last};
ghost use Rattle.linked_hash_map.specs.Validity.{IsValid};
ghost use Rattle.linked_hash_map.specs.SessionsKept.{sessions_of};
ghost use Rattle.linked_hash_map.specs.declared.map.Mode.TheVariants.{Touch};

use crate::error::NoRoom;
use crate::map::LinkedHashMap;

/// The weight and the payload of an id.
#[derive(Drop)]
pub(super) struct Weighted<T> {
    pub(super) weight: u64,
    pub(super) payload: T,
}

/// How many sessions have to go, and what the others weigh.
#[derive(Drop)]
pub(super) struct Leaving {
    pub(super) count: usize,
    pub(super) staying: u64,
}

/// Whether the id of a put is new, how many sessions go, and what the others weigh.
#[derive(Drop)]
pub(super) struct PutPlan {
    pub(super) is_new: bool,
    pub(super) count: usize,
    pub(super) staying: u64,
}

/// Returns the weight of the session of an id, if any.
pub(super) fn weight_at<T>(map: &LinkedHashMap<u64, Weighted<T>>, id: u64) -> Option<u64>
    ensures { result ≡ option_map (λ session. session.1)
        (session_of (sessions_of map.now.pairs) id) }
{
    match map.get(&id) {
        Some(weighted) => Some(weighted.weight),
        None => None,
    }
}

/// Returns which sessions to remove so that all but that of the id, which weigh `others`, weigh at
/// most `weight_left`.
pub(super) fn find_leaving<T>(
    map: &LinkedHashMap<u64, Weighted<T>>,
    id: u64,
    others: u64,
    weight_left: u64,
) -> Leaving
    requires { others ≡ total_weight (without (sessions_of map.now.pairs) id) }
    ensures { AreLeaving (sessions_of map.now.pairs) id weight_left result.count result.staying }
{
    let mut count = 0;
    let mut staying = others;
    for (other, weighted) in map.iter() {
        if staying <= weight_left {
            return Leaving { count, staying };
        }
        if id != *other {
            staying -= weighted.weight;
            count += 1;
        }
    }
    Leaving { count, staying }
}

/// Returns the sum of the weights of all sessions, in O(n).
pub(super) fn total_of<T>(map: &LinkedHashMap<u64, Weighted<T>>) -> u64
    requires { total_weight (sessions_of map.now.pairs) ≤ u64.MAX }
    ensures { result ≡ total_weight (sessions_of map.now.pairs) }
{
    let mut total = 0;
    for (_id, weighted) in map.iter() {
        total += weighted.weight;
    }
    total
}

/// Makes room for one more session if its id is new and none goes.
pub(super) fn make_room<T>(
    map: &mut LinkedHashMap<u64, Weighted<T>>,
    is_new: bool,
    count: usize,
) -> Result<(), NoRoom>
    requires { IsValid nat_eq map.old }
    ensures pairs { map.new.pairs ≡ map.old.pairs }
    ensures mode { map.new.mode ≡ map.old.mode }
    ensures stays_valid { IsValid nat_eq map.new }
    ensures raised { OnOk result (count ≡ 0 → IsTrue is_new
        → map.new.capacity ≡ max map.old.capacity (length map.old.pairs + 1)) }
    ensures same_room { OnOk result ((count ≡ 0 → IsFalse is_new)
        → map.new.capacity ≡ map.old.capacity) }

    ensures unchanged { OnErr result (map.new ≡ map.old) }
    ensures none { OnErr result (count ≡ 0) }
    ensures new { OnErr result (IsTrue is_new) }
    ensures full { OnErr result (length map.old.pairs ≡ map.old.capacity) }
{
    if count > 0 || !is_new {
        return Ok(());
    }
    match map.reserve(1) {
        Ok(()) => Ok(()),
        Err(_error) => Err(NoRoom),
    }
}

/// Puts a session at the back and hands some from the front to a closure. Returns the payload that
/// the id had.
pub(super) fn store<T, F: FnMut(u64, u64, T)>(
    map: &mut LinkedHashMap<u64, Weighted<T>>,
    session: (u64, u64, T),
    is_new: bool,
    count: usize,
    gone: &mut F,
) -> Option<T>
    requires valid { IsValid nat_eq map.old }
    requires mode { map.old.mode ≡ Touch }
    requires present { is_some (session_of (sessions_of map.old.pairs) session.0) ≡ not is_new }
    requires enough { count ≤ length (without (sessions_of map.old.pairs) session.0) }
    requires room { count ≡ 0 → IsTrue is_new → length map.old.pairs < map.old.capacity }
    requires callable { CallableWithEachSession F.FnMut gone.old (take count
        (with_last (sessions_of map.old.pairs) session.0 session.1 session.2)) }
    ensures sessions { sessions_of map.new.pairs
        ≡ drop count (with_last (sessions_of map.old.pairs) session.0 session.1 session.2) }
    ensures gone { FoldsTo (CalledWithSession F.FnMut) gone.old (take count
        (with_last (sessions_of map.old.pairs) session.0 session.1 session.2)) gone.new }
    ensures old { result ≡ payload_of (sessions_of map.old.pairs) session.0 }
    ensures capacity { map.new.capacity ≡ map.old.capacity }
    ensures mode { map.new.mode ≡ Touch }
    ensures stays_valid { IsValid nat_eq map.new }
{
    let (id, weight, payload) = session;
    if is_new {
        remove_oldest(map, count, gone);
        return insert_newest(map, id, weight, payload);
    }
    let old = insert_newest(map, id, weight, payload);
    remove_oldest(map, count, gone);
    old
}

/// Removes sessions from the front and hands each to a closure.
pub(super) fn remove_oldest<T, F: FnMut(u64, u64, T)>(
    map: &mut LinkedHashMap<u64, Weighted<T>>,
    count: usize,
    gone: &mut F,
)
    requires valid { IsValid nat_eq map.old }
    requires enough { count ≤ length map.old.pairs }
    requires callable { CallableWithEachSession F.FnMut gone.old (take count
        (sessions_of map.old.pairs)) }
    ensures pairs { map.new.pairs ≡ drop count map.old.pairs }
    ensures gone { FoldsTo (CalledWithSession F.FnMut) gone.old (take count
        (sessions_of map.old.pairs)) gone.new }
    ensures capacity { map.new.capacity ≡ map.old.capacity }
    ensures mode { map.new.mode ≡ map.old.mode }
    ensures stays_valid { IsValid nat_eq map.new }
{
    for _ in 0..count {
        let Some((id, weighted)) = map.pop_front() else {
            unreachable!()
        };
        gone(id, weighted.weight, weighted.payload);
    }
}

/// Puts a session at the back in place of that with its id, whose payload it returns. It does not
/// allocate.
pub(super) fn insert_newest<T>(
    map: &mut LinkedHashMap<u64, Weighted<T>>,
    id: u64,
    weight: u64,
    payload: T,
) -> Option<T>
    requires mode { map.old.mode ≡ Touch }
    requires room { pairs.find nat_eq map.old.pairs id ≡ None
        → length map.old.pairs < map.old.capacity }
    ensures sessions { sessions_of map.new.pairs
        ≡ with_last (sessions_of map.old.pairs) id weight payload }
    ensures old { result ≡ payload_of (sessions_of map.old.pairs) id }
    ensures capacity { map.new.capacity ≡ map.old.capacity }
    ensures mode { map.new.mode ≡ Touch }
    ensures stays_valid { IsValid nat_eq map.new }
{
    match map.insert(id, Weighted { weight, payload }) {
        Ok(old) => old.map(|weighted| weighted.payload),
        Err(_refused) => unreachable!(),
    }
}
