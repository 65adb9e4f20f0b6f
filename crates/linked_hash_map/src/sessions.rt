//! [`Sessions`], a table with a limit on a sum of weights.
//!
//! A session has an id, a weight and a payload.
//!
//! # Examples
//!
//! A cache of pages whose weights are their lengths. The least recently used page goes first:
//!
//! ```rust
//! use linked_hash_map::sessions::Sessions;
//!
//! let mut pages = Sessions::new(rt.alloc(), 30);
//! for (id, text) in [(1, "a page of 18 bytes"), (2, "nine more")] {
//!     let put = pages.put(id, text.len() as u64, text)?;
//!     assert!(rt; put.gone.is_empty());
//! }
//! assert_eq!(rt; (pages.len(), pages.total()), (2, 27));
//!
//! // Page 1 is asked for, so page 2 is now the oldest, and goes when the next one does not fit.
//! assert_eq!(rt; pages.touch(1).copied(), Some("a page of 18 bytes"));
//! let put = pages.put(3, 7, "a third")?;
//! assert_eq!(rt; put.gone.as_slice(), [(2, 9, "nine more")].as_slice());
//! assert_eq!(rt; pages.total(), 25);
//!
//! // A new text for page 1 takes the place of the old one, which is handed back.
//! let put = pages.put(1, 8, "page one")?;
//! assert_eq!(rt; put.old, Some("a page of 18 bytes"));
//! let mut kept = pages.iter();
//! assert_eq!(rt; kept.next(), Some((3, 7, &"a third")));
//! assert_eq!(rt; kept.next(), Some((1, 8, &"page one")));
//! assert_eq!(rt; kept.next(), None);
//! ```
#![tactic(auto, using(crate::proofs::session_table::Pairs::kept_sessions))]

ghost use Rattle.std.specs.Prelude.{◌≡◌, ◌==◌, ◌≤◌, ◌<◌, ◌+◌, ◌++◌, ◌↔◌, ℕ, [], nat_eq, Some, None, false, length, max, vec_capacity, IfOk, IfErr, OnOk, OnErr, OnSome, IsOk, IsSome, IsErrAnd, IsErrOf};
ghost use Rattle.std.specs.Borrow.{sem};
ghost use Rattle.std.specs.Map.Iter.{ShowsInOrder};
ghost use Rattle.std.specs.Option.{option_copied_mut};
ghost use Rattle.linked_hash_map.specs.Pairs.{last};
ghost use Rattle.linked_hash_map.specs.Validity.{IsValid};
ghost use Rattle.linked_hash_map.specs.SessionTables.{session_of, payload_of, total_weight, without, with_last, to_end, fit, deref_session, IsLongestEnd, IsValidTable};

mod iter;
mod outcome;
mod put_with;
mod retain;
mod storage;

use self::storage::Weighted;
use crate::error::ReserveError;
use crate::map::{LIMIT, LinkedHashMap, Mode};
pub use iter::SessionIter;
pub use outcome::{Put, PutReason, PutRefused};
use std::alloc::Global;
use std::marker::Model;

/// A table of sessions with a limit on the sum of their weights, in the order of their last put or
/// touch.
///
/// Only calls that return a `Result` allocate, and only `reserve` and puts change the capacity.
/// Only puts, `touch` and `remove` hash an id, with a fixed seed: whoever chooses ids can make them
/// collide, and each lookup and removal is then O(n). For ids that strangers choose use a map:
/// `LinkedHashMap::with_hasher(rt.alloc(), RandomState::new(&rt)?)`. Dropping a table drops the
/// payloads, in O(n).
///
/// # Examples
///
/// ```rust
/// let mut table = Sessions::new(rt.alloc(), 10);
/// table.put(1, 4, "a")?;
/// table.put(2, 4, "b")?;
/// let put = table.put(3, 4, "c")?;
/// assert_eq!(rt; put.gone.as_slice(), [(1, 4, "a")].as_slice());
/// assert_eq!(rt; (table.len(), table.total()), (2, 8));
/// ```
#[derive(Drop)]
pub struct Sessions<T> {
    // The sessions by their ids, in order.
    map: LinkedHashMap<u64, Weighted<T>>,
    limit: u64,
    // The sum of the weights.
    total: u64,
    alloc: Global,
}

/// A contract sees the sessions, in order, the limit and the capacity.
impl<T> Model for Sessions<T> {
    ghost use Rattle.linked_hash_map.specs.SessionTables.{SessionTable, session_table};
    ghost use Rattle.linked_hash_map.specs.SessionsKept.{sessions_of, IsKeptWithin};

    ghost Value = { SessionTable T };

    ghost view = { λ s. session_table (sessions_of s.map.pairs) s.limit s.map.capacity };

    ghost invariant = { λ s. IsKeptWithin s.map s.total s.limit };
}

impl<T> Sessions<T> {
    ghost use Rattle.linked_hash_map.specs.SessionLends.{lends_payload};

    /// Creates a table of an empty map.
    fn of_empty(map: LinkedHashMap<u64, Weighted<T>>, limit: u64, alloc: Global) -> Self
        requires empty { map.pairs ≡ [] }
        requires mode { map.mode ≡ Mode.Touch }
        requires valid { IsValid nat_eq map }
        ensures sessions { result.sessions ≡ [] }
        ensures limit { result.limit ≡ limit }
        ensures capacity { result.capacity ≡ map.capacity }
        ensures valid { IsValidTable result }
    {
        Sessions {
            map,
            limit,
            total: 0,
            alloc,
        }
    }

    /// Creates an empty table with this limit and capacity 0, in O(1) without allocating.
    ///
    /// # Examples
    ///
    /// ```rust
    /// let table: Sessions<char> = Sessions::new(rt.alloc(), 10);
    /// assert_eq!(rt; (table.len(), table.total()), (0, 0));
    /// ```
    pub fn new(alloc: Global, limit: u64) -> Self
        ensures sessions { result.sessions ≡ [] }
        ensures limit { result.limit ≡ limit }
        ensures capacity { result.capacity ≡ 0 }
        ensures valid { IsValidTable result }
    {
        Self::of_empty(LinkedHashMap::new(alloc), limit, alloc)
    }

    /// Creates an empty table with this limit and exactly this capacity, in O(capacity).
    ///
    /// Returns `TooLarge` exactly if the capacity is above [`LIMIT`], and `NoRoom` if an allocation
    /// fails. Capacity 0 does not allocate.
    ///
    /// # Examples
    ///
    /// ```rust
    /// let table: Sessions<char> = Sessions::with_capacity(rt.alloc(), 10, 5)?;
    /// assert_eq!(rt; (table.len(), table.capacity()), (0, 5));
    /// ```
    pub fn with_capacity(alloc: Global, limit: u64, capacity: usize) -> Result<Self, ReserveError>
        ensures sessions { IfOk result (λ table. table.sessions ≡ []) }
        ensures limit { IfOk result (λ table. table.limit ≡ limit) }
        ensures capacity { IfOk result (λ table. table.capacity ≡ capacity) }
        ensures valid { IfOk result IsValidTable }

        ensures too_large { IsErrOf result ReserveError.TooLarge ↔ (LIMIT < capacity) }
        ensures no_room { IsErrOf result ReserveError.NoRoom → 0 < capacity }
        ensures no_room_within { IsErrOf result ReserveError.NoRoom → capacity ≤ LIMIT }
    {
        match LinkedHashMap::with_capacity(alloc, capacity) {
            Ok(map) => Ok(Self::of_empty(map, limit, alloc)),
            Err(error) => Err(error),
        }
    }

    /// Raises the capacity to exactly the number of sessions plus `additional`, if it is below
    /// that.
    ///
    /// Returns `TooLarge` exactly if the sum is above [`LIMIT`] or overflows, and `NoRoom` if an
    /// allocation fails. It is O(capacity), the new one, or O(1) without allocating if the old one
    /// suffices.
    ///
    /// # Examples
    ///
    /// ```rust
    /// let mut table = Sessions::new(rt.alloc(), 10);
    /// table.put(1, 4, "a")?;
    /// table.reserve(4)?;
    /// assert_eq!(rt; table.capacity(), 5);
    /// ```
    pub fn reserve(&mut self, additional: usize) -> Result<(), ReserveError>
        ensures sessions { self.new.sessions ≡ self.old.sessions }
        ensures limit { self.new.limit ≡ self.old.limit }
        ensures capacity { OnOk result
            (self.new.capacity ≡ max self.old.capacity (length self.old.sessions + additional)) }
        ensures valid { IsValidTable self.old }
        ensures stays_valid { IsValidTable self.new }

        ensures unchanged { OnErr result (self.new ≡ self.old) }
        ensures too_large { IsErrOf result ReserveError.TooLarge ↔
            (LIMIT < length self.old.sessions + additional) }
        ensures no_room { IsErrOf result ReserveError.NoRoom →
            self.old.capacity < length self.old.sessions + additional }
        ensures no_room_within { IsErrOf result ReserveError.NoRoom →
            length self.old.sessions + additional ≤ LIMIT }
    {
        self.map.reserve(additional)
    }

    /// Returns how many sessions the table can hold without allocating, in O(1).
    ///
    /// # Examples
    ///
    /// ```rust
    /// let mut table = Sessions::with_capacity(rt.alloc(), 10, 1)?;
    /// table.put(1, 4, "a")?;
    /// assert_eq!(rt; table.capacity(), 1);
    /// table.put(2, 4, "b")?;
    /// assert_eq!(rt; table.capacity(), 2);
    /// ```
    pub fn capacity(&self) -> usize
        ensures capacity { result ≡ self.now.capacity }
        ensures valid { IsValidTable self.now }
    {
        self.map.capacity()
    }

    /// Puts a session at the back, in place of the one with its id, and removes others from the
    /// front until the weights sum to at most the limit. Returns the payload that the id had, and
    /// those removed, front to back. Hashes the id at most twice.
    ///
    /// Returns `TooHeavy` exactly if the weight is above the limit, otherwise `NoRoom` if an
    /// allocation fails, or at `LIMIT` sessions if none goes, with the payload, and changes
    /// nothing. A put that removes none is never out of room if the id is present, or below the
    /// capacity.
    ///
    /// It allocates first: a vector of exactly the sessions removed, or, for none and a new id at
    /// full capacity, room for one more, which raises the capacity by one. It is O(1), and O(1)
    /// more for each session removed, or O(n) if the number of buckets changes. `put_with` needs no
    /// such vector.
    ///
    /// # Examples
    ///
    /// ```rust
    /// let mut table = Sessions::new(rt.alloc(), 10);
    /// table.put(1, 4, "a")?;
    /// table.put(2, 4, "b")?;
    /// let put = table.put(1, 6, "c")?;
    /// assert_eq!(rt; (put.old, put.gone.len()), (Some("a"), 0));
    /// let refused = table.put(3, 11, "d");
    /// assert_eq!(rt; refused, Err(PutRefused { reason: PutReason::TooHeavy, payload: "d" }));
    /// assert_eq!(rt; table.total(), 10);
    /// ```
    pub fn put(&mut self, id: u64, weight: u64, payload: T) -> Result<Put<T>, PutRefused<T>>
        ensures stay { OnOk result
            (self.new.sessions ≡ fit self.old.limit
            (with_last self.old.sessions id weight payload)) }
        ensures longest { OnOk result
            (IsLongestEnd self.old.limit (with_last self.old.sessions id weight payload)
            self.new.sessions) }
        ensures newest { OnOk result (last self.new.sessions ≡ Some (id, weight, payload)) }
        ensures payload { OnOk result (payload_of self.new.sessions id ≡ Some payload) }
        ensures others { (other : ℕ)
            → OnOk result (id == other ≡ false → IsSome (payload_of self.new.sessions other)
            → payload_of self.new.sessions other ≡ payload_of self.old.sessions other) }
        ensures gone { IfOk result (λ put.
            put.gone.items ++ self.new.sessions ≡ with_last self.old.sessions id weight payload) }
        ensures exact { IfOk result (λ put. vec_capacity put.gone ≡ length put.gone.items) }
        ensures old { IfOk result (λ put. put.old ≡ payload_of self.old.sessions id) }
        ensures limit { self.new.limit ≡ self.old.limit }
        ensures capacity { OnOk result
            (self.new.capacity ≡ max self.old.capacity (length self.new.sessions)) }
        ensures valid { IsValidTable self.old }
        ensures stays_valid { IsValidTable self.new }

        ensures payload_back { IfErr result (λ refused. refused.payload ≡ payload) }
        ensures unchanged { OnErr result (self.new ≡ self.old) }
        ensures too_heavy { IsErrAnd result (λ refused. refused.reason ≡ PutReason.TooHeavy) ↔
            (self.old.limit < weight) }
        ensures succeeds { IsSome (session_of self.old.sessions id)
            → total_weight (without self.old.sessions id) + weight ≤ self.old.limit → IsOk result }
        ensures succeeds_below { length self.old.sessions < self.old.capacity
            → total_weight (without self.old.sessions id) + weight ≤ self.old.limit → IsOk result }
        ensures full { IsErrAnd result (λ refused. refused.reason ≡ PutReason.NoRoom)
            → total_weight (without self.old.sessions id) + weight ≤ self.old.limit
            → length self.old.sessions ≡ self.old.capacity }
        ensures absent { IsErrAnd result (λ refused. refused.reason ≡ PutReason.NoRoom)
            → total_weight (without self.old.sessions id) + weight ≤ self.old.limit
            → session_of self.old.sessions id ≡ None }
    {
        if weight > self.limit {
            return Err(PutRefused {
                reason: PutReason::TooHeavy,
                payload,
            });
        }
        let plan = self.plan_put(id, weight);
        let Ok(mut gone) = Vec::with_capacity(self.alloc, plan.count) else {
            return Err(PutRefused {
                reason: PutReason::NoRoom,
                payload,
            });
        };
        let mut push = |id, weight, payload| gone.push_reserved((id, weight, payload));
        match self.put_planned(plan, id, weight, payload, &mut push) {
            Ok(old) => Ok(Put { old, gone }),
            Err(payload) => {
                // A put that removes sessions needs no more room, so none was removed.
                gone.destroy_empty();
                Err(PutRefused {
                    reason: PutReason::NoRoom,
                    payload,
                })
            }
        }
    }

    /// Returns a mutable reference to the payload of an id, if present, and moves its session to
    /// the back, in O(1). Hashes the id once.
    ///
    /// # Examples
    ///
    /// ```rust
    /// let mut table = Sessions::new(rt.alloc(), 10);
    /// table.put(1, 4, "a")?;
    /// table.put(2, 4, "b")?;
    /// if let Some(payload) = table.touch(1) {
    ///     *payload = "c";
    /// }
    /// assert_eq!(rt; table.iter().next(), Some((2, 4, &"b")));
    /// assert_eq!(rt; table.remove(1), Some("c"));
    /// ```
    pub fn touch(&mut self, id: u64) -> Option<&mut T>
        ensures* writes_back { sem 𝓛 (lends_payload T.row self.entry id result) }
        ensures payload { option_copied_mut result ≡ payload_of self.old.sessions id }
        ensures valid { IsValidTable self.old }

        // Laws of the table once a payload is written, for the proofs of callers.
        ensures written { (payload : T)
            → payload_of (to_end self.old.sessions id payload) id ≡ Some payload }
        ensures others { (payload : T) (other : ℕ) → id == other ≡ false
            → payload_of (to_end self.old.sessions id payload) other
            ≡ payload_of self.old.sessions other }
    {
        match self.map.get_refresh(&id) {
            Some(weighted) => Some(&mut weighted.payload),
            None => None,
        }
    }

    /// Removes the session of an id and returns its payload, if present, in O(1). The others keep
    /// their order. Hashes the id once.
    ///
    /// # Examples
    ///
    /// ```rust
    /// let mut table = Sessions::new(rt.alloc(), 10);
    /// table.put(1, 4, "a")?;
    /// assert_eq!(rt; (table.remove(1), table.remove(1)), (Some("a"), None));
    /// assert_eq!(rt; (table.len(), table.total()), (0, 0));
    /// ```
    pub fn remove(&mut self, id: u64) -> Option<T>
        ensures payload { result ≡ payload_of self.old.sessions id }
        ensures sessions { self.new.sessions ≡ without self.old.sessions id }
        ensures limit { self.new.limit ≡ self.old.limit }
        ensures capacity { self.new.capacity ≡ self.old.capacity }
        ensures valid { IsValidTable self.old }
        ensures stays_valid { IsValidTable self.new }
        // The id is gone, the others keep their payloads, and a present one is one fewer.
        ensures gone { payload_of self.new.sessions id ≡ None }
        ensures others { (other : ℕ) → id == other ≡ false
            → payload_of self.new.sessions other ≡ payload_of self.old.sessions other }
        ensures fewer { OnSome result (length self.new.sessions + 1 ≡ length self.old.sessions) }
    {
        let Some(weighted) = self.map.remove(&id) else {
            return None;
        };
        self.total -= weighted.weight;
        Some(weighted.payload)
    }

    /// Returns the sum of the weights, at most the limit, in O(1).
    ///
    /// # Examples
    ///
    /// ```rust
    /// let mut table = Sessions::new(rt.alloc(), 10);
    /// table.put(1, 4, "a")?;
    /// assert_eq!(rt; (table.len(), table.total()), (1, 4));
    /// ```
    pub fn total(&self) -> u64
        ensures total { result ≡ total_weight self.now.sessions }
        ensures within { result ≤ self.now.limit }
        ensures valid { IsValidTable self.now }
    {
        self.total
    }

    /// Returns the limit of the sum of the weights, in O(1).
    ///
    /// # Examples
    ///
    /// ```rust
    /// let table: Sessions<char> = Sessions::new(rt.alloc(), 10);
    /// assert_eq!(rt; table.limit(), 10);
    /// ```
    pub fn limit(&self) -> u64
        ensures limit { result ≡ self.now.limit }
    {
        self.limit
    }

    /// Returns the number of sessions, in O(1).
    pub fn len(&self) -> usize
        ensures len { result ≡ length self.now.sessions }
        ensures valid { IsValidTable self.now }
    {
        self.map.len()
    }

    /// Returns an iterator over the ids, weights and payloads, front to back, in O(1).
    ///
    /// # Examples
    ///
    /// ```rust
    /// let mut table = Sessions::new(rt.alloc(), 10);
    /// table.put(1, 4, "a")?;
    /// table.put(2, 4, "b")?;
    /// let mut sessions = table.iter();
    /// assert_eq!(rt; sessions.next(), Some((1, 4, &"a")));
    /// assert_eq!(rt; sessions.len(), 1);
    /// ```
    pub fn iter(&self) -> SessionIter<'_, T>
        ensures sessions { result ≡ self.now.sessions }
        ensures valid { IsValidTable self.now }
        // A law of iterators, for the proofs of callers.
        ensures runs { ShowsInOrder (deref_session {T = T}) }
    {
        SessionIter::new(self.map.iter())
    }
}
