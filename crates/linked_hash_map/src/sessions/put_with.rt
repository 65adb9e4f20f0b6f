//! `put_with`, and how a session is put.
ghost use Rattle.std.specs.Prelude.{◌≡◌, ◌+◌, ◌-◌, ◌<◌, ◌≤◌, ◌++◌, ◌==◌, ◌↔◌, ℕ, length, max, Some, None, false, IfOk, IfErr, OnOk, OnErr, IsOk, IsSome, IsErrAnd};
ghost use Rattle.std.specs.List.{FoldsTo};
ghost use Rattle.linked_hash_map.specs.Pairs.{last};
ghost use Rattle.linked_hash_map.specs.SessionHandOuts.{CalledWithSession, CalledWithEachSession, CallableWithEachSession};
ghost use Rattle.linked_hash_map.specs.SessionPuts.{IsPutPlan, HasPut};
ghost use Rattle.linked_hash_map.specs.SessionTables.{session_of, payload_of, total_weight, without, with_last, fit, leaving, IsLongestEnd, IsValidTable};

use super::storage::{PutPlan, find_leaving, make_room, store, weight_at};
use super::{PutReason, PutRefused, Sessions};

impl<T> Sessions<T> {
    /// Puts a session as `put` does, and hands those that it removes to a closure instead of a
    /// vector. Returns the payload that the id had.
    ///
    /// The closure is called once with each session removed, front to back. Returns `TooHeavy`
    /// exactly if the weight is above the limit, otherwise `NoRoom` only if the id is new, none
    /// goes, the table is full and an allocation fails, or it has `LIMIT` sessions. An error hands
    /// back the payload, changes nothing and calls nothing.
    ///
    /// Only a new id at full capacity that removes none allocates: it raises the capacity by one.
    /// Except for the closure it is O(1), and O(1) more for each session removed, or O(n) if the
    /// number of buckets changes.
    ///
    /// # Examples
    ///
    /// ```rust
    /// let mut table = Sessions::with_capacity(rt.alloc(), 10, 2)?;
    /// table.put(1, 4, "a")?;
    /// table.put(2, 4, "b")?;
    /// let mut freed = 0;
    /// let old = table.put_with(3, 4, "c", |_id, weight, _payload| {
    ///     freed = weight;
    /// })?;
    /// assert_eq!(rt; (old, freed), (None, 4));
    /// assert_eq!(rt; table.iter().next(), Some((2, 4, &"b")));
    /// ```
    pub fn put_with<F: FnMut(u64, u64, T)>(
        &mut self,
        id: u64,
        weight: u64,
        payload: T,
        mut gone: F,
    ) -> Result<Option<T>, PutRefused<T>>
        requires { weight ≤ self.old.limit
            → CallableWithEachSession F.FnMut gone (leaving self.old.limit
            (with_last self.old.sessions id weight payload)) }
        ensures stay { OnOk result
            (self.new.sessions ≡ fit self.old.limit
            (with_last self.old.sessions id weight payload)) }
        ensures longest { OnOk result
            (IsLongestEnd self.old.limit (with_last self.old.sessions id weight payload)
            self.new.sessions) }
        ensures newest { OnOk result (last self.new.sessions ≡ Some (id, weight, payload)) }
        ensures payload { OnOk result (payload_of self.new.sessions id ≡ Some payload) }
        ensures others { (other : ℕ)
            → OnOk result (id == other ≡ false → IsSome (payload_of self.new.sessions other)
            → payload_of self.new.sessions other ≡ payload_of self.old.sessions other) }
        ensures gone { OnOk result
            (CalledWithEachSession F.FnMut gone (leaving self.old.limit
            (with_last self.old.sessions id weight payload))) }
        ensures all { OnOk result
            (leaving self.old.limit (with_last self.old.sessions id weight payload)
            ++ self.new.sessions
            ≡ with_last self.old.sessions id weight payload) }
        ensures old { IfOk result (λ old. old ≡ payload_of self.old.sessions id) }
        ensures limit { self.new.limit ≡ self.old.limit }
        ensures capacity { OnOk result
            (self.new.capacity ≡ max self.old.capacity (length self.new.sessions)) }
        ensures valid { IsValidTable self.old }
        ensures stays_valid { IsValidTable self.new }
        // A law of the sessions before the call, for the proofs of callers.
        ensures new_id { session_of self.old.sessions id ≡ None
            → without self.old.sessions id ≡ self.old.sessions }

        ensures payload_back { IfErr result (λ refused. refused.payload ≡ payload) }
        ensures unchanged { OnErr result (self.new ≡ self.old) }
        ensures too_heavy { IsErrAnd result (λ refused. refused.reason ≡ PutReason.TooHeavy) ↔
            (self.old.limit < weight) }
        ensures succeeds { IsSome (session_of self.old.sessions id)
            → weight ≤ self.old.limit → IsOk result }
        ensures succeeds_below { length self.old.sessions < self.old.capacity
            → weight ≤ self.old.limit → IsOk result }
        ensures none_goes { IsErrAnd result (λ refused. refused.reason ≡ PutReason.NoRoom)
            → total_weight (without self.old.sessions id) + weight ≤ self.old.limit }
        ensures full { IsErrAnd result (λ refused. refused.reason ≡ PutReason.NoRoom)
            → length self.old.sessions ≡ self.old.capacity }
        ensures absent { IsErrAnd result (λ refused. refused.reason ≡ PutReason.NoRoom)
            → session_of self.old.sessions id ≡ None }
    {
        if weight > self.limit {
            return Err(PutRefused {
                reason: PutReason::TooHeavy,
                payload,
            });
        }
        let plan = self.plan_put(id, weight);
        match self.put_planned(plan, id, weight, payload, &mut gone) {
            Ok(old) => Ok(old),
            Err(payload) => Err(PutRefused {
                reason: PutReason::NoRoom,
                payload,
            }),
        }
    }

    /// Returns what a put of an id and a weight does.
    pub(super) fn plan_put(&self, id: u64, weight: u64) -> PutPlan
        requires { weight ≤ self.now.limit }
        ensures plan { IsPutPlan self.now.sessions id (self.now.limit - weight) result }
    {
        let replaced = weight_at(&self.map, id);
        let is_new = replaced.is_none();
        let others = self.total - replaced.unwrap_or(0);
        // No sum can overflow: the weight is subtracted from the limit, not added to the total.
        let leaving = find_leaving(&self.map, id, others, self.limit - weight);
        PutPlan {
            is_new,
            count: leaving.count,
            staying: leaving.staying,
        }
    }

    /// Puts a session as planned, and hands those that it removes to a closure. Returns the payload
    /// that the id had, or, if there is no room, the given one, and then changes nothing.
    pub(super) fn put_planned<F: FnMut(u64, u64, T)>(
        &mut self,
        plan: PutPlan,
        id: u64,
        weight: u64,
        payload: T,
        gone: &mut F,
    ) -> Result<Option<T>, T>
        requires light { weight ≤ self.old.limit }
        requires plan { IsPutPlan self.old.sessions id (self.old.limit - weight) plan }
        requires callable { CallableWithEachSession F.FnMut gone.old
            (leaving self.old.limit (with_last self.old.sessions id weight payload)) }
        ensures put { OnOk result (HasPut self.old (id, weight, payload) self.new) }
        ensures gone { OnOk result (FoldsTo (CalledWithSession F.FnMut) gone.old
            (leaving self.old.limit (with_last self.old.sessions id weight payload)) gone.new) }
        ensures old { IfOk result (λ old. old ≡ payload_of self.old.sessions id) }
        ensures limit { self.new.limit ≡ self.old.limit }
        ensures stays_valid { IsValidTable self.new }

        ensures payload_back { IfErr result (λ payload_back. payload_back ≡ payload) }
        ensures unchanged { OnErr result (self.new ≡ self.old) }
        ensures uncalled { OnErr result (gone.new ≡ gone.old) }
        ensures none_goes { OnErr result
            (total_weight (without self.old.sessions id) + weight ≤ self.old.limit) }
        ensures full { OnErr result (length self.old.sessions ≡ self.old.capacity) }
        ensures absent { OnErr result (session_of self.old.sessions id ≡ None) }
    {
        let Ok(()) = make_room(&mut self.map, plan.is_new, plan.count) else {
            return Err(payload);
        };
        let session = (id, weight, payload);
        let old = store(&mut self.map, session, plan.is_new, plan.count, gone);
        self.total = plan.staying + weight;
        Ok(old)
    }
}
