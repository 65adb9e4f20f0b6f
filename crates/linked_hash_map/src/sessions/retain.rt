//! `retain`.
ghost use Rattle.std.specs.Prelude.{◌≡◌, ◌≤◌, length};
ghost use Rattle.linked_hash_map.specs.Retains.{IsSublist};
ghost use Rattle.linked_hash_map.specs.SessionRetains.{weights_of, TakesSession, CalledAtSession, CallableOnEachSession, RetainsSessions};
ghost use Rattle.linked_hash_map.specs.SessionTables.{total_weight, IsValidTable};

use super::Sessions;
use super::storage::{Weighted, total_of};

impl<T> Sessions<T> {
    /// Keeps the sessions for which a closure returns `true`, in order, and drops the other
    /// payloads, in O(n). Hashes no id.
    ///
    /// The closure is called once with each id, weight and payload, front to back, and may change
    /// the payload. Whatever it does, what stays is some of the old sessions, in order, with their
    /// weights, and the limit.
    ///
    /// # Examples
    ///
    /// ```rust
    /// let mut table = Sessions::new(rt.alloc(), 10);
    /// table.put(1, 4, "a")?;
    /// table.put(2, 3, "b")?;
    /// table.retain(|_id, weight, payload| {
    ///     *payload = "c";
    ///     weight < 4
    /// });
    /// assert_eq!(rt; (table.len(), table.total()), (1, 3));
    /// assert_eq!(rt; table.iter().next(), Some((2, 3, &"c")));
    /// ```
    pub fn retain<F: FnMut(u64, u64, &mut T) -> bool>(&mut self, mut keep: F)
    where
        T: Drop,
        requires { CallableOnEachSession F.FnMut keep self.old.sessions }
        ensures sessions { RetainsSessions F.FnMut keep self.old.sessions self.new.sessions }
        ensures weights { IsSublist (weights_of self.new.sessions) (weights_of self.old.sessions) }
        ensures len { length self.new.sessions ≤ length self.old.sessions }
        ensures lighter { total_weight self.new.sessions ≤ total_weight self.old.sessions }
        ensures limit { self.new.limit ≡ self.old.limit }
        ensures capacity { self.new.capacity ≡ self.old.capacity }
        ensures valid { IsValidTable self.old }
        ensures stays_valid { IsValidTable self.new }
    {
        self.map.retain(
            |id: &u64, weighted: &mut Weighted<T>|
                requires { TakesSession F.FnMut keep
                    (id.now, weighted.old.weight, weighted.old.payload) }
                ensures called { CalledAtSession F.FnMut keep.entry
                    (id.now, weighted.old.weight, weighted.old.payload) result weighted.new.payload
                    keep.exit }
                ensures weight { weighted.new.weight ≡ weighted.old.weight }
            { keep(*id, weighted.weight, &mut weighted.payload) },
        );
        self.total = total_of(&self.map);
    }
}
