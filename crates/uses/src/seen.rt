//! Identifiers that were seen, by two sites.
ghost use Rattle.std.specs.Prelude.{◌≡◌, ◌||◌, ℕ, [], nat_eq, not, true, IfOk, OnOk, OnErr};
ghost use Rattle.linked_hash_set.specs.Items.{contains};
ghost use Rattle.linked_hash_set.specs.Operations.{difference, union};

use linked_hash_set::{LinkedHashSet, Refused};
use std::alloc::{AllocError, Global};

/// The identifiers that a site has seen, in the order in which they came.
#[derive(Drop)]
pub struct Seen {
    ids: LinkedHashSet<u64>,
}

impl Seen {
    /// Makes a site that has seen none.
    pub fn new(alloc: Global) -> Seen
        ensures { result.ids.items ≡ [] }
    {
        Seen {
            ids: LinkedHashSet::new(alloc),
        }
    }

    /// Notes an identifier, and returns whether it is new.
    pub fn note(&mut self, id: u64) -> Result<bool, Refused<u64>>
        ensures new { IfOk result (λ new. new ≡ not (contains nat_eq self.old.ids.items id)) }
        ensures here { OnOk result (contains nat_eq self.new.ids.items id ≡ true) }
        ensures unchanged { OnErr result (self.new ≡ self.old) }
    {
        self.ids.insert_if_absent(id)
    }

    /// Notes all that another site has seen, behind those seen here.
    pub fn absorb(&mut self, other: &Seen) -> Result<(), Refused<u64>>
        ensures all { OnOk result
            (self.new.ids.items ≡ union nat_eq self.old.ids.items other.now.ids.items) }
        ensures contains { (id : ℕ) → OnOk result (contains nat_eq self.new.ids.items id
            ≡ (contains nat_eq self.old.ids.items id || contains nat_eq other.now.ids.items id)) }
    {
        for id in &other.ids {
            self.ids.insert_if_absent(*id)?;
        }
        Ok(())
    }

    /// Returns what this site has seen and the other has not, in order.
    pub fn missing_at(&self, alloc: Global, other: &Seen) -> Result<Vec<u64>, AllocError>
        ensures { IfOk result (λ ids.
            ids.items ≡ difference nat_eq self.now.ids.items other.now.ids.items) }
    {
        let mut ids = Vec::new(alloc);
        for id in self.ids.difference(&other.ids) {
            ids.push(*id)?;
        }
        Ok(ids)
    }
}
