//! The members of a club, by name.
ghost use Rattle.std.specs.Prelude.{◌≡◌, ◌+◌, ℕ, List, [], ◌∷◌, ◌++◌, IsTrue, IsFalse, false, not, true, IfErr, IfOk, OnErr, OnOk};
ghost use Rattle.std.specs.Str.{bytes_eq};
ghost use Rattle.linked_hash_set.specs.Items.{contains, to_front, without};
ghost use Rattle.uses.specs.Texts.{names};

use linked_hash_set::{LinkedHashSet, Refused};
use std::alloc::{AllocError, Global};

/// The members, the one who joined first in front, except those who were put there.
#[derive(Drop)]
pub struct Members {
    names: LinkedHashSet<String>,
}

impl Members {
    /// Makes a club of nobody.
    pub fn new(alloc: Global) -> Members
        ensures { result.names.items ≡ [] }
    {
        Members {
            names: LinkedHashSet::new(alloc),
        }
    }

    /// Returns whether somebody is a member.
    pub fn has(&self, name: &str) -> bool
        ensures { result ≡ contains names self.now.names.items name.now }
    {
        self.names.contains(name)
    }

    /// Lets somebody join, and returns whether the member is new. Others keep their places.
    pub fn join(&mut self, alloc: Global, name: &str) -> Result<bool, AllocError>
        ensures new { IfOk result (λ new.
            new ≡ not (contains names self.old.names.items name.now)) }
        ensures here { OnOk result (contains names self.new.names.items name.now ≡ true) }
        ensures others { (other : List ℕ) → OnOk result (bytes_eq name.now other ≡ false
            → contains names self.new.names.items other
            ≡ contains names self.old.names.items other) }
        ensures unchanged { OnErr result (self.new ≡ self.old) }
    {
        if self.names.contains(name) {
            return Ok(false);
        }
        self.names.insert(name.to_string(alloc)?)?;
        Ok(true)
    }

    /// Lets a member leave, and returns whether there was one of the name.
    pub fn leave(&mut self, name: &str) -> bool
        ensures member { result ≡ contains names self.old.names.items name.now }
        ensures left { self.new.names.items ≡ without names self.old.names.items name.now }
        ensures others { (other : List ℕ) → bytes_eq name.now other ≡ false
            → contains names self.new.names.items other
            ≡ contains names self.old.names.items other }
    {
        self.names.remove(name)
    }

    /// Puts a member in front, and returns whether there is one of the name.
    pub fn lead(&mut self, name: &str) -> bool
        ensures member { result ≡ contains names self.old.names.items name.now }
        ensures order { self.new.names.items ≡ to_front names self.old.names.items name.now }
        ensures members { (other : List ℕ) → contains names self.new.names.items other
            ≡ contains names self.old.names.items other }
        ensures unchanged { IsFalse result → self.new ≡ self.old }
    {
        self.names.to_front(name)
    }

    /// Lets a member take another name, and the last place. Returns whether it was so: the one is a
    /// member and the other is not. If there is no memory, nothing changes.
    pub fn rename(&mut self, name: &str, to: String) -> Result<bool, Refused<String>>
        ensures renamed { IfOk result (λ renamed. IsTrue renamed → self.new.names.items
            ≡ without names self.old.names.items name.now ++ to ∷ []) }
        ensures refused { IfOk result (λ renamed. IsFalse renamed → self.new ≡ self.old) }
        ensures handed_back { IfErr result (λ refused. refused.item ≡ to) }
        ensures unchanged { OnErr result (self.new ≡ self.old) }
    {
        if !self.names.contains(name) || self.names.contains(&to) {
            return Ok(false);
        }
        self.names.insert(to)?;
        self.names.remove(name);
        Ok(true)
    }
}
