//! The shapes that are selected in a drawing.
ghost use Rattle.std.specs.Prelude.{◌≡◌, [], ◌∷◌, ◌++◌, IsFalse, IsTrue, nat_eq, not, if◌then◌else◌, IfErr, IfOk, OnErr, OnOk};
ghost use Rattle.linked_hash_map.specs.Pairs.{last};
ghost use Rattle.linked_hash_set.specs.Items.{contains, without};

use linked_hash_set::{LinkedHashSet, Refused};
use std::alloc::Global;

/// The shapes in the order in which they were selected.
#[derive(Drop)]
pub struct Selection {
    shapes: LinkedHashSet<u64>,
}

impl Selection {
    /// Selects nothing.
    pub fn new(alloc: Global) -> Selection
        ensures { result.shapes.items ≡ [] }
    {
        Selection {
            shapes: LinkedHashSet::new(alloc),
        }
    }

    /// Returns the shape that was selected last.
    pub fn last(&self) -> Option<u64>
        ensures { result ≡ last self.now.shapes.items }
    {
        match self.shapes.back() {
            Some(shape) => Some(*shape),
            None => None,
        }
    }

    /// Selects a shape as the last, or if it is selected, takes it out. Returns whether it is
    /// selected then. If there is no memory, nothing changes.
    pub fn toggle(&mut self, shape: u64) -> Result<bool, Refused<u64>>
        ensures selected { IfOk result (λ selected.
            selected ≡ not (contains nat_eq self.old.shapes.items shape)) }
        ensures shapes { OnOk result (self.new.shapes.items
            ≡ (if contains nat_eq self.old.shapes.items shape
            then without nat_eq self.old.shapes.items shape
            else self.old.shapes.items ++ shape ∷ [])) }
        ensures handed_back { IfErr result (λ refused. refused.item ≡ shape) }
        ensures unchanged { OnErr result (self.new ≡ self.old) }
    {
        if self.shapes.contains(&shape) {
            self.shapes.remove(&shape);
            return Ok(false);
        }
        self.shapes.insert(shape)
    }

    /// Takes all shapes but one out, and returns whether that one is selected. If not, nothing
    /// changes.
    pub fn keep_only(&mut self, shape: u64) -> bool
        ensures selected { result ≡ contains nat_eq self.old.shapes.items shape }
        ensures shapes { IsTrue result → self.new.shapes.items ≡ shape ∷ [] }
        ensures unchanged { IsFalse result → self.new ≡ self.old }
    {
        if !self.shapes.to_front(&shape) {
            return false;
        }
        self.shapes.truncate(1);
        true
    }
}
