//! The open windows, from the one used last to the one used longest ago.
ghost use Rattle.std.specs.Prelude.{◌≡◌, ◌==◌, ℕ, ◌∷◌, [], ◌++◌, Some, IsTrue, IsFalse, drop, false, filter, is_some, nat_eq, not, take, OnOk, OnErr};
ghost use Rattle.std.specs.Map.{keys_of};
ghost use Rattle.linked_hash_map.specs.Pairs.{find, value_at};
ghost use Rattle.linked_hash_map.specs.declared.map.Mode.{Mode};

use linked_hash_map::{LinkedHashMap, Refused};
use std::alloc::Global;

/// The open windows with their titles, the one in front first.
#[derive(Drop)]
pub struct Switcher {
    windows: LinkedHashMap<u64, String>,
    ghost touch: { windows.mode ≡ Mode.Touch },
}

impl Switcher {
    /// Makes a switcher without windows.
    pub fn new(alloc: Global) -> Switcher
        ensures { result.windows.pairs ≡ [] }
    {
        Switcher {
            windows: LinkedHashMap::new(alloc),
        }
    }

    /// Opens a window in front of the others. One that is open gets the title and comes to the
    /// front.
    pub fn open(&mut self, window: u64, title: String) -> Result<(), Refused<u64, String>>
        ensures order { OnOk result (keys_of self.new.windows.pairs
            ≡ window ∷ filter (λ other. not (window == other)) (keys_of self.old.windows.pairs)) }
        ensures title { OnOk result (value_at nat_eq self.new.windows.pairs window ≡ Some title) }
        ensures others { (other : ℕ) → OnOk result (nat_eq window other ≡ false
            → value_at nat_eq self.new.windows.pairs other
            ≡ value_at nat_eq self.old.windows.pairs other) }
        ensures unchanged { OnErr result (self.new ≡ self.old) }
    {
        self.windows.insert(window, title)?;
        self.windows.move_to_front(&window);
        Ok(())
    }

    /// Brings a window to the front, and returns whether it is open.
    pub fn focus(&mut self, window: u64) -> bool
        ensures open { result ≡ is_some (find nat_eq self.old.windows.pairs window) }
        ensures order { IsTrue result → keys_of self.new.windows.pairs
            ≡ window ∷ filter (λ other. not (window == other)) (keys_of self.old.windows.pairs) }
        ensures titles { (other : ℕ) → value_at nat_eq self.new.windows.pairs other
            ≡ value_at nat_eq self.old.windows.pairs other }
        ensures unchanged { IsFalse result → self.new ≡ self.old }
    {
        self.windows.move_to_front(&window)
    }

    /// Puts the window in front behind all others.
    pub fn cycle(&mut self)
        ensures order { keys_of self.new.windows.pairs
            ≡ drop 1 (keys_of self.old.windows.pairs) ++ take 1 (keys_of self.old.windows.pairs) }
        ensures titles { (other : ℕ) → value_at nat_eq self.new.windows.pairs other
            ≡ value_at nat_eq self.old.windows.pairs other }
    {
        if !self.windows.is_empty() {
            self.windows.rotate_left(1);
        }
    }

    /// Closes a window, and returns its title.
    pub fn close(&mut self, window: u64) -> Option<String>
        ensures title { result ≡ value_at nat_eq self.old.windows.pairs window }
        ensures order { keys_of self.new.windows.pairs
            ≡ filter (λ other. not (window == other)) (keys_of self.old.windows.pairs) }
    {
        self.windows.remove(&window)
    }
}
