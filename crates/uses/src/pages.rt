//! A cache of pages, over a table of sessions, which together have at most a limit of bytes.
ghost use Rattle.std.specs.Prelude.{◌≡◌, ◌==◌, ◌≤◌, ◌<◌, ◌+◌, ℕ, List, [], Some, IsSome, false, length, String, string_bytes, option_copied, IfOk, IfErr, OnOk, OnErr, IsOk};
ghost use Rattle.std.specs.Borrow.{sem};
ghost use Rattle.std.specs.Global.{Global};
ghost use Rattle.linked_hash_map.specs.SessionTables.{Session, payload_of, without, with_last, total_weight, IsLongestEnd};

use linked_hash_map::ReserveError;
use linked_hash_map::sessions::{PutRefused, Sessions};
use std::alloc::Global;

/// Pages of text by their numbers. They stand in the order of their last use, the one used least
/// recently first.
#[derive(Drop)]
pub struct Pages {
    table: Sessions<String>,
}

impl Pages {
    ghost use Rattle.uses.specs.Lending.{shows_page};

    /// Makes a cache without pages, for at most `limit` bytes of text.
    pub fn new(alloc: Global, limit: u64) -> Self
        ensures empty { result.table.sessions ≡ [] }
        ensures limit { result.table.limit ≡ limit }
    {
        Pages {
            table: Sessions::new(alloc, limit),
        }
    }

    /// Makes a cache without pages that has room for so many.
    pub fn with_room(alloc: Global, limit: u64, pages: usize) -> Result<Self, ReserveError>
        ensures empty { IfOk result (λ cache. cache.table.sessions ≡ []) }
        ensures limit { IfOk result (λ cache. cache.table.limit ≡ limit) }
        ensures room { IfOk result (λ cache. cache.table.capacity ≡ pages) }
    {
        let table = Sessions::with_capacity(alloc, limit, pages)?;
        Ok(Pages { table })
    }

    /// Puts a page in as the one used last, in place of the one with its number. Pages that were
    /// used least recently leave for it, as few as it takes, and those that stay keep their texts.
    /// A page above the limit is handed back, and so is one that found no memory, which only a new
    /// page needs for which none leaves and no room was made.
    #[tactic(auto, using(linked_hash_map::proofs::Callers::Sessions::longest_ends))]
    pub fn put(&mut self, number: u64, text: String) -> Result<(), PutRefused<String>>
        ensures stays { OnOk result (payload_of self.new.table.sessions number ≡ Some text) }
        ensures others { (other : ℕ)
            → OnOk result (number == other ≡ false
            → IsSome (payload_of self.new.table.sessions other)
            → payload_of self.new.table.sessions other
            ≡ payload_of self.old.table.sessions other) }
        ensures within { total_weight self.new.table.sessions ≤ self.new.table.limit }
        ensures longest { OnOk result
            (IsLongestEnd self.old.table.limit
            (with_last self.old.table.sessions number (length (string_bytes text)) text)
            self.new.table.sessions) }
        // No other pages are such an end.
        ensures only { OnOk result ((pages : List (Session (String Global)))
            → IsLongestEnd self.old.table.limit
            (with_last self.old.table.sessions number (length (string_bytes text)) text) pages
            → pages ≡ self.new.table.sessions) }
        ensures all { OnOk result
            (total_weight (with_last self.old.table.sessions number (length (string_bytes text))
            text)
            ≤ self.old.table.limit
            → self.new.table.sessions
            ≡ with_last self.old.table.sessions number (length (string_bytes text)) text) }
        ensures limit { self.new.table.limit ≡ self.old.table.limit }

        ensures room { length self.old.table.sessions < self.old.table.capacity
            → length (string_bytes text) ≤ self.old.table.limit → IsOk result }
        ensures handed_back { IfErr result (λ refused. refused.payload ≡ text) }
        ensures unchanged { OnErr result (self.new ≡ self.old) }
    {
        let bytes = text.len() as u64;
        self.table
            .put_with(number, bytes, text, |_number, _bytes, _text| {})?;
        Ok(())
    }

    /// Returns a page, which is then the one used last, or `None` if it is absent, and changes
    /// nothing.
    pub fn get(&mut self, number: u64) -> Option<&String>
        ensures* used { sem 𝓛 (shows_page self.entry number result) }
        ensures page { option_copied result ≡ payload_of self.old.table.sessions number }
    {
        match self.table.touch(number) {
            Some(text) => Some(text),
            None => None,
        }
    }

    /// Returns how many more bytes of text fit while all pages stay.
    pub fn bytes_left(&self) -> u64
        ensures left { total_weight self.now.table.sessions + result ≡ self.now.table.limit }
    {
        self.table.limit() - self.table.total()
    }

    /// Takes a page out.
    pub fn take(&mut self, number: u64) -> Option<String>
        ensures page { result ≡ payload_of self.old.table.sessions number }
        ensures others { self.new.table.sessions ≡ without self.old.table.sessions number }
        ensures limit { self.new.table.limit ≡ self.old.table.limit }
    {
        self.table.remove(number)
    }
}
