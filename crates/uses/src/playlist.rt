//! A playlist: songs by number, in the order in which they are played.
ghost use Rattle.std.specs.Prelude.{◌≡◌, ◌++◌, ◌∷◌, ℕ, List, [], Some, None, true, false, filter, filter_map, nat_eq, not, reverse, is_some, ◌&&◌, ◌/◌, slice_get, IfErr, IfOk, IsFalse, IsTrue, OnErr, OnOk};
ghost use Rattle.std.specs.List.{IsDistinct, list_any};
ghost use Rattle.std.specs.List.Sorted.{IsNonDecreasingBy, IsPermutation};
ghost use Rattle.std.specs.Map.{keys_of};
ghost use Rattle.linked_hash_map.specs.Pairs.{find, from, put, to_after, to_before, value_at};
ghost use Rattle.uses.specs.declared.playlist.Song.{Song};

use linked_hash_map::{IterBackFrom, IterFrom, LinkedHashMap, NoRoom, Refused};
use std::alloc::Global;

/// A song.
#[derive(Drop, Debug)]
pub struct Song {
    pub title: String,
    pub seconds: u64,
}

/// Songs by number, in the order in which they are played.
#[derive(Drop)]
pub struct Playlist {
    songs: LinkedHashMap<u64, Song>,
}

impl Playlist {
    /// Makes a playlist without songs.
    pub fn new(alloc: Global) -> Self
        ensures { result.songs.pairs ≡ [] }
    {
        Playlist {
            songs: LinkedHashMap::new(alloc),
        }
    }

    /// Inserts a song right after another and returns `true`. If the other is absent, it inserts
    /// the song as the last one and returns `false`. If there is no memory for a new one, number
    /// and song are handed back and nothing changes.
    #[tactic(auto, using(linked_hash_map::proofs::Callers::Rules::placed))]
    pub fn insert_after(
        &mut self,
        other: u64,
        number: u64,
        song: Song,
    ) -> Result<bool, Refused<u64, Song>>
        ensures new_after { (xs : List (ℕ × Song)) (ys : List (ℕ × Song)) (before : ℕ × Song)
            → self.old.songs.pairs ≡ xs ++ before ∷ ys → before.0 ≡ other
            → value_at nat_eq self.old.songs.pairs number ≡ None
            → IfOk result (λ placed. (placed ≡ true)
            × (self.new.songs.pairs ≡ xs ++ before ∷ (number, song) ∷ ys)) }
        ensures after { IfOk result (λ placed. IsTrue placed → self.new.songs.pairs
            ≡ to_after nat_eq nat_eq
            (put nat_eq self.old.songs.mode self.old.songs.pairs number song) number other) }
        ensures last { IfOk result (λ placed. IsFalse placed → self.new.songs.pairs
            ≡ put nat_eq self.old.songs.mode self.old.songs.pairs number song) }

        ensures handed_back { IfErr result (λ refused.
            (refused.key ≡ number) × (refused.value ≡ song)) }
        ensures unchanged { OnErr result (self.new ≡ self.old) }
    {
        self.songs.insert(number, song)?;
        Ok(self.place_after(number, other))
    }

    /// Moves a song right before another, and returns whether both are there.
    pub fn place_before(&mut self, number: u64, other: u64) -> bool
        ensures both { result ≡ (is_some (find nat_eq self.old.songs.pairs number)
            && is_some (find nat_eq self.old.songs.pairs other)) }
        ensures moved { IsTrue result → self.new.songs.pairs
            ≡ to_before nat_eq nat_eq self.old.songs.pairs number other }
        ensures unchanged { IsFalse result → self.new ≡ self.old }
    {
        self.songs.move_before(&number, &other)
    }

    /// Moves a song right after another, and returns whether both are there.
    pub fn place_after(&mut self, number: u64, other: u64) -> bool
        ensures both { result ≡ (is_some (find nat_eq self.old.songs.pairs number)
            && is_some (find nat_eq self.old.songs.pairs other)) }
        ensures moved { IsTrue result → self.new.songs.pairs
            ≡ to_after nat_eq nat_eq self.old.songs.pairs number other }
        ensures unchanged { IsFalse result → self.new ≡ self.old }
        ensures differ { IsDistinct nat_eq (keys_of self.old.songs.pairs) }
    {
        self.songs.move_after(&number, &other)
    }

    /// Returns the number of the song that is played right before one, if there is one.
    pub fn song_before(&self, number: u64) -> Option<u64>
        ensures before { IsTrue (is_some (find nat_eq self.now.songs.pairs number)) →
            result ≡ slice_get (keys_of (from nat_eq (reverse self.now.songs.pairs) number)) 1 }
        ensures absent { find nat_eq self.now.songs.pairs number ≡ None → result ≡ None }
        ensures differ { IsDistinct nat_eq (keys_of self.now.songs.pairs) }
    {
        match self.songs.iter_back_from(&number) {
            Some(songs) => second_back(songs),
            None => None,
        }
    }

    /// Returns the number of the song that is played right after one, if there is one.
    pub fn song_after(&self, number: u64) -> Option<u64>
        ensures after { IsTrue (is_some (find nat_eq self.now.songs.pairs number)) →
            result ≡ slice_get (keys_of (from nat_eq self.now.songs.pairs number)) 1 }
        ensures absent { find nat_eq self.now.songs.pairs number ≡ None → result ≡ None }
        ensures differ { IsDistinct nat_eq (keys_of self.now.songs.pairs) }
    {
        match self.songs.iter_from(&number) {
            Some(songs) => second(songs),
            None => None,
        }
    }

    /// Moves a song right before the one that is played before it, and returns whether there is
    /// one.
    #[tactic(auto, using(linked_hash_map::proofs::Callers::Rules::neighbors))]
    pub fn move_up(&mut self, number: u64) -> bool
        ensures swapped { (xs : List (ℕ × Song)) (ys : List (ℕ × Song)) (before : ℕ × Song)
            (song : ℕ × Song) → self.old.songs.pairs ≡ xs ++ before ∷ song ∷ ys → song.0 ≡ number
            → (result ≡ true) × (self.new.songs.pairs ≡ xs ++ song ∷ before ∷ ys) }
        ensures absent { find nat_eq self.old.songs.pairs number ≡ None → result ≡ false }
        ensures unchanged { IsFalse result → self.new ≡ self.old }
    {
        match self.song_before(number) {
            Some(before) => self.place_before(number, before),
            None => false,
        }
    }

    /// Moves a song right after the one that is played after it, and returns whether there is one.
    #[tactic(auto, using(linked_hash_map::proofs::Callers::Rules::neighbors))]
    pub fn move_down(&mut self, number: u64) -> bool
        ensures swapped { (xs : List (ℕ × Song)) (ys : List (ℕ × Song)) (song : ℕ × Song)
            (after : ℕ × Song) → self.old.songs.pairs ≡ xs ++ song ∷ after ∷ ys → song.0 ≡ number
            → (result ≡ true) × (self.new.songs.pairs ≡ xs ++ after ∷ song ∷ ys) }
        ensures absent { find nat_eq self.old.songs.pairs number ≡ None → result ≡ false }
        ensures unchanged { IsFalse result → self.new ≡ self.old }
    {
        match self.song_after(number) {
            Some(after) => self.place_before(after, number),
            None => false,
        }
    }

    /// Moves the songs with these numbers behind the others, in the order given.
    #[tactic(auto, using(linked_hash_map::proofs::Callers::Arranged::arranged))]
    pub fn arrange(&mut self, order: &[u64])
        ensures { IsDistinct nat_eq order.now
            → self.new.songs.pairs
            ≡ filter (λ song. not (list_any (λ number. nat_eq number song.0) order.now))
            self.old.songs.pairs
            ++ filter_map (find nat_eq self.old.songs.pairs) order.now }
    {
        for number in order {
            self.songs.move_to_back(number);
        }
    }

    /// Sorts the songs by how long they are, the shortest first.
    pub fn sort_by_length(&mut self)
        ensures sorted { IsNonDecreasingBy (λ song. song.1.seconds) self.new.songs.pairs }
        ensures same { IsPermutation self.old.songs.pairs self.new.songs.pairs }
    {
        self.songs.sort_by_key(|_number, song| song.seconds);
    }

    /// Sorts the songs by their full minutes, which it computes once for each. If there is no
    /// memory for them, nothing changes.
    pub fn sort_by_minutes(&mut self) -> Result<(), NoRoom>
        ensures sorted { OnOk result
            (IsNonDecreasingBy (λ song. song.1.seconds / 60) self.new.songs.pairs) }
        ensures same { IsPermutation self.old.songs.pairs self.new.songs.pairs }
        ensures unchanged { OnErr result (self.new ≡ self.old) }
    {
        self.songs
            .sort_by_cached_key(|_number, song| song.seconds / 60)?;
        Ok(())
    }
}

/// Returns the second number.
fn second(mut songs: IterFrom<'_, u64, Song>) -> Option<u64>
    ensures { result ≡ slice_get (keys_of songs.entry) 1 }
{
    songs.next();
    match songs.next() {
        Some((number, _song)) => Some(*number),
        None => None,
    }
}

/// Returns the second number.
fn second_back(mut songs: IterBackFrom<'_, u64, Song>) -> Option<u64>
    ensures { result ≡ slice_get (keys_of songs.entry) 1 }
{
    songs.next();
    match songs.next() {
        Some((number, _song)) => Some(*number),
        None => None,
    }
}
