//! Searches along a chain for a key.
ghost use Rattle.std.specs.Prelude.{◌≡◌, Bool, ◌+◌, ◌%◌, ◌<◌, ◌≤◌, ◌^◌, ◌∷◌, [], length, None, Some, IfSome, IfNone, OnSome, slice_index_or};
ghost use Rattle.lhm_ring.specs.Ring.{IsHeld};
ghost use Rattle.lhm_ring.specs.Pointer.{pointer_of, pointer_of_some};
ghost use Rattle.lhm_ring.specs.Index.{Indexes, spot, spots, count_with_hash, OfNodeAt, ChangesLinks, HoldsOthers};
ghost use Rattle.lhm_ring.specs.Search.{Compares, FindsKey, FindsNone, HasKey, LacksKey, CountsSome, CountsAll, IsPart};

use crate::index::Index;
use crate::pointer::Position;
use crate::ring::Ring;
use equivalent::Equivalent;
use std::hash::Hash;

/// The counts of a lookup.
#[derive(Clone, Copy, Debug, PartialEq)]
pub struct Probe {
    /// The number of nodes reached.
    pub visited: usize,
    /// The number of comparisons of keys.
    pub compared: usize,
}

impl Probe {
    /// The counts of a lookup that reads no node.
    pub(crate) const NONE: Probe = Probe {
        visited: 0,
        compared: 0,
    };
}

/// A node that a search found.
#[derive(Drop)]
pub(crate) struct Found<K, V> {
    /// The node before it on its chain, if any.
    pub(crate) before: Option<Position<K, V>>,
    pub(crate) at: Position<K, V>,
}

/// How far a search has come along a chain.
#[derive(Drop)]
pub(crate) struct Reached<K, V> {
    /// The node before the next one, if any.
    before: Option<Position<K, V>>,
    /// The next node, if any.
    next: Option<Position<K, V>>,
    /// The counts of the nodes before.
    probe: Probe,
}

/// Up to so many buckets a lookup passes the first node of a chain without a branch. With more, it
/// waits for memory, and a branch that is predicted lets the processor fetch what comes next.
const FEW_BUCKETS: usize = 1 << 17;

/// Counts a node, and returns whether it has the hash and the key; compares the key only if the
/// hash is equal.
#[inline(always)]
fn step<K: Eq + Hash, V, Q: Equivalent<K>>(
    ring: &Ring<K, V>,
    at: Position<K, V>,
    hash: u64,
    key: Q,
    probe: &mut Probe,
) -> bool
    requires held { IsHeld ring.now.held (pointer_of at) }
    requires no_overflow { probe.old.visited + 1 < 2 ^ 64 }
    requires order { probe.old.compared ≤ probe.old.visited }
    ensures visited { probe.new.visited ≡ probe.old.visited + 1 }
    ensures compared { OfNodeAt ring.now.held (pointer_of at) (λ x.
        probe.new.compared ≡ probe.old.compared + count_with_hash (spot x ∷ []) hash) }
    ensures found { OfNodeAt ring.now.held (pointer_of at) (λ x.
        Compares (Q.equivalent key) hash x result) }
{
    probe.visited += 1;
    if ring.links(at).hash != hash {
        return false;
    }
    probe.compared += 1;
    key.equivalent(ring.key(at))
}

impl<K, V> Reached<K, V> {
    /// Begins at a node, with no count.
    fn new(next: Option<Position<K, V>>) -> Reached<K, V>
        ensures before { pointer_of_some result.before ≡ None }
        ensures next { pointer_of_some result.next ≡ pointer_of_some next }
        ensures visited { result.probe.visited ≡ 0 }
        ensures compared { result.probe.compared ≡ 0 }
    {
        Reached {
            before: None,
            next,
            probe: Probe::NONE,
        }
    }
}

impl<K: Eq + Hash, V> Index<K, V> {
    /// Follows the chain of a bucket from its head to the node with the key.
    fn search<Q: Equivalent<K>>(
        &self,
        ring: &Ring<K, V>,
        bucket: usize,
        hash: u64,
        key: Q,
    ) -> (Option<Found<K, V>>, Probe)
        requires of_hash { bucket ≡ hash % length self.now.heads }
        requires within { bucket < length self.now.heads }
        requires indexed { Indexes self.now (spots ring.now.held) }
        requires small { length ring.now.held < 2 ^ 64 }
        ensures found { IfSome result.0 (λ f.
            FindsKey (Q.equivalent key) hash self.now.heads ring.now.held
            (pointer_of_some f.before) (pointer_of f.at) result.1.visited result.1.compared) }
        ensures absent { IfNone result.0
            (FindsNone (Q.equivalent key) hash self.now.heads ring.now.held result.1.visited
            result.1.compared) }
    {
        let head = self.head(bucket).get();
        self.search_on(ring, Reached::new(head), hash, key)
    }

    /// Follows the rest of a chain to the node with the key. Every search of a chain reads the
    /// nodes here, except the first one in `begin`.
    #[inline(always)]
    pub(crate) fn search_on<Q: Equivalent<K>>(
        &self,
        ring: &Ring<K, V>,
        reached: Reached<K, V>,
        hash: u64,
        key: Q,
    ) -> (Option<Found<K, V>>, Probe)
        requires part { IsPart (Q.equivalent key) hash self.now.heads ring.now.held
            (pointer_of_some reached.before) (pointer_of_some reached.next) reached.probe.visited
            reached.probe.compared }
        requires small { length ring.now.held < 2 ^ 64 }
        ensures found { IfSome result.0 (λ f.
            FindsKey (Q.equivalent key) hash self.now.heads ring.now.held
            (pointer_of_some f.before) (pointer_of f.at) result.1.visited result.1.compared) }
        ensures absent { IfNone result.0
            (FindsNone (Q.equivalent key) hash self.now.heads ring.now.held result.1.visited
            result.1.compared) }
    {
        let mut probe = reached.probe;
        let mut before = reached.before;
        let mut pointer = reached.next;
        while let Some(at) = pointer {
            if step(ring, at, hash, key, &mut probe) {
                return (Some(Found { before, at }), probe);
            }
            before = pointer;
            pointer = ring.links(at).link.get();
        }
        (None, probe)
    }

    /// Begins a search at the first node of a chain, or behind it if that has another hash and is
    /// not the only one.
    ///
    /// Which of the first two nodes has the key cannot be predicted, so a conditional move chooses
    /// it: `&`, since `&&` may become a branch. That holds only where this and `search_on` are
    /// inlined, whatever the key.
    #[inline(always)]
    pub(crate) fn begin(&self, ring: &Ring<K, V>, first: Position<K, V>, hash: u64) -> Reached<K, V>
        requires first { slice_index_or self.now.heads (hash % length self.now.heads) None
            ≡ Some (pointer_of first) }
        requires within { hash % length self.now.heads < length self.now.heads }
        requires indexed { Indexes self.now (spots ring.now.held) }
        ensures part { (is_key : K → Bool) → IsPart is_key hash self.now.heads ring.now.held
            (pointer_of_some result.before) (pointer_of_some result.next) result.probe.visited
            result.probe.compared }
    {
        if FEW_BUCKETS < self.buckets() {
            return Reached::new(Some(first));
        }
        let links = ring.links(first);
        let next: Option<Position<K, V>> = links.link.get();
        if (links.hash != hash) & next.is_some() {
            Reached {
                before: Some(first),
                next: Some(links.link.position()),
                probe: Probe {
                    visited: 1,
                    compared: 0,
                },
            }
        } else {
            Reached::new(Some(first))
        }
    }

    /// Returns the position of the node with this hash and key, if any, and the counts. An absent
    /// key reaches the whole chain, and each key with its hash is compared.
    pub fn find(&self, ring: &Ring<K, V>, hash: u64, key: &K) -> (Option<Position<K, V>>, Probe)
        requires indexed { Indexes self.now (spots ring.now.held) }
        requires small { length ring.now.held < 2 ^ 64 }
        ensures found { IfSome result.0 (λ p.
            HasKey (K.eq key.now) hash ring.now.held (pointer_of p)) }
        ensures absent { IfNone result.0 (LacksKey (K.eq key.now) hash ring.now.held) }
        ensures counts_found { OnSome result.0
            (CountsSome (spots ring.now.held) (length self.now.heads) hash result.1.visited
            result.1.compared) }
        ensures counts_absent { IfNone result.0
            (CountsAll (spots ring.now.held) (length self.now.heads) hash result.1.visited
            result.1.compared) }
    {
        if self.buckets() == 0 {
            return (None, Probe::NONE);
        }
        let (found, probe) = self.search(ring, self.bucket_of(hash), hash, key);
        match found {
            Some(found) => (Some(found.at), probe),
            None => (None, probe),
        }
    }

    /// Removes the node with this hash and key from its chain, if any, and returns its position. It
    /// reads no node if the filter lacks the hash.
    pub fn take_out<Q: Equivalent<K>>(
        &mut self,
        ring: &mut Ring<K, V>,
        hash: u64,
        key: Q,
    ) -> Option<Position<K, V>>
        requires indexed { Indexes self.old (spots ring.old.held) }
        requires small { length ring.old.held < 2 ^ 64 }
        ensures found { IfSome result (λ at.
            HasKey (Q.equivalent key) hash ring.new.held (pointer_of at)) }
        ensures lacks { IfSome result (λ at. HoldsOthers self.new ring.new.held (pointer_of at)) }
        ensures absent { IfNone result (LacksKey (Q.equivalent key) hash ring.old.held) }
        ensures unchanged { IfNone result (self.new ≡ self.old) }
        ensures ring_unchanged { IfNone result (ring.new ≡ ring.old) }
        ensures links { ChangesLinks ring.old ring.new }
        ensures buckets { length self.new.heads ≡ length self.old.heads }
    {
        if self.buckets() == 0 {
            return None;
        }
        let bucket = self.bucket_of(hash);
        if !self.may_contain(bucket, hash) {
            return None;
        }
        let (found, _) = self.search(ring, bucket, hash, key);
        let found = found?;
        let at = found.at;
        self.unchain(ring, hash, found);
        Some(at)
    }
}
