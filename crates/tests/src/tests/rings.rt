//! The ring, and its nodes that are used again and move.
ghost use Rattle.std.specs.Prelude.{◌≡◌, [], ◌∷◌, ◌++◌, map, None};
ghost use Rattle.lhm_ring.specs.Ring.{IsHeld, AtHeld, held, unvalued};
ghost use Rattle.lhm_ring.specs.Pointer.{pointer_of};

use super::support::checks::{check, check_eq, given};
use lhm_ring::ring::{Drain, Iter, Position, Ring, TriplesMut};
use std::alloc::{AllocError, Global};
use std::iter::{DoubleEndedIterator, ExactSizeIterator, Iterator};
use std::mem::forget;
use std::process::Abort;
use std::rc::Rc;

/// Tells whether a ring holds exactly these hashes, keys and values, in order, and has this many
/// spare nodes.
pub fn is_ring(ring: &Ring<char, u64>, triples: &[(u64, char, u64)], spares: usize) -> bool {
    if ring.len() != triples.len() || ring.spares() != spares {
        return false;
    }
    let mut held = ring.iter();
    for triple in triples {
        if held.next() != Some((triple.0, &triple.1, &triple.2)) {
            return false;
        }
    }
    true
}

/// Makes a ring with this many spare nodes.
pub fn with_spares(rt: &impl Abort, alloc: Global, count: usize) -> Ring<char, u64>
    ensures { result.held ≡ [] }
{
    let mut ring = Ring::new(alloc);
    match ring.grow(count) {
        Ok(()) => ring,
        Err(AllocError) => panic!(rt; "out of memory"),
    }
}

/// Puts a triple into a spare node, and stops if there is none.
pub fn put(
    rt: &impl Abort,
    ring: &mut Ring<char, u64>,
    hash: u64,
    key: char,
    value: u64,
) -> Position<char, u64>
    ensures { ring.new.held ≡ ring.old.held
        ++ held (pointer_of result) hash None (key, value) ∷ [] }
{
    if ring.spares() == 0 {
        panic!(rt; "no spare node");
    }
    ring.put_back(hash, key, value)
}

#[test]
fn follows_the_worked_row(rt: HostRuntime) {
    let mut ring = with_spares(&rt, rt.alloc(), 3);
    let a = put(&rt, &mut ring, 7, 'a', 1);
    put(&rt, &mut ring, 7, 'b', 2);
    let c = put(&rt, &mut ring, 9, 'c', 3);
    check!(rt; is_ring(&ring, &[(7, 'a', 1), (7, 'b', 2), (9, 'c', 3)], 0));
    ring.move_to_back(a);
    check!(rt; is_ring(&ring, &[(7, 'b', 2), (9, 'c', 3), (7, 'a', 1)], 0));
    check_eq!(rt; ring.unlink(c), (9, 'c', 3));
    check!(rt; is_ring(&ring, &[(7, 'b', 2), (7, 'a', 1)], 1));
    drain_two(&rt, ring.splice_all());
    check!(rt; is_ring(&ring, &[], 3));
    ring.free_spares();
    check!(rt; is_ring(&ring, &[], 0));
}

/// Drains what `follows_the_worked_row` leaves.
fn drain_two(rt: &impl Abort, mut rest: Drain<'_, char, u64>) {
    check_eq!(rt; (rest.len(), rest.size_hint()), (2, (2, Some(2))));
    check_eq!(rt; rest.next(), Some((7, 'b', 2)));
    check_eq!(rt; rest.next(), Some((7, 'a', 1)));
    check_eq!(rt; rest.next(), None);
}

#[test]
fn hands_out_from_both_ends(rt: HostRuntime) {
    let mut ring = with_spares(&rt, rt.alloc(), 4);
    put(&rt, &mut ring, 1, 'a', 1);
    put(&rt, &mut ring, 2, 'b', 2);
    put(&rt, &mut ring, 3, 'c', 3);
    show_from_both_ends(&rt, ring.iter());
    write_from_both_ends(&rt, ring.iter_mut());
    check!(rt; is_ring(&ring, &[(1, 'a', 10), (2, 'b', 2), (3, 'c', 30)], 1));
    drain_from_both_ends(&rt, ring.splice_all());
}

fn show_from_both_ends(rt: &impl Abort, mut triples: Iter<'_, char, u64>) {
    check_eq!(rt;
        (triples.next_back(), triples.next(), triples.len()),
        (Some((3, &'c', &3)), Some((1, &'a', &1)), 1)
    );
    check_eq!(rt; (triples.next(), triples.next_back()), (Some((2, &'b', &2)), None));
}

fn write_from_both_ends(rt: &impl Abort, triples: TriplesMut<'_, char, u64>) {
    if let TriplesMut::Lent(mut lent) = triples {
        if let Some((hash, key, value)) = lent.step_back() {
            check_eq!(rt; (hash, *key, *value), (3, 'c', 3));
            *value = 30;
        }
        if let Some((hash, key, value)) = lent.step() {
            check_eq!(rt; (hash, *key, *value), (1, 'a', 1));
            *value = 10;
        }
        check_eq!(rt; lent.len(), 1);
    }
}

fn drain_from_both_ends(rt: &impl Abort, mut rest: Drain<'_, char, u64>) {
    check_eq!(rt; rest.next_back(), Some((3, 'c', 30)));
    check_eq!(rt; rest.next(), Some((1, 'a', 10)));
    check_eq!(rt; rest.next_back(), Some((2, 'b', 2)));
    check_eq!(rt; rest.next_back(), None);
}

/// Writes the hash of each triple into its value.
fn write_hashes(triples: TriplesMut<'_, char, u64>) {
    if let TriplesMut::Lent(mut lent) = triples {
        'each: while let Some((hash, _, value)) = lent.step() {
            *value = hash;
        }
    }
}

/// Writes each value, and reads the hash at `at`, which is where it was: no value is known, and all
/// else stands.
fn hash_after_writing(ring: &mut Ring<char, u64>, at: Position<char, u64>) -> u64
    requires { IsHeld ring.old.held (pointer_of at) }
    ensures hash { AtHeld ring.old.held (pointer_of at) (λ xs t ys. result ≡ t.hash) }
    ensures held { map unvalued ring.new.held ≡ map unvalued ring.old.held }
    ensures spares { ring.new.spares ≡ ring.old.spares }
{
    write_hashes(ring.iter_mut());
    ring.links(at).hash
}

#[test]
fn stays_except_for_values_after_writing(rt: HostRuntime) {
    let mut ring = with_spares(&rt, rt.alloc(), 3);
    put(&rt, &mut ring, 7, 'a', 1);
    let b = put(&rt, &mut ring, 9, 'b', 2);
    check_eq!(rt; hash_after_writing(&mut ring, b), 9);
    check!(rt; is_ring(&ring, &[(7, 'a', 7), (9, 'b', 9)], 1));
}

/// A ring whose keys and values are all the same counted one.
type CountedRing = Ring<Rc<u8>, Rc<u8>>;

/// Puts a triple into a spare node, if there is one.
fn put_counted(rt: &impl Abort, ring: &mut CountedRing, hash: u64, counted: &Rc<u8>) {
    let key = given!(rt; counted.clone());
    let value = given!(rt; counted.clone());
    if 0 < ring.spares() {
        ring.put_back(hash, key, value);
    }
}

/// Makes a ring of three triples and one spare node.
fn three_of(rt: &impl Abort, alloc: Global, counted: &Rc<u8>) -> CountedRing {
    let mut ring = Ring::new(alloc);
    check!(rt; ring.grow(4).is_ok());
    put_counted(rt, &mut ring, 0, counted);
    put_counted(rt, &mut ring, 1, counted);
    put_counted(rt, &mut ring, 2, counted);
    ring
}

#[test]
fn drops_what_a_ring_holds(rt: HostRuntime) {
    let counted = given!(rt; Rc::new(rt.alloc(), 0));
    let ring = three_of(&rt, rt.alloc(), &counted);
    check_eq!(rt; Rc::strong_count(&counted), 7);
    check_eq!(rt; (ring.len(), ring.spares()), (3, 1));
    drop(ring);
    check_eq!(rt; Rc::strong_count(&counted), 1);
}

#[test]
fn drops_nothing_that_moves(rt: HostRuntime) {
    let counted = given!(rt; Rc::new(rt.alloc(), 0));
    let mut ring = three_of(&rt, rt.alloc(), &counted);
    check!(rt; ring.compact().is_ok());
    check_eq!(rt; (ring.len(), ring.spares(), Rc::strong_count(&counted)), (3, 0, 7));
    drop(ring);
    check_eq!(rt; Rc::strong_count(&counted), 1);
}

#[test]
fn drops_what_was_not_handed_out(rt: HostRuntime) {
    let counted = given!(rt; Rc::new(rt.alloc(), 0));
    let mut ring = three_of(&rt, rt.alloc(), &counted);
    drop_last_first(&rt, &counted, ring.splice_all());
    check_eq!(rt; Rc::strong_count(&counted), 1);
    check_eq!(rt; (ring.len(), ring.spares()), (0, 4));
    drop(ring);
    check_eq!(rt; Rc::strong_count(&counted), 1);
}

/// Drops the last triple, and then what is left.
fn drop_last_first(rt: &impl Abort, counted: &Rc<u8>, mut rest: Drain<'_, Rc<u8>, Rc<u8>>) {
    let last = rest.next_back();
    check_eq!(rt; Rc::strong_count(counted), 7);
    drop(last);
    check_eq!(rt; Rc::strong_count(counted), 5);
}

#[test]
fn leaves_all_nodes_spare_where_a_drain_is_forgotten(rt: HostRuntime) {
    let counted = given!(rt; Rc::new(rt.alloc(), 0));
    let mut ring = three_of(&rt, rt.alloc(), &counted);
    forget_all_but_one(ring.splice_all());
    check_eq!(rt; (ring.len(), ring.spares()), (0, 4));
    put_counted(&rt, &mut ring, 5, &counted);
    check_eq!(rt; (ring.len(), ring.spares()), (1, 3));
    check_eq!(rt; Rc::strong_count(&counted), 7);
    drop(ring);
    check_eq!(rt; Rc::strong_count(&counted), 5);
}

/// Drops the first triple, and forgets the others.
fn forget_all_but_one(mut rest: Drain<'_, Rc<u8>, Rc<u8>>) {
    drop(rest.next());
    forget(rest);
}

#[test]
fn ends_with_nothing_held(rt: HostRuntime) {
    let empty: Ring<char, u64> = Ring::new(rt.alloc());
    drop(empty);
    let spares_only = with_spares(&rt, rt.alloc(), 2);
    drop(spares_only);
    let none_spare = with_spares(&rt, rt.alloc(), 0);
    check!(rt; is_ring(&none_spare, &[], 0));
    let destroyed = with_spares(&rt, none_spare.allocator(), 2);
    destroyed.destroy_empty();
}

#[test]
fn refuses_a_size_that_cannot_be_had(rt: HostRuntime) {
    let mut ring: Ring<char, u64> = Ring::new(rt.alloc());
    check_eq!(rt; ring.grow(usize::MAX), Err(AllocError));
    check_eq!(rt; ring.grow(2), Ok(()));
    put(&rt, &mut ring, 7, 'a', 1);
    check_eq!(rt; ring.grow(usize::MAX), Err(AllocError));
    check_eq!(rt; ring.grow(1 << 59), Err(AllocError));
    check!(rt; is_ring(&ring, &[(7, 'a', 1)], 1));
}

#[test]
fn uses_freed_nodes_again(rt: HostRuntime) {
    let mut ring = with_spares(&rt, rt.alloc(), 3);
    put(&rt, &mut ring, 7, 'a', 1);
    ring.free_spares();
    check!(rt; is_ring(&ring, &[(7, 'a', 1)], 0));
    check_eq!(rt; ring.grow(1), Ok(()));
    put(&rt, &mut ring, 8, 'b', 2);
    check_eq!(rt; ring.grow_within(2, 4), Ok(()));
    put(&rt, &mut ring, 9, 'c', 3);
    check!(rt; is_ring(&ring, &[(7, 'a', 1), (8, 'b', 2), (9, 'c', 3)], 1));
}

#[test]
fn moves_what_is_held_into_as_many_nodes(rt: HostRuntime) {
    let mut ring = with_spares(&rt, rt.alloc(), 5);
    put(&rt, &mut ring, 7, 'a', 1);
    let b = put(&rt, &mut ring, 8, 'b', 2);
    put(&rt, &mut ring, 9, 'c', 3);
    check_eq!(rt; ring.unlink(b), (8, 'b', 2));
    check_eq!(rt; ring.compact(), Ok(()));
    check!(rt; is_ring(&ring, &[(7, 'a', 1), (9, 'c', 3)], 0));
    check_eq!(rt; ring.iter().next_back(), Some((9, &'c', &3)));
    check_eq!(rt; ring.grow(1), Ok(()));
    put(&rt, &mut ring, 6, 'd', 4);
    check!(rt; is_ring(&ring, &[(7, 'a', 1), (9, 'c', 3), (6, 'd', 4)], 0));
}
