//! Each growth of a ring refused in turn.
//!
//! The tests hold whichever one of their growths is refused. If none was, a test says so, and how
//! many it asks for, which is counted by hand. The last growth is one that the test asks for
//! itself, behind the calls. So a growth whose refusal a call ignores is seen too.

use super::references::say_if_given;
use super::rings::is_ring;
use super::support::checks::check;
use lhm_ring::ring::Ring;
use std::alloc::{AllocError, Global};
use std::process::Abort;

#[test]
fn refused_growth_leaves_an_empty_ring(rt: HostRuntime) {
    grow_empty(&rt, Ring::new(rt.alloc()));
}

fn grow_empty(rt: &(impl Abort + Print + AllocGlobal), mut ring: Ring<char, u64>) {
    // The growth: a chunk.
    match ring.grow(3) {
        Ok(()) => {
            check!(rt; is_ring(&ring, &[], 3));
            say_if_given(rt, true, 2);
        }
        Err(AllocError) => check!(rt; is_ring(&ring, &[], 0)),
    }
}

#[test]
fn refused_growth_leaves_what_is_held(rt: HostRuntime) {
    grow_twice(&rt, Ring::new(rt.alloc()));
}

fn grow_twice(rt: &(impl Abort + Print + AllocGlobal), mut ring: Ring<char, u64>) {
    // The growth: a chunk.
    if let Ok(()) = ring.grow(2) {
        ring.put_back(7, 'a', 1);
        grow_held(rt, ring);
    }
}

fn grow_held(rt: &(impl Abort + Print + AllocGlobal), mut ring: Ring<char, u64>) {
    // The growth: another chunk.
    match ring.grow(3) {
        Ok(()) => {
            check!(rt; is_ring(&ring, &[(7, 'a', 1)], 4));
            say_if_given(rt, true, 3);
        }
        Err(AllocError) => check!(rt; is_ring(&ring, &[(7, 'a', 1)], 1)),
    }
}

#[test]
fn refused_growth_by_one_is_asked_for_again(rt: HostRuntime) {
    // The growth: a chunk.
    grow_by_one(&rt, Ring::with_spares(rt.alloc(), 3));
}

fn grow_by_one(rt: &(impl Abort + Print + AllocGlobal), made: Result<Ring<char, u64>, AllocError>) {
    if let Ok(mut ring) = made {
        // The growths: a chunk of two nodes for the fourth, and a chunk of one for the sixth, the
        // seventh, the eighth and the ninth.
        let given = grow_six_times(rt, &mut ring);
        check!(rt; is_ring(&ring, &[], 9));
        say_if_given(rt, given, 7);
    }
}

/// Makes nodes spare one by one, in chunks that make at most six nodes in all, if that can be.
/// Tells whether none was refused.
fn grow_six_times(rt: &impl Abort, ring: &mut Ring<char, u64>) -> bool {
    let mut given = true;
    for spares in 3..9 {
        given &= grow_or_grow_again(rt, ring, spares, 6);
    }
    given
}

/// Makes one more node spare, twice if it is refused, which changes nothing, in chunks that make
/// at most `most` nodes in all, if that can be. Tells whether it was given at once.
fn grow_or_grow_again(
    rt: &impl Abort,
    ring: &mut Ring<char, u64>,
    spares: usize,
    most: usize,
) -> bool {
    check!(rt; is_ring(ring, &[], spares));
    let given = ring.grow_within(1, most).is_ok();
    if !given {
        check!(rt; is_ring(ring, &[], spares));
        // There is memory again.
        check!(rt; ring.grow_within(1, most).is_ok());
    }
    given
}

#[test]
fn refused_growth_of_many_chunks_is_asked_for_again(rt: HostRuntime) {
    let mut ring = Ring::new(rt.alloc());
    // The growths: 66 chunks of one node.
    let given = grow_one_by_one(&rt, &mut ring);
    say_if_given(&rt, given, 67);
}

/// Makes nodes spare one by one, in chunks of one. Tells whether none was refused.
fn grow_one_by_one(rt: &impl Abort, ring: &mut Ring<char, u64>) -> bool {
    let mut given = true;
    for spares in 0..66 {
        given &= grow_or_grow_again(rt, ring, spares, 0);
    }
    given
}

#[test]
fn refused_growth_is_not_asked_for_by_nodes_that_were_spare(rt: HostRuntime) {
    grow_again(&rt, rt.alloc());
}

fn grow_again(rt: &(impl Abort + Print + AllocGlobal), alloc: Global) {
    // The growth: a chunk.
    if let Ok(mut ring) = Ring::with_spares(alloc, 3) {
        ring.put_back(7, 'a', 1);
        ring.free_spares();
        check!(rt; is_ring(&ring, &[(7, 'a', 1)], 0));
        check!(rt; ring.grow(1).is_ok());
        check!(rt; ring.grow_within(1, 4).is_ok());
        check!(rt; is_ring(&ring, &[(7, 'a', 1)], 2));
        say_if_given(rt, true, 2);
    }
}

#[test]
fn refused_compaction_leaves_the_ring(rt: HostRuntime) {
    compact_two(&rt, rt.alloc());
}

fn compact_two(rt: &(impl Abort + Print + AllocGlobal), alloc: Global) {
    // The growth: a chunk.
    if let Ok(mut ring) = Ring::with_spares(alloc, 3) {
        ring.put_back(7, 'a', 1);
        ring.put_back(9, 'b', 2);
        compact(rt, ring);
    }
}

fn compact(rt: &(impl Abort + Print + AllocGlobal), mut ring: Ring<char, u64>) {
    // The growth: another chunk.
    match ring.compact() {
        Ok(()) => {
            check!(rt; is_ring(&ring, &[(7, 'a', 1), (9, 'b', 2)], 0));
            say_if_given(rt, true, 3);
        }
        Err(AllocError) => check!(rt; is_ring(&ring, &[(7, 'a', 1), (9, 'b', 2)], 1)),
    }
}
