//! Sorts of a table, against those of a vector.

use super::support::checks::{check, given};
use lhm_ring::table::Table;
use std::alloc::Global;
use std::process::Abort;

#[test]
fn sorts_as_vectors_do(rt: HostRuntime) {
    sort_lists(&rt, rt.alloc(), 100);
}

/// Sorts so many lists, of 0 to 199 pairs, of values that tie or do not.
fn sort_lists(rt: &impl Abort, alloc: Global, count: u64) {
    let mut state = 1;
    for turn in 0..count {
        state = next_number(state);
        let len = state % 200;
        let most = if turn % 2 == 0 { 3 } else { 1000000 };
        let mut pairs = Vec::new(alloc);
        for key in 0..len {
            state = next_number(state);
            given!(*rt; pairs.push((key, state % most)));
        }
        sort_pairs(rt, alloc, pairs);
    }
}

/// Returns a number that looks random.
fn next_number(state: u64) -> u64 {
    let mixed = state
        .wrapping_mul(6364136223846793005)
        .wrapping_add(1442695040888963407);
    mixed ^ (mixed >> 33)
}

/// Sorts pairs in a table and in the vector, by value: the keys show that pairs that tie keep their
/// order. The table compares at most as often as it says.
fn sort_pairs(rt: &impl Abort, alloc: Global, mut pairs: Vec<(u64, u64)>) {
    let mut table = table_of(rt, alloc, &pairs);
    let mut calls: u64 = 0;
    table.sort_by(|_key: &u64, value: &u64, _other_key: &u64, other: &u64| {
        calls = calls.wrapping_add(1);
        value.cmp(other)
    });
    given!(*rt; pairs.sort_by(|pair: &(u64, u64), other: &(u64, u64)| pair.1.cmp(&other.1)));
    check!(*rt; is_table(&table, &pairs));
    check!(*rt; calls <= most_comparisons(pairs.len() as u64));
    drop(table.into_iter());
}

/// Returns the number of pairs times its logarithm, rounded up.
fn most_comparisons(len: u64) -> u64 {
    let zeros = len.wrapping_sub(1).leading_zeros() as u64;
    len.wrapping_mul(64u64.wrapping_sub(zeros))
}

/// Makes a table of these pairs, and stops if they are too many.
fn table_of(rt: &impl Abort, alloc: Global, pairs: &[(u64, u64)]) -> Table<u64, u64> {
    let len = pairs.len();
    if len > 1000 {
        panic!(rt; "too many pairs");
    }
    let mut table = given!(*rt; Table::with_capacity(alloc, len));
    for pair in pairs {
        if table.is_full() {
            panic!(rt; "no room");
        }
        table.push_back(pair.0, pair.0, pair.1);
    }
    table
}

/// Returns whether a table holds exactly these pairs, in order.
fn is_table(table: &Table<u64, u64>, pairs: &[(u64, u64)]) -> bool {
    let mut held = table.iter();
    for pair in pairs {
        if held.next() != Some((pair.0, &pair.0, &pair.1)) {
            return false;
        }
    }
    held.next() == None
}
