//! Runs calls of the public API of the map, the cache, the set and the table of sessions from
//! standard input to standard output, one a line.
//!
//! `compare/run` compares the output with that of the Rust crates linked-hash-map 0.5.6, lru-cache
//! 0.1.2 and hashlink 0.8.0, and `compare/run --help` says what the lines are. What is proved of
//! this program is that it is safe and ends.
//!
//! A line of the output ends with the effects of the call: what it dropped, and how often it
//! hashed, compared and cloned. A call that is refused memory answers what it hands back. A line
//! that begins with `#` is printed as it is, and everything is made anew.
//!
//! The exit status is 0; 3 if an allocation of the program itself fails; 4 if the input is no text,
//! or reading or writing fails.
#![tactic(auto)]

mod cache_fills;
mod cache_replays;
mod caches;
mod call;
mod changes;
mod collecting;
mod comparisons;
mod copied;
mod counts;
mod entries;
mod fills;
mod hasher;
mod identity;
mod insertions;
mod iterators;
mod iterators_from;
mod key;
mod list;
mod lookups;
mod making;
mod marks;
mod order;
mod pair_lists;
mod refusal;
mod refused_texts;
mod replays;
mod retaining;
mod sessions;
mod set_fills;
mod set_making;
mod set_operations;
mod set_order;
mod set_refused_texts;
mod sets;
mod sorts;
mod stop;
mod value;
mod visits;

use caches::Cache;
use call::Call;
use counts::Counts;
use hasher::BuildKeyHasher;
use key::Key;
use linked_hash_map::LinkedHashMap;
use sessions::Table;
use sets::Set;
use std::alloc::Global;
use std::io;
use std::io::{Read, Write};
use std::process::ExitCode;
use std::rc::Rc;
use stop::Stop;
use value::Value;

/// The maps that the lines speak of.
type Map = LinkedHashMap<Key, Value, BuildKeyHasher>;

/// What the lines speak of: two maps, two caches, two sets and two tables of sessions.
#[derive(Drop)]
struct All {
    map_a: Map,
    map_b: Map,
    cache_a: Cache,
    cache_b: Cache,
    set_a: Set,
    set_b: Set,
    table_a: Table,
    table_b: Table,
}

impl All {
    /// Makes them, all empty.
    fn new(alloc: Global) -> All {
        All {
            map_a: Map::with_hasher(alloc, BuildKeyHasher::default()),
            map_b: Map::with_hasher(alloc, BuildKeyHasher::default()),
            cache_a: Cache::with_hasher(alloc, 0, BuildKeyHasher::default()),
            cache_b: Cache::with_hasher(alloc, 0, BuildKeyHasher::default()),
            set_a: Set::with_hasher(alloc, BuildKeyHasher::default()),
            set_b: Set::with_hasher(alloc, BuildKeyHasher::default()),
            table_a: Table::new(alloc, 0),
            table_b: Table::new(alloc, 0),
        }
    }
}

/// Runs the call of a line that only reads `map` and, if it takes two, `other` too, and returns
/// whether there is one.
fn read_map(call: &Call, map: &Map, other: &Map) -> bool {
    match call.name() {
        "pair_lists" => pair_lists::show_calls(call, map),
        "refused_texts" => refused_texts::show_all(call),
        "extend_copied_refs" => copied::extend_by_refs(false, call, map, other),
        "extend_trait_refs" => copied::extend_by_refs(true, call, map, other),
        _ => {
            return lookups::run(call, map)
                || iterators::run(call, map)
                || comparisons::run(call, map, other);
        }
    }
    true
}

/// Runs the call of a line that changes one map, and returns whether there is one.
fn change_map(call: &Call, map: &mut Map) -> bool {
    match call.name() {
        "retain" => retaining::retain(map, call),
        "replay" => replays::replay_all(call, map),
        "fill" => fills::fill(map, call),
        "refuse_clone" => call.refuse_clone(),
        _ => {
            return lookups::run_to_write(call, map)
                || changes::run(call, map)
                || order::run(call, map)
                || insertions::run(call, map)
                || visits::run(call, map)
                || iterators::run_to_take(call, map)
                || sorts::run(call, map);
        }
    }
    true
}

/// Runs the call of a line on `map` and, if it takes two, on `other` too, appends what it returns
/// and the list of `map`, and returns whether there is such a call.
fn run_on_map(call: &Call, map: &mut Map, other: &mut Map) -> bool {
    let is_known = read_map(call, map, other)
        || change_map(call, map)
        || making::run(call, map, other)
        || collecting::run(call, map, other);
    if is_known {
        call.push_str("|");
        list::list(map.len(), map.iter(), call);
    }
    is_known
}

/// Runs the call of a line on what it names, and returns whether there is such a call. The first
/// window is open when the call begins. `set_mode` is a call of a map.
fn run_call(call: &Call, all: &mut All) -> bool {
    let is_b = call.word() == "b";
    call.begin();
    if call.strip_prefix("cache_") {
        if is_b {
            caches::run(call, &mut all.cache_b, &all.cache_a)
        } else {
            caches::run(call, &mut all.cache_a, &all.cache_b)
        }
    } else if call.name() != "set_mode" && call.strip_prefix("set_") {
        if is_b {
            sets::run(call, &mut all.set_b, &mut all.set_a)
        } else {
            sets::run(call, &mut all.set_a, &mut all.set_b)
        }
    } else if call.strip_prefix("sessions_") {
        if is_b {
            sessions::run(call, &mut all.table_b)
        } else {
            sessions::run(call, &mut all.table_a)
        }
    } else if is_b {
        run_on_map(call, &mut all.map_b, &mut all.map_a)
    } else {
        run_on_map(call, &mut all.map_a, &mut all.map_b)
    }
}

/// Runs the lines on new maps, caches, sets and tables, and returns the whole text of the output.
/// For a line that is no call that is `unknown`. A line that begins with `#` makes everything anew.
fn respond(alloc: Global, lines: &'static str) -> Result<String, Stop> {
    let Ok(counts) = Rc::new(alloc, Counts::new()) else {
        return Err(Stop::OutOfMemory);
    };
    let call = Call::new(alloc, counts);
    let mut all = All::new(alloc);
    for text in lines.lines() {
        call.begin_line(text);
        if text.starts_with('#') {
            all = All::new(alloc);
            call.push_str(text);
            call.push_str("\n");
        } else if run_call(&call, &mut all) {
            call.end_line();
        } else {
            call.push_str("unknown\n");
        }
    }
    call.finish()
}

/// Reads all lines, runs them and writes the output.
fn run<R: Read + Drop, W: Write>(alloc: Global, input: R, writer: &mut W) -> Result<(), Stop> {
    let lines = io::read_to_string(alloc, input)?;
    let Ok(lines) = Box::new(alloc, lines) else {
        return Err(Stop::OutOfMemory);
    };
    let text = respond(alloc, Box::leak(lines).as_str())?;
    writer.write_all(text.as_bytes())?;
    writer.flush()?;
    Ok(())
}

fn main(rt: HostRuntime) -> ExitCode {
    match run(rt.alloc(), rt.stdin(), &mut rt.stdout()) {
        Ok(()) => ExitCode::from(0),
        Err(stop) => ExitCode::from(stop.status()),
    }
}
