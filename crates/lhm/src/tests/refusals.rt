//! Runs with a growth refused.
//!
//! The tests named `refused_` run with the Nth growth refused, for each N, until all of them say
//! that every growth was given, and how many there are. That number is counted by hand. A vector of
//! bytes grows to 8, and one of commands or of pairs to 4, and each doubles from there. The room of
//! the replies is one growth, and so is the list of a draining. A map asks for its buckets and a
//! chunk at its first pair, and for a chunk at its third.

use super::support::checks::{check_eq, given};
use super::support::fakes::{Sink, Source};
use crate::run;
use lhm_commands::text::push_replies;
use linked_hash_map::replay::{Answer, Reply};
use std::alloc::Global;
use std::process::Abort;

/// A way for a run to end: its status, its output and its faults.
type Way = (u8, &'static str, &'static str);

const OUT_OF_MEMORY: Way = (3, "", "out of memory\n");

/// Tells whether a run ended in this way.
fn is_way(way: Way, status: u8, output: &str, faults: &str) -> bool {
    way.0 == status && way.1 == output && way.2 == faults
}

/// Tells whether a run ended in one of the ways, and whether in the last.
fn find_way(ways: &[Way], status: u8, output: &str, faults: &str) -> (bool, bool) {
    let mut found = false;
    let mut is_last = false;
    for way in ways {
        is_last = is_way(*way, status, output, faults);
        found = found || is_last;
    }
    (found, is_last)
}

/// Says that no growth was refused, if that is so, and how many there are.
pub fn say_if_given(rt: &impl Print, given: bool, growths: u64) {
    if given {
        let _ = println!(rt; "every growth was given, {growths} in all");
    }
}

/// Checks that one run over memory ends in one of the ways, and says so if it is the last, in
/// which no growth is refused.
fn check_ways(rt: &(impl Abort + Print), alloc: Global, input: &[u8], ways: &[Way], growths: u64) {
    let mut reader = Source::new(input);
    let mut output = Sink::new();
    let mut faults = Sink::new();
    let status = run(alloc, &mut reader, &mut output, &mut faults);
    let (found, is_last) = find_way(ways, status, output.text(), faults.text());
    check_eq!(rt;
        (status, output.text(), faults.text(), found),
        (status, output.text(), faults.text(), true)
    );
    say_if_given(rt, is_last, growths);
}

#[test]
fn refused_growth_of_an_empty_run(rt: HostRuntime) {
    let ways = [OUT_OF_MEMORY, (0, "list\n", "")];
    // The text of the list.
    check_ways(&rt, rt.alloc(), b"", &ways, 1);
}

#[test]
fn refused_growth_before_a_line_that_is_no_command(rt: HostRuntime) {
    let ways = [OUT_OF_MEMORY, (2, "", "line 2: not a command\n")];
    // 19 bytes of input, to 32, and a command.
    check_ways(&rt, rt.alloc(), b"insert 1 10\nremove\n", &ways, 4);
}

#[test]
fn refused_growth_of_a_run(rt: HostRuntime) {
    let ways = [
        OUT_OF_MEMORY,
        // The map's own growth is refused at the first insertion, or at the third, or nothing is
        // refused.
        (
            0,
            "refused 1 10 len=0 cap=0\nnew len=1 cap=1\nnew len=2 cap=2\nnew len=3 cap=3\nold 11 len=2 cap=3\nlist 2:20 3:30\n",
            "",
        ),
        (
            0,
            "new len=1 cap=1\nnew len=2 cap=2\nrefused 3 30 len=2 cap=2\nold 10 len=2 cap=2\nold 11 len=1 cap=2\nlist 2:20\n",
            "",
        ),
        (
            0,
            "new len=1 cap=1\nnew len=2 cap=2\nnew len=3 cap=3\nold 10 len=3 cap=3\nold 11 len=2 cap=3\nlist 2:20 3:30\n",
            "",
        ),
    ];
    let input = b"insert 1 10\ninsert 2 20\ninsert 3 30\ninsert 1 11\nremove 1\n";
    // 57 bytes of input, to 64, five commands, to 8, the replies, the first and the third pair of
    // the map, and 101 bytes of output, to 128.
    check_ways(&rt, rt.alloc(), input, &ways, 15);
}

#[test]
fn refused_growth_of_an_extension(rt: HostRuntime) {
    let ways = [
        OUT_OF_MEMORY,
        (0, "stopped 0 1 10 len=0 cap=0\nlist\n", ""),
        (0, "stopped 2 3 30 len=2 cap=2\nlist 1:10 2:20\n", ""),
        (0, "done len=3 cap=3\nlist 1:10 2:20 3:30\n", ""),
    ];
    // 22 bytes of input, to 32, the pairs, a command, the replies, the first and the third pair of
    // the map, and 37 bytes of output, to 64.
    check_ways(&rt, rt.alloc(), b"extend 1 10 2 20 3 30\n", &ways, 13);
}

#[test]
fn refused_growth_of_a_draining(rt: HostRuntime) {
    let ways = [
        OUT_OF_MEMORY,
        (0, "refused 1 1 len=0 cap=0\npairs len=0 cap=0\nlist\n", ""),
        (0, "new len=1 cap=1\nnoroom len=1 cap=1\nlist 1:1\n", ""),
        (0, "new len=1 cap=1\npairs 1:1 len=0 cap=1\nlist\n", ""),
    ];
    // 17 bytes of input, to 32, the commands, the replies, a pair of the map, its list, and 43
    // bytes of output, to 64.
    check_ways(&rt, rt.alloc(), b"insert 1 1\ndrain\n", &ways, 12);
}

/// Checks the line of a reply. Its text has room, so that nothing is refused.
fn check_reply(rt: &impl Abort, alloc: Global, answer: Answer<u64, u64>, line: &str) {
    let mut text = given!(rt; String::with_capacity(alloc, 64));
    let reply = Reply {
        answer,
        len: 2,
        capacity: 3,
    };
    let _ = given!(rt; push_replies(&mut text, &[reply]));
    check_eq!(rt; text.as_str(), line);
}

#[test]
fn answers_to_refusals_are_written_where_there_is_room(rt: HostRuntime) {
    let alloc = rt.alloc();
    check_reply(
        &rt,
        alloc,
        Answer::Refused(1, 10),
        "refused 1 10 len=2 cap=3\n",
    );
    check_reply(
        &rt,
        alloc,
        Answer::Stopped(4, 1, 10),
        "stopped 4 1 10 len=2 cap=3\n",
    );
    check_reply(&rt, alloc, Answer::NoRoom, "noroom len=2 cap=3\n");
}
