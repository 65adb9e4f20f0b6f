//! Worked examples, and faults.

use super::support::checks::{check_eq, given};
use super::support::words::arguments;
use json_commands::help::HELP;
use json_commands::run::{parts_of, run_in_memory};
use std::alloc::Global;
use std::process::Abort;
use std::random::RandomSource;

/// The document of each run.
const INPUT: &str = "{\"a\": {\"b\": 1, \"c\": [2, 3]}, \"d e\": 2.50}";

/// Arguments, and the output of the run, which was found by hand.
const RUNS: [(&[&str], &str); 19] = [
    (
        &[],
        "{\n  \"a\": {\n    \"b\": 1,\n    \"c\": [\n      2,\n      3\n    ]\n  },\n  \"d e\": 2.50\n}\n",
    ),
    (
        &["--compact"],
        "{\"a\":{\"b\":1,\"c\":[2,3]},\"d e\":2.50}\n",
    ),
    (&["get /a/c/1"], "3\n"),
    (&["get /d e"], "2.50\n"),
    (&["get \"/d\\u0020e\""], "2.50\n"),
    (
        &["--compact", "get "],
        "{\"a\":{\"b\":1,\"c\":[2,3]},\"d e\":2.50}\n",
    ),
    (
        &["--compact", "set /a [ 1.0, {} ]"],
        "{\"a\":[1.0,{}],\"d e\":2.50}\n",
    ),
    (
        &["--compact", "set /a/c/- \"x\"", "get /a"],
        "{\"b\":1,\"c\":[2,3,\"x\"]}\n",
    ),
    (
        &["--compact", "set \"/d\\u0020e\" null", "remove /a"],
        "{\"d e\":null}\n",
    ),
    (&["set  7"], "7\n"),
    (&["set \"\" 7"], "7\n"),
    (
        &["--compact", "remove /a/c/0"],
        "{\"a\":{\"b\":1,\"c\":[3]},\"d e\":2.50}\n",
    ),
    (
        &["--compact", "rename /a f g"],
        "{\"f g\":{\"b\":1,\"c\":[2,3]},\"d e\":2.50}\n",
    ),
    (
        &["--compact", "rename /a \"f\\n\"", "get "],
        "{\"f\\n\":{\"b\":1,\"c\":[2,3]},\"d e\":2.50}\n",
    ),
    (
        &["--compact", "move /a after d e"],
        "{\"d e\":2.50,\"a\":{\"b\":1,\"c\":[2,3]}}\n",
    ),
    (
        &["--compact", "move /a/c before b", "get /a"],
        "{\"c\":[2,3],\"b\":1}\n",
    ),
    (
        &[
            "--compact",
            "merge {\"d e\": null, \"a\": {\"c\": 1, \"f\": {\"g\": null}}}",
        ],
        "{\"a\":{\"b\":1,\"c\":1,\"f\":{}}}\n",
    ),
    (
        &["--compact", "move /a after d e", "set /a/A 0", "sort "],
        "{\"a\":{\"A\":0,\"b\":1,\"c\":[2,3]},\"d e\":2.50}\n",
    ),
    (
        &["--compact", "get /a", "rename /b e", "set /f 0"],
        "{\"e\":1,\"c\":[2,3],\"f\":0}\n",
    ),
];

/// Checks a run: that it returns no stop, and its output.
fn check_run(rt: &(impl Abort + RandomSource), alloc: Global, words: &[&str], wanted: &str) {
    let words = given!(rt; arguments(alloc, words));
    let mut output = Vec::new(alloc);
    let done = run_in_memory(alloc, rt, words.as_slice(), INPUT.as_bytes(), &mut output);
    check_eq!(rt; (done, output.as_slice()), (Ok(()), wanted.as_bytes()));
}

/// Checks each run.
fn check_runs(rt: &(impl Abort + RandomSource), alloc: Global) {
    for (words, wanted) in RUNS {
        check_run(rt, alloc, words, wanted);
    }
}

#[test]
fn runs(rt: HostRuntime) {
    check_runs(&rt, rt.alloc());
}

/// Arguments, an input, and the status and the line of the fault.
type Faulty = (&'static [&'static str], &'static [u8], u8, &'static str);

const FAULTS: [Faulty; 20] = [
    (&["sort /b"], b"{\"a\": 1}", 1, "sort /b: absent"),
    (
        &["merge {\"a\": 1"],
        b"{}",
        2,
        "merge: no JSON from line 1, column 8 on",
    ),
    (&["remove /x"], b"{\"a\": 1}", 1, "remove /x: absent"),
    (&["get /a/b/c"], b"{\"a\": 1}", 1, "get /a/b/c: absent"),
    (
        &["rename /a b"],
        b"{\"a\": 1, \"b\": 2}",
        1,
        "rename /a: a name that is taken",
    ),
    (&["move /a before x"], b"{\"a\": 1}", 1, "move /a: absent"),
    (&["set /7 1"], b"[]", 1, "set /7: no index of the array"),
    (&["set a 1"], b"{\"a\": 1}", 1, "set a: no pointer"),
    (
        &["remove /a", "remove /a"],
        b"{\"a\": 1}",
        1,
        "remove /a: absent",
    ),
    (
        &["--compact", "get /b", "get /c"],
        b"{\"a\": 1}",
        1,
        "get /b: absent",
    ),
    (
        &["get /a", "frob /a 1"],
        b"{\"a\": 1}",
        2,
        "frob /a: no command",
    ),
    (
        &["--help", "get /a"],
        b"{\"a\": 1}",
        2,
        "--help: no command",
    ),
    (&["get"], b"{\"a\": 1}", 2, "get: no command"),
    (&[""], b"{\"a\": 1}", 2, ": no command"),
    (&["set /a"], b"{\"a\": 1}", 2, "set /a: no command"),
    (
        &["move /a behind b"],
        b"{\"a\": 1}",
        2,
        "move /a: no command",
    ),
    (
        &["rename /a \"b"],
        b"{\"a\": 1}",
        2,
        "rename /a: no JSON from line 1, column 1 on",
    ),
    (
        &["set /a [1,\n 2 3]"],
        b"{\"a\": 1}",
        2,
        "set /a: no JSON from line 2, column 4 on",
    ),
    (
        &["get /a"],
        b"[1,\n 2 3]",
        2,
        "input: no JSON from line 2, column 4 on",
    ),
    (&[], b"\"\xff\"", 2, "input or arguments are not UTF-8"),
];

/// Checks a run that stops: its status, its line, and that nothing is written.
fn check_fault(rt: &(impl Abort + RandomSource), alloc: Global, wanted: Faulty) {
    let words = given!(rt; arguments(alloc, wanted.0));
    let mut output = Vec::new(alloc);
    let mut faults = Vec::new(alloc);
    let texts = parts_of(words.as_slice()).1;
    let status = match run_in_memory(alloc, rt, words.as_slice(), wanted.1, &mut output) {
        Ok(()) => 0,
        Err(stop) => {
            given!(rt; stop.tell(texts, &mut faults));
            stop.status()
        }
    };
    let told = given!(rt; format!(in alloc; "json_edit: {}\n", wanted.3));
    check_eq!(rt;
        (status, faults.as_slice(), output.len()),
        (wanted.2, told.as_bytes(), 0)
    );
}

/// Checks each run that stops.
fn check_faults(rt: &(impl Abort + RandomSource), alloc: Global) {
    for wanted in FAULTS {
        check_fault(rt, alloc, wanted);
    }
}

#[test]
fn faults(rt: HostRuntime) {
    check_faults(&rt, rt.alloc());
}

#[test]
fn help(rt: HostRuntime) {
    check_run(&rt, rt.alloc(), &["--help"], HELP);
}
