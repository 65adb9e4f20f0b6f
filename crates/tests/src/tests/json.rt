//! JSON documents, with each of their growths refused in turn: what is read or made is then asked
//! for again, and an edit has changed nothing.
//!
//! A read asks for 38 growths: one of the reader, the texts of 12 names, 7 numbers and 2 strings,
//! one list, and for each of the four objects a box, buckets and a chunk, and another chunk for the
//! third member of three. Each test asks for one more itself.

use super::references::say_if_given;
use super::support::checks::{check, check_eq, given};
use ordered_json::{EditError, ReadError, Value, from_str, to_string, to_string_pretty};
use std::alloc::{AllocError, Global};
use std::hash::RandomState;
use std::process::Abort;

/// A document of 12 members on 3 levels, and its text in lines.
const TEXT: &str = "{\"id\":1,\"net\":{\"host\":\"h\",\"ports\":{\"a\":80,\"b\":443},\"tls\":true},\
    \"log\":{\"level\":0,\"file\":\"f\",\"keep\":[1,2]},\"port\":8080}";

const PRETTY: &str = "{\n  \"id\": 1,\n  \"net\": {\n    \"host\": \"h\",\n    \"ports\": {\n      \
    \"a\": 80,\n      \"b\": 443\n    },\n    \"tls\": true\n  },\n  \"log\": {\n    \"level\": 0,\n    \
    \"file\": \"f\",\n    \"keep\": [\n      1,\n      2\n    ]\n  },\n  \"port\": 8080\n}";

/// Reads the document. Returns it, and whether nothing was refused, as the calls below do.
fn read(rt: &impl Abort, alloc: Global, hasher: RandomState) -> (Value, bool) {
    read_text(rt, alloc, hasher, TEXT)
}

fn read_text(rt: &impl Abort, alloc: Global, hasher: RandomState, text: &str) -> (Value, bool) {
    match from_str(alloc, hasher, text) {
        Ok(value) => (value, true),
        Err(error) => {
            check_eq!(rt; error, ReadError::NoRoom);
            (given!(rt; from_str(alloc, hasher, text)), false)
        }
    }
}

/// Checks the text of a document.
fn assert_writes(rt: &impl Abort, alloc: Global, document: &Value, text: &str) {
    check_eq!(rt; given!(rt; to_string(alloc, document)).as_str(), text);
}

fn write(rt: &impl Abort, alloc: Global, document: &Value, text: &str) -> bool {
    match to_string(alloc, document) {
        Ok(written) => {
            check_eq!(rt; written.as_str(), text);
            true
        }
        Err(AllocError) => {
            assert_writes(rt, alloc, document, text);
            false
        }
    }
}

fn write_pretty(rt: &impl Abort, alloc: Global, document: &Value, text: &str) -> bool {
    match to_string_pretty(alloc, document) {
        Ok(written) => {
            check_eq!(rt; written.as_str(), text);
            true
        }
        Err(AllocError) => {
            check_eq!(rt; given!(rt; to_string_pretty(alloc, document)).as_str(), text);
            false
        }
    }
}

#[test]
fn refused_reads_and_writes_are_made_again(rt: HostRuntime) {
    // The growths besides: 5 of a text up to 128 bytes, and 6 of one up to 256.
    let hasher = given!(rt; RandomState::new(&rt));
    let (document, mut given) = read(&rt, rt.alloc(), hasher);
    given &= write(&rt, rt.alloc(), &document, TEXT);
    given &= write_pretty(&rt, rt.alloc(), &document, PRETTY);
    say_if_given(&rt, given, 50);
}

fn copy(rt: &impl Abort, document: &Value) -> (Value, bool) {
    match document.clone() {
        Ok(copy) => (copy, true),
        Err(AllocError) => (given!(rt; document.clone()), false),
    }
}

#[test]
fn refused_clone_is_made_again(rt: HostRuntime) {
    // The growths besides: as many for the clone, which has no reader.
    let hasher = given!(rt; RandomState::new(&rt));
    let (document, mut given) = read(&rt, rt.alloc(), hasher);
    let (other, copied) = copy(&rt, &document);
    given &= copied;
    check!(rt; other == document);
    say_if_given(&rt, given, 76);
}

/// Checks that an edit was refused for its memory, and left a document of this text.
fn assert_refused(
    rt: &impl Abort,
    alloc: Global,
    document: &Value,
    error: EditError,
    before: &str,
) {
    check_eq!(rt; error, EditError::NoRoom);
    assert_writes(rt, alloc, document, before);
}

fn set(
    rt: &impl Abort,
    alloc: Global,
    document: &mut Value,
    (pointer, value): (&str, Value),
    before: &str,
) -> bool {
    match document.set(pointer, value, alloc) {
        Ok(()) => true,
        Err(refused) => {
            assert_refused(rt, alloc, document, refused.error, before);
            check!(rt; document.set(pointer, refused.value, alloc).is_ok());
            false
        }
    }
}

fn remove(
    rt: &impl Abort,
    alloc: Global,
    document: &mut Value,
    pointer: &str,
    before: &str,
) -> bool {
    match document.remove(pointer, alloc) {
        Ok(_value) => true,
        Err(error) => {
            assert_refused(rt, alloc, document, error, before);
            check!(rt; document.remove(pointer, alloc).is_ok());
            false
        }
    }
}

fn rename(
    rt: &impl Abort,
    alloc: Global,
    document: &mut Value,
    (pointer, to): (&str, &str),
    before: &str,
) -> bool {
    match document.rename(pointer, to, alloc) {
        Ok(()) => true,
        Err(error) => {
            assert_refused(rt, alloc, document, error, before);
            check_eq!(rt; document.rename(pointer, to, alloc), Ok(()));
            false
        }
    }
}

fn move_before(
    rt: &impl Abort,
    alloc: Global,
    document: &mut Value,
    (pointer, other): (&str, &str),
    before: &str,
) -> bool {
    match document.move_before(pointer, other, alloc) {
        Ok(()) => true,
        Err(error) => {
            assert_refused(rt, alloc, document, error, before);
            check_eq!(rt; document.move_before(pointer, other, alloc), Ok(()));
            false
        }
    }
}

fn move_after(
    rt: &impl Abort,
    alloc: Global,
    document: &mut Value,
    (pointer, other): (&str, &str),
    before: &str,
) -> bool {
    match document.move_after(pointer, other, alloc) {
        Ok(()) => true,
        Err(error) => {
            assert_refused(rt, alloc, document, error, before);
            check_eq!(rt; document.move_after(pointer, other, alloc), Ok(()));
            false
        }
    }
}

const SET_MEMBER: &str =
    "{\"id\":1,\"net\":{\"host\":\"h\",\"ports\":{\"a\":80,\"b\":443,\"c\":null},\
    \"tls\":true},\"log\":{\"level\":0,\"file\":\"f\",\"keep\":[1,2]},\"port\":8080}";

const SET_BOTH: &str =
    "{\"id\":1,\"net\":{\"host\":\"h\",\"ports\":{\"a\":80,\"b\":443,\"c\":null},\
    \"tls\":true},\"log\":{\"level\":0,\"file\":\"f\",\"keep\":[1,2,true]},\"port\":8080}";

#[test]
fn refused_values_are_not_set(rt: HostRuntime) {
    // The growths besides: the lists of names and 6 names, a chunk for a third member, and 6 of the
    // text.
    let hasher = given!(rt; RandomState::new(&rt));
    let (mut document, mut given) = read(&rt, rt.alloc(), hasher);
    given &= set(
        &rt,
        rt.alloc(),
        &mut document,
        ("/net/ports/c", Value::Null),
        TEXT,
    );
    given &= set(
        &rt,
        rt.alloc(),
        &mut document,
        ("/log/keep/-", Value::Bool(true)),
        SET_MEMBER,
    );
    given &= write(&rt, rt.alloc(), &document, SET_BOTH);
    say_if_given(&rt, given, 54);
}

const REMOVED: &str = "{\"id\":1,\"net\":{\"host\":\"h\",\"ports\":{\"b\":443},\"tls\":true},\
    \"log\":{\"level\":0,\"file\":\"f\",\"keep\":[1,2]},\"port\":8080}";

const RENAMED: &str = "{\"id\":1,\"net\":{\"host\":\"h\",\"ports\":{\"b\":443},\"tls\":true},\
    \"log\":{\"level\":0,\"path\":\"f\",\"keep\":[1,2]},\"port\":8080}";

#[test]
fn refused_removals_and_new_names_change_nothing(rt: HostRuntime) {
    // The growths besides: the lists of names and 5 names, a new name, and 5 of the text.
    let hasher = given!(rt; RandomState::new(&rt));
    let (mut document, mut given) = read(&rt, rt.alloc(), hasher);
    given &= remove(&rt, rt.alloc(), &mut document, "/net/ports/a", TEXT);
    given &= rename(
        &rt,
        rt.alloc(),
        &mut document,
        ("/log/file", "path"),
        REMOVED,
    );
    given &= write(&rt, rt.alloc(), &document, RENAMED);
    say_if_given(&rt, given, 52);
}

const MOVED: &str =
    "{\"id\":1,\"net\":{\"host\":\"h\",\"ports\":{\"b\":443,\"a\":80},\"tls\":true},\
    \"log\":{\"level\":0,\"file\":\"f\",\"keep\":[1,2]},\"port\":8080}";

const MOVED_BOTH: &str = "{\"id\":1,\"net\":{\"host\":\"h\",\"ports\":{\"b\":443,\"a\":80},\
    \"tls\":true},\"log\":{\"file\":\"f\",\"keep\":[1,2],\"level\":0},\"port\":8080}";

#[test]
fn refused_moves_change_nothing(rt: HostRuntime) {
    // The growths besides: the lists of names and 5 names, and 5 of the text.
    let hasher = given!(rt; RandomState::new(&rt));
    let (mut document, mut given) = read(&rt, rt.alloc(), hasher);
    given &= move_before(&rt, rt.alloc(), &mut document, ("/net/ports/b", "a"), TEXT);
    given &= move_after(
        &rt,
        rt.alloc(),
        &mut document,
        ("/log/level", "keep"),
        MOVED,
    );
    given &= write(&rt, rt.alloc(), &document, MOVED_BOTH);
    say_if_given(&rt, given, 51);
}

/// A patch with a new member for each of three objects that are there, which removes a member of a
/// fourth one.
const PATCH: &str =
    "{\"net\":{\"ports\":{\"c\":1},\"tls\":null},\"log\":{\"size\":2},\"host\":\"i\"}";

const MERGED: &str = "{\"id\":1,\"net\":{\"host\":\"h\",\"ports\":{\"a\":80,\"b\":443,\"c\":1}},\
    \"log\":{\"level\":0,\"file\":\"f\",\"keep\":[1,2],\"size\":2},\"port\":8080,\"host\":\"i\"}";

/// Merges the patch. If that is refused, the document and the patch are as before.
fn merge(rt: &impl Abort, alloc: Global, document: &mut Value, patch: Value) -> bool {
    match document.merge(patch) {
        Ok(()) => true,
        Err(refused) => {
            assert_writes(rt, alloc, document, TEXT);
            assert_writes(rt, alloc, &refused.patch, PATCH);
            check!(rt; document.merge(refused.patch).is_ok());
            false
        }
    }
}

#[test]
fn refused_merge_hands_the_patch_back(rt: HostRuntime) {
    // The growths besides: 24 of the patch, a chunk for each of three objects, and 6 of the text.
    let hasher = given!(rt; RandomState::new(&rt));
    let (mut document, mut given) = read(&rt, rt.alloc(), hasher);
    let (patch, was_given) = read_text(&rt, rt.alloc(), hasher, PATCH);
    given &= was_given;
    given &= merge(&rt, rt.alloc(), &mut document, patch);
    given &= write(&rt, rt.alloc(), &document, MERGED);
    say_if_given(&rt, given, 72);
}
