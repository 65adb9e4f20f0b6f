//! Documents that nest: edits of one, 1,000 levels, 100,000 members, and each of their growths
//! refused in turn.

use super::references::say_if_given;
use super::support::checks::{check, check_eq, given};
use linked_hash_map::LinkedHashMap;
use std::alloc::Global;
use std::process::Abort;
use uses::nested::{EditError, Value};

/// Makes a name of a number.
fn name_of(rt: &impl Abort, alloc: Global, number: u64) -> String {
    given!(rt; format!(in alloc; "{number}"))
}

/// Checks what a document is printed as.
fn assert_prints(rt: &impl Abort, alloc: Global, document: &Value, text: &str) {
    check_eq!(rt; given!(rt; format!(in alloc; "{document:?}")).as_str(), text);
}

/// Sets a member, and once more if that is refused, which changes nothing. Returns whether it was
/// not refused.
fn set_or_set_again(
    rt: &impl Abort,
    document: &mut Value,
    path: &[&str],
    value: Value,
    alloc: Global,
) -> bool {
    let size = document.size();
    match document.set(path, value, alloc) {
        Ok(()) => true,
        Err(refused) => {
            check_eq!(rt; refused.error, EditError::NoRoom);
            check_eq!(rt; document.size(), size);
            check!(rt; document.get(path).is_none());
            check!(rt; document.set(path, refused.value, alloc).is_ok());
            false
        }
    }
}

/// Makes an object without members.
fn object(alloc: Global) -> Value {
    Value::Object(LinkedHashMap::new(alloc))
}

/// Makes a document of 12 members on 3 levels. Returns whether no growth was refused.
fn fill(rt: &impl Abort, document: &mut Value, alloc: Global) -> bool {
    let mut given = set_or_set_again(rt, document, &["id"], Value::Number(1), alloc);
    given &= set_or_set_again(rt, document, &["net"], object(alloc), alloc);
    given &= set_or_set_again(rt, document, &["log"], object(alloc), alloc);
    given &= set_or_set_again(rt, document, &["port"], Value::Number(2), alloc);
    given &= set_or_set_again(rt, document, &["net", "host"], Value::Number(3), alloc);
    given &= set_or_set_again(rt, document, &["net", "ports"], object(alloc), alloc);
    given &= set_or_set_again(rt, document, &["net", "tls"], Value::Number(4), alloc);
    given &= set_or_set_again(
        rt,
        document,
        &["net", "ports", "a"],
        Value::Number(5),
        alloc,
    );
    given &= set_or_set_again(
        rt,
        document,
        &["net", "ports", "b"],
        Value::Number(6),
        alloc,
    );
    given &= set_or_set_again(rt, document, &["log", "level"], Value::Number(7), alloc);
    given &= set_or_set_again(rt, document, &["log", "file"], Value::Number(8), alloc);
    given &= set_or_set_again(rt, document, &["log", "keep"], Value::Number(9), alloc);
    given
}

/// Renames a member, and once more if that is refused, which changes nothing. Returns whether it
/// was not refused.
fn rename_or_rename_again(
    rt: &impl Abort,
    document: &mut Value,
    path: &[&str],
    to: &str,
    alloc: Global,
) -> bool {
    let size = document.size();
    match document.rename(path, to, alloc) {
        Ok(()) => true,
        Err(error) => {
            check_eq!(rt; error, EditError::NoRoom);
            check_eq!(rt; document.size(), size);
            check!(rt; document.get(path).is_some());
            check_eq!(rt; document.rename(path, to, alloc), Ok(()));
            false
        }
    }
}

/// Checks that a clone is equal, and makes another if it is refused. Returns whether it was not.
fn clone_or_clone_again(rt: &impl Abort, document: &Value) -> bool {
    match document.clone() {
        Ok(copy) => {
            check!(rt; copy == *document);
            true
        }
        Err(_) => {
            check!(rt; given!(rt; document.clone()) == *document);
            false
        }
    }
}

const EDITED: &str = "Object({\"id\": Number(1), \"net\": Object({\"address\": Number(3), \
    \"ports\": Object({\"a\": Number(5)}), \"tls\": Number(4)}), \"log\": Object({\"level\": \
    Number(0), \"file\": Number(8), \"keep\": Number(9)}), \"port\": Number(2)})";

#[test]
fn edits_a_document(rt: HostRuntime) {
    let mut document = object(rt.alloc());
    check!(rt; fill(&rt, &mut document, rt.alloc()));
    check_eq!(rt; document.size(), (9, 3));
    check!(rt; document.set(&["log", "level"], Value::Number(0), rt.alloc()).is_ok());
    check_eq!(rt; document.rename(&["net", "host"], "address", rt.alloc()), Ok(()));
    check_eq!(rt; document.remove(&["net", "ports", "b"]), Some(Value::Number(6)));
    assert_prints(&rt, rt.alloc(), &document, EDITED);
}

/// Checks that a value is not set since its object is absent.
fn assert_absent(rt: &impl Abort, document: &mut Value, path: &[&str], alloc: Global) {
    match document.set(path, Value::Number(0), alloc) {
        Ok(()) => panic!(rt; "it is set"),
        Err(refused) => check_eq!(rt; refused.error, EditError::Absent),
    }
    check_eq!(rt; document.remove(path), None);
}

#[test]
fn tells_what_is_absent_or_taken(rt: HostRuntime) {
    let mut document = object(rt.alloc());
    check!(rt; fill(&rt, &mut document, rt.alloc()));
    assert_absent(&rt, &mut document, &["id", "of"], rt.alloc());
    assert_absent(&rt, &mut document, &["none", "at"], rt.alloc());
    check_eq!(rt; document.rename(&["log"], "net", rt.alloc()), Err(EditError::Taken));
    check_eq!(rt; document.rename(&["none"], "net", rt.alloc()), Err(EditError::Absent));
    check_eq!(rt; document.rename(&["log"], "log", rt.alloc()), Ok(()));
    check_eq!(rt; document.size(), (9, 3));
}

/// Makes a document of objects in one another.
fn chain(rt: &impl Abort, alloc: Global, levels: u64) -> Value {
    let mut value = Value::Number(7);
    for _level in 0..levels {
        let mut members = LinkedHashMap::new(alloc);
        let name = given!(rt; "next".to_string(alloc));
        check!(rt; members.insert(name, value).is_ok());
        value = Value::Object(members);
    }
    value
}

#[test]
fn nests_a_thousand_levels(rt: HostRuntime) {
    let document = chain(&rt, rt.alloc(), 1000);
    check_eq!(rt; document.size(), (1, 1000));
    check!(rt; given!(rt; document.clone()) == document);
    check!(rt; document <= document);
    // "Number(7)", and "Object({"next": })" 1,000 times.
    check_eq!(rt; given!(rt; format!(in rt.alloc(); "{document:?}")).len(), 18_009);
}

/// Sets `count` members of a document.
fn fill_wide(rt: &impl Abort, document: &mut Value, alloc: Global, count: u64) {
    for number in 0..count {
        let name = name_of(rt, alloc, number);
        check!(rt; document.set(&[name.as_str()], Value::Number(number), alloc).is_ok());
    }
}

/// Checks that each member has its number.
fn find_wide(rt: &impl Abort, document: &Value, alloc: Global, count: u64) {
    for number in 0..count {
        let name = name_of(rt, alloc, number);
        check!(rt; document.get(&[name.as_str()]) == Some(&Value::Number(number)));
    }
}

#[test]
fn holds_a_hundred_thousand_members(rt: HostRuntime) {
    let mut document = object(rt.alloc());
    fill_wide(&rt, &mut document, rt.alloc(), 100_000);
    check_eq!(rt; document.size(), (100_000, 1));
    find_wide(&rt, &document, rt.alloc(), 100_000);
}

#[test]
fn refused_edits_leave_the_document(rt: HostRuntime) {
    // The growths: the names of 12 members, and for the four objects a block of buckets and a chunk
    // each, and a chunk for a third member of three; the new name; as many for the clone as for the
    // document; one that the test asks for itself.
    let mut document = object(rt.alloc());
    let mut given = fill(&rt, &mut document, rt.alloc());
    given &= rename_or_rename_again(&rt, &mut document, &["net", "host"], "address", rt.alloc());
    given &= clone_or_clone_again(&rt, &document);
    check_eq!(rt; document.size(), (9, 3));
    say_if_given(&rt, given, 48);
}
