//! Iterators that begin at the pair of a key.

use super::call::Call;
use std::fmt::Debug;

/// Makes a step for each letter, and appends what each gives, and maybe the hint of what is left.
/// Each step is within a window.
fn advance<T: Debug + Drop, I: Iterator<Item = T>>(
    items: &mut I,
    steps: &str,
    shows_hints: bool,
    call: &Call,
)
    requires { (items : I) → I.can_next items }
{
    for _letter in steps.bytes() {
        call.begin();
        call.show(&items.next());
        if shows_hints {
            call.show(&items.size_hint());
        }
    }
}

/// Iterates, clones the iterator, and iterates by the clone and then by the iterator itself.
pub fn advance_and_clone<T: Debug + Drop, I: Iterator<Item = T> + Clone + Drop>(
    items: I,
    first: &str,
    shows_hints: bool,
    call: &Call,
)
    requires { (items : I) → I.can_next items }
{
    let mut items = items;
    advance(&mut items, first, shows_hints, call);
    let steps = call.word();
    call.begin();
    match items.clone() {
        Ok(mut copy) => {
            advance(&mut copy, steps, shows_hints, call);
            call.drop_within(copy);
        }
        Err(refused) => call.show_refused(refused),
    }
    call.push_str("/ ");
    advance(&mut items, steps, shows_hints, call);
    call.drop_within(items);
}

/// Does so with the iterator of a call, if its key was present.
pub fn advance_if_present<T: Debug + Drop, I: Iterator<Item = T> + Clone + Drop>(
    found: Option<I>,
    call: &Call,
)
    requires { (items : I) → I.can_next items }
{
    call.end();
    match found {
        Some(items) => advance_and_clone(items, call.word(), true, call),
        None => call.push_str("absent "),
    }
}
