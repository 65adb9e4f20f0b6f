//! Calls of lists of pairs.

use super::Map;
use super::call::Call;
use super::comparisons::show_equal;
use super::key::Key;
use super::value::Value;
use linked_hash_map::replay::PairList;

/// The lists that the lines speak of.
type Pairs = PairList<Key, Value>;

/// Makes a list of the words of a line.
fn list_of_words(call: &Call) -> Pairs {
    let mut pairs = Vec::new(call.alloc);
    for pair in call.pairs() {
        call.note(pairs.push(pair));
    }
    PairList::from_vec(pairs)
}

/// Makes a list of copies of the pairs of a map.
fn list_of_copies(call: &Call, map: &Map) -> Pairs {
    let mut pairs = Vec::new(call.alloc);
    for (key, value) in map.iter() {
        call.note(pairs.push((key.copy(), value.copy())));
    }
    Pairs::from(pairs)
}

/// Appends what a list has. Each call is within a window.
fn show_list(list: &Pairs, call: &Call) {
    call.begin();
    call.show(&list.len());
    call.begin();
    call.show(&list.is_empty());
    call.begin();
    call.show(&list.as_slice());
}

/// Turns a list into a vector and back, twice.
fn convert(list: Pairs) -> Pairs {
    let list = Pairs::from(list.into_vec());
    PairList::from_vec(Vec::from(list))
}

/// Makes a list of the words of a line and one of a map, and makes each call of a list.
pub fn show_calls(call: &Call, map: &Map) {
    call.end();
    let list = list_of_words(call);
    let other = list_of_copies(call, map);
    show_list(&list, call);
    show_equal(&list, &other, call);
    call.begin();
    let converted = convert(list);
    call.drop_within(converted);
}
