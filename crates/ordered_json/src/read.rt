//! From a text to a value, in one pass over its tokens.
ghost use Rattle.std.specs.Prelude.{◌≡◌, ◌≢◌, ◌<◌, ◌≤◌, length, Some, None, IfOk, IfErr, OnOk};
ghost use Rattle.json.specs.Json.{items, members, value, no_members};
ghost use Rattle.json.specs.Tree.{depth as nesting};
ghost use Rattle.ordered_json.specs.Read.{read as value_of, resolved_value, resolved_items, resolved_members};
ghost use Rattle.ordered_json.specs.View.{items_view, members_view, view};

use crate::error::{Fault, ReadError};
use crate::number::Number;
use crate::value::{Map, Value};
use json::{Reader, Scratch, Token};
use std::alloc::Global;
use std::hash::RandomState;

/// How deep arrays and objects nest at most in a text that is read, and below which a value is set.
pub const MAX_DEPTH: usize = 127;

/// Returns the value that a text has, in O(n). A name that comes twice in an object keeps its first
/// place and has its last value. Each object has the given hasher: with a random one no text can be
/// made whose names all hash alike.
///
/// Returns `Invalid`, with a place, if the text is no JSON or nests deeper than [`MAX_DEPTH`], and
/// `NoRoom` if an allocation fails.
///
/// # Examples
///
/// ```rust
/// use ordered_json::{ReadError, from_str, to_string};
/// use std::hash::RandomState;
///
/// let hasher = RandomState::new(&rt)?;
/// let value = from_str(rt.alloc(), hasher, "{\"b\": 1, \"a\": 2.50, \"b\": 3}")?;
/// let text = to_string(rt.alloc(), &value)?;
/// assert_eq!(rt; text.as_str(), "{\"b\":3,\"a\":2.50}");
///
/// let error = from_str(rt.alloc(), hasher, "[1,\n 2 3]").err();
/// assert_eq!(rt; error, Some(ReadError::Invalid { line: 2, column: 4 }));
/// ```
pub fn from_str(alloc: Global, hasher: RandomState, text: &str) -> Result<Value, ReadError>
    ensures value { IfOk result (λ v. value_of text.now ≡ Some (view v)) }
    ensures depth { IfOk result (λ v. nesting (view v) ≤ MAX_DEPTH) }
    ensures invalid { IfErr result (λ error. error ≢ ReadError.NoRoom → value_of text.now ≡ None) }
{
    let mut scratch = Scratch::new(alloc);
    let Ok(mut reader) = Reader::new(text, &mut scratch) else {
        return Err(ReadError::NoRoom);
    };
    let mut at: usize = 0;
    match read(alloc, hasher, &mut reader, &mut at, MAX_DEPTH) {
        Ok(value) => {
            let end = reader.offset();
            match reader.next() {
                None => Ok(value),
                Some(_) => Err(invalid_at(text.as_bytes(), end)),
            }
        }
        Err(Fault::Invalid) => Err(invalid_at(text.as_bytes(), at)),
        Err(Fault::NoRoom) => Err(ReadError::NoRoom),
    }
}

/// Returns the error of a text that is no JSON from a place on.
#[cold]
fn invalid_at(text: &[u8], offset: usize) -> ReadError
    ensures { result ≢ ReadError.NoRoom }
{
    let mut line: usize = 1;
    let mut column: usize = 1;
    for byte in &text[..offset.min(text.len())] {
        if *byte == b'\n' {
            line = line.saturating_add(1);
            column = 1;
        } else {
            column = column.saturating_add(1);
        }
    }
    ReadError::Invalid { line, column }
}

/// Reads a value that nests no deeper than `depth`. Leaves in `at` where the last token began.
#[cycle(read)]
fn read(
    alloc: Global,
    hasher: RandomState,
    reader: &mut Reader<'_>,
    at: &mut usize,
    depth: usize,
) -> Result<Value, Fault>
    ensures value { IfOk result
        (λ v. resolved_value (value depth reader.old) ≡ Some (view v, reader.new)) }
    ensures shorter { OnOk result (length reader.new < length reader.old) }
    ensures invalid { result ≡ Err Fault.Invalid → resolved_value (value depth reader.old) ≡ None }
{
    *at = reader.offset();
    let token = reader.next().ok_or(Fault::Invalid)?;
    match token {
        Token::Null => Ok(Value::Null),
        Token::Bool(b) => Ok(Value::Bool(b)),
        Token::Number(text) => Ok(Value::Number(Number::new(alloc, text)?)),
        Token::String(text) => Ok(Value::String(String::from_str(alloc, text)?)),
        Token::BeginArray => {
            if depth == 0 {
                return Err(Fault::Invalid);
            }
            Ok(Value::Array(read_items(alloc, hasher, reader, at, depth - 1)?))
        }
        Token::BeginObject => {
            if depth == 0 {
                return Err(Fault::Invalid);
            }
            let members = read_members(alloc, hasher, reader, at, depth - 1)?;
            Ok(Value::of_members(alloc, members)?)
        }
        Token::EndObject | Token::EndArray | Token::Key(_) | Token::Bad => Err(Fault::Invalid),
    }
}

/// Reads the items of an array, and the bracket that closes it.
#[cycle(read)]
fn read_items(
    alloc: Global,
    hasher: RandomState,
    reader: &mut Reader<'_>,
    at: &mut usize,
    depth: usize,
) -> Result<Vec<Value>, Fault>
    ensures value { IfOk result
        (λ v. resolved_items (items (value depth) (length reader.old) reader.old)
        ≡ Some (items_view v.items, reader.new)) }
    ensures shorter { OnOk result (length reader.new < length reader.old) }
    ensures invalid { result ≡ Err Fault.Invalid
        → resolved_items (items (value depth) (length reader.old) reader.old) ≡ None }
{
    let mut found = Vec::new(alloc);
    'items: while !reader.take_end_array() {
        let item = read(alloc, hasher, reader, at, depth)?;
        found.push(item)?;
    }
    Ok(found)
}

/// Reads the members of an object, and the brace that closes it.
#[cycle(read)]
fn read_members(
    alloc: Global,
    hasher: RandomState,
    reader: &mut Reader<'_>,
    at: &mut usize,
    depth: usize,
) -> Result<Map, Fault>
    ensures value { IfOk result
        (λ m. resolved_members no_members (members (value depth) (length reader.old) reader.old)
        ≡ Some (members_view m.pairs, reader.new)) }
    ensures shorter { OnOk result (length reader.new < length reader.old) }
    ensures invalid { result ≡ Err Fault.Invalid
        → resolved_members no_members (members (value depth) (length reader.old) reader.old)
        ≡ None }
{
    let mut found = Map::with_hasher(alloc, hasher);
    *at = reader.offset();
    'members: while let Some(name) = reader.next_key()? {
        let key = String::from_str(alloc, name)?;
        let member = read(alloc, hasher, reader, at, depth)?;
        match found.replace(key, member) {
            Ok(old) => drop(old),
            Err(_) => return Err(Fault::NoRoom),
        }
        *at = reader.offset();
    }
    Ok(found)
}
