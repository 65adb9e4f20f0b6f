//! From a value to its text.
ghost use Rattle.std.specs.Prelude.{◌≡◌, ◌≤◌, List, ◌∷◌, ◌++◌, [], Some, IfOk, OnOk, string_bytes};
ghost use Rattle.std.specs.Str.{IsUtf8};
ghost use Rattle.json.specs.Json.{no_members};
ghost use Rattle.json.specs.Token.{Token as SpecToken};
ghost use Rattle.json.specs.Reads.{token_of};
ghost use Rattle.json.specs.Print.{print, IsPrintable};
ghost use Rattle.json.specs.Layout.{pretty};
ghost use Rattle.json.specs.Tree.{depth, json_tokens, items_tokens, members_tokens};
ghost use Rattle.ordered_json.specs.Read.{each_resolved, put_each, read, resolved};
ghost use Rattle.ordered_json.specs.declared.read.TheConstants.{MAX_DEPTH};
ghost use Rattle.ordered_json.specs.View.{items_view, members_view, view};

use crate::value::{Map, Value};
use json::{Pretty, Token, Writer};
use std::alloc::{AllocError, Global};

/// Returns the text of a value with no space, in O(n). Members and items are in order, and a number
/// has the text that it was read from. It recurses as deep as the value nests.
///
/// Returns an error if an allocation fails.
///
/// # Examples
///
/// ```rust
/// use ordered_json::{from_str, to_string};
/// use std::hash::RandomState;
///
/// let value = from_str(rt.alloc(), RandomState::new(&rt)?, "[1e2, {\"tide\": \"low\"}]")?;
/// let text = to_string(rt.alloc(), &value)?;
/// assert_eq!(rt; text.as_str(), "[1e2,{\"tide\":\"low\"}]");
/// ```
pub fn to_string(alloc: Global, value: &Value) -> Result<String, AllocError>
    ensures text { IfOk result (λ s. string_bytes s ≡ print (json_tokens (view value.now))) }
    ensures reads_back { IfOk result (λ s. depth (view value.now) ≤ MAX_DEPTH
        → read (string_bytes s) ≡ Some (view value.now)) }
{
    let mut out = Compact {
        writer: Writer::new(Vec::new(alloc)),
    };
    write(value, &mut out)?;
    let Compact { writer, .. } = out;
    Ok(text_of(writer.into_inner()))
}

/// Returns the text of a value, a line for each item and member, two spaces deeper at each level,
/// in O(n). It recurses as deep as the value nests.
///
/// Returns an error if an allocation fails.
///
/// # Examples
///
/// ```rust
/// use ordered_json::{from_str, to_string_pretty};
/// use std::hash::RandomState;
///
/// let value = from_str(rt.alloc(), RandomState::new(&rt)?, "[7, {}]")?;
/// let text = to_string_pretty(rt.alloc(), &value)?;
/// assert_eq!(rt; text.as_str(), "[\n  7,\n  {}\n]");
/// ```
pub fn to_string_pretty(alloc: Global, value: &Value) -> Result<String, AllocError>
    ensures text { IfOk result (λ s. string_bytes s ≡ pretty (json_tokens (view value.now))) }
    ensures reads_back { IfOk result (λ s. depth (view value.now) ≤ MAX_DEPTH
        → read (string_bytes s) ≡ Some (view value.now)) }
{
    let mut out = Pretty::new(alloc);
    write(value, &mut out)?;
    Ok(text_of(out.into_inner()))
}

/// Makes a text of bytes that are one.
fn text_of(bytes: Vec<u8>) -> String
    requires { IsUtf8 bytes.items }
    ensures { string_bytes result ≡ bytes.items }
{
    match String::from_utf8(bytes) {
        Ok(text) => text,
        Err(_) => unreachable!(),
    }
}

/// What takes tokens, one behind another.
trait Tokens {
    ghost written: { Self → List SpecToken };

    fn token(&mut self, token: Token<'_>) -> Result<(), AllocError>
        requires { IsPrintable (token_of token) }
        ensures { OnOk result (written self.new ≡ written self.old ++ token_of token.entry ∷ []) };
}

/// A writer of a text of its own.
#[derive(Drop)]
struct Compact {
    writer: Writer,
    ghost alone: { writer.before ≡ [] },
}

impl Tokens for Compact {
    ghost written = { λ compact. compact.writer.tokens };

    fn token(&mut self, token: Token<'_>) -> Result<(), AllocError> {
        self.writer.token(token)
    }
}

impl Tokens for Pretty {
    ghost written = { λ tokens. tokens };

    fn token(&mut self, token: Token<'_>) -> Result<(), AllocError> {
        Pretty::token(self, token)
    }
}

/// Writes a value, level by level.
#[cycle(write)]
fn write<W: Tokens>(value: &Value, out: &mut W) -> Result<(), AllocError>
    ensures tokens { OnOk result (W.Tokens.written out.new
        ≡ W.Tokens.written out.old ++ json_tokens (view value.now)) }
    ensures resolved { OnOk result (resolved (view value.now) ≡ view value.now) }
{
    match value {
        Value::Null => out.token(Token::Null),
        Value::Bool(b) => out.token(Token::Bool(*b)),
        Value::Number(number) => out.token(Token::Number(number.as_str())),
        Value::String(text) => out.token(Token::String(text.as_str())),
        Value::Array(items) => {
            out.token(Token::BeginArray)?;
            write_items(items, out)
        }
        Value::Object(members) => {
            out.token(Token::BeginObject)?;
            write_members(&**members, out)
        }
    }
}

/// Writes the items of an array, and the bracket that closes it.
#[cycle(write)]
fn write_items<W: Tokens>(items: &Vec<Value>, out: &mut W) -> Result<(), AllocError>
    ensures tokens { OnOk result (W.Tokens.written out.new
        ≡ W.Tokens.written out.old ++ items_tokens (items_view items.now.items)) }
    ensures resolved { OnOk result
        (each_resolved (items_view items.now.items) ≡ items_view items.now.items) }
{
    for item in items {
        write(item, out)?;
    }
    out.token(Token::EndArray)
}

/// Writes the members of an object, and the brace that closes it.
#[cycle(write)]
fn write_members<W: Tokens>(members: &Map, out: &mut W) -> Result<(), AllocError>
    ensures tokens { OnOk result (W.Tokens.written out.new
        ≡ W.Tokens.written out.old ++ members_tokens (members_view members.now.pairs)) }
    ensures resolved { OnOk result (put_each (members_view members.now.pairs) no_members
        ≡ members_view members.now.pairs) }
{
    for (name, member) in members.iter() {
        out.token(Token::Key(name.as_str()))?;
        write(member, out)?;
    }
    out.token(Token::EndObject)
}
