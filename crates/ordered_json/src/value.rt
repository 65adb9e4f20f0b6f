//! A value of JSON.
ghost use Rattle.std.specs.Prelude.{◌≡◌, is_some, ok_or, option_and_then, option_map, IfOk, MatchOption, None};
ghost use Rattle.std.specs.Float.{binary64};
ghost use Rattle.std.specs.Float.Parse.{parse_float};
ghost use Rattle.std.specs.Str.Parse.{ParsesUnsigned};
ghost use Rattle.json.specs.Json.{null, object};
ghost use Rattle.json.specs.Find.{as_array, as_bool, as_number, as_object, as_str, is_null};
ghost use Rattle.ordered_json.specs.View.{items_view, members_view, number_text, view};

use crate::number::Number;
use linked_hash_map::LinkedHashMap;
use std::alloc::{AllocError, Global};
use std::hash::RandomState;
use std::mem;

/// The members of an object, in order.
pub type Map = LinkedHashMap<String, Value, RandomState>;

/// A value of JSON, which owns its text. Two are equal if they are the same level by level: objects
/// with the same members in the same order, numbers with the same text.
///
/// # Examples
///
/// ```rust
/// use ordered_json::{Number, Value, from_str};
/// use std::hash::RandomState;
///
/// let hasher = RandomState::new(&rt)?;
/// let text = "{\"name\": \"Elna\", \"sails\": [7, 2.5], \"sold\": null}";
/// let boat = from_str(rt.alloc(), hasher, text)?;
/// let Some(members) = boat.as_object() else { panic!(rt; "no object") };
/// assert_eq!(rt; members.get("name").and_then(Value::as_str), Some("Elna"));
/// assert_eq!(rt; members.get("sold").map(Value::is_null), Some(true));
/// let sails = members.get("sails").and_then(Value::as_array);
/// let Some(sails) = sails else { panic!(rt; "no array") };
/// assert_eq!(rt; (sails[0].as_u64(), sails[1].as_u64()), (Some(7), None));
/// assert_eq!(rt; sails[1].as_number().map(Number::as_str), Some("2.5"));
/// assert_eq!(rt; (sails[1].as_f64(), sails[1].as_bool()), (Some(2.5), None));
/// assert_eq!(rt; (sails[0].is_array(), boat.is_object()), (false, true));
/// assert_eq!(rt; (sails[0].is_number(), sails[0].is_string()), (true, false));
/// assert!(rt; !boat.is_boolean());
/// ```
#[derive(Debug, Drop, PartialEq, Eq)]
pub enum Value {
    /// `null`.
    Null,
    /// `true` or `false`.
    Bool(bool),
    /// A number.
    Number(Number),
    /// A string.
    String(String),
    /// Values in order.
    Array(Vec<Value>),
    /// Values with names, in order.
    Object(Box<Map>),
}

impl Value {
    /// Returns `true` if the value is `null`.
    pub fn is_null(&self) -> bool
        ensures { result ≡ is_null (view self.now) }
    {
        matches!(self, Value::Null)
    }

    /// Returns `true` if the value is a boolean.
    pub fn is_boolean(&self) -> bool
        ensures { result ≡ is_some (as_bool (view self.now)) }
    {
        self.as_bool().is_some()
    }

    /// Returns `true` if the value is a number.
    pub fn is_number(&self) -> bool
        ensures { result ≡ is_some (as_number (view self.now)) }
    {
        self.as_number().is_some()
    }

    /// Returns `true` if the value is a string.
    pub fn is_string(&self) -> bool
        ensures { result ≡ is_some (as_str (view self.now)) }
    {
        self.as_str().is_some()
    }

    /// Returns `true` if the value is an array.
    pub fn is_array(&self) -> bool
        ensures { result ≡ is_some (as_array (view self.now)) }
    {
        self.as_array().is_some()
    }

    /// Returns `true` if the value is an object.
    pub fn is_object(&self) -> bool
        ensures { result ≡ is_some (as_object (view self.now)) }
    {
        self.as_object().is_some()
    }

    /// Returns the boolean, or `None` if the value is none.
    pub fn as_bool(&self) -> Option<bool>
        ensures { result ≡ as_bool (view self.now) }
    {
        match self {
            Value::Bool(b) => Some(*b),
            _ => None,
        }
    }

    /// Returns the number, or `None` if the value is none.
    pub fn as_number(&self) -> Option<&Number>
        ensures { option_map (λ n. number_text n.now) result ≡ as_number (view self.now) }
    {
        match self {
            Value::Number(number) => Some(number),
            _ => None,
        }
    }

    /// Returns the number as an integer, or `None` if the value is no number, if its text has a
    /// minus, a point or an exponent, or if it is above `u64::MAX`. It is O(n) in the text.
    pub fn as_u64(&self) -> Option<u64>
        ensures { MatchOption (as_number (view self.now)) (result ≡ None)
            (λ text. ParsesUnsigned 64 10 text (ok_or result text)) }
    {
        match self.as_number() {
            Some(number) => number.as_str().parse::<u64>().ok(),
            None => None,
        }
    }

    /// Returns the `f64` nearest to the number, infinite if it is too large, or `None` if the value
    /// is no number. It is O(n) in the text.
    pub fn as_f64(&self) -> Option<f64>
        ensures { result ≡ option_and_then (parse_float binary64) (as_number (view self.now)) }
    {
        match self.as_number() {
            Some(number) => number.as_str().parse::<f64>().ok(),
            None => None,
        }
    }

    /// Returns the string, or `None` if the value is none.
    pub fn as_str(&self) -> Option<&str>
        ensures { option_map (λ s. s.now) result ≡ as_str (view self.now) }
    {
        match self {
            Value::String(text) => Some(text.as_str()),
            _ => None,
        }
    }

    /// Returns the items, or `None` if the value is no array.
    pub fn as_array(&self) -> Option<&Vec<Value>>
        ensures { option_map (λ v. items_view v.now.items) result ≡ as_array (view self.now) }
    {
        match self {
            Value::Array(items) => Some(items),
            _ => None,
        }
    }

    /// Returns the members, or `None` if the value is no object.
    pub fn as_object(&self) -> Option<&Map>
        ensures { option_map (λ m. members_view m.now.pairs) result ≡ as_object (view self.now) }
    {
        match self {
            Value::Object(members) => Some(&**members),
            _ => None,
        }
    }

    /// Lends the members, or returns `None` if the value is no object. The contract says what they
    /// are, and not what the value is after a write to them.
    pub fn as_object_mut(&mut self) -> Option<&mut Map>
        ensures { option_map (λ m. members_view m.now.pairs) result ≡ as_object (view self.old) }
    {
        match self {
            Value::Object(members) => Some(&mut **members),
            _ => None,
        }
    }

    /// Creates an object of these members. Returns an error if an allocation fails.
    ///
    /// # Examples
    ///
    /// ```rust
    /// use ordered_json::{Map, Value, to_string};
    /// use std::hash::RandomState;
    ///
    /// let mut members = Map::with_hasher(rt.alloc(), RandomState::new(&rt)?);
    /// let name = "sold".to_string(rt.alloc())?;
    /// assert_eq!(rt; members.insert(name, Value::Bool(true))?, None);
    /// let text = to_string(rt.alloc(), &Value::of_members(rt.alloc(), members)?)?;
    /// assert_eq!(rt; text.as_str(), "{\"sold\":true}");
    /// ```
    pub fn of_members(alloc: Global, members: Map) -> Result<Value, AllocError>
        ensures { IfOk result (λ v. view v ≡ object (members_view members.pairs)) }
    {
        Ok(Value::Object(Box::new(alloc, members)?))
    }

    /// Takes the value out, and leaves `null`, in O(1).
    ///
    /// # Examples
    ///
    /// ```rust
    /// use ordered_json::Value;
    ///
    /// let mut value = Value::Bool(true);
    /// assert_eq!(rt; (value.take(), value), (Value::Bool(true), Value::Null));
    /// ```
    pub fn take(&mut self) -> Value
        ensures taken { result ≡ self.old }
        ensures left { view self.new ≡ null }
    {
        mem::replace(self, Value::Null)
    }
}
