//! Numbers, which keep their text.
ghost use Rattle.std.specs.Prelude.{◌≡◌, string_bytes, IfOk};
ghost use Rattle.json.specs.Print.{IsNumber};

use std::alloc::{AllocError, Global};

/// A number, by its text. Two numbers are equal if their texts are.
#[derive(Debug, Drop, PartialEq, Eq)]
pub struct Number {
    text: String,
    ghost is_number: { IsNumber (string_bytes text) },
}

impl Number {
    /// Creates a number of a text that is one, as `json::is_number` says, in O(n).
    ///
    /// Returns an error if an allocation fails.
    ///
    /// # Examples
    ///
    /// ```rust
    /// use ordered_json::Number;
    ///
    /// let number = Number::new(rt.alloc(), "-2.50e3")?;
    /// assert_eq!(rt; number.as_str(), "-2.50e3");
    /// ```
    pub fn new(alloc: Global, text: &str) -> Result<Number, AllocError>
        requires { IsNumber text.now }
        ensures { IfOk result (λ number. string_bytes number.text ≡ text.now) }
    {
        Ok(Number {
            text: String::from_str(alloc, text)?,
        })
    }

    /// Returns the text, in O(1).
    pub fn as_str(&self) -> &str
        ensures value { result.now ≡ string_bytes self.now.text }
        ensures is_number { IsNumber result.now }
    {
        self.text.as_str()
    }
}

/// Clones the text, in O(n). Returns an error if an allocation fails.
impl Clone for Number {
    ghost use Rattle.std.specs.Prelude.{◌≡◌};
    ghost use Rattle.ordered_json.specs.View.{number_text};

    ghost is_clone = { λ number other. number_text other ≡ number_text number };

    fn clone(&self) -> Result<Number, AllocError> {
        Ok(Number {
            text: self.text.clone()?,
        })
    }
}
