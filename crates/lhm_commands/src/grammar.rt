//! Lines, words and numbers in bytes.
ghost use Rattle.std.specs.Prelude.{◌<◌, ◌≤◌, ◌≡◌, ◌∷◌, [], false, length, slice_index, SomeIff, MatchOption};
ghost use Rattle.std.specs.Str.Parse.{digits_value};
ghost use Rattle.lhm_commands.specs.Grammar.{lines_of, is_separator, words_of, IsNumber};

/// Splits off the first line, without the byte that ends it.
pub fn split_line(bytes: &[u8]) -> (&[u8], &[u8])
    requires { 0 < length bytes.now }
    ensures shorter { length result.1.now < length bytes.now }
    ensures lines { lines_of bytes.now ≡ result.0.now ∷ lines_of result.1.now }
{
    for i in 0..bytes.len() {
        if bytes[i] == b'\n' {
            return (&bytes[..i], &bytes[i + 1..]);
        }
    }
    (bytes, &bytes[bytes.len()..])
}

/// Returns whether the byte separates words: a space, a tab or a carriage return.
fn is_space(byte: u8) -> bool
    ensures { result ≡ is_separator byte }
{
    byte == b' ' || byte == b'\t' || byte == b'\r'
}

/// Returns what stands after the leading separators.
fn skip_spaces(line: &[u8]) -> &[u8]
    ensures shorter { length result.now ≤ length line.now }
    ensures words { words_of line.now ≡ words_of result.now }
    ensures front { 0 < length result.now → is_separator (slice_index result.now 0) ≡ false }
{
    for i in 0..line.len() {
        if !is_space(line[i]) {
            return &line[i..];
        }
    }
    &line[line.len()..]
}

/// Splits off the first word, or returns `None` if no word is left.
pub fn split_word(line: &[u8]) -> Option<(&[u8], &[u8])>
    ensures { MatchOption result (words_of line.now ≡ [])
        (λ parts. words_of line.now ≡ parts.0.now ∷ words_of parts.1.now) }
{
    let text = skip_spaces(line);
    if text.is_empty() {
        return None;
    }
    for i in 1..text.len() {
        if is_space(text[i]) {
            return Some((&text[..i], &text[i..]));
        }
    }
    Some((text, &text[text.len()..]))
}

/// Returns the number that a word spells: digits alone, with a value that fits.
pub fn number(word: &[u8]) -> Option<u64>
    ensures { SomeIff result (IsNumber word.now) (digits_value 10 word.now) }
{
    if word.is_empty() {
        return None;
    }
    let mut value = 0u64;
    for &byte in word {
        if !byte.is_ascii_digit() {
            return None;
        }
        let digit = u64::from(byte - b'0');
        let Some(tens) = value.checked_mul(10) else {
            return None;
        };
        let Some(next) = tens.checked_add(digit) else {
            return None;
        };
        value = next;
    }
    Some(value)
}
