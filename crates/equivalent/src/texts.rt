//! The comparison of two texts.
ghost use Rattle.std.specs.Prelude.{◌≡◌, ◌≤◌, length};
ghost use Rattle.std.specs.Int.{from_le_bytes, w32, w64};
ghost use Rattle.std.specs.Str.{bytes_eq};

/// Returns the number that 4 bytes are.
#[inline(always)]
fn number_of_4(bytes: &[u8]) -> u32
    requires { length bytes.now ≡ 4 }
    ensures { result ≡ from_le_bytes w32 bytes.now }
{
    u32::from_le_bytes([bytes[0], bytes[1], bytes[2], bytes[3]])
}

/// Returns the number that 8 bytes are.
#[inline(always)]
fn number_of_8(bytes: &[u8]) -> u64
    requires { length bytes.now ≡ 8 }
    ensures { result ≡ from_le_bytes w64 bytes.now }
{
    u64::from_le_bytes([
        bytes[0], bytes[1], bytes[2], bytes[3], bytes[4], bytes[5], bytes[6], bytes[7],
    ])
}

/// Returns `true` if two slices of 4 bytes are equal.
#[inline(always)]
fn same_4(a: &[u8], b: &[u8]) -> bool
    requires first { length a.now ≡ 4 }
    requires second { length b.now ≡ 4 }
    ensures { result ≡ bytes_eq a.now b.now }
{
    number_of_4(a) == number_of_4(b)
}

/// Returns `true` if two slices of 8 bytes are equal.
#[inline(always)]
fn same_8(a: &[u8], b: &[u8]) -> bool
    requires first { length a.now ≡ 8 }
    requires second { length b.now ≡ 8 }
    ensures { result ≡ bytes_eq a.now b.now }
{
    number_of_8(a) == number_of_8(b)
}

/// Returns `true` if two slices of 4 to 8 bytes are equal: the first and the last 4 bytes are. They
/// may overlap.
#[inline(always)]
fn same_4_to_8(a: &[u8], b: &[u8]) -> bool
    requires least { 4 ≤ length a.now }
    requires most { length a.now ≤ 8 }
    requires same_length { length a.now ≡ length b.now }
    ensures { result ≡ bytes_eq a.now b.now }
{
    let last = a.len() - 4;
    same_4(&a[..4], &b[..4]) & same_4(&a[last..], &b[last..])
}

/// Returns `true` if two slices of 8 to 16 bytes are equal: the first and the last 8 bytes are.
#[inline(always)]
fn same_8_to_16(a: &[u8], b: &[u8]) -> bool
    requires least { 8 ≤ length a.now }
    requires most { length a.now ≤ 16 }
    requires same_length { length a.now ≡ length b.now }
    ensures { result ≡ bytes_eq a.now b.now }
{
    let last = a.len() - 8;
    same_8(&a[..8], &b[..8]) & same_8(&a[last..], &b[last..])
}

/// Returns `true` if two slices of 16 to 32 bytes are equal: the first and the last 16 bytes are.
#[inline(always)]
fn same_16_to_32(a: &[u8], b: &[u8]) -> bool
    requires least { 16 ≤ length a.now }
    requires most { length a.now ≤ 32 }
    requires same_length { length a.now ≡ length b.now }
    ensures { result ≡ bytes_eq a.now b.now }
{
    let last = a.len() - 16;
    same_8_to_16(&a[..16], &b[..16]) & same_8_to_16(&a[last..], &b[last..])
}

/// Returns `true` if two texts are equal, by a call.
#[inline(never)]
fn same_by_call(a: &str, b: &str) -> bool
    ensures { result ≡ bytes_eq a.now b.now }
{
    a == b
}

/// Returns `true` if two texts are equal. Those of 4 to 32 bytes are compared in line, with no
/// call.
#[inline(always)]
pub(crate) fn same_text(a: &str, b: &str) -> bool
    ensures { result ≡ bytes_eq a.now b.now }
{
    let (x, y) = (a.as_bytes(), b.as_bytes());
    let n = x.len();
    if n != y.len() {
        return false;
    }
    if n <= 16 {
        if 8 <= n {
            return same_8_to_16(x, y);
        }
        if 4 <= n {
            return same_4_to_8(x, y);
        }
    } else if n <= 32 {
        return same_16_to_32(x, y);
    }
    same_by_call(a, b)
}
