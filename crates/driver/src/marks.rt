//! Marks by which a C library that is loaded first sees where a line and a call begin and end.

use std::alloc::Global;

/// The size of the allocation at the begin of a line.
pub const LINE_BEGINS: usize = 4240;

/// The size of the allocation before a call.
pub const CALL_BEGINS: usize = 4242;

/// The size of the allocation after a call.
pub const CALL_ENDS: usize = 4243;

/// Allocates so many bytes, writes the first and frees them.
pub fn mark(alloc: Global, size: usize) {
    if let Ok(mut bytes) = Vec::with_capacity(alloc, size) {
        let _ = bytes.push(1u8);
    }
}
