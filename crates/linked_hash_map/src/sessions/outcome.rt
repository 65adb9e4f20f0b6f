//! What a put of a session returns.

/// The result of a put.
///
/// # Examples
///
/// ```rust
/// let mut table = Sessions::new(rt.alloc(), 10);
/// table.put(1, 4, "a")?;
/// let put = table.put(1, 6, "b")?;
/// assert_eq!(rt; (put.old, put.gone.len()), (Some("a"), 0));
/// ```
#[derive(Debug, PartialEq, Drop)]
pub struct Put<T> {
    /// The payload that the id had, if any.
    pub old: Option<T>,
    /// The sessions removed, front to back: id, weight and payload.
    pub gone: Vec<(u64, u64, T)>,
}

/// The error of a put, which changed nothing.
///
/// # Examples
///
/// ```rust
/// let mut table = Sessions::new(rt.alloc(), 10);
/// let refused = table.put(3, 11, "d");
/// assert_eq!(rt; refused, Err(PutRefused { reason: PutReason::TooHeavy, payload: "d" }));
/// ```
#[derive(Debug, PartialEq, Drop)]
pub struct PutRefused<T> {
    /// Why the session was refused.
    pub reason: PutReason,
    /// The given payload.
    pub payload: T,
}

/// Why a put was refused.
#[derive(Debug, PartialEq, Drop)]
pub enum PutReason {
    /// The weight is above the limit.
    TooHeavy = 1,
    /// An allocation failed, or there are `LIMIT` sessions.
    NoRoom = 2,
}
