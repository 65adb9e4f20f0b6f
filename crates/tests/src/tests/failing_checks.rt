//! Tests that fail by design: each macro of `checks` has to stop at what is not wanted. One that
//! checks nothing would pass every other test.

use super::support::checks::{check, check_eq, given};
use std::alloc::AllocError;

#[test]
#[should_panic(expected = "wanted: 2")]
fn stops_at_another_value(rt: HostRuntime) {
    let one = 1;
    check_eq!(rt; one, 2);
}

#[test]
#[should_panic(expected = "wanted: true")]
fn stops_at_a_condition_that_does_not_hold(rt: HostRuntime) {
    let is_so = false;
    check!(rt; is_so);
}

#[test]
#[should_panic(expected = "got: an error, AllocError")]
fn stops_at_an_error(rt: HostRuntime) {
    let refused: Result<u8, AllocError> = Err(AllocError);
    let _value: u8 = given!(rt; refused);
}
