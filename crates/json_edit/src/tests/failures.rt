//! Streams and seeds that fail.

use super::support::checks::check_eq;
use json_commands::run::run;
use json_commands::stop::Stop;
use std::alloc::Global;
use std::io;
use std::io::{ErrorKind, Read, Write};
use std::process::Abort;
use std::random::RandomSource;

/// What fails at each call, by an error of a kind.
#[derive(Drop)]
struct Failing(ErrorKind);

impl Read for Failing {
    fn read(&mut self, _buf: &mut [u8]) -> io::Result<usize> {
        Err(io::Error::from(self.0))
    }
}

impl Write for Failing {
    fn write(&mut self, _buf: &[u8]) -> io::Result<usize> {
        Err(io::Error::from(self.0))
    }

    fn flush(&mut self) -> io::Result<()> {
        Err(io::Error::from(self.0))
    }
}

impl RandomSource for Failing {
    fn fill_bytes(&self, _buf: &mut [u8]) -> io::Result<()> {
        Err(io::Error::from(self.0))
    }
}

/// Checks how a run stops, its status and what it tells.
fn check_stop(rt: &impl Abort, alloc: Global, done: Result<(), Stop>, wanted: (Stop, u8, &[u8])) {
    let mut faults = Vec::new(alloc);
    let stop = done.err().unwrap_or(Stop::NotUtf8);
    let told = stop.tell(&[], &mut faults).is_ok();
    check_eq!(rt;
        (stop, stop.status(), faults.as_slice(), told),
        (wanted.0, wanted.1, wanted.2, true)
    );
}

/// Checks a run whose input fails by an error of a kind.
fn check_input(
    rt: &(impl Abort + RandomSource),
    alloc: Global,
    kind: ErrorKind,
    wanted: (Stop, u8, &[u8]),
) {
    let mut output = Vec::new(alloc);
    let done = run(alloc, rt, &[], &mut Failing(kind), &mut output);
    check_stop(rt, alloc, done, wanted);
    check_eq!(rt; output.len(), 0);
}

#[test]
fn inputs_that_fail(rt: HostRuntime) {
    let told = b"json_edit: input failed: is a directory\n".as_slice();
    let kind = ErrorKind::IsADirectory;
    check_input(&rt, rt.alloc(), kind, (Stop::InputFailed(kind), 4, told));
    let told = b"json_edit: out of memory\n".as_slice();
    let kind = ErrorKind::OutOfMemory;
    check_input(&rt, rt.alloc(), kind, (Stop::OutOfMemory, 3, told));
}

/// Checks a run whose output fails by an error of a kind.
fn check_output(rt: &(impl Abort + RandomSource), alloc: Global, kind: ErrorKind, wanted: &[u8]) {
    let done = run(alloc, rt, &[], &mut b"7".as_slice(), &mut Failing(kind));
    check_stop(rt, alloc, done, (Stop::OutputFailed(kind), 4, wanted));
}

#[test]
fn outputs_that_fail(rt: HostRuntime) {
    let told = b"json_edit: output failed: no storage space\n";
    check_output(&rt, rt.alloc(), ErrorKind::StorageFull, told);
    check_output(&rt, rt.alloc(), ErrorKind::BrokenPipe, b"");
}

/// Checks a run whose seed fails.
fn check_seed(rt: &impl Abort, alloc: Global, kind: ErrorKind, wanted: &[u8]) {
    let mut output = Vec::new(alloc);
    let done = run(
        alloc,
        &Failing(kind),
        &[],
        &mut b"7".as_slice(),
        &mut output,
    );
    check_stop(rt, alloc, done, (Stop::SeedFailed(kind), 4, wanted));
}

#[test]
fn seeds_that_fail(rt: HostRuntime) {
    let told = b"json_edit: no random seed: other error\n";
    check_seed(&rt, rt.alloc(), ErrorKind::Other, told);
}
