//! Prints each line of standard input once: at its first appearance, or with `--last` at its last.
//! With `--window N` it prints each line that is not among the last N distinct lines before it.
//!
//! A line is bytes up to a line feed, as `awk '!seen[$0]++'` has it. The lines that have come are
//! in a set, where a line is looked up by its bytes, without a copy of it.
//!
//! The set's hasher has a random seed, so whoever writes the input cannot choose lines that
//! collide.
#![tactic(auto)]

ghost use Rattle.std.specs.Prelude.{◌≡◌, ◌≢◌, ◌⊎◌, ◌++◌, ◌↔◌, ℕ, List, OnOk, IfErr, IfSome};
ghost use Rattle.std.specs.Io.KnownBytes.{Appends, Keeps};
ghost use Rattle.dedup_lines.specs.Arguments.{AreWrong, AskHelp, SayKeep, texts};
ghost use Rattle.dedup_lines.specs.Help.{help_text};
ghost use Rattle.dedup_lines.specs.Kept.{kept_lines};
ghost use Rattle.dedup_lines.specs.Lines.{lines_of, text_of};
ghost use Rattle.dedup_lines.specs.Stop.{run_status, StopsOutput, Tells, TellsRun};
ghost use Rattle.dedup_lines.specs.declared.keep.Keep.{Keep};

#[cfg(test)]
mod tests;

use dedup_lines::keep::{Keep, ask_help, wrong_word};
use dedup_lines::stop::Stop;
use dedup_lines::{filter, help, lines};
use std::alloc::Global;
use std::hash::{BuildHasher, RandomState};
use std::io::{BufRead, BufReader, BufWriter, ErrorKind, Write};
use std::process::ExitCode;
use std::random::RandomSource;
use std::{env, io};

const BUFFER_LEN: usize = 65536;

/// Writes the lines to keep, and flushes.
fn write_output<S: BuildHasher + Drop, R: BufRead, W: Write>(
    alloc: Global,
    hasher: S,
    keep: Keep,
    input: &mut R,
    output: &mut W,
) -> Result<(), Stop>
    ensures written { OnOk result (IfSome (R.remaining input.old) (λ bytes.
        Appends (W.contents output.old) (W.contents output.new)
        (text_of (kept_lines keep (lines_of bytes))))) }
    ensures stop { IfErr result StopsOutput }
{
    filter::write_kept(alloc, hasher, keep, input, output)?;
    lines::flush(output)
}

/// Writes the help if the arguments ask for it, or else the lines that they say. Only the lines
/// need a random seed.
fn write_asked<N: RandomSource, R: BufRead, W: Write>(
    alloc: Global,
    random: &N,
    arguments: &[String],
    input: &mut R,
    output: &mut W,
) -> Result<(), Stop>
    ensures written { OnOk result ((AskHelp (texts arguments.now)
        × Appends (W.contents output.old) (W.contents output.new) help_text)
        ⊎ IfSome (R.remaining input.old) (λ bytes.
        (keep : Keep) × (SayKeep (texts arguments.now) keep
        × Appends (W.contents output.old) (W.contents output.new)
        (text_of (kept_lines keep (lines_of bytes)))))) }
    ensures wrong { (run_status result ≡ 2) ↔ AreWrong (texts arguments.now) }
    ensures silent { run_status result ≡ 2
        → Keeps (W.contents output.old) (W.contents output.new) }
{
    if ask_help(arguments) {
        return help::write_help(output);
    }
    match Keep::from_arguments(arguments) {
        Some(keep) => write_output(alloc, seed(random)?, keep, input, output),
        None => Err(Stop::WrongArguments),
    }
}

/// Tells why the run stopped, and flushes.
fn write_fault<F: Write>(faults: &mut F, stop: &Stop, word: &[u8]) -> io::Result<()>
    ensures { OnOk result
        (Tells stop.now word.now (F.contents faults.old) (F.contents faults.new)) }
{
    stop.tell(word, faults)?;
    faults.flush()
}

/// Returns the status of a run, and tells why it stopped if it did, with a word of wrong arguments.
/// How that went is returned too.
fn report<F: Write>(faults: &mut F, written: &Result<(), Stop>, word: &[u8]) -> (u8, io::Result<()>)
    ensures status { result.0 ≡ run_status written.now }
    ensures told { OnOk result.1
        (TellsRun written.now word.now (F.contents faults.old) (F.contents faults.new)) }
    ensures no_fault { result.0 ≡ 0 → Keeps (F.contents faults.old) (F.contents faults.new) }
{
    match written {
        Ok(()) => (0, Ok(())),
        Err(stop) => (stop.status(), write_fault(faults, stop, word)),
    }
}

/// Writes the lines of `input` that the arguments say to `output`, or the help if they ask for it.
/// The lines are hashed with a seed of `random`, and the output does not depend on it. Returns the
/// exit status of the program, why the run stopped if it did, and how telling that went.
///
/// The status is 0 for a run, 2 if the arguments are wrong, 3 if memory is refused, and 4 if
/// reading, writing or the seed fails. A status other than 0 is explained by a line on `faults`,
/// except at a closed pipe. If it is 3 or 4, the output may be written, all of it or a part.
pub fn run<N: RandomSource, R: BufRead, W: Write, F: Write>(
    alloc: Global,
    random: &N,
    arguments: &[String],
    input: &mut R,
    output: &mut W,
    faults: &mut F,
) -> (u8, Result<(), Stop>, io::Result<()>)
    ensures statuses { (result.0 ≡ 0) ⊎ (result.0 ≡ 2) ⊎ (result.0 ≡ 3) ⊎ (result.0 ≡ 4) }

    // What is written is the help, if the arguments ask for it, or the lines of the input that they
    // say, and nothing is told on `faults`.
    ensures done { result.0 ≡ 0 → (AskHelp (texts arguments.now)
        × Appends (W.contents output.old) (W.contents output.new) help_text)
        ⊎ IfSome (R.remaining input.old) (λ bytes.
        (keep : Keep) × (SayKeep (texts arguments.now) keep
        × Appends (W.contents output.old) (W.contents output.new)
        (text_of (kept_lines keep (lines_of bytes))))) }
    ensures no_fault { result.0 ≡ 0 → Keeps (F.contents faults.old) (F.contents faults.new) }

    // The status and what is told on `faults` are those of why the run stopped.
    ensures status { result.0 ≡ run_status result.1 }
    ensures told { (word : List ℕ) × OnOk result.2
        (TellsRun result.1 word (F.contents faults.old) (F.contents faults.new)) }

    // The status is 2 exactly if the arguments are wrong, and then nothing is written.
    ensures wrong { (result.0 ≡ 2) ↔ AreWrong (texts arguments.now) }
    ensures silent { result.0 ≡ 2 → Keeps (W.contents output.old) (W.contents output.new) }
{
    let written = write_asked(alloc, random, arguments, input, output);
    let (status, told) = report(faults, &written, wrong_word(arguments));
    (status, written, told)
}

/// Writes lines of `input` as [`run`] does, and appends what it writes to `output` and `faults`.
pub fn run_in_memory<N: RandomSource>(
    alloc: Global,
    random: &N,
    arguments: &[String],
    input: &[u8],
    output: &mut Vec<u8>,
    faults: &mut Vec<u8>,
) -> u8
    ensures statuses { (result ≡ 0) ⊎ (result ≡ 2) ⊎ (result ≡ 3) ⊎ (result ≡ 4) }
    ensures done { result ≡ 0 → (AskHelp (texts arguments.now)
        × (output.new.items ≡ output.old.items ++ help_text))
        ⊎ (keep : Keep) × (SayKeep (texts arguments.now) keep
        × (output.new.items ≡ output.old.items ++ text_of (kept_lines keep (lines_of input.now)))) }
    ensures no_fault { result ≡ 0 → faults.new.items ≡ faults.old.items }
    ensures wrong { (result ≡ 2) ↔ AreWrong (texts arguments.now) }
    ensures silent { result ≡ 2 → output.new.items ≡ output.old.items }
{
    let mut rest = input;
    run(alloc, random, arguments, &mut rest, output, faults).0
}

/// Returns a build hasher with a random seed.
fn seed<N: RandomSource>(random: &N) -> Result<RandomState, Stop>
    ensures { IfErr result (λ stop. stop ≢ Stop.WrongArguments) }
{
    match RandomState::new(random) {
        Ok(hasher) => Ok(hasher),
        Err(error) => Err(Stop::of_seed(error.kind())),
    }
}

/// Returns the arguments of the program, without its name.
fn arguments(rt: &HostRuntime) -> Result<Vec<String>, Stop> {
    match env::args(rt) {
        Ok(words) => Ok(words.skip(1).collect(rt.alloc())?),
        Err(error) if error.kind() == ErrorKind::OutOfMemory => Err(Stop::OutOfMemory),
        Err(_) => Err(Stop::WrongArguments),
    }
}

/// Drops the writer of a run. It writes what its buffer still has, unless a write has failed.
fn drop_output<W: Write + Drop>(output: BufWriter<W>, written: &Result<(), Stop>) {
    match written {
        Err(Stop::OutputFailed(_)) => drop(output.into_parts()),
        Err(Stop::PipeClosed) => drop(output.into_parts()),
        _ => drop(output),
    }
}

/// Runs from standard input to standard output, each with a buffer.
fn run_buffered(rt: &HostRuntime) -> Result<u8, Stop> {
    let arguments = arguments(rt)?;
    let Ok(mut input) = BufReader::with_capacity(rt.alloc(), BUFFER_LEN, rt.stdin()) else {
        return Err(Stop::OutOfMemory);
    };
    let Ok(mut output) = BufWriter::with_capacity(rt.alloc(), BUFFER_LEN, rt.stdout()) else {
        return Err(Stop::OutOfMemory);
    };
    let (status, written, _told) = run(
        rt.alloc(),
        rt,
        arguments.as_slice(),
        &mut input,
        &mut output,
        &mut rt.stderr(),
    );
    drop_output(output, &written);
    Ok(status)
}

fn main(rt: HostRuntime) -> ExitCode {
    ExitCode::from(match run_buffered(&rt) {
        Ok(status) => status,
        Err(stop) => report(&mut rt.stderr(), &Err(stop), b"not UTF-8").0,
    })
}
