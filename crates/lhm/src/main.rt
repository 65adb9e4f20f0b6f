//! Runs commands on a map of `u64` to `u64` that keeps insertion order, from standard input to
//! standard output.
//!
//! Each line of input is blank or one command, such as `insert 2 20` or `remove 2`. The output has
//! one line for each command, with its answer and the map's length and capacity, and a last line
//! with all pairs in order.
//!
//! The map's hasher has a fixed seed, so whoever writes the input can choose keys that collide, and
//! a lookup is then O(n) in the number of pairs. A program for keys that strangers choose makes its
//! map with a random seed: `LinkedHashMap::with_hasher(rt.alloc(), RandomState::new(&rt)?)`, with
//! `std::hash::RandomState`.
#![tactic(auto)]

ghost use Rattle.std.specs.Prelude.{◌≡◌, ◌⊎◌, ◌++◌, ◌∷◌, ℕ, List, [], All, OnOk, IfOk, IfErr, IfSome, string_bytes};
ghost use Rattle.std.specs.Io.KnownBytes.{Keeps, Appends};
ghost use Rattle.lhm_commands.specs.Grammar.{lines_of};
ghost use Rattle.lhm_commands.specs.Commands.{IsValid, IsFirstInvalid};
ghost use Rattle.lhm_commands.specs.Stop.{status_of, stop_text, StopsLines};
ghost use Rattle.lhm.specs.Run.{IsRunOf};

#[cfg(test)]
mod tests;

use lhm_commands::stop::Stop;
use lhm_commands::{input, parser, text};
use linked_hash_map::LinkedHashMap;
use linked_hash_map::replay::replay;
use std::alloc::Global;
use std::io;
use std::io::{Read, Write};
use std::process::ExitCode;

/// Runs the commands in these bytes on a new map, and returns the whole text of the output.
fn respond(alloc: Global, bytes: &[u8]) -> Result<String, Stop>
    ensures text { IfOk result (λ text. IsRunOf bytes.now (string_bytes text)) }
    ensures stop { IfErr result (StopsLines (lines_of bytes.now)) }
{
    let commands = parser::commands(alloc, bytes)?;
    let mut map = LinkedHashMap::new(alloc);
    match replay(&mut map, commands) {
        Ok(replies) => {
            let mut output = String::new(alloc);
            text::push_replies(&mut output, replies.as_slice())?;
            text::push_list(&mut output, map.iter())?;
            Ok(output)
        }
        Err(_) => Err(Stop::OutOfMemory),
    }
}

/// Writes all of the bytes and flushes.
fn write_output<W: Write>(output: &mut W, bytes: &[u8]) -> Result<(), Stop>
    ensures written { OnOk result
        (Appends (W.contents output.old) (W.contents output.new) bytes.now) }
    ensures failed { IfErr result (λ stop. stop ≡ Stop.OutputFailed) }
{
    if output.write_all(bytes).is_err() || output.flush().is_err() {
        return Err(Stop::OutputFailed);
    }
    Ok(())
}

/// Writes a line that says why the run stopped.
fn write_fault<F: Write>(faults: &mut F, stop: &Stop) -> io::Result<()>
    ensures { OnOk result
        (Appends (F.contents faults.old) (F.contents faults.new) (stop_text stop.now ++ 10 ∷ [])) }
{
    writeln!(faults, "{stop}")?;
    faults.flush()
}

/// Tells why the run stopped, and returns the status. A writer of faults that fails changes no
/// status.
fn report<F: Write>(faults: &mut F, stop: &Stop) -> u8
    ensures { result ≡ status_of stop.now }
{
    let _ = write_fault(faults, stop);
    stop.status()
}

/// Runs the commands in these bytes on a new map, and writes the replies and the final list, or why
/// there are none. Returns the exit status of the program.
fn run_bytes<W: Write, F: Write>(alloc: Global, bytes: &[u8], output: &mut W, faults: &mut F) -> u8
    ensures statuses { (result ≡ 0) ⊎ (result ≡ 2) ⊎ (result ≡ 3) ⊎ (result ≡ 4) }
    ensures done { result ≡ 0 → (text : List ℕ) × (IsRunOf bytes.now text
        × Appends (W.contents output.old) (W.contents output.new) text) }
    ensures no_fault { result ≡ 0 → Keeps (F.contents faults.old) (F.contents faults.new) }
    ensures valid { result ≡ 0 → All IsValid (lines_of bytes.now) }
    ensures invalid { result ≡ 2
        → (n : ℕ) × (line : List ℕ) × IsFirstInvalid (lines_of bytes.now) n line }
    ensures silent { (result ≡ 2) ⊎ (result ≡ 3)
        → Keeps (W.contents output.old) (W.contents output.new) }
{
    match respond(alloc, bytes) {
        Ok(text) => match write_output(output, text.as_bytes()) {
            Ok(()) => 0,
            Err(stop) => report(faults, &stop),
        },
        Err(stop) => report(faults, &stop),
    }
}

/// Reads commands from `input` to its end, runs them on a new map and writes the replies and the
/// final list to `output`. Returns the exit status of the program.
///
/// The status is 0 for a run, 2 if a line is no command, 3 if memory is refused for the
/// input, the commands, the replies or the output, and 4 if reading or writing fails. A status
/// other than 0 is explained by a line on `faults`. The output is built whole before its first
/// byte is written.
pub fn run<R: Read, W: Write, F: Write>(
    alloc: Global,
    input: &mut R,
    output: &mut W,
    faults: &mut F,
) -> u8
    ensures statuses { (result ≡ 0) ⊎ (result ≡ 2) ⊎ (result ≡ 3) ⊎ (result ≡ 4) }

    // What is written is the text of a run of the commands in the input, and nothing is told on
    // `faults`.
    ensures done { result ≡ 0 → IfSome (R.remaining input.old) (λ bytes.
        (text : List ℕ) × (IsRunOf bytes text
        × Appends (W.contents output.old) (W.contents output.new) text)) }
    ensures no_fault { result ≡ 0 → Keeps (F.contents faults.old) (F.contents faults.new) }

    // After a run every line is blank or a command; a status of 2 comes if a line is neither.
    ensures valid { result ≡ 0 → IfSome (R.remaining input.old) (λ bytes.
        All IsValid (lines_of bytes)) }
    ensures invalid { result ≡ 2 → IfSome (R.remaining input.old) (λ bytes.
        (n : ℕ) × (line : List ℕ) × IsFirstInvalid (lines_of bytes) n line) }
    ensures silent { (result ≡ 2) ⊎ (result ≡ 3)
        → Keeps (W.contents output.old) (W.contents output.new) }
{
    match input::read_all(alloc, input) {
        Ok(bytes) => run_bytes(alloc, bytes.as_slice(), output, faults),
        Err(stop) => report(faults, &stop),
    }
}

/// Runs the commands in `input` as [`run`] does, and appends what it writes to `output` and
/// `faults`.
pub fn run_in_memory(alloc: Global, input: &[u8], output: &mut Vec<u8>, faults: &mut Vec<u8>) -> u8
    ensures statuses { (result ≡ 0) ⊎ (result ≡ 2) ⊎ (result ≡ 3) ⊎ (result ≡ 4) }
    ensures done { result ≡ 0 → (text : List ℕ) × (IsRunOf input.now text
        × (output.new.items ≡ output.old.items ++ text)) }
    ensures no_fault { result ≡ 0 → faults.new.items ≡ faults.old.items }
    ensures valid { result ≡ 0 → All IsValid (lines_of input.now) }
    ensures invalid { result ≡ 2
        → (n : ℕ) × (line : List ℕ) × IsFirstInvalid (lines_of input.now) n line }
    ensures silent { (result ≡ 2) ⊎ (result ≡ 3) → output.new.items ≡ output.old.items }
{
    let mut rest = input;
    run(alloc, &mut rest, output, faults)
}

fn main(rt: HostRuntime) -> ExitCode {
    ExitCode::from(run(
        rt.alloc(),
        &mut rt.stdin(),
        &mut rt.stdout(),
        &mut rt.stderr(),
    ))
}
