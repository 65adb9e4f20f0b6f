//! Whole runs: from arguments and an input to the text of the edited document.

ghost use Rattle.std.specs.Prelude.{◌≡◌, ◌⊎◌, ◌++◌, ℕ, List, IfErr, IfOk, IfSome, Ok, Err, OnOk, map, string_bytes};
ghost use Rattle.std.specs.Io.KnownBytes.{Appends, Keeps};
ghost use Rattle.ordered_json.specs.View.{view};
ghost use Rattle.json_commands.specs.Commands.{edit};
ghost use Rattle.json_commands.specs.Runs.{Gives, OnFault, after, edits_of, is_help, output_of, parts, status_of, text_of};

use super::command::{Command, Parser};
use super::help::HELP;
use super::stop::Stop;
use ordered_json::{EditError, Value, to_string, to_string_pretty};
use std::alloc::{AllocError, Global};
use std::hash::RandomState;
use std::io;
use std::io::{Read, Write};
use std::random::RandomSource;

/// Returns whether arguments ask for the help.
fn asks_help(arguments: &[String]) -> bool
    ensures { result ≡ is_help (map string_bytes arguments.now) }
{
    match arguments {
        [word] => word.as_str() == "--help",
        _ => false,
    }
}

/// Returns whether arguments ask for a text with no space, and the texts of the commands.
pub fn parts_of(arguments: &[String]) -> (bool, &[String])
    ensures { (result.0, map string_bytes result.1.now) ≡ parts (map string_bytes arguments.now) }
{
    match arguments {
        [word, commands @ ..] if word.as_str() == "--compact" => (true, commands),
        _ => (false, arguments),
    }
}

/// Returns the commands that texts say.
fn parse(parser: &Parser, texts: &[String]) -> Result<Vec<Command>, Stop>
    ensures { Gives (edits_of 1 (map string_bytes texts.now)) (λ commands. map edit commands.items)
        result }
{
    let mut commands = Vec::new(parser.alloc);
    for (i, text) in texts.iter().enumerate() {
        let command = parser.command(i + 1, text.as_str())?;
        commands.push(command).map_err(AllocError::from)?;
    }
    Ok(commands)
}

/// Returns a document after commands, one after another.
fn apply(alloc: Global, commands: Vec<Command>, document: Value) -> Result<Value, Stop>
    ensures { Gives (after 1 (map edit commands.items) (view document)) view result }
{
    let mut document = document;
    let mut number = 0;
    for command in commands {
        number += 1;
        match command.apply(&mut document, alloc) {
            Ok(()) => {}
            Err(EditError::NoRoom) => return Err(Stop::OutOfMemory),
            Err(error) => return Err(Stop::Refused(number, error)),
        }
    }
    Ok(document)
}

/// Returns the text of a document, with a line feed.
fn write(alloc: Global, is_compact: bool, document: &Value) -> Result<String, AllocError>
    ensures { IfOk result (λ text. string_bytes text ≡ text_of is_compact (view document.now)) }
{
    let mut text = if is_compact {
        to_string(alloc, document)?
    } else {
        to_string_pretty(alloc, document)?
    };
    text.push('\n')?;
    Ok(text)
}

/// Returns the text that a run writes.
fn respond<N: RandomSource, R: Read>(
    alloc: Global,
    random: &N,
    arguments: &[String],
    input: &mut R,
) -> Result<String, Stop>
    ensures { IfSome (R.remaining input.old) (λ bytes.
        Gives (output_of (map string_bytes arguments.now) bytes) string_bytes result) }
{
    if asks_help(arguments) {
        return Ok(String::from_str(alloc, HELP)?);
    }
    let hasher = match RandomState::new(random) {
        Ok(hasher) => hasher,
        Err(error) => return Err(Stop::SeedFailed(error.kind())),
    };
    let parser = Parser { alloc, hasher };
    let (is_compact, texts) = parts_of(arguments);
    let commands = parse(&parser, texts)?;
    let text = match io::read_to_string(alloc, &mut *input) {
        Ok(text) => text,
        Err(error) => return Err(Stop::of_read(error.kind())),
    };
    let document = parser.value(0, text.as_str())?;
    let document = apply(alloc, commands, document)?;
    Ok(write(alloc, is_compact, &document)?)
}

/// Writes a text, and flushes.
fn write_text<W: Write>(output: &mut W, text: &str) -> io::Result<()>
    ensures { OnOk result (Appends (W.contents output.old) (W.contents output.new) text.now) }
{
    output.write_all(text.as_bytes())?;
    output.flush()
}

/// Writes what the arguments ask for to `output`: the help, or the document of `input` after the
/// commands that they say. Returns why the run stopped if it did.
///
/// The text is built whole before its first byte is written. The objects of documents are hashed
/// with a seed of `random`, and the output does not depend on it.
pub fn run<N: RandomSource, R: Read, W: Write>(
    alloc: Global,
    random: &N,
    arguments: &[String],
    input: &mut R,
    output: &mut W,
) -> Result<(), Stop>
    ensures written { OnOk result (IfSome (R.remaining input.old) (λ bytes. (text : List ℕ)
        × (output_of (map string_bytes arguments.now) bytes ≡ Ok text)
        × Appends (W.contents output.old) (W.contents output.new) text)) }
    ensures why { OnFault result (λ fault. IfSome (R.remaining input.old) (λ bytes.
        output_of (map string_bytes arguments.now) bytes ≡ Err fault)) }
    ensures silent { IfErr result (λ stop. (status_of stop ≡ 4)
        ⊎ Keeps (W.contents output.old) (W.contents output.new)) }
{
    let text = respond(alloc, random, arguments, input)?;
    match write_text(output, text.as_str()) {
        Ok(()) => Ok(()),
        Err(error) => Err(Stop::OutputFailed(error.kind())),
    }
}

/// Runs on `input` as [`run`] does, and appends what it writes to `output`.
pub fn run_in_memory<N: RandomSource>(
    alloc: Global,
    random: &N,
    arguments: &[String],
    input: &[u8],
    output: &mut Vec<u8>,
) -> Result<(), Stop>
    ensures written { OnOk result ((text : List ℕ)
        × (output_of (map string_bytes arguments.now) input.now ≡ Ok text)
        × (output.new.items ≡ output.old.items ++ text)) }
    ensures why { OnFault result (λ fault.
        output_of (map string_bytes arguments.now) input.now ≡ Err fault) }
    ensures silent { IfErr result (λ stop. (status_of stop ≡ 4)
        ⊎ (output.new.items ≡ output.old.items)) }
{
    let mut rest = input;
    run(alloc, random, arguments, &mut rest, output)
}
