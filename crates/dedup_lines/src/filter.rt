//! From the lines of the input to those that are kept.
#![tactic(auto, using(crate::proofs::Passes::passes))]

ghost use Rattle.std.specs.Prelude.{◌≡◌, [], OnOk, IfErr, IfOk, IfSome, None};
ghost use Rattle.std.specs.Io.KnownBytes.{Appends};
ghost use Rattle.dedup_lines.specs.Kept.{distinct_lines, kept_lines, last_appearances, new_lines, unless_among};
ghost use Rattle.dedup_lines.specs.Lines.{lines_of, text_of};
ghost use Rattle.dedup_lines.specs.Push.{bytes_of, to_back, trimmed};
ghost use Rattle.dedup_lines.specs.Recent.{recent_lines, recent_size};
ghost use Rattle.dedup_lines.specs.Stop.{StopsOutput};

use super::keep::Keep;
use super::lines::{read_line, write_line};
use super::recent::Recent;
use super::stop::Stop;
use linked_hash_set::Iter;
use std::alloc::Global;
use std::hash::BuildHasher;
use std::io::{BufRead, ErrorKind, Write};

/// Writes a line unless it is among the recent ones, and makes it the last of them.
fn filter_line<S: BuildHasher, W: Write>(
    recent: &mut Recent<S>,
    line: &[u8],
    output: &mut W,
) -> Result<(), Stop>
    ensures written { OnOk result (Appends (W.contents output.old) (W.contents output.new)
        (text_of (unless_among (recent_lines recent.old) line.now))) }
    ensures lines { OnOk result (recent_lines recent.new
        ≡ trimmed (recent_size recent.old) (to_back (recent_lines recent.old) line.now)) }
    ensures size { recent_size recent.new ≡ recent_size recent.old }
    ensures stop { IfErr result StopsOutput }
{
    if recent.push(line)? {
        return write_line(output, line);
    }
    Ok(())
}

/// Writes each line that is not among the distinct lines before it: all of them, or the last
/// `size`.
fn write_new<S: BuildHasher + Drop, R: BufRead, W: Write>(
    alloc: Global,
    hasher: S,
    size: Option<usize>,
    input: &mut R,
    output: &mut W,
) -> Result<(), Stop>
    ensures written { OnOk result (IfSome (R.remaining input.old) (λ bytes.
        Appends (W.contents output.old) (W.contents output.new)
        (text_of (new_lines (distinct_lines size) [] (lines_of bytes))))) }
    ensures stop { IfErr result StopsOutput }
{
    let mut recent = Recent::new(alloc, size, hasher);
    let mut line = Vec::new(alloc);
    // The count only bounds the loop: it is never reached.
    for _ in 0..u64::MAX {
        if !read_line(input, &mut line)? {
            return Ok(());
        }
        filter_line(&mut recent, line.as_slice(), output)?;
    }
    Err(Stop::InputFailed(ErrorKind::Other))
}

/// Reads the input to its end, and returns the distinct lines in the order of their last
/// appearances.
fn read_lines<S: BuildHasher + Drop, R: BufRead>(
    alloc: Global,
    hasher: S,
    input: &mut R,
) -> Result<Recent<S>, Stop>
    ensures lines { IfOk result (λ recent. IfSome (R.remaining input.old) (λ bytes.
        recent_lines recent ≡ last_appearances (lines_of bytes))) }
    ensures stop { IfErr result StopsOutput }
{
    let mut recent = Recent::new(alloc, None, hasher);
    let mut line = Vec::new(alloc);
    for _ in 0..u64::MAX {
        if !read_line(input, &mut line)? {
            return Ok(recent);
        }
        recent.push(line.as_slice())?;
    }
    Err(Stop::InputFailed(ErrorKind::Other))
}

/// Writes each of these lines.
fn write_lines<W: Write>(lines: Iter<'_, Vec<u8>>, output: &mut W) -> Result<(), Stop>
    ensures written { OnOk result (Appends (W.contents output.old) (W.contents output.new)
        (text_of (bytes_of lines.entry))) }
    ensures stop { IfErr result StopsOutput }
{
    for line in lines {
        write_line(output, line.as_slice())?;
    }
    Ok(())
}

/// Writes the lines of the input that are to be kept. Lines that are written at their first
/// appearance, or by a window, are written as they come, and those that are written at their last
/// appearance at the end of the input.
pub fn write_kept<S: BuildHasher + Drop, R: BufRead, W: Write>(
    alloc: Global,
    hasher: S,
    keep: Keep,
    input: &mut R,
    output: &mut W,
) -> Result<(), Stop>
    ensures written { OnOk result (IfSome (R.remaining input.old) (λ bytes.
        Appends (W.contents output.old) (W.contents output.new)
        (text_of (kept_lines keep (lines_of bytes))))) }
    ensures stop { IfErr result StopsOutput }
{
    match keep {
        Keep::First => write_new(alloc, hasher, None, input, output),
        Keep::Window(size) => write_new(alloc, hasher, Some(size), input, output),
        Keep::Last => {
            let recent = read_lines(alloc, hasher, input)?;
            write_lines(recent.iter(), output)
        }
    }
}
