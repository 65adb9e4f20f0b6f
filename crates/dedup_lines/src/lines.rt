//! Reading and writing lines.
ghost use Rattle.std.specs.Prelude.{◌≡◌, IsTrue, IsFalse, IfOk, IfErr, OnOk, [], ◌∷◌};
ghost use Rattle.std.specs.Io.BufRead.{strip_last};
ghost use Rattle.std.specs.Io.KnownBytes.{Appends, IsAtEnd, Keeps};
ghost use Rattle.dedup_lines.specs.Lines.{TakesLines, text_of};
ghost use Rattle.dedup_lines.specs.Stop.{StopsOutput};

use super::stop::Stop;
use std::io::{BufRead, Write};

/// Removes the line feed at the end of a line, if it has one.
fn strip_line_feed(line: &mut Vec<u8>)
    ensures { line.new.items ≡ strip_last 10 line.old.items }
{
    let len = line.len();
    if len > 0 && line[len - 1] == b'\n' {
        line.truncate(len - 1);
    }
}

/// Reads the next line in place of the one that `line` has, without the line feed that ends it.
/// Returns `false` at the end of the input.
pub fn read_line<R: BufRead>(input: &mut R, line: &mut Vec<u8>) -> Result<bool, Stop>
    ensures line { IfOk result (λ is_read. IsTrue is_read
        → TakesLines (R.remaining input.old) (R.remaining input.new) (line.new.items ∷ [])) }
    ensures end { IfOk result (λ is_read. IsFalse is_read → IsAtEnd (R.remaining input.old)) }
    ensures stop { IfErr result StopsOutput }
{
    line.clear();
    match input.read_until(b'\n', line) {
        Ok(0) => Ok(false),
        Ok(_) => {
            strip_line_feed(line);
            Ok(true)
        }
        Err(error) => Err(Stop::of_read(error.kind())),
    }
}

/// Writes bytes.
pub fn write_bytes<W: Write>(output: &mut W, bytes: &[u8]) -> Result<(), Stop>
    ensures written { OnOk result
        (Appends (W.contents output.old) (W.contents output.new) bytes.now) }
    ensures stop { IfErr result StopsOutput }
{
    match output.write_all(bytes) {
        Ok(()) => Ok(()),
        Err(error) => Err(Stop::of_write(error.kind())),
    }
}

/// Writes a line, and the line feed that ends it.
pub fn write_line<W: Write>(output: &mut W, line: &[u8]) -> Result<(), Stop>
    ensures written { OnOk result
        (Appends (W.contents output.old) (W.contents output.new) (text_of (line.now ∷ []))) }
    ensures stop { IfErr result StopsOutput }
{
    write_bytes(output, line)?;
    write_bytes(output, b"\n")
}

/// Hands what is written to where it goes.
pub fn flush<W: Write>(output: &mut W) -> Result<(), Stop>
    ensures kept { Keeps (W.contents output.old) (W.contents output.new) }
    ensures stop { IfErr result StopsOutput }
{
    match output.flush() {
        Ok(()) => Ok(()),
        Err(error) => Err(Stop::of_write(error.kind())),
    }
}
