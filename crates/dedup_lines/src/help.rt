//! What `--help` prints.

ghost use Rattle.std.specs.Prelude.{IfErr, OnOk};
ghost use Rattle.std.specs.Io.KnownBytes.{Appends};
ghost use Rattle.dedup_lines.specs.Help.{help_text};
ghost use Rattle.dedup_lines.specs.Stop.{StopsOutput};

use super::lines::{flush, write_line};
use super::stop::Stop;
use std::io::Write;

/// Writes what the program does and its options, and flushes.
pub fn write_help<W: Write>(output: &mut W) -> Result<(), Stop>
    ensures written { OnOk result
        (Appends (W.contents output.old) (W.contents output.new) help_text) }
    ensures stop { IfErr result StopsOutput }
{
    write_line(
        output,
        b"dedup prints each line of standard input once, at its first appearance.",
    )?;
    write_line(
        output,
        b"--last: prints each line once, at its last appearance.",
    )?;
    write_line(
        output,
        b"--window N: prints each line that is not among the last N distinct lines before it.",
    )?;
    flush(output)
}
