//! Reading the input to its end.
ghost use Rattle.std.specs.Prelude.{◌≡◌, ◌⊎◌, IfOk, IfErr, IfSome};

use super::stop::Stop;
use std::alloc::Global;
use std::io::{ErrorKind, Read};

const BUFFER_LEN: usize = 8192;

/// Reads all bytes that are left.
///
/// They are read into a fixed buffer and pushed on from there, so a failed read and a refused
/// growth are told apart. An interrupted read is tried again.
pub fn read_all<R: Read>(alloc: Global, input: &mut R) -> Result<Vec<u8>, Stop>
    ensures bytes { IfOk result (λ bytes.
        IfSome (R.remaining input.old) (λ all. bytes.items ≡ all)) }
    ensures stop { IfErr result (λ stop. (stop ≡ Stop.OutOfMemory) ⊎ (stop ≡ Stop.InputFailed)) }
{
    let mut bytes = Vec::new(alloc);
    let mut buffer = [0u8; BUFFER_LEN];
    // The count only bounds the loop: it is never reached.
    for _ in 0..u64::MAX {
        match input.read(&mut buffer) {
            Ok(0) => return Ok(bytes),
            Ok(n) => bytes.extend_from_slice(&buffer[..n])?,
            Err(error) => {
                if error.kind() != ErrorKind::Interrupted {
                    return Err(Stop::InputFailed);
                }
            }
        }
    }
    Err(Stop::InputFailed)
}
