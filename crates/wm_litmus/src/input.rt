//! Reading input up to a limit.
ghost use Rattle.std.specs.Prelude.{◌≡◌, ◌≤◌, IfOk, IfSome, take, vec_len};

use crate::files::FileFault;
use std::alloc::Global;
use std::io::Read;

/// The most bytes that a read asks for.
const CHUNK: usize = 4096;

/// The first `limit` bytes of the input, or all of them if there are fewer, in at most `limit` reads.
///
/// # Errors
///
/// `Device` at the first read that fails, including an interrupted one; `OutOfMemory` if an allocation fails.
pub fn read_limited<R: Read>(
    alloc: Global,
    input: &mut R,
    limit: usize,
) -> Result<Vec<u8>, FileFault>
    ensures bound { IfOk result (λ bytes. vec_len bytes ≤ limit) }
    ensures known { IfOk result (λ bytes. IfSome (R.remaining input.old)
        (λ all. bytes.items ≡ take limit all)) }
{
    let mut bytes = Vec::new(alloc);
    let mut buffer = [0u8; CHUNK];
    for _ in 0..limit {
        let room = (limit - bytes.len()).min(CHUNK);
        if room == 0 {
            return Ok(bytes);
        }
        let part = &mut buffer[..room];
        let Ok(count) = input.read(part) else {
            return Err(FileFault::Device);
        };
        if count == 0 {
            return Ok(bytes);
        }
        bytes.extend_from_slice(&buffer[..count])?;
    }
    Ok(bytes)
}
