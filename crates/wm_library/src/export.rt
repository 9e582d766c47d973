//! The function that C calls.
ghost use Rattle.std.specs.Prelude.{◌≡◌, ◌≤◌, ◌<◌};
ghost use Rattle.wm_library.specs.Answer.{WritesAnswer};

use crate::answer::{answer_to, write_front};
use std::alloc::Global;

/// Completes a log against its module and checks it, as the command `verify` does. The line of the verdict, without a
/// newline, is written into `room` as far as it fits, and its length into `size`. Returns the status of the program: 0
/// allowed, 1 broken, 2 refused; or 3 if an allocation fails, and then `room` and `size` are unchanged.
#[unsafe(no_mangle)]
pub extern "C" fn wmlab_answer(
    alloc: Global,
    module_bytes: &[u8],
    document_bytes: &[u8],
    room: &mut [u8],
    size: &mut usize,
) -> u8
    ensures status { result ≤ 3 }
    ensures answered { result < 3 → WritesAnswer module_bytes.now document_bytes.now room.old room.new size.new result }
    ensures room_kept { result ≡ 3 → room.new ≡ room.old }
    ensures size_kept { result ≡ 3 → size.new ≡ size.old }
{
    match answer_to(alloc, module_bytes, document_bytes) {
        Ok(answer) => {
            let text = answer.line.as_bytes();
            *size = text.len();
            write_front(room, text);
            answer.status
        }
        Err(_) => 3,
    }
}
