// What one call of `read` or `write` came to. The C library answers -1 for whatever went wrong, and leaves the reason in errno; std hands the same on as a count or an error.
ghost use Rattle.std.specs.Prelude.{◌≡◌, ◌≤◌, IfOk, length};
ghost use Rattle.streams.specs.Turns.{turn_of, missed_of, Fits};

use std::io::{Error, Result};

// The call moved so many bytes; or it did nothing this time, and is to be made again; or it failed, with errno. Not `Result<Option<usize>, i32>`, which says the same without the names.
#[derive(Clone, Copy, Debug, PartialEq, Eq)]
pub enum Turn {
    Moved(usize),
    Again,
    Failed(i32),
}

// Turns that no run uses up: a loop has to end, and nothing says that a pipe ever takes or gives a byte.
pub const PATIENCE: u64 = u64::MAX;

// A signal came first.
const EINTR: i32 = 4;

// What an error is that has no errno, and a write that takes nothing.
pub(crate) const EIO: i32 = 5;

// The pipe was not ready.
const EAGAIN: i32 = 11;

// What the answer of a call on `buf` means, with errno as it was just after.
pub fn came_to(got: isize, error: i32, buf: &[u8]) -> Turn
    ensures { result ≡ turn_of got error (length buf.now) }
{
    if got < 0 {
        return missed(error);
    }
    Turn::Moved(io::count(got, buf))
}

// A call that moved nothing: whether it is to be made again.
#[tactic(auto, using(crate::proofs::turn::TurnLaws::missed_interrupted, crate::proofs::turn::TurnLaws::missed_blocked, crate::proofs::turn::TurnLaws::missed_failed))]
fn missed(error: i32) -> Turn
    ensures { result ≡ missed_of error }
{
    match error {
        EINTR | EAGAIN => Turn::Again,
        _ => Turn::Failed(error),
    }
}

// The errno that std's error holds.
pub(crate) fn errno(error: &Error) -> i32 {
    error.raw_os_error().unwrap_or(EIO)
}

// What std's answer to a call on `buf` means.
pub(crate) fn answered(answer: Result<usize>, buf: &[u8]) -> Turn
    requires { IfOk answer (λ n. n ≤ length buf.now) }
    ensures { Fits result (length buf.now) }
{
    match answer {
        Ok(n) => came_to(n as isize, 0, buf),
        Err(error) => came_to(-1, errno(&error), buf),
    }
}
