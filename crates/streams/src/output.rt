// An output, all of an answer or a word that it is not.
ghost use Rattle.std.specs.Prelude.{length};
ghost use Rattle.streams.specs.Turns.{Fits, Whole};

use crate::turn;
use crate::turn::Turn;
use std::io::Write;
use std::thread::yield_now;

// Writes all of `buf`: so many bytes, or errno where it failed on the way. A write that was interrupted, or that found a pipe full, is made again, and one that took a part is followed by the rest.
// How much one call moves is the system's word, so the loop goes by what is left.
pub fn write_all<W: Write>(to: &mut W, buf: &[u8]) -> Result<usize, i32>
    ensures { Whole result (length buf.now) }
{
    let mut n = 0;
    let mut left = turn::PATIENCE;
    while n < buf.len() {
        if left == 0 {
            return Err(turn::EIO);
        }
        left -= 1;
        match write_once(to, &buf[n..]) {
            Turn::Failed(error) => return Err(error),
            Turn::Again => yield_now(),
            Turn::Moved(0) => return Err(turn::EIO),
            Turn::Moved(more) => n += more,
        }
    }
    Ok(n)
}

fn write_once<W: Write>(to: &mut W, buf: &[u8]) -> Turn
    ensures { Fits result (length buf.now) }
{
    let answer = to.write(buf);
    turn::answered(answer, buf)
}
