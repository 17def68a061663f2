// An input, all of it or none: an end of input is told from a read that failed, and a part of a text is never taken for the whole.
ghost use Rattle.std.specs.Prelude.{length};
ghost use Rattle.streams.specs.Turns.{DoneWithin, Fits};

use crate::turn;
use crate::turn::Turn;
use std::io::Read;
use std::thread::yield_now;

// Reads until the input ends or `buf` is full: so many bytes and all of them, or errno where it failed on the way. A read that was interrupted, or that found a pipe empty, is made again.
// How much one call moves is the system's word, so the loop goes by what is left.
pub fn read_all<R: Read>(from: &mut R, buf: &mut [u8]) -> Result<usize, i32>
    ensures { DoneWithin result (length buf.new) }
{
    let mut n = 0;
    let mut left = turn::PATIENCE;
    while n < buf.len() {
        if left == 0 {
            return Err(turn::EIO);
        }
        left -= 1;
        match read_once(from, &mut buf[n..]) {
            Turn::Failed(error) => return Err(error),
            Turn::Again => yield_now(),
            Turn::Moved(0) => return Ok(n),
            Turn::Moved(more) => n += more,
        }
    }
    Ok(n)
}

fn read_once<R: Read>(from: &mut R, buf: &mut [u8]) -> Turn
    ensures { Fits result (length buf.old) }
{
    let answer = from.read(buf);
    turn::answered(answer, buf)
}
