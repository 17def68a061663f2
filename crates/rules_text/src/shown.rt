// A topic or a pattern as a person reads it, written into a lent buffer.
ghost use Rattle.lines.specs.Wrote.{Wrote};
ghost use Rattle.topics.specs.Shown.{shown};

use lines::put::put_byte;
use topics::shown::{is_readable, shown_byte};

// As many bytes as it has, from `at` on: no control character of a terminal is among them.
pub fn put_shown(out: &mut [u8], at: usize, topic: &[u8]) -> usize
    ensures { Wrote out.old out.new at (shown topic.now) result }
{
    let whole = is_readable(topic);
    let mut p = at;
    for &byte in topic {
        p = put_byte(out, p, shown_byte(whole, byte));
    }
    p
}
