// A descriptor by its number, as a shell hands one over: `std` opens files by name, and reads standard input alone. To open it anew by its name below /dev/fd would be no
// read of it: a file would be read from its beginning, another end of a terminal would open, a named pipe whose writer is gone would wait for ever, and a socket has no name there.
ghost use Rattle.std.specs.Prelude.{length};
ghost use Rattle.io.specs.Counts.{IsPrefixLen};

use crate::turn::errno;
use std::fs;
use std::io::{Error, Read, Result};
use std::rt::Files;
use std_io::io::last_error;

// A name that nothing has: to ask for it leaves in errno what only a name can give, ENOTDIR, or ENOENT where there is no /dev/null.
const BELOW_A_FILE: &str = "/dev/null/none";

// How the read that comes next will end, where it is known by now. Not `Option<Result<(), i32>>`, which says the same without the three names.
#[derive(Clone, Copy, Debug, PartialEq, Eq)]
enum Next {
    Unknown,
    Ended,
    Failed(i32),
}

// The open descriptor of that number.
#[derive(Drop)]
pub struct Descriptor<'a, F> {
    files: &'a F,
    number: i32,
    next: Next,
}

impl<'a, F: Files> Descriptor<'a, F> {
    pub fn new(files: &'a F, number: i32) -> Descriptor<'a, F> {
        Descriptor {
            files,
            number,
            next: Next::Unknown,
        }
    }

    // The kit's `io` reads until the buffer is full, or a read brings nothing; it says how many bytes came, and not why no more did: the input has ended, or that read failed and left its
    // reason in errno. So errno gets a value before that no read leaves, and the input has ended where it is still there. What is known then of the last read is kept, since no other may say it
    // again.
    fn read_on(&mut self, buf: &mut [u8]) -> usize
        ensures { IsPrefixLen result buf.new }
    {
        let _ = fs::metadata(self.files, BELOW_A_FILE);
        let before = errno(&last_error());
        let n = io::read_full(self.number, buf);
        if n < buf.len() {
            let error = errno(&last_error());
            self.next = if error == before {
                Next::Ended
            } else {
                Next::Failed(error)
            };
        }
        n
    }
}

impl<'a, F: Files> Read for Descriptor<'a, F> {
    fn read(&mut self, buf: &mut [u8]) -> Result<usize> {
        if buf.is_empty() {
            return Ok(0);
        }
        if let Next::Unknown = self.next {
            let n = self.read_on(buf);
            if 0 < n {
                return Ok(n);
            }
        }
        let known = self.next;
        self.next = Next::Unknown;
        match known {
            Next::Failed(error) => Err(Error::from_raw_os_error(error)),
            _ => Ok(0),
        }
    }
}
