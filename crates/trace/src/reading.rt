// How far a trace was read, and why no further. It is a file of its own, since what the checker knows of `Stop` must not lean on the definitions that speak of it.
ghost use Rattle.std.specs.Prelude.{◌≤◌};

/// How far a text was read: the place after its last line, and how many lines there were.
#[derive(Clone, Copy, Debug, PartialEq, Eq)]
pub struct Place {
    pub next: usize,
    pub line: u64,
}

/// Why a text was read no further: a number, the line that it stands at, and the place after that line.
#[derive(Clone, Copy, Debug, PartialEq, Eq)]
pub struct Stop {
    pub number: u32,
    pub line: u64,
    pub next: usize,
    ghost refused: { 1 ≤ number },
}
