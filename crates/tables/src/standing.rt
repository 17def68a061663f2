// Where the limit stands: from when on the limiter lets a message of an identity pass, if no message comes before it, and who would give way. Nothing is spent or stored.
ghost use Rattle.std.specs.Prelude.{◌≡◌};
ghost use Rattle.tables.specs.Scan.{placed};
ghost use Rattle.tables.specs.Standing.{later_by, opening_of, opening_new, prospect_in, taken_in, oldest_live};

use crate::buckets::{BUCKETS, IDLE_MAX, REMAINDER_MAX, RateBucket, find_held};
use crate::identity::Id;
use crate::slots::{free_place, oldest_place};

// The longest wait of a newcomer, in microseconds: with it a bucket is idle too long.
const IDLE_OVER: u64 = IDLE_MAX + 1;

// From a time on, or not within 64 bits. Its own enum, not `Option<u64>`: the definitions `opens` and `opening_of` and the claims on them (theorems/specs/Standing.antt) read
// its cases.
#[derive(Clone, Copy, Debug, PartialEq, Eq)]
pub enum Opening {
    Never,
    From(u64),
}

// Whether an identity is held, and from when on a message of it passes: both have one.
#[derive(Clone, Copy, Debug, PartialEq, Eq)]
pub struct Prospect {
    pub held: bool,
    pub opening: Opening,
}

// A wait after a time.
fn later_by(time: u64, wait: u64) -> Opening
    ensures { result ≡ later_by time wait }
{
    match time.checked_add(wait) {
        Some(from) => Opening::From(from),
        None => Opening::Never,
    }
}

// A held bucket: at once with a token or a whole one due, else when the rest of a token is earned.
#[tactic(auto, unfolding(crate::specs::Standing::opening_of))]
pub fn opening_of(bucket: &RateBucket) -> Opening
    ensures { result ≡ opening_of bucket.now }
{
    if bucket.capacity == 0 {
        return Opening::Never;
    }
    if bucket.tokens > 0 || bucket.remainder > REMAINDER_MAX {
        return Opening::From(0);
    }
    let rest = (REMAINDER_MAX - bucket.remainder) / u32::from(bucket.capacity) + 1;
    later_by(bucket.last_refill_us, u64::from(rest))
}

// A new identity: at once where a place is free, else when the bucket with the least time is idle for more than 300 seconds.
#[tactic(auto, unfolding(crate::specs::Standing::opening_new))]
pub fn opening_new(buckets: &[RateBucket; BUCKETS]) -> Opening
    ensures { result ≡ opening_new buckets.now }
{
    if free_place(buckets).is_some() {
        return Opening::From(0);
    }
    later_by(buckets[oldest_place(buckets)].last_refill_us, IDLE_OVER)
}

// An identity, held or new.
#[tactic(auto, unfolding(crate::specs::Standing::prospect_in))]
pub fn look_ahead(buckets: &[RateBucket; BUCKETS], id: &Id) -> Prospect
    ensures { result ≡ prospect_in buckets.now id.now }
{
    match find_held(buckets, id) {
        Some(at) => Prospect {
            held: true,
            opening: opening_of(&buckets[at]),
        },
        None => Prospect {
            held: false,
            opening: opening_new(buckets),
        },
    }
}

// How many places are taken.
#[tactic(auto)]
pub fn taken(buckets: &[RateBucket; BUCKETS]) -> usize
    ensures { result ≡ taken_in buckets.now }
{
    buckets.iter().filter(|bucket| bucket.active).count()
}

// The place of the oldest live bucket, the first in a tie: it counts down.
pub fn oldest_live(buckets: &[RateBucket; BUCKETS]) -> Option<usize>
    ensures { result ≡ placed 32 (oldest_live buckets.now) }
{
    let mut oldest: Option<usize> = None;
    let mut time = u64::MAX;
    for at in (0..BUCKETS).rev() {
        let then = buckets[at].last_refill_us;
        if buckets[at].active && then <= time {
            oldest = Some(at);
            time = then;
        }
    }
    oldest
}
