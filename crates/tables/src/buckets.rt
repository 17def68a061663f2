// Token buckets (document 01, "Buckets", with request C-17; 000 `RateBucket`, `rate_limit_check`).
ghost use Rattle.std.specs.Prelude.{◌≡◌, ◌-◌, ◌&&◌};
ghost use Rattle.tables.specs.Buckets.{refilled, spend, is_expired, holds_bucket, made, newcomer, decide, removed_bucket, bucket_fine};
ghost use Rattle.tables.specs.Identity.{is_removed};
ghost use Rattle.tables.specs.Scan.{find, placed};

use crate::identity::{Id, PREFIX};
use crate::slots::{Record, free_place, oldest_place};

// How many token buckets a monitor holds.
pub const BUCKETS: usize = 32;

// How many millionths make a token.
const PARTS: u64 = 1_000_000;

// The largest remainder: with one millionth more it is a token.
pub(crate) const REMAINDER_MAX: u32 = 999_999;

// How long it takes to fill any bucket, in microseconds: its capacity is earned in a second.
const FILLS: u64 = 1_000_000;

// How long a bucket may be idle before a newcomer takes its place with its full rate, in microseconds.
pub(crate) const IDLE_MAX: u64 = 300_000_000;

// A bucket. `remainder` has the millionths of a token that were earned and are no whole one yet; `last_refill_us`, named as in 000, is the time of the last message,
// at the latest time so far, since each message refills. `active` stays beside it: `calls` sets and shows records that are not live (`bucket_live`, crates/calls/stdin), which
// an `Option` cannot hold, and the three tables share the trait `Record`.
#[derive(Clone, Copy, Debug, PartialEq, Eq)]
pub struct RateBucket {
    pub id: Id,
    pub tokens: u16,
    pub capacity: u16,
    pub remainder: u32,
    pub last_refill_us: u64,
    pub active: bool,
}

// How the limiter ended: a token was spent, there was none, or a live bucket gave way.
#[derive(Clone, Copy, Debug, PartialEq, Eq)]
pub enum RateCheckResult {
    Allowed,
    Limited,
    EvictedAndDenied,
}

// What the limiter decided: `bucket` is to be stored at `at`.
#[derive(Clone, Copy, Debug, PartialEq, Eq)]
pub struct RateDecision {
    pub at: usize,
    pub bucket: RateBucket,
    pub result: RateCheckResult,
}

impl Record for RateBucket {
    ghost live = { λ b. b.active };

    ghost stamp = { λ b. b.last_refill_us };

    fn is_live(&self) -> bool {
        self.active
    }

    fn stamp(&self) -> u64 {
        self.last_refill_us
    }
}

impl RateBucket {
    // A free place.
    pub const FREE: RateBucket = RateBucket {
        id: Id::EMPTY,
        tokens: 0,
        capacity: 0,
        remainder: 0,
        last_refill_us: 0,
        active: false,
    };

    // A bucket made now: its capacity is the rate, its remainder 0.
    fn new(id: &Id, rate: u16, tokens: u16, now_us: u64) -> RateBucket
        ensures { result ≡ made id.now rate tokens now_us }
    {
        RateBucket {
            id: *id,
            tokens,
            capacity: rate,
            remainder: 0,
            last_refill_us: now_us,
            active: true,
        }
    }

    // Tokens are earned. Where the time fills any bucket, nothing is multiplied, so that no product runs over.
    #[tactic(auto, unfolding(crate::specs::Buckets::refilled))]
    fn refill(&mut self, now_us: u64)
        ensures { self.new ≡ refilled self.old now_us }
    {
        let elapsed = now_us.saturating_sub(self.last_refill_us);
        self.last_refill_us = self.last_refill_us.max(now_us);
        if elapsed < FILLS {
            let due = elapsed * u64::from(self.capacity) + u64::from(self.remainder);
            let tokens = u64::from(self.tokens) + due / PARTS;
            if tokens < u64::from(self.capacity) {
                self.tokens = tokens as u16;
                self.remainder = (due % PARTS) as u32;
                return;
            }
        }
        self.tokens = self.capacity;
        self.remainder = 0;
    }

    // One message of the bucket's identity: whether it is within the rate.
    #[tactic(auto, unfolding(crate::specs::Buckets::spend))]
    pub fn try_consume(&mut self, now_us: u64) -> bool
        ensures within { result ≡ (spend self.old now_us).ok }
        ensures bucket { self.new ≡ (spend self.old now_us).bucket }
    {
        self.refill(now_us);
        if self.tokens == 0 {
            return false;
        }
        self.tokens -= 1;
        true
    }

    // Idle more than 300 seconds.
    #[tactic(auto, unfolding(crate::specs::Buckets::is_expired))]
    pub fn is_expired(&self, now_us: u64) -> bool
        ensures { result ≡ is_expired self.now now_us }
    {
        now_us.saturating_sub(self.last_refill_us) > IDLE_MAX
    }

    // A live bucket of an identity.
    #[tactic(auto, unfolding(crate::specs::Buckets::holds_bucket))]
    fn holds(&self, id: &Id) -> bool
        ensures { result ≡ holds_bucket id.now self.now }
    {
        self.active && self.id.is_of(id)
    }

    // A live bucket that a removal means.
    fn is_gone(&self, id: &Id) -> bool
        ensures { result ≡ (self.now.active && is_removed id.now self.now.id) }
    {
        self.active && self.id.is_removed_by(id)
    }

    // Not a live bucket with a prefix length over 32 or a remainder over 999,999 (number 10).
    pub fn is_fine(&self) -> bool
        ensures { result ≡ bucket_fine self.now }
    {
        !self.active || usize::from(self.id.prefix_len) <= PREFIX && self.remainder <= REMAINDER_MAX
    }
}

// The place of a held identity.
pub(crate) fn find_held(buckets: &[RateBucket; BUCKETS], id: &Id) -> Option<usize>
    ensures { result ≡ placed 32 (find (holds_bucket id.now) buckets.now) }
{
    buckets.iter().position(|bucket| bucket.holds(id))
}

// A bucket made in a free or an expired place: the message is allowed.
fn granted(at: usize, id: &Id, rate: u16, now_us: u64) -> RateDecision
    ensures { result ≡ record { at = at; bucket = made id.now rate (rate - 1) now_us; result = RateCheckResult.Allowed } }
{
    RateDecision {
        at,
        bucket: RateBucket::new(id, rate, rate.saturating_sub(1), now_us),
        result: RateCheckResult::Allowed,
    }
}

// A message of a new identity: it gets the first free place, else that of the least time, whose bucket is expired or gives way.
fn newcomer(buckets: &[RateBucket; BUCKETS], id: &Id, max_rate: u16, now_us: u64) -> RateDecision
    ensures { result ≡ newcomer buckets.now id.now max_rate now_us }
{
    if let Some(free) = free_place(buckets) {
        return granted(free, id, max_rate, now_us);
    }
    let oldest = oldest_place(buckets);
    if buckets[oldest].is_expired(now_us) {
        return granted(oldest, id, max_rate, now_us);
    }
    RateDecision {
        at: oldest,
        bucket: RateBucket::new(id, max_rate, 0, now_us),
        result: RateCheckResult::EvictedAndDenied,
    }
}

// What the limiter decides on a message of an identity under a rate: nothing is stored.
#[tactic(auto, unfolding(crate::specs::Buckets::decide))]
pub fn rate_limit_check(
    buckets: &[RateBucket; BUCKETS],
    id: &Id,
    max_rate: u16,
    now_us: u64,
) -> RateDecision
    ensures { result ≡ decide buckets.now id.now max_rate now_us }
{
    if let Some(at) = find_held(buckets, id) {
        let mut bucket = buckets[at];
        let result = if bucket.try_consume(now_us) {
            RateCheckResult::Allowed
        } else {
            RateCheckResult::Limited
        };
        return RateDecision { at, bucket, result };
    }
    newcomer(buckets, id, max_rate, now_us)
}

// The place of the bucket that the remove call removes.
pub fn removed_bucket(buckets: &[RateBucket; BUCKETS], id: &Id) -> Option<usize>
    ensures { result ≡ placed 32 (removed_bucket id.now buckets.now) }
{
    buckets.iter().position(|bucket| bucket.is_gone(id))
}
