// Payload trackers (document 01, "CONNECT windows and payload trackers"; 000 `EwmaTracker`, `ewma_update`).
ghost use Rattle.std.specs.Prelude.{◌≡◌, ◌&&◌};
ghost use Rattle.tables.specs.Identity.{is_removed};
ghost use Rattle.tables.specs.Scan.{find, placed};
ghost use Rattle.tables.specs.Trackers.{saturated, mean_after, threshold, is_anomaly, fed, fresh_tracker, holds_tracker, feed_at, feed, removed_tracker, tracker_fine};

use crate::identity::{Id, PREFIX};
use crate::slots::{Record, seat};

// How many payload trackers a monitor holds.
pub const TRACKERS: usize = 16;

// `active` stays beside the others: `calls` sets and shows records that are not live (`tracker_live`, crates/calls/stdin), which an `Option` cannot hold, and the three
// tables share the trait `Record`.
#[derive(Clone, Copy, Debug, PartialEq, Eq)]
pub struct EwmaTracker {
    pub id: Id,
    pub mean_x256: u32,
    pub sample_count: u8,
    pub last_update_us: u64,
    pub active: bool,
}

// What a fed message does: `tracker` is to be stored at `at`; `alert` is kind 7.
#[derive(Clone, Copy, Debug, PartialEq, Eq)]
pub struct TrackerDecision {
    pub at: usize,
    pub tracker: EwmaTracker,
    pub alert: bool,
}

impl Record for EwmaTracker {
    ghost live = { λ k. k.active };

    ghost stamp = { λ k. k.last_update_us };

    fn is_live(&self) -> bool {
        self.active
    }

    fn stamp(&self) -> u64 {
        self.last_update_us
    }
}

// A sum or product of the mean, at most 2^32 - 1.
fn saturate(n: u64) -> u32
    ensures { result ≡ saturated n }
{
    n.min(u64::from(u32::MAX)) as u32
}

// The mean x 256 after one size more, by how many samples there were. During the first eight it holds their sum; from the ninth on, 32 of 256 parts are the size's and
// 224 the mean's.
#[tactic(auto, unfolding(crate::specs::Trackers::mean_after))]
fn mean_after(samples: u8, mean: u32, size: u16) -> u32
    ensures { result ≡ mean_after samples mean size }
{
    let size_x256 = u32::from(size) * 256;
    match samples {
        0 => size_x256,
        1..=6 => mean.saturating_add(size_x256).min(524_288),
        7 => mean.saturating_add(size_x256) / 8,
        _ => {
            let new_part = saturate(32 * u64::from(size_x256)) / 256;
            let old_part = saturate(224 * u64::from(mean)) / 256;
            new_part.saturating_add(old_part).min(65_536)
        }
    }
}

impl EwmaTracker {
    // A free place.
    pub const FREE: EwmaTracker = EwmaTracker {
        id: Id::EMPTY,
        mean_x256: 0,
        sample_count: 0,
        last_update_us: 0,
        active: false,
    };

    // A tracker that was fed nothing yet.
    fn new(id: &Id) -> EwmaTracker
        ensures { result ≡ fresh_tracker id.now }
    {
        EwmaTracker {
            id: *id,
            active: true,
            ..EwmaTracker::FREE
        }
    }

    // Feeds one size (000 `update`, whose answer is `is_anomaly`).
    #[tactic(auto, unfolding(crate::specs::Trackers::fed))]
    pub fn update(&mut self, payload_len: u16, now_us: u64)
        ensures { self.new ≡ fed self.old payload_len now_us }
    {
        self.mean_x256 = mean_after(self.sample_count, self.mean_x256, payload_len);
        self.sample_count = self.sample_count.saturating_add(1);
        self.last_update_us = now_us;
    }

    // Four times the mean: a size above it is far above the mean.
    fn threshold(&self) -> u32
        ensures { result ≡ threshold self.now.mean_x256 }
    {
        self.mean_x256.saturating_mul(4) / 256
    }

    // Whether a size alerts, before it is fed: never among the first eight, nor while the threshold is 0.
    #[tactic(auto, unfolding(crate::specs::Trackers::is_anomaly))]
    pub fn is_anomaly(&self, payload_len: u16) -> bool
        ensures { result ≡ is_anomaly self.now.sample_count self.now.mean_x256 payload_len }
    {
        let threshold = self.threshold();
        self.sample_count >= 8 && threshold < u32::from(payload_len) && 0 < threshold
    }

    // A live tracker of an identity.
    #[tactic(auto, unfolding(crate::specs::Trackers::holds_tracker))]
    fn holds(&self, id: &Id) -> bool
        ensures { result ≡ holds_tracker id.now self.now }
    {
        self.active && self.id.is_of(id)
    }

    // A live tracker that a removal means.
    fn is_gone(&self, id: &Id) -> bool
        ensures { result ≡ (self.now.active && is_removed id.now self.now.id) }
    {
        self.active && self.id.is_removed_by(id)
    }

    // Not a live record with a prefix length over 32 (number 10).
    pub fn is_fine(&self) -> bool
        ensures { result ≡ tracker_fine self.now }
    {
        !self.active || usize::from(self.id.prefix_len) <= PREFIX
    }
}

// The place of a held identity.
fn find_held(trackers: &[EwmaTracker; TRACKERS], id: &Id) -> Option<usize>
    ensures { result ≡ placed 16 (find (holds_tracker id.now) trackers.now) }
{
    trackers.iter().position(|tracker| tracker.holds(id))
}

// The size is judged by the mean before it, then fed.
fn feed_at(at: usize, held: EwmaTracker, payload_len: u16, now_us: u64) -> TrackerDecision
    ensures { result ≡ feed_at at held payload_len now_us }
{
    let mut tracker = held;
    let alert = tracker.is_anomaly(payload_len);
    tracker.update(payload_len, now_us);
    TrackerDecision { at, tracker, alert }
}

// What a fed message does to the table: nothing is stored.
#[tactic(auto, unfolding(crate::specs::Trackers::feed))]
pub fn ewma_update(
    trackers: &[EwmaTracker; TRACKERS],
    id: &Id,
    payload_len: u16,
    now_us: u64,
) -> TrackerDecision
    ensures { result ≡ feed trackers.now id.now payload_len now_us }
{
    match find_held(trackers, id) {
        Some(at) => feed_at(at, trackers[at], payload_len, now_us),
        None => feed_at(seat(trackers), EwmaTracker::new(id), payload_len, now_us),
    }
}

// The place of the tracker that a remove call removes (000 `remove_ewma_tracker`).
// As `removed_bucket`: one chain over another table, each named in docs/BY-FUNCTION.md.
pub fn removed_tracker(trackers: &[EwmaTracker; TRACKERS], id: &Id) -> Option<usize>
    ensures { result ≡ placed 16 (removed_tracker id.now trackers.now) }
{
    trackers.iter().position(|tracker| tracker.is_gone(id))
}
