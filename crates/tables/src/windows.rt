// CONNECT windows (document 01, "CONNECT windows and payload trackers"; 000 `ClientStormEntry`, `record_connect`, `detect_connect_storm`).
ghost use Rattle.std.specs.Prelude.{◌≡◌, ◌≤◌, length};
ghost use Rattle.tables.specs.Scan.{find, placed};
ghost use Rattle.tables.specs.Windows.{fresh_window, recorded, count_from, in_window, holds_client, connect_at, connect, window_fine};

use crate::slots::{Record, seat};
use topics::hashes::ClientHashes;

// How many CONNECT windows a monitor holds, and how many stamps a window keeps.
pub const WINDOWS: usize = 16;

pub const STAMPS: usize = 16;

// How many stamps of the ring count is a number beside it: number 10 refuses states in which it is over 16, which a type would exclude. `active` stays, though no
// script sets it: the three tables share the trait `Record`, its searches and number 10's test of a record that is not live (`window_fine`), and an `Option` here alone is no plainer.
#[derive(Clone, Copy, Debug, PartialEq, Eq)]
pub struct ClientStormEntry {
    pub client_hash: u32,
    pub client_hash2: u32,
    pub timestamps: [u64; STAMPS],
    pub count: u8,
    pub write_idx: u8,
    pub last_seen_us: u64,
    pub active: bool,
}

// What a CONNECT does: `entry` is to be stored at `at`; `storm` denies the message.
#[derive(Clone, Copy, Debug, PartialEq, Eq)]
pub struct ConnectDecision {
    pub at: usize,
    pub entry: ClientStormEntry,
    pub storm: bool,
}

impl Record for ClientStormEntry {
    ghost live = { λ e. e.active };

    ghost stamp = { λ e. e.last_seen_us };

    fn is_live(&self) -> bool {
        self.active
    }

    fn stamp(&self) -> u64 {
        self.last_seen_us
    }
}

// How many stamps are at or above a time.
#[tactic(auto)]
fn stamps_from(stamps: &[u64], start: u64) -> usize
    ensures count { result ≡ count_from start stamps.now }
    ensures within { result ≤ length stamps.now }
{
    stamps.iter().filter(|&&stamp| start <= stamp).count()
}

impl ClientStormEntry {
    // A free place.
    pub const FREE: ClientStormEntry = ClientStormEntry {
        client_hash: 0,
        client_hash2: 0,
        timestamps: [0; STAMPS],
        count: 0,
        write_idx: 0,
        last_seen_us: 0,
        active: false,
    };

    // A window that no CONNECT was recorded in yet.
    fn new(hashes: ClientHashes) -> ClientStormEntry
        ensures { result ≡ fresh_window hashes }
    {
        ClientStormEntry {
            client_hash: hashes.hash,
            client_hash2: hashes.hash2,
            active: true,
            ..ClientStormEntry::FREE
        }
    }

    // Records a CONNECT: the ring's next place takes the stamp.
    #[tactic(auto, unfolding(crate::specs::Windows::recorded))]
    pub fn record(&mut self, ts_us: u64)
        ensures { self.new ≡ recorded self.old ts_us }
    {
        let at = usize::from(self.write_idx) % STAMPS;
        self.timestamps[at] = ts_us;
        if usize::from(self.count) < STAMPS {
            self.count += 1;
        }
        self.write_idx = ((at + 1) % STAMPS) as u8;
        self.last_seen_us = ts_us;
    }

    // Counts the stamps in the window, later ones included.
    #[tactic(auto, unfolding(crate::specs::Windows::in_window))]
    pub fn count_in_window(&self, now_us: u64, window_us: u64) -> u8
        ensures { result ≡ in_window self.now now_us window_us }
    {
        let held = usize::from(self.count).min(STAMPS);
        stamps_from(&self.timestamps[..held], now_us.saturating_sub(window_us)) as u8
    }

    // A live window of a client: clients are told apart by the two hashes.
    #[tactic(auto, unfolding(crate::specs::Windows::holds_client))]
    fn holds(&self, hashes: ClientHashes) -> bool
        ensures { result ≡ holds_client hashes self.now }
    {
        self.active && self.client_hash == hashes.hash && self.client_hash2 == hashes.hash2
    }

    // Not a live record with a window count over 16 (number 10).
    pub fn is_fine(&self) -> bool
        ensures { result ≡ window_fine self.now }
    {
        !self.active || usize::from(self.count) <= STAMPS
    }
}

// The place of a client's window.
fn find_held(clients: &[ClientStormEntry; WINDOWS], hashes: ClientHashes) -> Option<usize>
    ensures { result ≡ placed 16 (find (holds_client hashes) clients.now) }
{
    clients.iter().position(|entry| entry.holds(hashes))
}

// The CONNECT is recorded, then counted.
fn connect_at(
    at: usize,
    held: ClientStormEntry,
    now_us: u64,
    threshold: u8,
    window_us: u64,
) -> ConnectDecision
    ensures { result ≡ connect_at at held now_us threshold window_us }
{
    let mut entry = held;
    entry.record(now_us);
    let storm = threshold <= entry.count_in_window(now_us, window_us);
    ConnectDecision { at, entry, storm }
}

// What a CONNECT does to the table: nothing is stored.
#[tactic(auto, unfolding(crate::specs::Windows::connect))]
pub fn record_connect(
    clients: &[ClientStormEntry; WINDOWS],
    hashes: ClientHashes,
    now_us: u64,
    threshold: u8,
    window_us: u64,
) -> ConnectDecision
    ensures { result ≡ connect clients.now hashes now_us threshold window_us }
{
    match find_held(clients, hashes) {
        Some(at) => connect_at(at, clients[at], now_us, threshold, window_us),
        None => {
            let fresh = ClientStormEntry::new(hashes);
            connect_at(seat(clients), fresh, now_us, threshold, window_us)
        }
    }
}
