// A table of a fixed size, whatever its records are: the first free place, the one that was used longest ago, and which of them a newcomer gets (document 01, "Buckets",
// "CONNECT windows and payload trackers").
ghost use Rattle.std.specs.Prelude.{◌≡◌, ◌<◌, Bool, ℕ, not, length};
ghost use Rattle.tables.specs.Scan.{find, placed, least_of, least_place, any, seat};

// A record of a table: whether it is live, and when it was last used. The search by a key is no third function here: it is the chain `position`.
pub trait Record {
    ghost live: { Self → Bool };

    ghost stamp: { Self → ℕ };

    fn is_live(&self) -> bool
        ensures { result ≡ live self.now };

    fn stamp(&self) -> u64
        ensures { result ≡ stamp self.now };
}

// The first free place.
pub fn free_place<T: Record>(slots: &[T]) -> Option<usize>
    ensures { result ≡ placed (length slots.now) (find (λ r. not (T.live r)) slots.now) }
{
    slots.iter().position(|record| !record.is_live())
}

// The place of the least stamp; 0 in an empty table. It counts down, so that the first place wins a tie.
pub fn oldest_place<T: Record>(slots: &[T]) -> usize
    ensures place { result ≡ least_place (least_of T.stamp any slots.now) }
    ensures within { 0 < length slots.now → result < length slots.now }
{
    if slots.len() == 0 {
        return 0;
    }
    let mut at = slots.len() - 1;
    let mut least = slots[at].stamp();
    for i in (0..at).rev() {
        let then = slots[i].stamp();
        if then <= least {
            at = i;
            least = then;
        }
    }
    at
}

// A place for a newcomer: the first free one, else the one with the least stamp.
#[tactic(auto, unfolding(crate::specs::Scan::seat))]
pub fn seat<T: Record>(slots: &[T]) -> usize
    ensures { result ≡ seat (λ r. not (T.live r)) T.stamp slots.now }
{
    free_place(slots).unwrap_or_else(|| oldest_place(slots))
}
