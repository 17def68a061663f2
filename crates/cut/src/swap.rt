// One byte for another, for programs that write a text on one line.
ghost use Rattle.std.specs.Prelude.{◌≡◌};
ghost use Rattle.cut.specs.Swap.{swapped, swap_first};

// Another byte where it is `old`.
#[tactic(auto, unfolding(crate::specs::Swap::swapped))]
fn swapped(b: u8, old: u8, new: u8) -> u8
    ensures { result ≡ swapped old new b }
{
    if b == old { new } else { b }
}

// Another byte for each `old` among the first `n`.
pub fn swap(s: &mut [u8], n: usize, old: u8, new: u8)
    ensures { s.new ≡ swap_first old new n s.old }
{
    let n = n.min(s.len());
    for b in &mut s[..n] {
        *b = swapped(*b, old, new);
    }
}
