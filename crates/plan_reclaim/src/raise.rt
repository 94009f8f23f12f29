// What the limits have over the starts of the second deal.
ghost use Rattle.std.specs.Prelude.{◌≡◌, List, ℕ, ◌+◌, ◌*◌, ◌≤◌, ◌<◌, length};
ghost use Rattle.figures.specs.Figures.{at};
ghost use Rattle.figures.specs.Sums.{sum};
ghost use Rattle.rooms.specs.Table.{most_cords, most_watts};
ghost use Rattle.rooms.specs.Credits.{tree_sum};
ghost use Rattle.plan_reclaim.specs.Raising.{Raisable};
ghost use Rattle.deals.specs.Ranks.{list_beneath};
ghost use Rattle.rooms.specs.Trees.{ParentsFirst};

use figures::credit;
use rooms::MOST_NODES;

// What each cord's start has over its low is credited to the cord's node. A node and all nodes beneath it then have, together, what
// the cords beneath it rise by, whatever the parents are.
fn credit_rises(nodes: &[u16], lows: &[u32], starts: &[u32], raised: &mut [u64])
    requires sizes { (length nodes.now ≤ most_cords) × (length lows.now ≡ length nodes.now) × (length starts.now ≡ length nodes.now) }
    requires cords { (c : ℕ) → c < length nodes.now → (1 ≤ at nodes.now c) × (at nodes.now c ≤ length raised.old)
        × (at lows.now c ≤ at starts.now c) × (at starts.now c ≤ most_watts) }
    requires zeros { (n : ℕ) → at raised.old n ≡ 0 }
    ensures in_range { sum (length raised.old) (at raised.new) ≤ most_cords * most_watts }
    ensures raised { (parents : List ℕ) (n : ℕ) → length parents ≡ length raised.old
        → tree_sum (at parents) (length parents) (at raised.new) n + list_beneath parents nodes.now lows.now n
        ≡ list_beneath parents nodes.now starts.now n }
{
    for (c, &node) in nodes.iter().enumerate() {
        credit(raised, usize::from(node), u64::from(starts[c] - lows[c]));
    }
}

// From the last node to the first, a node's figure is taken from what its limit has left, and credited to its parent.
fn take_rises(parents: &[u16], raised: &mut [u64], left: &mut [u32])
    requires sizes { (length raised.old ≡ length parents.now) × (length left.old ≡ length parents.now)
        × (sum (length parents.now) (at raised.old) ≤ most_cords * most_watts) }
    requires parents_first { ParentsFirst (length parents.now) (at parents.now) }
    requires enough { (n : ℕ) → n < length parents.now → tree_sum (at parents.now) (length parents.now) (at raised.old) n
        ≤ at left.old n }
    ensures taken { (n : ℕ) → n < length parents.now
        → at left.new n + tree_sum (at parents.now) (length parents.now) (at raised.old) n
        ≡ at left.old n }
{
    // By hand: the chips' build takes no `iter().rev()`, whose pointers stand in pairs (chips/portable.awk).
    for n in (0..parents.len()).rev() {
        let more = raised[n];
        left[n] = (u64::from(left[n]) - more) as u32;
        credit(raised, usize::from(parents[n]), more);
    }
}

// The starts rise from the lows: `left` comes with what each limit has over the lows beneath it, and leaves with what it has over the
// starts.
pub fn raise_starts(parents: &[u16], nodes: &[u16], lows: &[u32], starts: &[u32], left: &mut [u32])
    requires raisable { Raisable parents.now nodes.now lows.now starts.now left.old }
    ensures raised { (n : ℕ) → n < length parents.now
        → at left.new n + list_beneath parents.now nodes.now starts.now n
        ≡ at left.old n + list_beneath parents.now nodes.now lows.now n }
{
    let mut raised = [0u64; MOST_NODES];
    let n = parents.len();
    credit_rises(nodes, lows, starts, &mut raised[..n]);
    take_rises(parents, &mut raised[..n], left);
}
