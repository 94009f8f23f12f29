// One rank's dealing: from the first node to the last, then to the cords in table order. One split serves both: that of `splits`.
ghost use Rattle.std.specs.Prelude.{◌≡◌, ℕ, suc, ◌+◌, ◌*◌, ◌/◌, ◌≤◌, ◌<◌, length};
ghost use Rattle.rooms.specs.Table.{most_watts, most_cords};
ghost use Rattle.figures.specs.Figures.{at};
ghost use Rattle.deals.specs.Passes.{LevelCords, WeightsListed, weight_of, over_listed, cord_weight, NodesDealt, CordsDealt};
ghost use Rattle.rooms.specs.Trees.{ParentsFirst, child_sum};

use splits::{serve, serve_by_division};

// What each active node has to give at a level, in the place of its weight: a root its weight, any other its part of its parent's. A node's
// figures start at 0 in its own turn, before the turns of its child nodes. The figures of nodes that are not active are not touched.
pub fn deal_nodes(
    parents: &[u16],
    active: &[u16],
    wholes: &[u64],
    amounts: &mut [u32],
    before: &mut [u64],
    dealt: &mut [u32],
)
    requires nodes { (length parents.now ≤ length before.old) × (length dealt.old ≡ length before.old)
        × ParentsFirst (length parents.now) (at parents.now) }
    requires weights { WeightsListed parents.now active.now (length active.now) wholes.now amounts.old }
    requires in_range { (n : ℕ) → n < length parents.now → (weight_of amounts.old wholes.now n ≤ most_watts)
        × (at wholes.now n ≤ most_cords * most_watts)
        × (child_sum (length parents.now) (at parents.now) n (weight_of amounts.old wholes.now) ≤ at wholes.now n) }
    ensures nodes_dealt { NodesDealt parents.now active.now (length active.now) (weight_of amounts.old wholes.now)
        wholes.now amounts.new before.new dealt.new }
{
    for &node in active {
        let m = usize::from(node);
        before[m] = 0;
        dealt[m] = 0;
        let weight = u64::from(amounts[m]);
        let parent = usize::from(parents[m]);
        if parent != 0 {
            let p = parent - 1;
            // A node that hangs on the one before it is mostly its only child.
            let alone = parent == m;
            amounts[m] = serve(alone, amounts[p], wholes[p], weight, p, before, dealt);
        }
    }
}

// The grants of the listed cords: each its start and its part of its node's amount.
// By hand: the lists of a deal: as one struct they were tried (`deals::by_rank::deal`).
pub fn deal_cords(
    listed: &[u16],
    nodes: &[u16],
    starts: &[u32],
    wants: &[u32],
    wholes: &[u64],
    amounts: &[u32],
    before: &mut [u64],
    dealt: &mut [u32],
    grants: &mut [u32],
)
    requires cords { LevelCords (length amounts.now) listed.now nodes.now starts.now wants.now }
    requires sizes { (length wholes.now ≡ length amounts.now) × (length before.old ≡ length amounts.now)
        × (length dealt.old ≡ length amounts.now) × (length grants.old ≡ length nodes.now) }
    requires in_range { (i n : ℕ) → i < length listed.now → at nodes.now (at listed.now i) ≡ suc n → (at amounts.now n ≤ most_watts)
        × (at amounts.now n ≤ at wholes.now n) × (at wholes.now n ≤ most_cords * most_watts)
        × (at dealt.old n ≡ at amounts.now n * at before.old n / at wholes.now n)
        × (at before.old n + over_listed listed.now nodes.now (cord_weight starts.now wants.now) n ≤ at wholes.now n) }
    ensures cords_dealt { CordsDealt listed.now nodes.now starts.now wants.now
        wholes.now amounts.now before.old grants.old grants.new }
{
    for &cord in listed {
        let c = usize::from(cord);
        let p = usize::from(nodes[c]) - 1;
        let start = starts[c];
        let watts = serve_by_division(
            amounts[p],
            wholes[p],
            u64::from(wants[c] - start),
            p,
            before,
            dealt,
        );
        grants[c] = start + watts;
    }
}
