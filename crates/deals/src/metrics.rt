// One rank's starts, weights and Requests, summed on the nodes from the cords up to the roots. A list of figures of the nodes may have
// more entries than there are nodes: those past the nodes are not used.
ghost use Rattle.std.specs.Prelude.{◌≡◌, ℕ, ◌-◌, ◌*◌, ◌≤◌, ◌<◌, min, length, set};
ghost use Rattle.figures.specs.Sums.{sum};
ghost use Rattle.rooms.specs.Table.{most_watts, most_cords, highest_rank};
ghost use Rattle.figures.specs.Figures.{at};
ghost use Rattle.deals.specs.Passes.{LevelCords, over_listed, cord_weight, CordsSummed, cut_mark};
ghost use Rattle.deals.specs.Passes.{MayWeigh, Weighed, MayRequest, Requested};
ghost use Rattle.figures.specs.Places.{Absent};
ghost use Rattle.deals.specs.Levels.{ActiveNodes};
ghost use Rattle.rooms.specs.Trees.{ParentsFirst};

use figures::credit;

// The starts (in `bases`) and the weights (in `wholes`) of the listed cords, each summed on its cord's node, of so many nodes. The sums of
// the starts come as zeros.
// By hand: `count` is the bound in `LevelCords` and `CordsSummed`; lists of just that length would be a narrower parameter.
pub fn add_cords(
    count: usize,
    listed: &[u16],
    nodes: &[u16],
    starts: &[u32],
    wants: &[u32],
    bases: &mut [u64],
    wholes: &mut [u64],
)
    requires cords { LevelCords count listed.now nodes.now starts.now wants.now }
    requires sizes { (count ≤ length bases.old) × (count ≤ length wholes.old) }
    requires zeros { (n : ℕ) → n < count → at bases.old n ≡ 0 }
    ensures summed { CordsSummed count listed.now nodes.now starts.now wants.now
        bases.new wholes.new }
{
    wholes[..count].fill(0);
    for &cord in listed {
        let c = usize::from(cord);
        let node = usize::from(nodes[c]);
        let start = starts[c];
        credit(bases, node, u64::from(start));
        credit(wholes, node, u64::from(wants[c] - start));
    }
}

// The weights alone.
// By hand: `add_cords` would do, with a list for the starts that nobody reads: one sum a cord more in headroom, which is slower.
pub fn sum_weights(
    count: usize,
    listed: &[u16],
    nodes: &[u16],
    starts: &[u32],
    wants: &[u32],
    wholes: &mut [u64],
)
    requires cords { LevelCords count listed.now nodes.now starts.now wants.now }
    requires size { count ≤ length wholes.old }
    ensures summed { (n : ℕ) → n < count → at wholes.new n
        ≡ over_listed listed.now nodes.now (cord_weight starts.now wants.now) n }
{
    wholes[..count].fill(0);
    for &cord in listed {
        let c = usize::from(cord);
        let number = usize::from(nodes[c]);
        let start = starts[c];
        credit(wholes, number, u64::from(wants[c] - start));
    }
}

// The weight of the node at place n: the lesser of what is left of its limit and of its children's weights. It is taken from what is left.
fn take(left: &mut [u32], n: usize, whole: u64) -> u32
    requires place { n < length left.old }
    ensures weight { result ≡ min (at left.old n) whole }
    ensures taken { left.new ≡ set left.old n (at left.old n - result) }
{
    let rest = left[n];
    let weight = u64::from(rest).min(whole) as u32;
    left[n] = rest - weight;
    weight
}

// From the last active node to the first: a node's weight is taken, and added to its parent's sum.
// By hand: `request` weighs too, but fills rows of 32 KiB, marks and sums of starts, which headroom has no use for; and with `weigh` as a
// pass of its own before it, a rank would take one pass over the nodes more.
pub fn weigh(
    parents: &[u16],
    active: &[u16],
    left: &mut [u32],
    wholes: &mut [u64],
    weights: &mut [u32],
)
    requires nodes { ActiveNodes parents.now active.now (length active.now) × ParentsFirst (length parents.now) (at parents.now) }
    requires sizes { (length left.old ≡ length parents.now) × (length parents.now ≤ length wholes.old)
        × (length parents.now ≤ length weights.old) }
    requires sums_fit { sum (length parents.now) (at wholes.old) ≤ most_cords * most_watts }
    requires idle { (n : ℕ) → n < length parents.now → Absent active.now (length active.now) n → at wholes.old n ≡ 0 }
    ensures weighed { Weighed parents.now active.now (length active.now) left.old wholes.old left.new
        wholes.new weights.new }
{
    // By hand: the chips' build takes no `iter().rev()`, whose pointers stand in pairs (chips/portable.awk).
    for i in (0..active.len()).rev() {
        let n = usize::from(active[i]);
        let weight = take(left, n, wholes[n]);
        weights[n] = weight;
        credit(wholes, usize::from(parents[n]), u64::from(weight));
    }
}

// The mark of a node's cuts after a level, by what is left of its limit there and its children's weights.
// By hand: `max` is compiled to a jump, which the processor predicts badly here: with it Plan took up to an eighth longer at 16 ranks.
fn marked(mark: u16, level: usize, left: u64, whole: u64) -> u16
    requires level { level < highest_rank }
    ensures result { result ≡ cut_mark mark level left whole }
{
    if left < whole && usize::from(mark) <= level {
        return level as u16 + 1;
    }
    mark
}

// From the last active node to the first: a node's weight is taken and added to its parent's sum, as by `weigh`. Its Request is the starts
// beneath it and its weight, and stands in its row; the weight by which it is dealt to is read from there. A node whose weight is less
// than its children's is cut. Its starts are added to its parent's sum, and its own sum is 0 again for the next rank.
// By hand: the lists of a deal: as one struct they were tried (`deals::by_rank::deal`).
pub fn request(
    parents: &[u16],
    active: &[u16],
    level: usize,
    left: &mut [u32],
    wholes: &mut [u64],
    weights: &mut [u32],
    cuts: &mut [u16],
    bases: &mut [u64],
    requests: &mut [[u32; 16]; 512],
)
    requires weights { MayWeigh parents.now active.now (length active.now) left.old wholes.old (length weights.old) }
    requires requests { MayRequest parents.now active.now (length active.now) level left.old cuts.old bases.old requests.old }
    ensures weighed { Weighed parents.now active.now (length active.now) left.old wholes.old left.new
        wholes.new weights.new }
    ensures requested { Requested parents.now level left.old wholes.new cuts.old
        bases.old requests.old cuts.new bases.new requests.new }
{
    // By hand: the chips' build takes no `iter().rev()`, whose pointers stand in pairs (chips/portable.awk).
    for i in (0..active.len()).rev() {
        let n = usize::from(active[i]);
        let parent = usize::from(parents[n]);
        let whole = wholes[n];
        let weight = take(left, n, whole);
        credit(wholes, parent, u64::from(weight));
        let start = bases[n] as u32;
        cuts[n] = marked(cuts[n], level, u64::from(weight), whole);
        requests[n][level] = start + weight;
        weights[n] = requests[n][level] - start;
        credit(bases, parent, u64::from(start));
        bases[n] = 0;
    }
}
