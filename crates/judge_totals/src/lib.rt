// Totals of given grants over the trees of a room, against the greatest that could be had: Judge's passes over lists.
// Private to Judge: no operation stands here.
//
// All is said of the watts that cords have over their lows. A cord that wants more can have more, at the cost of lower ranks alone, exactly if
// every node above it has watts to spare or, being full, carries such watts of a lower rank. So no rank needs a pass of its own: each node
// has the watts that stand on and beneath it, the lowest rank that these are of, and the highest rank that could have more.
#![tactic(auto)]

ghost use Rattle.std.specs.Prelude.{◌≡◌, cond, ◌&&◌, ℕ, ◌-◌, ◌+◌, ◌^◌, ◌≤◌, ◌<◌, eqb, ltb, length, IfSome};
ghost use Rattle.figures.specs.Figures.{at};
ghost use Rattle.figures.specs.Sums.{sum};
ghost use Rattle.rooms.specs.Part.{Good};
ghost use Rattle.rooms.specs.Table.{most_nodes, highest_rank};
ghost use Rattle.rooms.specs.Limits.{checked, first_node};
ghost use Rattle.rooms.specs.Rows.{OfRoom, ServersFit, CordsFit, ScaleIs};
ghost use Rattle.rooms.specs.Credits.{exceeds};
ghost use Rattle.deals.specs.Ranks.{NodeLists};
ghost use Rattle.judge_totals.specs.Totals.{place_of, notes_in, noted_on, held_back, Unnoted, CordsJudged, NodesNoted};

use layout::need_of;
use rooms::HIGHEST_RANK;
use rooms::limits::carried_by;
use rooms::lists::first_server;

// What the pass over the cords finds: the first cord that has less than its low, and the first that has more than its want, of those before
// it.
#[derive(Clone, Copy)]
pub struct Faults {
    pub below: Option<usize>,
    pub above: Option<usize>,
}

// Notes on a node, by its number, what a cord or a child node has: watts, the lowest rank that they are of, and the highest rank that could
// have more; 0 is no node.
// By hand: where there is none, `raised` has the highest rank and `wanting` 0, so that `min` and `max` alone merge two notes.
// By hand: three slices, here and below: a caller learns nothing of a struct of `&mut`s unless each contract keeps all their ghost names.
fn note(
    node: usize,
    watts: u64,
    low: u16,
    high: u16,
    given: &mut [u64],
    raised: &mut [u16],
    wanting: &mut [u16],
)
    requires node { (node ≤ length given.old) × (node ≤ length raised.old) × (node ≤ length wanting.old) }
    requires sum_fits { at given.old (node - 1) + watts < 2 ^ 64 }
    ensures noted { notes_in given.new raised.new wanting.new
        ≡ noted_on node watts low high (notes_in given.old raised.old wanting.old) }
{
    // By hand: 0 is no node in the table itself, and a list of Options would take twice the memory.
    if node == 0 {
        return;
    }
    let place = node - 1;
    given[place] += watts;
    raised[place] = raised[place].min(low);
    wanting[place] = wanting[place].max(high);
}

// Notes on its node what a cord has over its low, and its rank: where it has such watts, and where it wants more. The highest rank stands
// also for the lowest rank of no watts: no rank is above it.
fn note_cord(
    node: usize,
    rank: u16,
    low: u32,
    want: u32,
    grant: u32,
    given: &mut [u64],
    raised: &mut [u16],
    wanting: &mut [u16],
)
    requires node { (node ≤ length given.old) × (node ≤ length raised.old) × (node ≤ length wanting.old) }
    requires least { low ≤ grant }
    requires sum_fits { at given.old (node - 1) < 2 ^ 63 }
    ensures noted { notes_in given.new raised.new wanting.new
        ≡ noted_on node (grant - low) (cond (ltb low grant) rank highest_rank) (cond (ltb grant want) rank 0)
        (notes_in given.old raised.old wanting.old) }
    ensures word { grant - low < 2 ^ 32 }
{
    let lowest = if low < grant { rank } else { HIGHEST_RANK };
    let highest = if grant < want { rank } else { 0 };
    note(
        node,
        u64::from(grant - low),
        lowest,
        highest,
        given,
        raised,
        wanting,
    );
}

// Notes what each cord of a good table has over its low, and its rank: where it has such watts, and where it wants more.
pub fn note_cords(
    table: &[u32],
    demands: &[u32],
    grants: &[u32],
    scale: u32,
    given: &mut [u64],
    raised: &mut [u16],
    wanting: &mut [u16],
) -> Faults
    requires good { Good (checked table.now 0) × ScaleIs table.now scale }
    requires sizes { ServersFit table.now (length demands.now) × CordsFit table.now (length grants.now) }
    requires lengths { (most_nodes ≤ length given.old) × (length given.old ≤ length raised.old)
        × (length given.old ≤ length wanting.old) }
    requires unnoted { ((n : ℕ) → at given.old n ≡ 0)
        × Unnoted (length given.old) (notes_in given.old raised.old wanting.old) }
    ensures judged { OfRoom table.now (λ r. CordsJudged r demands.now grants.now
        (length given.old) result (notes_in given.new raised.new wanting.new)) }
{
    let mut above = None;
    let mut start = first_server(table);
    let mut first = 0;
    for (v, demand) in demands.iter().enumerate() {
        let rank = table[start] as u16;
        let least = table[start + 1];
        let need = need_of(*demand, least, table[start + 2]);
        let count = table[start + 3] as usize;
        // By hand: the chips' build takes no `chunks_exact`, whose pointers stand in pairs (chips/portable.awk).
        let mut word = start + 4;
        for c in first..first + count {
            let share = table[word + 1];
            let low = carried_by(share, least, scale);
            let want = carried_by(share, need, scale);
            let grant = grants[c];
            if grant < low {
                return Faults {
                    below: Some(c),
                    above,
                };
            }
            if above.is_none() && want < grant {
                above = Some(c);
            }
            note_cord(
                table[word] as usize,
                rank,
                low,
                want,
                grant,
                given,
                raised,
                wanting,
            );
            word += 2;
        }
        first += count;
        start = word;
    }
    Faults { below: None, above }
}

// The highest rank beneath a node that could have more, with the node's limit. A full node lets a rank rise only where it carries watts of
// a lower one.
fn held_back(limit: u64, has: u64, low: u16, high: u16) -> u16
    ensures result { result ≡ held_back limit has low high }
{
    if has < limit || low < high { high } else { 0 }
}

// From the last node to the first: what each node has, with all that is beneath it, is held against its limit and noted on its parent.
// The lowest node that is given more than it has to spare. What a limit has over the lows beneath its node is the limit here.
pub fn note_nodes(
    parents: &[u16],
    spare: &[u32],
    given: &mut [u64],
    raised: &mut [u16],
    wanting: &mut [u16],
) -> Option<usize>
    requires node_lists { NodeLists parents.now spare.now }
    requires lengths { (length parents.now ≤ length given.old) × (length parents.now ≤ length raised.old)
        × (length parents.now ≤ length wanting.old) }
    requires sums_fit { sum (length parents.now) (at given.old) < 2 ^ 63 }
    ensures result { result ≡ place_of (first_node (length parents.now) 0
        (exceeds (at parents.now) (at spare.now) (length parents.now) given.old)) }
    ensures within { IfSome result (λ n. n < length parents.now) }
    ensures noted { NodesNoted parents.now spare.now result (notes_in given.old raised.old wanting.old)
        (notes_in given.new raised.new wanting.new) }
{
    let mut over = None;
    // By hand: the chips' build takes no `iter().rev()`, whose pointers stand in pairs (chips/portable.awk).
    for n in (0..parents.len()).rev() {
        let limit = u64::from(spare[n]);
        let has = given[n];
        let low = raised[n];
        let high = held_back(limit, has, low, wanting[n]);
        if limit < has {
            over = Some(n);
        }
        wanting[n] = high;
        note(
            usize::from(parents[n]),
            has,
            low,
            high,
            given,
            raised,
            wanting,
        );
    }
    over
}

// The lowest root with a mark.
pub fn lowest_marked(parents: &[u16], marks: &[u16]) -> Option<usize>
    requires lengths { length parents.now ≤ length marks.now }
    ensures within { IfSome result (λ n. n < length parents.now) }
    ensures result { result ≡ place_of (first_node (length parents.now) 0
        (λ n. eqb (at parents.now n) 0 && ltb 0 (at marks.now n))) }
{
    // By hand: the chips' build takes no `position`, whose iterator holds pointers in pairs (chips/portable.awk).
    for (n, parent) in parents.iter().enumerate() {
        if *parent == 0 && marks[n] > 0 {
            return Some(n);
        }
    }
    None
}
