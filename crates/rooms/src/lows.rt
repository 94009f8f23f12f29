// The lows beneath the nodes against the nodes' limits: refusal 9.
ghost use Rattle.std.specs.Prelude.{◌≡◌, Some, cond, ℕ, suc, ◌+◌, ◌*◌, ◌^◌, ◌<◌, ◌≤◌, length, get_or, replicate, ltb};
ghost use Rattle.figures.specs.Sums.{sum};
ghost use Rattle.rooms.specs.Part.{good, Good};
ghost use Rattle.rooms.specs.Table.{Room, most_nodes, most_servers, most_server_cords, most_watts, table};
ghost use Rattle.rooms.specs.Limits.{node_lows, first_node, overloaded, found_node};
ghost use Rattle.rooms.specs.Credits.{NodesRead, parent_at, limit_at, exceeds, credited_room, LowsCredited, SumsGathered};
ghost use Rattle.figures.specs.Credits.{credited};
ghost use Rattle.figures.specs.Figures.{at};

use crate::form::{has_percents, limit_at, node_index};
use figures::credit;

// The node's number where its sum exceeds its limit, else what was found before.
pub fn noted(limit: u64, sum: u64, place: usize, found: Option<usize>) -> Option<usize>
    requires place { place < most_nodes }
    ensures result { result ≡ cond (ltb limit sum) (Some (suc place)) found }
{
    if limit < sum { Some(place + 1) } else { found }
}

// From the last node to the first, each node's sum is compared with its limit and credited to its parent.
// Gives the lowest node whose sum, with all beneath it, exceeds its limit.
fn lowest_over(w: &[u32], percents: bool, node_count: usize, sums: &mut [u64]) -> Option<usize>
    requires nodes { NodesRead percents w.now node_count × (node_count ≤ length sums.old) }
    requires sums_fit { sum node_count (at sums.old) < 2 ^ 63 }
    ensures result { result ≡ found_node (first_node node_count 0 (exceeds (parent_at percents w.now) (limit_at percents w.now)
        node_count sums.old)) }
    ensures gathered { SumsGathered (parent_at percents w.now) node_count sums.old sums.new }
{
    let mut found = None;
    for n in (0..node_count).rev() {
        let sum = sums[n];
        let i = node_index(percents, n);
        found = noted(u64::from(limit_at(w, i, percents)), sum, n, found);
        credit(sums, w[i] as usize, sum);
    }
    found
}

// The lowest node of a good table whose limit the lows beneath it exceed. The sums come with the lows on each
// node and leave with those beneath it.
pub(crate) fn overloaded(w: &[u32], sums: &mut [u64]) -> Option<usize>
    requires good { Good (table w.now 0) × (most_nodes ≤ length sums.old) }
    requires credited { LowsCredited (table w.now 0) credited_room (get_or w.now 1 0) (most_server_cords * most_watts * most_servers)
        (replicate most_nodes 0) sums.old }
    ensures result { (q : Room) (j : ℕ) → table w.now 0 ≡ good q j → result ≡ found_node (overloaded q) }
    ensures sums { (q : Room) (j : ℕ) → table w.now 0 ≡ good q j → sums.new ≡ node_lows q }
{
    let percents = has_percents(w[0]);
    lowest_over(w, percents, w[1] as usize, sums)
}
