// A room's lists, laid out from its table: figures a node, a row and figures a cord in table order, and a figure a server.
// Private to Plan: no operation stands here.
#![tactic(auto)]

ghost use Rattle.std.specs.Prelude.{◌≡◌, ℕ, ◌+◌, ◌≤◌, ◌<◌, min, max, length};
ghost use Rattle.figures.specs.Figures.{at};
ghost use Rattle.rooms.specs.Part.{Good};
ghost use Rattle.rooms.specs.Limits.{lows_beneath, checked};
ghost use Rattle.rooms.specs.Lists.{parents_of, limits_of};
ghost use Rattle.rooms.specs.Rows.{nodes_in, OfRoom, NodesFit};
ghost use Rattle.layout.specs.Lists.{HasLowsBeneath, CordsLent, CordsLaidOut};

use rooms::limits::carried_by;
use rooms::lists::{CordRow, first_server, lay_out_nodes, table_scale};

pub mod room;

// What each node's limit has over all lows beneath it, in the place of the limit.
fn spare_limits(beneath: &[u64], limits: &mut [u32])
    requires within { (length beneath.now ≡ length limits.old)
        × ((n : ℕ) → n < length limits.old → at beneath.now n ≤ at limits.old n) }
    ensures spared { (n : ℕ) → n < length limits.old
        → at limits.new n + at beneath.now n ≡ at limits.old n }
{
    // By hand: the chips' build takes no `zip`, whose pointers stand in pairs (chips/portable.awk).
    for (n, limit) in limits.iter_mut().enumerate() {
        *limit -= beneath[n] as u32;
    }
}

// The parents of a good table's nodes, and what each limit has over the lows beneath it, which `beneath` has.
pub fn load_nodes(table: &[u32], beneath: &[u64], parents: &mut [u16], spare: &mut [u32])
    requires good { Good (checked table.now 0) }
    requires lists { NodesFit table.now (length beneath.now) × NodesFit table.now (length parents.old)
        × NodesFit table.now (length spare.old) × HasLowsBeneath table.now beneath.now }
    ensures laid_out { OfRoom table.now (λ r. (parents.new ≡ parents_of r)
        × ((n : ℕ) → n < length r.nodes → at spare.new n + lows_beneath r n ≡ at (limits_of r) n)) }
{
    lay_out_nodes(table, parents, spare);
    spare_limits(beneath, spare);
}

// The need of a server: its demand, brought into the range from least to greatest.
pub fn need_of(demand: u32, least: u32, greatest: u32) -> u32
    ensures need { result ≡ min (max demand least) greatest }
{
    demand.max(least).min(greatest)
}

// The rows of a good table's cords, their lows, wants and ceilings, and its servers' needs by the demands, one a server; the wants are
// those of the first deal. One walk over the table makes them all: no row of a server is kept.
// By hand: the lists of `load_room`, for its reason.
pub fn load_cords(
    table: &[u32],
    demands: &[u32],
    cords: &mut [CordRow],
    lows: &mut [u32],
    wants: &mut [u32],
    ceilings: &mut [u32],
    needs: &mut [u32],
)
    requires lists { CordsLent table.now demands.now cords.old lows.old wants.old ceilings.old needs.old }
    ensures laid_out { OfRoom table.now (λ r. CordsLaidOut r demands.now cords.new
        lows.new wants.new ceilings.new needs.new) }
{
    let scale = table_scale(table);
    let mut start = first_server(table);
    let mut first = 0;
    for (v, demand) in demands.iter().enumerate() {
        let level = (table[start] - 1) as u16;
        let least = table[start + 1];
        let greatest = table[start + 2];
        let need = need_of(*demand, least, greatest);
        let count = table[start + 3] as usize;
        // By hand: the chips' build takes no `chunks_exact`, whose pointers stand in pairs (chips/portable.awk).
        let mut word = start + 4;
        for c in first..first + count {
            let node = table[word] as u16;
            let share = table[word + 1];
            cords[c] = CordRow {
                node,
                server: v as u16,
                level,
                share: share as u16,
            };
            lows[c] = carried_by(share, least, scale);
            wants[c] = carried_by(share, need, scale);
            ceilings[c] = carried_by(share, greatest, scale);
            word += 2;
        }
        needs[v] = need;
        first += count;
        start = word;
    }
}

// The node of each cord, by the rows.
pub fn list_nodes(cords: &[CordRow], nodes: &mut [u16])
    requires size { length nodes.old ≡ length cords.now }
    ensures listed { nodes.new ≡ nodes_in cords.now }
{
    // By hand: the chips' build takes no `zip`, whose pointers stand in pairs (chips/portable.awk).
    for (c, node) in nodes.iter_mut().enumerate() {
        *node = cords[c].node;
    }
}
