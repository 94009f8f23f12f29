// One deal: rank by rank from the highest, the Requests are gathered into their rows and dealt.
// Private to Plan: no operation stands here.
ghost use Rattle.std.specs.Prelude.{◌≡◌, List, ℕ, length};
ghost use Rattle.deals.specs.Metrics.{deal_from};
ghost use Rattle.deals.specs.Ranks.{SomeDeal, DealGiven, DealMade};
ghost use Rattle.figures.specs.Places.{Zeros};

use crate::dealing::{deal_cords, deal_nodes};
use crate::levels::Level;
use crate::metrics::{add_cords, request};

// The length of the lists with a rank's figure of each node: a little more than the most nodes. 512 figures of 64 bits fill a page, so
// that such lists would start at the same place of their pages. The processor, which compares that place alone, would let a load from
// one wait for a store to another.
pub const FIGURES: usize = 520;

// The grants of a deal, rank by rank from the highest, over each rank's cords and active nodes, which `levels` lists. `left` comes with
// what each limit has over all starts; before each rank it has what the Requests dealt and the starts to come leave, and in the end what
// the Requests leave. `cuts` come with 0 and leave with the highest rank at which each node is cut, 0 if there is none: that is below every
// rank, so that the greatest mark stands. The Requests stand in `requests`, a row a node and a column a rank; only those of active nodes
// are filled. `bases` (the starts beneath) and `wholes` (the children's weights) have a rank's figure of each node; `amounts` (its weight,
// and then what it has to give), `before` (weights served) and `dealt` that of each active one.
// By hand: `nodes`, `starts` and `wants` as one struct were tried, and proved: each clause and call got longer, and each loop took it apart.
pub fn deal(
    parents: &[u16],
    levels: &[Level; 16],
    order: &[u16],
    actives: &[[u16; 512]; 16],
    nodes: &[u16],
    starts: &[u32],
    wants: &[u32],
    left: &mut [u32],
    cuts: &mut [u16],
    grants: &mut [u32],
)
    requires lists { SomeDeal parents.now levels.now order.now actives.now nodes.now starts.now wants.now left.old
        × Zeros (length parents.now) cuts.old × (length grants.old ≡ length nodes.now) }
    ensures dealt { (limits ranks lows : List ℕ) → DealGiven parents.now levels.now order.now
        actives.now nodes.now starts.now wants.now left.old limits ranks lows
        → DealMade (deal_from parents.now limits nodes.now ranks lows starts.now wants.now)
        left.new cuts.new grants.new }
{
    // By hand: a column is a rank, by its number, and the customer asks for an array of arrays.
    let mut requests = [[0u32; 16]; 512];
    let mut bases = [0u64; FIGURES];
    let mut wholes = [0u64; FIGURES];
    let mut amounts = [0u32; FIGURES];
    let mut before = [0u64; FIGURES];
    let mut dealt = [0u32; FIGURES];
    let n = parents.len();
    // By hand: a level's number is also the column of its Requests (`request`).
    for level in (0..16).rev() {
        let from = usize::from(levels[level].from);
        let to = usize::from(levels[level].to);
        if from < to {
            let listed = &order[from..to];
            let count = usize::from(levels[level].active_count);
            let active = &actives[level][..count];
            add_cords(n, listed, nodes, starts, wants, &mut bases, &mut wholes);
            request(
                parents,
                active,
                level,
                left,
                &mut wholes,
                &mut amounts,
                cuts,
                &mut bases,
                &mut requests,
            );
            deal_nodes(
                parents,
                active,
                &wholes,
                &mut amounts,
                &mut before,
                &mut dealt,
            );
            deal_cords(
                listed,
                nodes,
                starts,
                wants,
                &wholes,
                &amounts,
                &mut before,
                &mut dealt,
                grants,
            );
        }
    }
}
