// Both deals of a room that is loaded, and what follows them.
// Private to Plan: no operation stands here.
#![tactic(auto)]

ghost use Rattle.std.specs.Prelude.{◌≡◌, List, ℕ, ◌≤◌, length};
ghost use Rattle.rooms.specs.Part.{good};
ghost use Rattle.rooms.specs.Table.{Room};
ghost use Rattle.rooms.specs.Limits.{checked};
ghost use Rattle.deals.specs.Plan.{lists};
ghost use Rattle.plan_rooms.specs.Planning.{RoomToDeal, SomeRoom, DealtTwice, PlanGiven, SomePlan, PlanLeft};
ghost use Rattle.figures.specs.Places.{Zeros};

use deals::by_rank::deal;
use deals::levels::{NO_LEVEL, list_levels};
use layout::list_nodes;
use layout::room::Counts;
use plan_headroom::lend;
use plan_holders::name_holders;
use plan_reclaim::raise::raise_starts;
use plan_reclaim::{reclaim, usable_of};
use rooms::lists::CordRow;

// Both deals, in turn: the first starts from the cords' lows, the second from the watts in use after it. Gives the watts freed between
// them. `left` comes with what each limit has over the lows beneath it, and leaves with what it has over the second deal's Requests;
// `wants` and `cuts` end as those of the second deal, and `caps` come with the servers' needs. What the first deal leaves of the limits,
// and its marks of cuts, are not used.
// By hand: the lists of a deal: as one struct they were tried (`deals::by_rank::deal`).
fn deal_twice(
    parents: &[u16],
    cords: &[CordRow],
    nodes: &[u16],
    lows: &[u32],
    wants: &mut [u32],
    left: &mut [u32],
    cuts: &mut [u16],
    grants: &mut [u32],
    caps: &mut [u32],
    scale: u32,
) -> u64
    requires room { SomeRoom parents.now left.old cords.now nodes.now lows.now wants.old caps.old scale }
    requires blank { Zeros (length parents.now) cuts.old × (length grants.old ≡ length nodes.now) }
    ensures dealt { (table demands : List ℕ) (r : Room) (end : ℕ) → checked table 0 ≡ good r end
        → RoomToDeal r demands parents.now left.old cords.now nodes.now lows.now
        wants.old caps.old scale
        → DealtTwice r demands result wants.new left.new cuts.new grants.new caps.new }
{
    let mut levels = [NO_LEVEL; 16];
    let mut order = [0u16; 1024];
    let mut actives = [[0u16; 512]; 16];
    let mut first_left = [0u32; 512];
    let mut used = [0u32; 1024];
    let mut usable = [0u32; 512];
    let mut first_cuts = [0u16; 512];
    let n = parents.len();
    let k = nodes.len();
    let v = caps.len();
    // By hand: not `copy_from_slice`: see `figures::copy`.
    figures::copy(left, &mut first_left[..n]);
    figures::copy(caps, &mut usable[..v]);
    list_levels(parents, cords, &mut levels, &mut order[..k], &mut actives);
    deal(
        parents,
        &levels,
        &order[..k],
        &actives,
        nodes,
        lows,
        wants,
        &mut first_left[..n],
        &mut first_cuts[..n],
        grants,
    );
    usable_of(cords, grants, &mut usable[..v], scale);
    let freed = reclaim(cords, &usable[..v], grants, &mut used[..k], wants, scale);
    raise_starts(parents, nodes, lows, &used[..k], left);
    deal(
        parents,
        &levels,
        &order[..k],
        &actives,
        nodes,
        &used[..k],
        wants,
        left,
        cuts,
        grants,
    );
    usable_of(cords, grants, caps, scale);
    freed
}

// The plan of a room that is loaded, at the fronts of lists with an entry for each cord, and of the caps for each server; gives the freed
// watts. `caps` come with the servers' needs, and `headroom` with the cords' ceilings. Once both deals are made, the lows are lent to
// `lend` for figures of its own.
// By hand: a struct of the lists that are lent would be made here to be taken apart again, since the passes take other parts of them.
pub fn plan_loaded(
    counts: Counts,
    parents: &[u16],
    cords: &[CordRow],
    lows: &mut [u32],
    wants: &mut [u32],
    left: &mut [u32],
    grants: &mut [u32],
    caps: &mut [u32],
    headroom: &mut [u32],
    held: &mut [u32],
) -> u64
    requires room { SomePlan counts parents.now left.old cords.now lows.old wants.old headroom.old caps.old }
    requires space { (counts.cords ≤ length grants.old) × (counts.cords ≤ length held.old) }
    ensures planned { (table demands : List ℕ) (r : Room) → PlanGiven table demands r counts parents.now
        left.old cords.now lows.old wants.old headroom.old caps.old
        → PlanLeft r demands result (lists grants.old caps.old headroom.old held.old)
        (lists grants.new caps.new headroom.new held.new) }
{
    let mut nodes = [0u16; 1024];
    let mut cuts = [0u16; 512];
    let n = counts.nodes;
    let v = counts.servers;
    let k = counts.cords;
    list_nodes(&cords[..k], &mut nodes[..k]);
    let freed = deal_twice(
        &parents[..n],
        &cords[..k],
        &nodes[..k],
        &lows[..k],
        &mut wants[..k],
        &mut left[..n],
        &mut cuts[..n],
        &mut grants[..k],
        &mut caps[..v],
        counts.scale,
    );
    name_holders(
        &parents[..n],
        &cuts[..n],
        &cords[..k],
        &wants[..k],
        &grants[..k],
        &mut held[..k],
    );
    lend(
        &parents[..n],
        &nodes[..k],
        &wants[..k],
        &mut left[..n],
        &mut lows[..k],
        &mut headroom[..k],
    );
    freed
}
