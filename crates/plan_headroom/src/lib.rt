// Headroom: what the second deal's Requests leave of the limits, lent out up to the cords' ceilings.
// Private to Plan: no operation stands here.
#![tactic(auto)]

ghost use Rattle.std.specs.Prelude.{◌≡◌, List, ℕ, ◌-◌, ◌≤◌, ◌<◌, length};
ghost use Rattle.figures.specs.Figures.{at};
ghost use Rattle.rooms.specs.Table.{most_cords};
ghost use Rattle.deals.specs.Metrics.{deal_from};
ghost use Rattle.deals.specs.Headroom.{headroom_over};
ghost use Rattle.plan_headroom.specs.Lending.{LendGiven, SomeLending};
ghost use Rattle.plan_headroom.specs.Passes.{AllPlaces, LendLists, LendWeights, DealtOut};

use deals::by_rank::FIGURES;
use deals::dealing::{deal_cords, deal_nodes};
use deals::metrics::{sum_weights, weigh};

// Lists all places.
fn list_all(all: &mut [u16])
    requires size { length all.old ≡ most_cords }
    ensures listed { AllPlaces all.new }
{
    for (place, entry) in all.iter_mut().enumerate() {
        *entry = place as u16;
    }
}

// What each cord has over its want, of lists with a figure a cord.
fn take_wants(wants: &[u32], tops: &[u32], headroom: &mut [u32])
    requires lists { (length wants.now ≡ length headroom.old) × (length tops.now ≡ length headroom.old)
        × ((c : ℕ) → c < length headroom.old → at wants.now c ≤ at tops.now c) }
    ensures taken { (c : ℕ) → c < length headroom.old
        → at headroom.new c ≡ at tops.now c - at wants.now c }
{
    for (c, entry) in headroom.iter_mut().enumerate() {
        let want = wants[c];
        *entry = tops[c] - want;
    }
}

// The headroom of each cord, in the place of its ceiling, dealt by the nodes' weights, which come in `amounts`.
// By hand: the lists of a deal: as one struct they were tried (`deals::by_rank::deal`).
fn deal_out(
    parents: &[u16],
    all: &[u16],
    nodes: &[u16],
    wants: &[u32],
    wholes: &[u64],
    amounts: &mut [u32],
    before: &mut [u64],
    dealt: &mut [u32],
    tops: &mut [u32],
    headroom: &mut [u32],
)
    requires lists { LendLists parents.now nodes.now wants.now headroom.old }
    requires places { AllPlaces all.now × (length tops.old ≡ length nodes.now) }
    requires sizes { (length parents.now ≤ length amounts.old) × (length wholes.now ≡ length amounts.old)
        × (length before.old ≡ length amounts.old) × (length dealt.old ≡ length amounts.old) }
    requires weights { LendWeights parents.now nodes.now wants.now headroom.old amounts.old wholes.now }
    ensures dealt_out { DealtOut parents.now nodes.now wants.now headroom.old
        amounts.old wholes.now headroom.new }
{
    deal_nodes(
        parents,
        &all[..parents.len()],
        wholes,
        amounts,
        before,
        dealt,
    );
    deal_cords(
        &all[..nodes.len()],
        nodes,
        wants,
        headroom,
        wholes,
        amounts,
        before,
        dealt,
        tops,
    );
    take_wants(wants, tops, headroom);
}

// The headroom of each cord, in the place of its ceiling. It is dealt as one more rank would be, after all others: every cord is of that
// rank, with its second want for its start and its ceiling for its want. For a node's ceiling less its Requests is the lesser of two
// figures: what these leave of its limit, and its children's ceilings less their Requests, summed. `left` has what the Requests leave of
// each limit; `tops` (want plus headroom) are lent for the figures on the way.
pub fn lend(
    parents: &[u16],
    nodes: &[u16],
    wants: &[u32],
    left: &mut [u32],
    tops: &mut [u32],
    headroom: &mut [u32],
)
    requires lists { SomeLending parents.now nodes.now wants.now left.old headroom.old × (length tops.old ≡ length nodes.now) }
    ensures lent { (limits levels lows starts : List ℕ) → LendGiven parents.now nodes.now wants.now
        left.old headroom.old limits levels lows starts
        → headroom.new ≡ headroom_over (deal_from parents.now limits nodes.now levels lows starts wants.now)
        (at headroom.old) }
{
    let mut all = [0u16; 1024];
    let mut wholes = [0u64; FIGURES];
    let mut amounts = [0u32; FIGURES];
    let mut before = [0u64; FIGURES];
    let mut dealt = [0u32; FIGURES];
    let n = parents.len();
    list_all(&mut all);
    sum_weights(n, &all[..nodes.len()], nodes, wants, headroom, &mut wholes);
    weigh(parents, &all[..n], left, &mut wholes, &mut amounts);
    deal_out(
        parents,
        &all,
        nodes,
        wants,
        &wholes,
        &mut amounts,
        &mut before,
        &mut dealt,
        tops,
        headroom,
    );
}
