// Plan: a room is loaded, its lists are checked, and then it is planned.
#![tactic(auto)]

ghost use Rattle.std.specs.Prelude.{◌≡◌, ◌≤◌, ◌<◌, IfOk, IfErr};
ghost use Rattle.deals.specs.Plan.{lists};
ghost use Rattle.layout.specs.Room.{CountsFew};
ghost use Rattle.plans.specs.Admission.{admitting, admission};
ghost use Rattle.plans.specs.Done.{PlanDone};

use deals::{Lengths, PlanList, PlanRefusal};
use layout::room::{Counts, LoadRefusal, load_room};
use plan_rooms::plan_loaded;
use rooms::lists::NO_CORD;

// Whether a list has as many entries as are needed; else its refusal.
fn enough(list: PlanList, entries: usize, needed: usize) -> Result<(), PlanRefusal>
    ensures long { IfOk result (λ none. needed ≤ entries) }
    ensures short { IfErr result (λ refusal. (entries < needed) × (refusal ≡ PlanRefusal.ListTooShort list needed)) }
{
    if entries < needed {
        return Err(PlanRefusal::ListTooShort(list, needed));
    }
    Ok(())
}

// The checks of Plan behind the loading, in their order: no list is too short. A part of the operation, for its C call too.
pub fn admit(loaded: Result<Counts, LoadRefusal>, lengths: Lengths) -> Result<Counts, PlanRefusal>
    ensures admitted { result ≡ admission (admitting loaded lengths) }
    ensures few { IfOk loaded CountsFew → IfOk result CountsFew }
{
    let counts = loaded?;
    enough(PlanList::Grants, lengths.grants, counts.cords)?;
    enough(PlanList::Caps, lengths.caps, counts.servers)?;
    enough(PlanList::Headroom, lengths.headroom, counts.cords)?;
    enough(PlanList::Held, lengths.held, counts.cords)?;
    Ok(counts)
}

// Plan: of a table and its servers' demands, for each cord a grant, its headroom and the number of the node that holds it (0 for none),
// and for each server a cap, at the front of their lists.
// Refused, it leaves every list unchanged.
pub fn plan(
    table: &[u32],
    demands: &[u32],
    grants: &mut [u32],
    caps: &mut [u32],
    headroom: &mut [u32],
    held: &mut [u32],
) -> Result<u64, PlanRefusal>
    ensures done { PlanDone table.now demands.now
        (lists grants.old caps.old headroom.old held.old) result
        (lists grants.new caps.new headroom.new held.new) }
{
    let mut parents = [0u16; 512];
    let mut left = [0u32; 512];
    let mut cords = [NO_CORD; 1024];
    let mut lows = [0u32; 1024];
    let mut wants = [0u32; 1024];
    let mut ceilings = [0u32; 1024];
    let mut needs = [0u32; 512];
    let loaded = load_room(
        table,
        demands,
        &mut parents,
        &mut left,
        &mut cords,
        &mut lows,
        &mut wants,
        &mut ceilings,
        &mut needs,
    );
    let lengths = Lengths {
        grants: grants.len(),
        caps: caps.len(),
        headroom: headroom.len(),
        held: held.len(),
    };
    let counts = admit(loaded, lengths)?;
    let k = counts.cords;
    let v = counts.servers;
    figures::copy(&ceilings[..k], headroom);
    figures::copy(&needs[..v], caps);
    Ok(plan_loaded(
        counts, &parents, &cords, &mut lows, &mut wants, &mut left, grants, caps, headroom, held,
    ))
}
