// What servers can use of their cords' grants, and the wants of the second deal.
// Private to Plan: no operation stands here.
#![tactic(auto)]

ghost use Rattle.std.specs.Prelude.{◌≡◌, cond, ◌^◌, ◌<◌, ltb, length};
ghost use Rattle.rooms.specs.Rows.{servers_in, shares_in};
ghost use Rattle.plan_reclaim.specs.Reclaimed.{ServerLists, usable_from, used_from, freed_from, wants_from};

use rooms::limits::carried_by;
use rooms::lists::CordRow;

pub mod raise;

// Each server's usable watts, in the place of its need: the need, or the least of floor(scale × grant / share) of its cords with a share,
// if that is less.
pub fn usable_of(cords: &[CordRow], grants: &[u32], usable: &mut [u32], scale: u32)
    requires lists { ServerLists scale cords.now usable.old (length grants.now) }
    ensures usable { usable.new ≡ usable_from scale (shares_in cords.now) (servers_in cords.now) usable.old grants.now }
{
    for (c, cord) in cords.iter().enumerate() {
        let share = u64::from(cord.share);
        if share != 0 {
            let v = usize::from(cord.server);
            let load = u64::from(scale) * u64::from(grants[c]) / share;
            usable[v] = u64::from(usable[v]).min(load) as u32;
        }
    }
}

// A cord's want in the next deal: its used watts if it has stranded watts, else its want as before. It is chosen without a
// branch: the processor would often predict that wrongly.
fn next_want(stranded: u64, used: u32, want: u32) -> u32
    requires in_range { stranded < 2 ^ 32 }
    ensures result { result ≡ cond (ltb 0 stranded) used want }
{
    // 1 if watts are stranded, else 0: only then the sum carries into bit 32. A comparison might be compiled to a branch.
    let some = (stranded + 4294967295) / 4294967296;
    (some * u64::from(used) + (1 - some) * u64::from(want)) as u32
}

// After the first deal: the next one starts from each cord's used watts, and the cords that have stranded watts want no more than
// those; gives the watts freed.
pub fn reclaim(
    cords: &[CordRow],
    usable: &[u32],
    grants: &[u32],
    starts: &mut [u32],
    wants: &mut [u32],
    scale: u32,
) -> u64
    requires lists { ServerLists scale cords.now usable.now (length grants.now) × (length starts.old ≡ length cords.now)
        × (length wants.old ≡ length cords.now) }
    ensures freed { result ≡ freed_from scale (shares_in cords.now) (servers_in cords.now) usable.now grants.now }
    ensures starts { starts.new ≡ used_from scale (shares_in cords.now) (servers_in cords.now) usable.now }
    ensures wants { wants.new ≡ wants_from (used_from scale (shares_in cords.now) (servers_in cords.now) usable.now) grants.now wants.old }
{
    let mut freed: u64 = 0;
    for (c, cord) in cords.iter().enumerate() {
        let watts = usable[usize::from(cord.server)];
        let used = carried_by(u32::from(cord.share), watts, scale);
        let stranded = u64::from(grants[c].saturating_sub(used));
        freed += stranded;
        starts[c] = used;
        wants[c] = next_want(stranded, used, wants[c]);
    }
    freed
}
