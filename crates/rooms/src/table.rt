// The words of a table, checked one by one in their order: refusals 4 to 8. On the way each cord's low is credited to its
// node, so that refusal 9 needs no second walk.
ghost use Rattle.std.specs.Prelude.{◌≡◌, true, ℕ, ◌+◌, ◌*◌, ◌^◌, ◌<◌, ◌≤◌, length, get_or};
ghost use Rattle.figures.specs.Sums.{sum};
ghost use Rattle.rooms.specs.Part.{word, within};
ghost use Rattle.figures.specs.Figures.{total, at};
ghost use Rattle.rooms.specs.Table.{most_nodes, most_servers, most_server_cords, most_cords, most_watts, IsScale, percent, node, nodes, cord, cords};
ghost use Rattle.rooms.specs.Table.{share_of, share_sum, least_of, range, load, server, servers, cord_count, table, room_cords};
ghost use Rattle.rooms.specs.Credits.{credited_cords, credited_server, credited_servers, credited_room, LowsCredited};
ghost use Rattle.rooms.specs.Told.{told, itself, nothing};

use crate::form::{has_percents, scale_of};
use crate::limits::carried_by;
use crate::{
    HIGHEST_RANK, MOST_CORDS, MOST_NODES, MOST_SERVER_CORDS, MOST_SERVERS, MOST_WATTS,
    NEWEST_VERSION, SheetRefusal,
};
use figures::credit;

// The word at i, from low to high.
fn check_word(w: &[u32], i: usize, low: u32, high: u32) -> Result<(u32, usize), SheetRefusal>
    ensures result { result ≡ told itself (word (within low high) w.now i) }
{
    if w.len() <= i {
        return Err(SheetRefusal::WordMissing(w.len()));
    }
    let v = w[i];
    if v < low || high < v {
        return Err(SheetRefusal::WordOutOfRange(i));
    }
    Ok((v, i + 1))
}

// The word at i, a node's percent: 80 or 100.
// By hand: the 0 is no figure, here and of nodes: so `told` states every part of a table, and one hands on what another gives.
fn check_percent(w: &[u32], i: usize) -> Result<(u32, usize), SheetRefusal>
    ensures result { result ≡ told nothing (percent true w.now i) }
{
    let (v, next) = check_word(w, i, 80, 100)?;
    if v != 80 && v != 100 {
        return Err(SheetRefusal::WordOutOfRange(i));
    }
    Ok((0, next))
}

// The node at i, with its own number; whether it has a word for its percent.
fn check_node(w: &[u32], i: usize, percents: bool, own: u32) -> Result<(u32, usize), SheetRefusal>
    requires own { 0 < own }
    ensures result { result ≡ told nothing (node percents own w.now i) }
{
    let (_, at_rating) = check_word(w, i, 0, own - 1)?;
    let (_, next) = check_word(w, at_rating, 0, MOST_WATTS)?;
    if percents {
        return check_percent(w, next);
    }
    Ok((0, next))
}

// So many nodes from i on, numbered from 1.
fn check_nodes(
    w: &[u32],
    i: usize,
    percents: bool,
    count: u32,
) -> Result<(u32, usize), SheetRefusal>
    requires count { count ≤ most_nodes }
    ensures result { result ≡ told nothing (nodes percents count 1 w.now i) }
{
    let mut j = i;
    for own in 1..=count {
        let (_, next) = check_node(w, j, percents, own)?;
        j = next;
    }
    Ok((0, j))
}

// The least and the greatest of a server, from i on; the least is told.
fn check_range(w: &[u32], i: usize) -> Result<(u32, usize), SheetRefusal>
    ensures result { result ≡ told least_of (range w.now i) }
{
    let (least, at_greatest) = check_word(w, i, 0, MOST_WATTS)?;
    let (greatest, next) = check_word(w, at_greatest, 0, MOST_WATTS)?;
    if greatest < least {
        return Err(SheetRefusal::GreatestBelowLeast(at_greatest));
    }
    Ok((least, next))
}

// What the cords of a room are bounded by: its scale, which the shares of a server make up, and its count of nodes.
#[derive(Clone, Copy)]
struct Bounds {
    scale: u32,
    node_count: u32,
    ghost scaled: { IsScale scale },
}

impl Bounds {
    // The cord at i, and its share.
    fn check_cord(self, w: &[u32], i: usize) -> Result<(u32, usize), SheetRefusal>
        ensures result { result ≡ told share_of (cord self.scale self.node_count w.now i) }
    {
        let (_, at_share) = check_word(w, i, 1, self.node_count)?;
        check_word(w, at_share, 0, self.scale)
    }

    // So many cords from i on, and the sum of their shares. Each good cord's low is credited to its node in `sums`.
    fn check_cords(
        self,
        w: &[u32],
        i: usize,
        count: u32,
        least: u32,
        sums: &mut [u64],
    ) -> Result<(u32, usize), SheetRefusal>
        requires in_range { (count ≤ most_server_cords) × (least ≤ most_watts) }
        requires sums_fit { (self.node_count ≤ length sums.old) × (sum self.node_count (at sums.old) + most_watts * count < 2 ^ 63) }
        ensures result { result ≡ told share_sum (cords self.scale self.node_count count w.now i) }
        ensures credited { LowsCredited (cords self.scale self.node_count count w.now i) (credited_cords self.scale least) self.node_count
            (most_watts * count) sums.old sums.new }
    {
        let mut sum = 0;
        let mut j = i;
        for _ in 0..count {
            let (share, next) = self.check_cord(w, j)?;
            let low = carried_by(share, least, self.scale);
            credit(sums, w[j] as usize, u64::from(low));
            sum += share;
            j = next;
        }
        Ok((sum, j))
    }

    // The count of a server's cords, and the cords, from i on; `start` is the index of the server's rank.
    fn check_load(
        self,
        w: &[u32],
        i: usize,
        before: u32,
        start: usize,
        least: u32,
        sums: &mut [u64],
    ) -> Result<(u32, usize), SheetRefusal>
        requires in_range { (before ≤ most_cords) × (least ≤ most_watts) }
        requires sums_fit { (self.node_count ≤ length sums.old) × (sum self.node_count (at sums.old) + most_server_cords * most_watts < 2 ^ 63) }
        ensures result { result ≡ told length (load self.scale self.node_count before start w.now i) }
        ensures credited { LowsCredited (load self.scale self.node_count before start w.now i) (credited_cords self.scale least) self.node_count
            (most_server_cords * most_watts) sums.old sums.new }
    {
        let (count, at_cords) = check_word(
            w,
            i,
            1,
            (MOST_SERVER_CORDS as u32).min(MOST_CORDS as u32 - before),
        )?;
        let (shares, next) = self.check_cords(w, at_cords, count, least, sums)?;
        if shares != self.scale {
            return Err(SheetRefusal::SharesNotWhole(start));
        }
        Ok((count, next))
    }

    // The server at i, and the count of its cords; the room has `before` cords so far.
    fn check_server(
        self,
        w: &[u32],
        i: usize,
        before: u32,
        sums: &mut [u64],
    ) -> Result<(u32, usize), SheetRefusal>
        requires in_range { (before ≤ most_cords) × (self.node_count ≤ length sums.old)
            × (sum self.node_count (at sums.old) + most_server_cords * most_watts < 2 ^ 63) }
        ensures result { result ≡ told cord_count (server self.scale self.node_count before w.now i) }
        ensures credited { LowsCredited (server self.scale self.node_count before w.now i) (credited_server self.scale) self.node_count
            (most_server_cords * most_watts) sums.old sums.new }
    {
        let (_, at_range) = check_word(w, i, 1, u32::from(HIGHEST_RANK))?;
        let (least, at_load) = check_range(w, at_range)?;
        self.check_load(w, at_load, before, i, least, sums)
    }

    // So many servers from i on, and the count of all their cords.
    fn check_servers(
        self,
        w: &[u32],
        i: usize,
        count: u32,
        sums: &mut [u64],
    ) -> Result<(u32, usize), SheetRefusal>
        requires in_range { (self.node_count ≤ length sums.old)
            × (sum self.node_count (at sums.old) + most_server_cords * most_watts * count < 2 ^ 63) }
        ensures result { result ≡ told (total cord_count) (servers self.scale self.node_count count 0 w.now i) }
        ensures credited { LowsCredited (servers self.scale self.node_count count 0 w.now i) (credited_servers self.scale) self.node_count
            (most_server_cords * most_watts * count) sums.old sums.new }
    {
        let mut before = 0;
        let mut j = i;
        for _ in 0..count {
            let (cords, next) = self.check_server(w, j, before, sums)?;
            before += cords;
            j = next;
        }
        Ok((before, j))
    }
}

// The whole table, and the count of its cords. The sums, 0 at first, get the lows of the cords on each node.
pub(crate) fn check_table(w: &[u32], sums: &mut [u64]) -> Result<(u32, usize), SheetRefusal>
    requires zeros { (most_nodes ≤ length sums.old) × ((i : ℕ) → get_or sums.old i 0 ≡ 0) }
    ensures result { result ≡ told room_cords (table w.now 0) }
    ensures credited { LowsCredited (table w.now 0) credited_room (get_or w.now 1 0)
        (most_server_cords * most_watts * most_servers) sums.old sums.new }
{
    let (version, at_nodes) = check_word(w, 0, 1, NEWEST_VERSION)?;
    let (node_count, first_node) = check_word(w, at_nodes, 1, MOST_NODES as u32)?;
    let (_, at_servers) = check_nodes(w, first_node, has_percents(version), node_count)?;
    let (server_count, first_server) = check_word(w, at_servers, 0, MOST_SERVERS as u32)?;
    let scale = scale_of(version);
    let bounds = Bounds { scale, node_count };
    let (cords, next) = bounds.check_servers(w, first_server, server_count, sums)?;
    if next < w.len() {
        return Err(SheetRefusal::WordsLeftOver(next));
    }
    Ok((cords, next))
}
