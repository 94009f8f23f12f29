// What a good table holds, for the crates above `rooms`: its counts, its nodes as lists, and a row a server and a row a cord. None of
// these is an operation: what they claim, they claim of a table that passes the check.
ghost use Rattle.std.specs.Prelude.{◌≡◌, ◌+◌, ◌-◌, ◌^◌, ◌≤◌, ◌<◌, length};
ghost use Rattle.figures.specs.Figures.{at};
ghost use Rattle.rooms.specs.Part.{Good};
ghost use Rattle.rooms.specs.Table.{highest_rank};
ghost use Rattle.rooms.specs.Limits.{checked};
ghost use Rattle.rooms.specs.Lists.{parents_of, limits_of};
ghost use Rattle.rooms.specs.Rows.{OfRoom, NodesFit, ServersFit, CordsFit, ScaleIs, ServerRows, CordRows};
ghost use Rattle.rooms.specs.Walk.{servers_index};

use crate::form::{has_percents, limit_at, node_index, scale_of};

// A cord of a room: the number of its node, the place of its server, its level and its share. Its level is its rank, counted from 0 as
// places are.
#[derive(Clone, Copy, PartialEq, Eq)]
pub struct CordRow {
    pub node: u16,
    pub server: u16,
    pub level: u16,
    pub share: u16,
}

// A row that no cord has filled yet.
pub const NO_CORD: CordRow = CordRow {
    node: 0,
    server: 0,
    level: 0,
    share: 0,
};

// A server of a room: its rank, the least and the greatest watts that it needs, and how many cords it has.
#[derive(Clone, Copy, PartialEq, Eq)]
pub struct ServerRow {
    pub rank: u32,
    pub least: u32,
    pub greatest: u32,
    pub cords: u32,
}

// A row that no server has filled yet.
pub const NO_SERVER: ServerRow = ServerRow {
    rank: 0,
    least: 0,
    greatest: 0,
    cords: 0,
};

// The word at an index; 0 past the table's end.
// By hand: the chips' build takes no `get`, whose pointer stands in a pair (chips/portable.awk).
fn word(table: &[u32], i: usize) -> u32
    ensures result { result ≡ at table.now i }
{
    if i < table.len() { table[i] } else { 0 }
}

// A table's scale.
pub fn table_scale(table: &[u32]) -> u32
    ensures scale { ScaleIs table.now result }
{
    scale_of(word(table, 0))
}

// A table's count of nodes.
pub fn node_count(table: &[u32]) -> usize
    ensures count { NodesFit table.now result }
    ensures word { (result ≡ at table.now 1) × (result < 2 ^ 32) }
{
    word(table, 1) as usize
}

// The index of a table's count of servers.
pub fn servers_index(table: &[u32]) -> usize
    ensures result { (result ≡ servers_index table.now) × (result < 2 ^ 34) }
{
    node_index(has_percents(word(table, 0)), node_count(table))
}

// A table's count of servers.
pub fn server_count(table: &[u32]) -> usize
    ensures count { ServersFit table.now result }
    ensures bound { result < 2 ^ 32 }
{
    word(table, servers_index(table)) as usize
}

// The index of a table's first server, where it has one.
pub fn first_server(table: &[u32]) -> usize
    ensures result { (result ≡ servers_index table.now + 1) × (result < 2 ^ 35) }
{
    servers_index(table) + 1
}

// A table's count of cords: its length tells it, which is cheaper than a walk.
pub fn cord_count(table: &[u32]) -> usize
    ensures count { CordsFit table.now result }
{
    let others = first_server(table) + 4 * server_count(table);
    table.len().saturating_sub(others) / 2
}

// The parents and the limits of a good table's nodes.
pub fn lay_out_nodes(table: &[u32], parents: &mut [u16], limits: &mut [u32])
    requires good { Good (checked table.now 0) }
    requires sizes { NodesFit table.now (length parents.old) × NodesFit table.now (length limits.old) }
    ensures laid_out { OfRoom table.now (λ r. (parents.new ≡ parents_of r) × (limits.new ≡ limits_of r)) }
{
    let percents = has_percents(word(table, 0));
    // By hand: tried `zip(limits)`: what a zip of two lists that are written leaves in them, no proof knows.
    for (m, parent) in parents.iter_mut().enumerate() {
        let i = node_index(percents, m);
        *parent = table[i] as u16;
        limits[m] = limit_at(table, i, percents);
    }
}

// A cord's row.
fn cord_row(node: u32, server: usize, rank: u32, share: u32) -> CordRow
    requires in_range { (node < 2 ^ 16) × (server < 2 ^ 16) × (1 ≤ rank) × (rank ≤ highest_rank) × (share < 2 ^ 16) }
    ensures result { result ≡ record { node = node; server = server; level = rank - 1; share = share } }
{
    CordRow {
        node: node as u16,
        server: server as u16,
        level: (rank - 1) as u16,
        share: share as u16,
    }
}

// A row for each server and each cord of a good table.
// By hand: `load_cords` and `note_cords` walk so too; of a closure that stores what it is given at each cord, no proof would know the lists.
pub fn lay_out_servers(table: &[u32], servers: &mut [ServerRow], cords: &mut [CordRow])
    requires good { Good (checked table.now 0) }
    requires sizes { ServersFit table.now (length servers.old) × CordsFit table.now (length cords.old) }
    ensures laid_out { OfRoom table.now (λ r. ServerRows r servers.new × CordRows r cords.new) }
{
    let mut start = first_server(table);
    let mut first = 0;
    // By hand: tried `servers.iter_mut()`: what is kept over the loop of a server's cords cannot name the rows that it lends.
    for v in 0..servers.len() {
        let rank = table[start];
        let count = table[start + 3] as usize;
        let mut word = start + 4;
        for c in first..first + count {
            let node = table[word];
            let share = table[word + 1];
            cords[c] = cord_row(node, v, rank, share);
            word += 2;
        }
        servers[v] = ServerRow {
            rank,
            least: table[start + 1],
            greatest: table[start + 2],
            cords: table[start + 3],
        };
        first += count;
        start = word;
    }
}
