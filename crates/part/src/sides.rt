// The sides of a cut in the words of a table: where they stand, whether a link goes from one to the other, and the table that each gives.
ghost use Rattle.std.specs.Prelude.{◌≡◌, ◌+◌, ◌-◌, ◌/◌, ◌^◌, ◌≤◌, ◌<◌, length, drop};
ghost use Rattle.std.proofs.lemmas.List.Edits.{sets};
ghost use Rattle.figures.specs.Figures.{at};
ghost use Rattle.words.specs.Bytes.{words_of, bytes_of};
ghost use Rattle.figures.specs.Bounds.{AllBelow};
ghost use Rattle.rooms.specs.Rows.{OfRoom};
ghost use Rattle.join.specs.Huts.{HutOf};
ghost use Rattle.join.specs.Pieces.{piece, PiecePut};
ghost use Rattle.part.specs.Crossing.{across};
ghost use Rattle.part.specs.Sides.{every_across, cords_across, server_span, span, first_across};
ghost use Rattle.part.specs.Sides.{side_before, behind_of, side_table, side_words, SideFits};

use crate::Side;
use join::Hut;
use join::pieces::{Shift, count_at, node_width, put_nodes, put_servers};
use std::ops::Range;

// ---- Where the sides stand

// The side before the cut, which is made after so many nodes and servers.
pub fn side_before(table: &[u32], hut: Hut, nodes: usize, servers: usize) -> Side
    requires hut { HutOf table.now hut }
    requires nodes { nodes ≤ hut.nodes }
    ensures is { OfRoom table.now (λ room. result ≡ side_before (at table.now 0) nodes servers room) }
{
    let start = hut.middle + 1;
    Side {
        version: hut.version,
        nodes,
        top: 2,
        bottom: 2 + node_width(hut.version) * nodes,
        servers,
        start,
        end: servers_end(table, start, servers),
        down: 0,
    }
}

// The side behind the cut.
pub fn side_behind(hut: Hut, one: Side) -> Side
    requires within { (one.nodes ≤ hut.nodes) × (one.servers ≤ hut.servers) × (one.nodes < 2 ^ 32) }
    ensures is { result ≡ behind_of hut one }
{
    Side {
        version: hut.version,
        nodes: hut.nodes - one.nodes,
        top: one.bottom,
        bottom: hut.middle,
        servers: hut.servers - one.servers,
        start: one.end,
        end: hut.words,
        down: one.nodes as u32,
    }
}

// Where so many servers end whose words start at an index.
fn servers_end(table: &[u32], start: usize, servers: usize) -> usize
    requires there { start ≤ length table.now }
    requires below { AllBelow (2 ^ 31) table.now }
    ensures is { result ≡ start + span servers (drop start table.now) }
{
    let mut i = start;
    for _ in 0..servers {
        i += server_span(table, i);
    }
    i
}

// How many words the server has whose words start at i; none past the end.
fn server_span(words: &[u32], i: usize) -> usize
    requires below { AllBelow (2 ^ 31) words.now }
    ensures is { result ≡ server_span (drop i words.now) }
    ensures small { result < 2 ^ 34 }
    ensures none { length words.now ≤ i → result ≡ 0 }
{
    if words.len() <= i {
        return 0;
    }
    4 + 2 * count_at(words, i)
}

// How many words a side's table has.
pub fn side_words(side: Side) -> usize
    requires fits { (side.top ≤ side.bottom) × (side.start ≤ side.end) × (side.bottom < 2 ^ 32) × (side.end < 2 ^ 32) }
    ensures is { result ≡ side_words side }
{
    3 + (side.bottom - side.top) + (side.end - side.start)
}

// ---- Links across the cut

// The index of the first word of a good table that names a node on the other side of the cut.
pub fn first_across(table: &[u32], one: Side, two: Side) -> Option<usize>
    requires fits { SideFits table.now one × SideFits table.now two }
    ensures is { result ≡ first_across one two table.now }
{
    let nodes = one.nodes as u32;
    let parent = parent_across(table, two.top..two.bottom, node_width(one.version), nodes);
    if parent.is_some() {
        return parent;
    }
    let cord = cord_across(table, one.start..one.end, nodes, true);
    if cord.is_some() {
        return cord;
    }
    cord_across(table, two.start..two.end, nodes, false)
}

// The index of the first parent across the cut, of nodes behind it that stand in a span of words, `width` each.
fn parent_across(table: &[u32], span: Range<usize>, width: usize, nodes: u32) -> Option<usize>
    requires width { 1 ≤ width }
    requires there { span.end ≤ length table.now }
    ensures is { result ≡ every_across nodes (width - 1) 0 span.start (piece span.start span.end table.now) }
{
    for i in (span.start..span.end).step_by(width) {
        if across(table[i], nodes, false) {
            return Some(i);
        }
    }
    None
}

// Likewise of cords, of servers that stand before the cut or behind it.
// By hand: how far a step goes stands in the words themselves, 4 or 2 of them, so that no range has these steps.
fn cord_across(table: &[u32], span: Range<usize>, nodes: u32, before: bool) -> Option<usize>
    requires there { span.end ≤ length table.now }
    ensures is { result ≡ cords_across nodes before 0 span.start (piece span.start span.end table.now) }
{
    let mut i = span.start;
    let mut left = 0;
    while i < span.end {
        if left == 0 {
            left = count_at(table, i);
            i += 4;
        } else {
            if across(table[i], nodes, before) {
                return Some(i);
            }
            i += 2;
            left -= 1;
        }
    }
    None
}

// Whether a number, of something before the cut or behind it, is that of a node on the other side.
// By hand: `before` is the definition's own (`across`); a closure for it would need a predicate besides, in the contract of each loop.
fn across(number: u32, nodes: u32, before: bool) -> bool
    ensures is { result ≡ across nodes before number }
{
    if before {
        nodes < number
    } else {
        1 <= number && number <= nodes
    }
}

// ---- The table of a side

// A side's table, by way of a list of words, at the front of an output that has space for it; how many words.
pub fn store_side(table: &[u8], side: Side, words: &mut [u32], output: &mut [u8]) -> usize
    requires fits { SideFits (words_of table.now) side }
    requires space { (side_words side ≤ length words.old) × (side_words side ≤ length output.old / 4) }
    ensures count { result ≡ length (side_table side (words_of table.now)) }
    ensures stored { output.new ≡ sets output.old 0 (bytes_of (side_table side (words_of table.now))) }
{
    let count = put_side(table, side, words);
    words::store(&words[..count], output);
    count
}

// A side's table, put together at the front of `words`.
fn put_side(table: &[u8], side: Side, words: &mut [u32]) -> usize
    requires fits { SideFits (words_of table.now) side }
    requires space { side_words side ≤ length words.old }
    ensures put { PiecePut words.old 0 (side_table side (words_of table.now)) words.new result }
{
    let width = node_width(side.version);
    let shift = Shift {
        up: 0,
        down: side.down,
    };
    words[0] = side.version;
    words[1] = side.nodes as u32;
    let middle = put_nodes(table, side.top..side.bottom, width, shift, words, 2);
    words[middle] = side.servers as u32;
    put_servers(table, side.start..side.end, shift, words, middle + 1)
}
