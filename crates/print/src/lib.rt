// What `hutplan` prints, in bytes.
#![tactic(auto)]

ghost use Rattle.std.specs.Prelude.{◌≡◌, ◌^◌, ◌≤◌, ◌<◌, length};
ghost use Rattle.io.specs.Counts.{IsPrefixLen};
ghost use Rattle.print.specs.Line.{decimal, labelled, freed_line, server_line, cord_line, refused_line, Put};
ghost use Rattle.print.specs.Print.{lines_from, at, plan_line, print_of};
ghost use Rattle.print.specs.Walk.{cord_line_at, walk_print, plan_print};
ghost use Rattle.rooms.specs.Part.{Good};
ghost use Rattle.rooms.specs.Limits.{checked};
ghost use Rattle.rooms.specs.Rows.{cord_row_at, OfRoom, ServersFit, CordsFit};

use outcomes::Refusal;
use rooms::lists::{CordRow, NO_CORD, NO_SERVER, ServerRow};
use rooms::{MOST_CORDS, MOST_SERVER_CORDS, MOST_SERVERS};

// The lists of a plan: a cap for each server; and for each cord a grant, its headroom, and the node that holds it.
#[derive(Clone, Copy)]
pub struct Lists<'a> {
    pub caps: &'a [u32],
    pub grants: &'a [u32],
    pub headroom: &'a [u32],
    pub held: &'a [u32],
}

// The print of a good table's plan, at the front of the buffer: as much as fits. The result is how many bytes that is.
pub fn plan(freed: u64, table: &[u32], lists: Lists, buffer: &mut [u8]) -> usize
    requires good { Good (checked table.now 0) }
    ensures put { OfRoom table.now (λ room. Put buffer.old 0 buffer.new result
        (print_of freed room.servers lists.entry.caps.now lists.entry.grants.now lists.entry.headroom.now lists.entry.held.now)) }
    ensures counts { IsPrefixLen result buffer.new }
{
    let mut servers = [NO_SERVER; MOST_SERVERS];
    let mut cords = [NO_CORD; MOST_CORDS];
    let server_count = rooms::lists::server_count(table);
    let cord_count = rooms::lists::cord_count(table);
    plan_by(
        freed,
        table,
        &mut servers[..server_count],
        &mut cords[..cord_count],
        lists,
        buffer,
    )
}

// The print of a plan by way of a row for each server and each cord.
fn plan_by(
    freed: u64,
    table: &[u32],
    servers: &mut [ServerRow],
    cords: &mut [CordRow],
    lists: Lists,
    buffer: &mut [u8],
) -> usize
    requires good { Good (checked table.now 0) }
    requires sizes { ServersFit table.now (length servers.old) × CordsFit table.now (length cords.old) }
    ensures put { OfRoom table.now (λ room. Put buffer.old 0 buffer.new result
        (print_of freed room.servers lists.entry.caps.now lists.entry.grants.now lists.entry.headroom.now lists.entry.held.now)) }
    ensures counts { IsPrefixLen result buffer.new }
{
    rooms::lists::lay_out_servers(table, servers, cords);
    put_plan(freed, servers, cords, lists, buffer)
}

// The print of a plan by the rows of its servers and cords.
fn put_plan(
    freed: u64,
    servers: &[ServerRow],
    cords: &[CordRow],
    lists: Lists,
    buffer: &mut [u8],
) -> usize
    ensures put { Put buffer.old 0 buffer.new result
        (plan_print freed servers.now cords.now lists.entry.caps.now lists.entry.grants.now lists.entry.headroom.now lists.entry.held.now) }
    ensures counts { IsPrefixLen result buffer.new }
{
    let next = put_freed(freed, buffer, 0);
    put_servers(servers, cords, lists, buffer, next)
}

// The print of a refusal, at the front of the buffer: as much as fits. The result is how many bytes that is.
pub fn refusal(number: u64, place: usize, buffer: &mut [u8]) -> usize
    ensures put { Put buffer.old 0 buffer.new result (refused_line number place) }
    ensures counts { IsPrefixLen result buffer.new }
{
    let a = put_figure(b"refused ", number, buffer, 0);
    let b = put_figure(b" at ", place as u64, buffer, a);
    put(b"\n", buffer, b)
}

// The print of any refusal, by its number and its place.
pub fn refused<R: Refusal>(why: R, buffer: &mut [u8]) -> usize
    ensures put { Put buffer.old 0 buffer.new result (refused_line (R.number_of why) (R.place_of why)) }
    ensures counts { IsPrefixLen result buffer.new }
{
    refusal(why.number(), why.place() as usize, buffer)
}

// The lines of all servers and their cords.
fn put_servers(
    servers: &[ServerRow],
    cords: &[CordRow],
    lists: Lists,
    buffer: &mut [u8],
    start: usize,
) -> usize
    requires start { start ≤ length buffer.old }
    ensures put { Put buffer.old start buffer.new result
        (walk_print servers.now cords.now lists.entry.caps.now
        (plan_line lists.entry.grants.now lists.entry.headroom.now lists.entry.held.now)) }
{
    let count = servers.len().min(MOST_SERVERS);
    let mut first = 0;
    let mut next = start;
    for (v, server) in servers[..count].iter().enumerate() {
        let few = (server.cords as usize).min(MOST_SERVER_CORDS);
        next = put_server((v + 1) as u64, figure(lists.caps, v), buffer, next);
        next = put_cords(few, cords, lists, first, buffer, next);
        first += few;
    }
    next
}

// The lines of a server's cords, whose rows and figures start at `first`.
fn put_cords(
    count: usize,
    cords: &[CordRow],
    lists: Lists,
    first: usize,
    buffer: &mut [u8],
    start: usize,
) -> usize
    requires in_range { (count ≤ 4) × (first < 2 ^ 34) × (start ≤ length buffer.old) }
    ensures put { Put buffer.old start buffer.new result
        (lines_from count 0 (cord_line_at cords.now
        (plan_line lists.entry.grants.now lists.entry.headroom.now lists.entry.held.now) first)) }
{
    let mut next = start;
    // By hand: the figures of a cord stand at its place in lists of other lengths, past whose ends they count as 0.
    for k in 0..count {
        next = put_cord(
            (k + 1) as u64,
            node(cords, first + k),
            figure(lists.grants, first + k),
            figure(lists.headroom, first + k),
            figure(lists.held, first + k),
            buffer,
            next,
        );
    }
    next
}

// The node of the cord at a place; 0 past the last.
fn node(cords: &[CordRow], place: usize) -> u64
    ensures result { result ≡ (cord_row_at cords.now place).node }
{
    cords.get(place).map_or(0, |row| u64::from(row.node))
}

// The figure at a place of a list; 0 past its end.
fn figure(list: &[u32], place: usize) -> u64
    ensures result { result ≡ at list.now place }
{
    list.get(place).map_or(0, |word| u64::from(*word))
}

// `freed F`.
fn put_freed(watts: u64, buffer: &mut [u8], start: usize) -> usize
    requires start { start ≤ length buffer.old }
    ensures put { Put buffer.old start buffer.new result (freed_line watts) }
{
    let a = put_figure(b"freed ", watts, buffer, start);
    put(b"\n", buffer, a)
}

// `server N cap W`.
fn put_server(number: u64, cap: u64, buffer: &mut [u8], start: usize) -> usize
    requires start { start ≤ length buffer.old }
    ensures put { Put buffer.old start buffer.new result (server_line number cap) }
{
    let a = put_figure(b"server ", number, buffer, start);
    let b = put_figure(b" cap ", cap, buffer, a);
    put(b"\n", buffer, b)
}

// `cord K node M grant G headroom W held B`.
// By hand: a struct of the five figures would be filled and read once, in the order in which the line shows them.
fn put_cord(
    number: u64,
    node: u64,
    grant: u64,
    headroom: u64,
    held: u64,
    buffer: &mut [u8],
    start: usize,
) -> usize
    requires start { start ≤ length buffer.old }
    ensures put { Put buffer.old start buffer.new result (cord_line number node grant headroom held) }
{
    let a = put_figure(b"cord ", number, buffer, start);
    let b = put_figure(b" node ", node, buffer, a);
    let c = put_figure(b" grant ", grant, buffer, b);
    let d = put_figure(b" headroom ", headroom, buffer, c);
    let e = put_figure(b" held ", held, buffer, d);
    put(b"\n", buffer, e)
}

// A word of a line and the figure after it, from a place on.
// By hand: no contract of the library says what `write!` leaves in a buffer that is too short; `Put` says every byte.
fn put_figure(word: &[u8], figure: u64, buffer: &mut [u8], start: usize) -> usize
    requires start { start ≤ length buffer.old }
    ensures put { Put buffer.old start buffer.new result (labelled word.now figure) }
{
    let next = put(word, buffer, start);
    put_decimal(figure, buffer, next)
}

// A number in decimal, from a place on.
fn put_decimal(number: u64, buffer: &mut [u8], start: usize) -> usize
    requires start { start ≤ length buffer.old }
    ensures put { Put buffer.old start buffer.new result (decimal number) }
{
    let mut digits = [0u8; 20];
    let count = io::decimal(number, &mut digits);
    put(&digits[..count], buffer, start)
}

// Some bytes, from a place on: as many as fit.
// By hand: a struct of the buffer and the place would add to each contract here a clause that it still holds the same buffer.
fn put(text: &[u8], buffer: &mut [u8], start: usize) -> usize
    requires start { start ≤ length buffer.old }
    ensures put { Put buffer.old start buffer.new result text.now }
{
    let count = text.len().min(buffer.len() - start);
    let next = start + count;
    buffer[start..next].copy_from_slice(&text[..count]);
    next
}
