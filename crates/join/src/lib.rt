// Join: two good tables as one, the second's nodes and servers behind the first's.
//
// The tables come in bytes, as C hands them over. They pass through one list of words, one after the other, and the joined table is put
// together there last: so the call needs hardly more stack than Read, and not that of three tables.
#![tactic(auto)]

ghost use Rattle.std.specs.Prelude.{◌≡◌, ℕ, suc, ◌/◌, ◌≤◌, ◌<◌, length, List};
ghost use Rattle.words.specs.Bytes.{words_of};
ghost use Rattle.figures.specs.Figures.{at};
ghost use Rattle.rooms.specs.Part.{Good};
ghost use Rattle.rooms.specs.Table.{most_words, room_cords};
ghost use Rattle.rooms.specs.Limits.{checked};
ghost use Rattle.rooms.specs.Told.{told};
ghost use Rattle.rooms.specs.Walk.{servers_index};
ghost use Rattle.join.specs.Outcome.{join_refusal_number, join_refusal_place, joining, answer_of};
ghost use Rattle.join.specs.Call.{JoinCall};
ghost use Rattle.join.specs.Huts.{examined, HutOf, Small, MayPutTogether, JoinedInFront, InFront};

use crate::pieces::{Shift, node_width, put_nodes, put_servers, put_words};
use calls::ANSWER_BYTES;
use outcomes::Refusal;
use rooms::form::{has_percents, node_index};
use rooms::lists::{node_count, server_count, servers_index};
use rooms::{DECIDING_WORDS, SheetRefusal};

pub mod pieces;

// Why two tables are turned back: the refusal of either, or of both together. A table that is too short is told with the length needed.
#[derive(Clone, Copy, PartialEq, Eq)]
pub enum JoinRefusal {
    First(SheetRefusal),
    Second(SheetRefusal),
    VersionsDiffer,
    TooManyNodes,
    TooManyServers,
    TooManyCords,
    TableTooShort(usize),
}

// What is kept of a good table: its version, its counts of nodes, servers and cords, the index of its count of servers, and its length.
#[derive(Clone, Copy)]
pub struct Hut {
    pub version: u32,
    pub nodes: usize,
    pub servers: usize,
    pub cords: usize,
    pub middle: usize,
    pub words: usize,
}

impl Refusal for JoinRefusal {
    ghost number_of = { join_refusal_number };

    ghost place_of = { join_refusal_place };

    // The refusal's number.
    fn number(self) -> u64 {
        match self {
            JoinRefusal::First(refusal) | JoinRefusal::Second(refusal) => refusal.number(),
            JoinRefusal::VersionsDiffer => 19,
            JoinRefusal::TooManyNodes | JoinRefusal::TooManyServers | JoinRefusal::TooManyCords =>
                20,
            JoinRefusal::TableTooShort(_) => 12,
        }
    }

    // The refusal's place.
    fn place(self) -> u64 {
        match self {
            JoinRefusal::First(refusal) | JoinRefusal::Second(refusal) => refusal.place(),
            JoinRefusal::VersionsDiffer | JoinRefusal::TooManyNodes => 0,
            JoinRefusal::TooManyServers => 1,
            JoinRefusal::TooManyCords => 2,
            JoinRefusal::TableTooShort(needed) => needed as u64,
        }
    }
}

// Join, called from C: the joined table at the front of the bytes lent for it, and the answer in its buffer.
pub fn join(first: &[u8], second: &[u8], table: &mut [u8], answer: &mut [u8]) -> u32
    ensures call { JoinCall first.now second.now table.old answer.old
        result table.new answer.new }
{
    let mut words = [0u32; DECIDING_WORDS];
    join_by(first, second, &mut words, table, answer)
}

// The call by way of a list of words, of which those of an accepted table are stored.
fn join_by(
    first: &[u8],
    second: &[u8],
    words: &mut [u32],
    table: &mut [u8],
    answer: &mut [u8],
) -> u32
    requires deciding { suc most_words ≤ length words.old }
    ensures call { JoinCall first.now second.now table.old answer.old
        result table.new answer.new }
{
    if answer.len() < ANSWER_BYTES {
        return 0;
    }
    let told = join_words(first, second, words, table.len() / 4);
    let count = told.unwrap_or(0);
    words::store(&words[..count], table);
    calls::tell(told, answer);
    1
}

// The answer on two tables whose joined one is to go to a list of `space` words. An accepted one stands at the front of `words`.
fn join_words(
    first: &[u8],
    second: &[u8],
    words: &mut [u32],
    space: usize,
) -> Result<usize, JoinRefusal>
    requires deciding { suc most_words ≤ length words.old }
    ensures answers { result ≡ answer_of (joining (words_of first.now) (words_of second.now) space) }
    ensures writes { InFront (joining (words_of first.now) (words_of second.now) space) words.new }
{
    check_bytes(first, words).map_err(JoinRefusal::First)?;
    check_bytes(second, words).map_err(JoinRefusal::Second)?;
    let one = hut_in(first);
    let two = hut_in(second);
    let count = admit(one, two, space)?;
    put_together(first, one, second, two, words);
    Ok(count)
}

// The check of a table in bytes, by way of a list that takes its words: its count of cords and the index of what is next.
fn check_bytes(bytes: &[u8], words: &mut [u32]) -> Result<(u32, usize), SheetRefusal>
    requires deciding { suc most_words ≤ length words.old }
    ensures is { result ≡ told room_cords (checked (words_of bytes.now) 0) }
{
    let count = words::load(bytes, words);
    rooms::check(&words[..count])
}

// What is kept of a good table, read again from its bytes: if it were held from its check on, it would take stack while the other table is
// checked.
fn hut_in(bytes: &[u8]) -> Hut
    requires good { Good (checked (words_of bytes.now) 0) }
    ensures hut { HutOf (words_of bytes.now) result }
{
    let version = word_in(bytes, 0);
    let nodes = word_in(bytes, 1) as usize;
    let middle = middle_in(bytes);
    let servers = word_in(bytes, middle) as usize;
    let words = bytes.len() / 4;
    Hut {
        version,
        nodes,
        servers,
        cords: (words - (middle + 1 + 4 * servers)) / 2,
        middle,
        words,
    }
}

// The index of the count of servers, in a good table that stands in bytes.
fn middle_in(bytes: &[u8]) -> usize
    requires good { Good (checked (words_of bytes.now) 0) }
    ensures is { (result ≡ servers_index (words_of bytes.now)) × (result < length bytes.now / 4) }
{
    let percents = has_percents(word_in(bytes, 0));
    node_index(percents, word_in(bytes, 1) as usize)
}

// The word at an index of those that stand in bytes.
fn word_in(bytes: &[u8], i: usize) -> u32
    requires there { i < length bytes.now / 4 }
    ensures is { result ≡ at (words_of bytes.now) i }
{
    let mut word = [0u32; 1];
    words::load(&bytes[4 * i..4 * (i + 1)], &mut word);
    word[0]
}

// The check of a table, with what is kept of it, for Part.
pub fn examine(table: &[u32]) -> Result<Hut, SheetRefusal>
    ensures is { result ≡ examined table.now }
{
    let (cords, _) = rooms::check(table)?;
    Ok(Hut {
        version: table[0],
        nodes: node_count(table),
        servers: server_count(table),
        cords: cords as usize,
        middle: servers_index(table),
        words: table.len(),
    })
}

// The checks of two good tables together, in their order, for a list of `space` words.
fn admit(one: Hut, two: Hut, space: usize) -> Result<usize, JoinRefusal>
    requires small { Small one × Small two }
    ensures answers { (f s : List ℕ) → HutOf f one → HutOf s two → result ≡ answer_of (joining f s space) }
{
    let version = one.version;
    let other = two.version;
    let nodes = one.nodes + two.nodes;
    let servers = one.servers + two.servers;
    let cords = one.cords + two.cords;
    let words = one.words + two.words - 3;
    if version != other {
        return Err(JoinRefusal::VersionsDiffer);
    }
    if rooms::MOST_NODES < nodes {
        return Err(JoinRefusal::TooManyNodes);
    }
    if rooms::MOST_SERVERS < servers {
        return Err(JoinRefusal::TooManyServers);
    }
    if rooms::MOST_CORDS < cords {
        return Err(JoinRefusal::TooManyCords);
    }
    if space < words {
        return Err(JoinRefusal::TableTooShort(words));
    }
    Ok(words)
}

// The joined table, put together at the front of `words`: the nodes of both, then the servers of both, with the second's numbers of
// nodes raised.
fn put_together(first: &[u8], one: Hut, second: &[u8], two: Hut, words: &mut [u32])
    requires may_put { MayPutTogether (words_of first.now) one (words_of second.now) two (length words.old) }
    ensures writes { JoinedInFront (words_of first.now) (words_of second.now) words.new }
{
    let width = node_width(one.version);
    let shift = Shift {
        up: one.nodes as u32,
        down: 0,
    };
    words[0] = one.version;
    words[1] = (one.nodes + two.nodes) as u32;
    let behind = put_words(first, 2..one.middle, words, 2);
    let middle = put_nodes(second, 2..two.middle, width, shift, words, behind);
    words[middle] = (one.servers + two.servers) as u32;
    let next = put_words(first, one.middle + 1..one.words, words, middle + 1);
    put_servers(second, two.middle + 1..two.words, shift, words, next);
}
