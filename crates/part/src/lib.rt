// Part: a good table cut after so many nodes and servers, as two tables.
//
// The table comes in bytes, as C hands it over. It passes through one list of words, in which it is checked, and each part is put together
// there in its turn: so the call needs hardly more stack than Read, and not that of three tables.
#![tactic(auto)]

ghost use Rattle.std.specs.Prelude.{[], ◌∷◌, suc, ◌/◌, ◌≤◌, ◌<◌, length};
ghost use Rattle.words.specs.Bytes.{words_of};
ghost use Rattle.rooms.specs.Table.{most_words};
ghost use Rattle.join.specs.Huts.{HutOf};
ghost use Rattle.part.specs.Outcome.{parting, part_refusal_number, part_refusal_place};
ghost use Rattle.part.specs.Call.{PartCall};
ghost use Rattle.part.specs.Sides.{Admits, Stored};

use crate::sides::{first_across, side_before, side_behind, side_words, store_side};
use calls::{Figures, LONG_ANSWER_BYTES};
use join::Hut;
use outcomes::Refusal;
use rooms::{DECIDING_WORDS, SheetRefusal};

pub mod sides;

// Why a table is not parted: its own refusal; a count that is out of range; a link that goes across the cut, at the index of its word; or an
// output that is too short, told with the length needed.
#[derive(Clone, Copy, PartialEq, Eq)]
pub enum PartRefusal {
    Table(SheetRefusal),
    NodesOutOfRange,
    ServersOutOfRange,
    LinkAcross(usize),
    FirstTooShort(usize),
    SecondTooShort(usize),
}

// One side of a cut: its version and its counts of nodes and servers; where its nodes start and end in the table, and its servers; and by
// how much its numbers of nodes are lowered.
#[derive(Clone, Copy)]
pub struct Side {
    pub version: u32,
    pub nodes: usize,
    pub top: usize,
    pub bottom: usize,
    pub servers: usize,
    pub start: usize,
    pub end: usize,
    pub down: u32,
}

// How many words each part has.
#[derive(Clone, Copy)]
struct Counts {
    first: usize,
    second: usize,
}

impl Figures<2> for Counts {
    ghost figures_of = { λ counts. counts.first ∷ counts.second ∷ [] };

    fn figures(self) -> [u64; 2] {
        [self.first as u64, self.second as u64]
    }
}

impl Refusal for PartRefusal {
    ghost number_of = { part_refusal_number };

    ghost place_of = { part_refusal_place };

    // The refusal's number.
    fn number(self) -> u64 {
        match self {
            PartRefusal::Table(refusal) => refusal.number(),
            PartRefusal::NodesOutOfRange | PartRefusal::ServersOutOfRange => 22,
            PartRefusal::LinkAcross(_) => 23,
            PartRefusal::FirstTooShort(_) | PartRefusal::SecondTooShort(_) => 12,
        }
    }

    // The refusal's place.
    fn place(self) -> u64 {
        match self {
            PartRefusal::Table(refusal) => refusal.place(),
            PartRefusal::NodesOutOfRange => 0,
            PartRefusal::ServersOutOfRange => 1,
            PartRefusal::LinkAcross(place)
            | PartRefusal::FirstTooShort(place)
            | PartRefusal::SecondTooShort(place) => place as u64,
        }
    }
}

// Part, called from C: the parts at the fronts of the bytes lent for them, and the answer in its buffer. Returns 1; or 0 where that buffer
// is too short.
pub fn part(
    table: &[u8],
    nodes: u64,
    servers: u64,
    first: &mut [u8],
    second: &mut [u8],
    answer: &mut [u8],
) -> u32
    ensures called { PartCall table.now nodes servers first.old second.old answer.old
        result first.new second.new answer.new }
{
    let mut words = [0u32; DECIDING_WORDS];
    part_by(table, nodes, servers, &mut words, first, second, answer)
}

// The call by way of a list of words.
// By hand: the arguments of `hutplan_part`, as C hands them over, and a list of words.
fn part_by(
    table: &[u8],
    nodes: u64,
    servers: u64,
    words: &mut [u32],
    first: &mut [u8],
    second: &mut [u8],
    answer: &mut [u8],
) -> u32
    requires deciding { suc most_words ≤ length words.old }
    ensures called { PartCall table.now nodes servers first.old second.old answer.old
        result first.new second.new answer.new }
{
    if answer.len() < LONG_ANSWER_BYTES {
        return 0;
    }
    let parted = store_parts(table, nodes, servers, words, first, second);
    calls::tell(parted, answer);
    1
}

// The parts in the outputs, and how many words each has.
fn store_parts(
    table: &[u8],
    nodes: u64,
    servers: u64,
    words: &mut [u32],
    first: &mut [u8],
    second: &mut [u8],
) -> Result<Counts, PartRefusal>
    requires deciding { suc most_words ≤ length words.old }
    ensures stored { Stored (parting (words_of table.now) nodes servers (length first.old / 4) (length second.old / 4))
        first.old second.old first.new second.new result }
{
    let count = words::load(table, words);
    let (one, two) = admit(
        &words[..count],
        nodes,
        servers,
        first.len() / 4,
        second.len() / 4,
    )?;
    Ok(Counts {
        first: store_side(table, one, words, first),
        second: store_side(table, two, words, second),
    })
}

// The checks of a table and of where it is to be cut, in their order, for outputs of so many words: both sides of the cut.
fn admit(
    table: &[u32],
    nodes: u64,
    servers: u64,
    first: usize,
    second: usize,
) -> Result<(Side, Side), PartRefusal>
    ensures admits { Admits table.now (parting table.now nodes servers first second) first second result }
{
    let hut = join::examine(table).map_err(PartRefusal::Table)?;
    if nodes == 0 || hut.nodes as u64 <= nodes {
        return Err(PartRefusal::NodesOutOfRange);
    }
    if (hut.servers as u64) < servers {
        return Err(PartRefusal::ServersOutOfRange);
    }
    admit_cut(table, hut, nodes as usize, servers as usize, first, second)
}

// The checks of a cut within a good table.
fn admit_cut(
    table: &[u32],
    hut: Hut,
    nodes: usize,
    servers: usize,
    first: usize,
    second: usize,
) -> Result<(Side, Side), PartRefusal>
    requires hut { HutOf table.now hut }
    requires nodes { (1 ≤ nodes) × (nodes < hut.nodes) }
    requires servers { servers ≤ hut.servers }
    ensures admits { Admits table.now (parting table.now nodes servers first second) first second result }
{
    let one = side_before(table, hut, nodes, servers);
    let two = side_behind(hut, one);
    if let Some(index) = first_across(table, one, two) {
        return Err(PartRefusal::LinkAcross(index));
    }
    let before = side_words(one);
    if first < before {
        return Err(PartRefusal::FirstTooShort(before));
    }
    let behind = side_words(two);
    if second < behind {
        return Err(PartRefusal::SecondTooShort(behind));
    }
    Ok((one, two))
}
