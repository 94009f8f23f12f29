// A room, loaded: its table and the demands are checked, and its lists laid out at the fronts of lists for any room. What reads the table
// and the demands stands here alone: who goes on needs no word of them.
ghost use Rattle.std.specs.Prelude.{◌≡◌, length, IfOk};
ghost use Rattle.outcomes.specs.Outcome.{accepted};
ghost use Rattle.words.specs.Bytes.{words_of};
ghost use Rattle.rooms.specs.Table.{Room};
ghost use Rattle.rooms.specs.Limits.{checked, lows_told};
ghost use Rattle.layout.specs.Outcome.{loading, loaded_of, refusal_of, load_refusal_number, load_refusal_place};
ghost use Rattle.layout.specs.Room.{CountsFew, LoadSpace, RoomLoaded};
ghost use Rattle.layout.specs.declared.room.LoadRefusal.TheVariants.{Table};

use crate::{load_cords, load_nodes};
use deals::PlanRefusal;
use demands::DECIDING_DEMANDS;
use figures::first_not_below;
use outcomes::Refusal;
use rooms::lists::{CordRow, node_count, server_count, table_scale};
use rooms::{DECIDING_WORDS, MOST_WATTS, SheetRefusal};

// One more than the most watts of a demand.
const TOO_MANY_WATTS: u32 = MOST_WATTS + 1;

// A room's counts, and its scale.
#[derive(Clone, Copy)]
pub struct Counts {
    pub nodes: usize,
    pub servers: usize,
    pub cords: usize,
    pub scale: u32,
}

// Why a table or its servers' demands are turned back, and where: the table's refusal, the count of servers, or a demand's index.
#[derive(Clone, Copy, PartialEq, Eq)]
pub enum LoadRefusal {
    Table(SheetRefusal),
    DemandCount(usize),
    DemandTooLarge(usize),
}

impl Refusal for LoadRefusal {
    ghost number_of = { load_refusal_number };

    ghost place_of = { load_refusal_place };

    // The refusal's number.
    fn number(self) -> u64 {
        match self {
            LoadRefusal::Table(refusal) => refusal.number(),
            LoadRefusal::DemandCount(_) => 10,
            LoadRefusal::DemandTooLarge(_) => 11,
        }
    }

    // The refusal's place.
    fn place(self) -> u64 {
        match self {
            LoadRefusal::Table(refusal) => refusal.place(),
            LoadRefusal::DemandCount(place) | LoadRefusal::DemandTooLarge(place) => place as u64,
        }
    }
}

impl From<SheetRefusal> for LoadRefusal {
    ghost from_gives = { λ refusal told. told ≡ Table refusal };

    fn from(refusal: SheetRefusal) -> LoadRefusal {
        LoadRefusal::Table(refusal)
    }
}

// A refusal of the loading, as one of Plan's.
// By hand: the cases of `PlanRefusal` stand in its public definitions (deals/specs/Plan.antt), so that it cannot hold this one whole.
impl From<LoadRefusal> for PlanRefusal {
    ghost from_gives = { λ refusal told. told ≡ refusal_of refusal };

    fn from(refusal: LoadRefusal) -> PlanRefusal {
        match refusal {
            LoadRefusal::Table(refusal) => PlanRefusal::Table(refusal),
            LoadRefusal::DemandCount(servers) => PlanRefusal::DemandCount(servers),
            LoadRefusal::DemandTooLarge(place) => PlanRefusal::DemandTooLarge(place),
        }
    }
}

// The checks of a table and demands, in their order. Of a good table, `beneath` gets the lows beneath each node.
pub fn admit(
    table: &[u32],
    demands: &[u32],
    beneath: &mut [u64; 512],
) -> Result<Counts, LoadRefusal>
    ensures few { IfOk result CountsFew }
    ensures answer { result ≡ loaded_of (loading table.now demands.now) }
    ensures lows { beneath.new ≡ lows_told (checked table.now 0) }
{
    let (cords, _) = rooms::parts::check_lows(table, beneath)?;
    let servers = server_count(table);
    if demands.len() != servers {
        return Err(LoadRefusal::DemandCount(servers));
    }
    if let Some(large) = first_not_below(TOO_MANY_WATTS, demands) {
        return Err(LoadRefusal::DemandTooLarge(large));
    }
    Ok(Counts {
        nodes: node_count(table),
        servers,
        cords: cords as usize,
        scale: table_scale(table),
    })
}

// Loads a room: its table and its servers' demands are checked, and of a good room the lists are laid out at the fronts of those lent, which
// take any room's. Refused, it may leave anything in them.
// By hand: Plan lends lists of its own for ceilings and needs, `plan_bytes` C's: a struct of arrays would have these twice in memory,
// and one of `&mut`s says nothing to a caller of its lists unless each contract keeps all their ghost names.
pub fn load_room(
    table: &[u32],
    demands: &[u32],
    parents: &mut [u16],
    spare: &mut [u32],
    cords: &mut [CordRow],
    lows: &mut [u32],
    wants: &mut [u32],
    ceilings: &mut [u32],
    needs: &mut [u32],
) -> Result<Counts, LoadRefusal>
    requires space { LoadSpace (length parents.old) (length spare.old) (length cords.old) (length lows.old) (length wants.old)
        (length ceilings.old) (length needs.old) }
    ensures few { IfOk result CountsFew }
    ensures answer { result ≡ loaded_of (loading table.now demands.now) }
    ensures lists { (r : Room) → loading table.now demands.now ≡ accepted r
        → RoomLoaded r demands.now parents.new spare.new cords.new lows.new
        wants.new ceilings.new needs.new }
{
    let mut beneath = [0u64; 512];
    let counts = admit(table, demands, &mut beneath)?;
    let n = counts.nodes;
    let v = counts.servers;
    let k = counts.cords;
    load_nodes(table, &beneath[..n], &mut parents[..n], &mut spare[..n]);
    load_cords(
        table,
        demands,
        &mut cords[..k],
        &mut lows[..k],
        &mut wants[..k],
        &mut ceilings[..k],
        &mut needs[..v],
    );
    Ok(counts)
}

// The same of a table and demands in bytes. Their words stand in lists of its own, of which the first decide every answer: none of them
// takes any memory once the room is loaded.
// By hand: the lists of `load_room`, for its reason.
pub fn load_bytes(
    table: &[u8],
    demands: &[u8],
    parents: &mut [u16],
    spare: &mut [u32],
    cords: &mut [CordRow],
    lows: &mut [u32],
    wants: &mut [u32],
    ceilings: &mut [u32],
    needs: &mut [u32],
) -> Result<Counts, LoadRefusal>
    requires space { LoadSpace (length parents.old) (length spare.old) (length cords.old) (length lows.old) (length wants.old)
        (length ceilings.old) (length needs.old) }
    ensures few { IfOk result CountsFew }
    ensures answer { result ≡ loaded_of (loading (words_of table.now) (words_of demands.now)) }
    ensures lists { (r : Room) → loading (words_of table.now) (words_of demands.now) ≡ accepted r
        → RoomLoaded r (words_of demands.now) parents.new spare.new cords.new lows.new
        wants.new ceilings.new needs.new }
{
    let mut words = [0u32; DECIDING_WORDS];
    let mut figures = [0u32; DECIDING_DEMANDS];
    let word_count = words::load(table, &mut words);
    let figure_count = words::load(demands, &mut figures);
    load_room(
        &words[..word_count],
        &figures[..figure_count],
        parents,
        spare,
        cords,
        lows,
        wants,
        ceilings,
        needs,
    )
}
