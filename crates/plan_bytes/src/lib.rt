// Plan called from C: bytes to words, the operation, words and the answer to bytes.
#![tactic(auto)]

ghost use Rattle.std.specs.Prelude.{[], ◌∷◌, ◌≤◌, length, IfOk};
ghost use Rattle.words.specs.Bytes.{words_of};
ghost use Rattle.rooms.specs.Table.{most_servers, most_cords};
ghost use Rattle.deals.specs.Plan.{lists, plan};
ghost use Rattle.plan_bytes.specs.Call.{PlanCall};
ghost use Rattle.plan_bytes.specs.Figures.{FiguresLeft};

use calls::{ANSWER_BYTES, Figures};
use deals::{Lengths, PlanRefusal};
use layout::room::load_bytes;
use plan_rooms::plan_loaded;
use plans::admit;
use rooms::lists::NO_CORD;
use rooms::{MOST_CORDS, MOST_SERVERS};

// Plan: for each cord a grant, its headroom and the number of the node that holds it (0 for none), and for each server a cap, at the fronts
// of their lists.
// By hand: the buffers of `hutplan_plan`, as C hands them over.
pub fn plan_bytes(
    table: &[u8],
    demands: &[u8],
    grants: &mut [u8],
    caps: &mut [u8],
    headroom: &mut [u8],
    held: &mut [u8],
    answer: &mut [u8],
) -> u32
    ensures called { PlanCall (words_of table.now) (words_of demands.now)
        (lists grants.old caps.old headroom.old held.old) answer.old
        result (lists grants.new caps.new headroom.new held.new) answer.new }
{
    if answer.len() < ANSWER_BYTES {
        return 0;
    }
    let mut granted = [0u32; MOST_CORDS];
    let mut capped = [0u32; MOST_SERVERS];
    let mut lent = [0u32; MOST_CORDS];
    let mut holders = [0u32; MOST_CORDS];
    let lengths = Lengths {
        grants: grants.len() / 4,
        caps: caps.len() / 4,
        headroom: headroom.len() / 4,
        held: held.len() / 4,
    };
    let planned = plan_figures(
        table,
        demands,
        lengths,
        &mut granted,
        &mut capped,
        &mut lent,
        &mut holders,
    );
    if let Ok(figures) = planned {
        let cords = figures.cords;
        let servers = figures.servers;
        words::store(&granted[..cords], grants);
        words::store(&capped[..servers], caps);
        words::store(&lent[..cords], headroom);
        words::store(&holders[..cords], held);
    }
    calls::tell(planned, answer);
    1
}

// What a plan in lists of words comes to: its freed watts, and how many cords and servers the lists have figures of.
#[derive(Clone, Copy)]
struct PlannedFigures {
    freed: u64,
    cords: usize,
    servers: usize,
}

impl Figures<1> for PlannedFigures {
    ghost figures_of = { λ planned. planned.freed ∷ [] };

    fn figures(self) -> [u64; 1] {
        [self.freed]
    }
}

// Plan of a table and demands in bytes, at the fronts of lists of words that take any plan, for lists of given lengths. No word of the
// table or of the demands stands in memory while the deals are made.
// By hand: these lists pass through `load_bytes` and `plan_loaded`, of which each takes others.
fn plan_figures(
    table: &[u8],
    demands: &[u8],
    lengths: Lengths,
    granted: &mut [u32],
    capped: &mut [u32],
    lent: &mut [u32],
    holders: &mut [u32],
) -> Result<PlannedFigures, PlanRefusal>
    requires cords { (most_cords ≤ length granted.old) × (most_cords ≤ length lent.old) × (most_cords ≤ length holders.old) }
    requires servers { most_servers ≤ length capped.old }
    ensures few { IfOk result (λ figures. (figures.cords ≤ most_cords) × (figures.servers ≤ most_servers)) }
    ensures planned { FiguresLeft (plan (words_of table.now) (words_of demands.now) lengths) result
        (lists granted.new capped.new lent.new holders.new) }
{
    let mut parents = [0u16; 512];
    let mut left = [0u32; 512];
    let mut cords = [NO_CORD; 1024];
    let mut lows = [0u32; 1024];
    let mut wants = [0u32; 1024];
    let loaded = load_bytes(
        table,
        demands,
        &mut parents,
        &mut left,
        &mut cords,
        &mut lows,
        &mut wants,
        lent,
        capped,
    );
    let counts = admit(loaded, lengths)?;
    let freed = plan_loaded(
        counts, &parents, &cords, &mut lows, &mut wants, &mut left, granted, capped, lent, holders,
    );
    Ok(PlannedFigures {
        freed,
        cords: counts.cords,
        servers: counts.servers,
    })
}
