// Judge: what is wrong with a list of grants that somebody else made, by the first deal's wants. It writes to no list.
#![tactic(auto)]

ghost use Rattle.std.specs.Prelude.{◌≡◌, List, ℕ, length};
ghost use Rattle.rooms.specs.Rows.{OfRoom, ServersFit, CordsFit, ScaleIs};
ghost use Rattle.deals.specs.Judge.{verdict};
ghost use Rattle.calls.specs.Call.{told_numbers};
ghost use Rattle.judge_totals.specs.Totals.{notes_in};
ghost use Rattle.judge.specs.Outcome.{judging, answer_of, judge_refusal_number, judge_refusal_place};
ghost use Rattle.judge.specs.Call.{verdict_figures, judged_numbers, JudgeCall};
ghost use Rattle.judge.specs.Lists.{NodesGiven, CordsPass, SomePass};
ghost use Rattle.judge.specs.declared.JudgeRefusal.TheVariants.{Load};

use calls::Figures;
use deals::Verdict;
use demands::DECIDING_DEMANDS;
use judge_totals::{lowest_marked, note_cords, note_nodes};
use layout::load_nodes;
use layout::room::{Counts, LoadRefusal, admit};
use outcomes::Refusal;
use rooms::{DECIDING_WORDS, HIGHEST_RANK, MOST_CORDS, MOST_NODES};

// One more grant than a room has cords: so many decide every answer.
const DECIDING_GRANTS: usize = MOST_CORDS + 1;

// The answer of the C call is four numbers of eight bytes each.
const JUDGE_ANSWER_BYTES: usize = 32;

// Why a list is turned back, and where: the refusal of the table or of its servers' demands, or the count of cords.
#[derive(Clone, Copy, PartialEq, Eq)]
pub enum JudgeRefusal {
    Load(LoadRefusal),
    GrantCount(usize),
}

impl Refusal for JudgeRefusal {
    ghost number_of = { judge_refusal_number };

    ghost place_of = { judge_refusal_place };

    // The refusal's number.
    fn number(self) -> u64 {
        match self {
            JudgeRefusal::Load(refusal) => refusal.number(),
            JudgeRefusal::GrantCount(_) => 21,
        }
    }

    // The refusal's place.
    fn place(self) -> u64 {
        match self {
            JudgeRefusal::Load(refusal) => refusal.place(),
            JudgeRefusal::GrantCount(place) => place as u64,
        }
    }
}

impl From<LoadRefusal> for JudgeRefusal {
    ghost from_gives = { λ refusal told. told ≡ Load refusal };

    fn from(refusal: LoadRefusal) -> JudgeRefusal {
        JudgeRefusal::Load(refusal)
    }
}

// A verdict, as the answer of the C call has it.
#[derive(Clone, Copy)]
struct Told(Verdict);

impl Figures<3> for Told {
    ghost figures_of = { λ told. verdict_figures told.0 };

    fn figures(self) -> [u64; 3] {
        let verdict = self.0;
        [
            verdict.number(),
            verdict.names() as u64,
            verdict.rank() as u64,
        ]
    }
}

// The verdict on grants that no cord has too little or too much of, by the notes of a good table's cords on their nodes. `beneath` has the
// lows beneath each node, as the check of the table leaves them.
fn judge_nodes(
    table: &[u32],
    nodes: usize,
    beneath: &[u64],
    given: &mut [u64; MOST_NODES],
    raised: &mut [u16; MOST_NODES],
    wanting: &mut [u16; MOST_NODES],
) -> Verdict
    requires table { NodesGiven table.now nodes beneath.now }
    requires noted { SomePass table.now (notes_in given.old raised.old wanting.old) }
    ensures result { OfRoom table.now (λ r. (demands grants : List ℕ) →
        CordsPass r demands grants (notes_in given.old raised.old wanting.old) → result ≡ verdict r demands grants) }
{
    let mut parents = [0u16; MOST_NODES];
    let mut spare = [0u32; MOST_NODES];
    let parents = &mut parents[..nodes];
    let spare = &mut spare[..nodes];
    load_nodes(table, &beneath[..nodes], parents, spare);
    if let Some(over) = note_nodes(parents, spare, given, raised, wanting) {
        return Verdict::OverLimit(over + 1);
    }
    if let Some(root) = lowest_marked(parents, wanting) {
        return Verdict::Short(root + 1, usize::from(wanting[root]));
    }
    Verdict::Passes
}

// The verdict on a good table with a demand for each server and a grant for each cord.
fn judge_room(
    table: &[u32],
    demands: &[u32],
    grants: &[u32],
    counts: Counts,
    beneath: &[u64],
) -> Verdict
    requires table { NodesGiven table.now counts.nodes beneath.now × ScaleIs table.now counts.scale }
    requires sizes { ServersFit table.now (length demands.now) × CordsFit table.now (length grants.now) }
    ensures result { OfRoom table.now (λ r. result ≡ verdict r demands.now grants.now) }
{
    let mut given = [0u64; MOST_NODES];
    let mut raised = [HIGHEST_RANK; MOST_NODES];
    let mut wanting = [0u16; MOST_NODES];
    let faults = note_cords(
        table,
        demands,
        grants,
        counts.scale,
        &mut given,
        &mut raised,
        &mut wanting,
    );
    if let Some(cord) = faults.below {
        return Verdict::BelowLow(cord);
    }
    if let Some(cord) = faults.above {
        return Verdict::AboveWant(cord);
    }
    judge_nodes(
        table,
        counts.nodes,
        beneath,
        &mut given,
        &mut raised,
        &mut wanting,
    )
}

// Judge: the verdict on a list of grants, of a table and its servers' demands; or why it is turned back.
pub fn judge(table: &[u32], demands: &[u32], grants: &[u32]) -> Result<Verdict, JudgeRefusal>
    ensures result { result ≡ answer_of (judging table.now demands.now grants.now) }
{
    let mut beneath = [0u64; MOST_NODES];
    let counts = admit(table, demands, &mut beneath)?;
    if grants.len() != counts.cords {
        return Err(JudgeRefusal::GrantCount(counts.cords));
    }
    Ok(judge_room(table, demands, grants, counts, &beneath))
}

// The same, as the answer of the C call has it.
fn judge_told(table: &[u32], demands: &[u32], grants: &[u32]) -> Result<Told, JudgeRefusal>
    ensures told { told_numbers (λ told. verdict_figures told.0) judge_refusal_number judge_refusal_place result
        ≡ judged_numbers (answer_of (judging table.now demands.now grants.now)) }
{
    Ok(Told(judge(table, demands, grants)?))
}

// Judge, called from C: lists in bytes, and the answer in a buffer of its own. Returns 1; or 0 where that buffer is too short.
pub fn judge_bytes(table: &[u8], demands: &[u8], grants: &[u8], answer: &mut [u8]) -> u32
    ensures called { JudgeCall table.now demands.now grants.now answer.old result
        answer.new }
{
    if answer.len() < JUDGE_ANSWER_BYTES {
        return 0;
    }
    let mut words = [0u32; DECIDING_WORDS];
    let mut figures = [0u32; DECIDING_DEMANDS];
    let mut watts = [0u32; DECIDING_GRANTS];
    let word_count = words::load(table, &mut words);
    let figure_count = words::load(demands, &mut figures);
    let watt_count = words::load(grants, &mut watts);
    let judged = judge_told(
        &words[..word_count],
        &figures[..figure_count],
        &watts[..watt_count],
    );
    calls::tell(judged, answer);
    1
}
