// Metrics and dealing, and what Plan answers. The definitions of both deals and of the whole plan, and its promises, stand in specs/,
// their proofs in proofs/; the operation itself is `plans::plan`. The modules are private to Plan: no operation stands there.
#![tactic(auto)]

ghost use Rattle.std.specs.Prelude.{◌≡◌};
ghost use Rattle.deals.specs.Plan.{plan_list_number, plan_refusal_number, plan_refusal_place};
ghost use Rattle.deals.specs.Judge.{verdict_number, verdict_names, verdict_rank};

use outcomes::Refusal;

// The lists by level, a rank's metrics, its dealing, and the deal, rank by rank.
pub mod by_rank;
pub mod dealing;
pub mod levels;
pub mod metrics;

// The lists that a plan is written to.
#[derive(Clone, Copy, PartialEq, Eq)]
pub enum PlanList {
    Grants,
    Caps,
    Headroom,
    Held,
}

// How many entries each of the lists has that are lent to Plan.
#[derive(Clone, Copy, PartialEq, Eq)]
pub struct Lengths {
    pub grants: usize,
    pub caps: usize,
    pub headroom: usize,
    pub held: usize,
}

// Why a plan is turned back, and where: the table's refusal, the count of servers, a demand's index, or a list and the length that it
// needs. A plan that is accepted is answered by its freed watts: `Result<u64, PlanRefusal>`.
#[derive(Clone, Copy, PartialEq, Eq)]
pub enum PlanRefusal {
    Table(rooms::SheetRefusal),
    DemandCount(usize),
    DemandTooLarge(usize),
    ListTooShort(PlanList, usize),
}

// By hand: the documents number the refusal and not the list, so that a discriminant or a conversion would say what is not so.
impl PlanList {
    // The number of the refusal where the list is too short.
    pub fn number(self) -> u64
        ensures result { result ≡ plan_list_number self }
    {
        match self {
            PlanList::Grants => 12,
            PlanList::Caps => 13,
            PlanList::Headroom => 14,
            PlanList::Held => 15,
        }
    }
}

impl Refusal for PlanRefusal {
    ghost number_of = { plan_refusal_number };

    ghost place_of = { plan_refusal_place };

    // The refusal's number.
    fn number(self) -> u64 {
        match self {
            PlanRefusal::Table(refusal) => refusal.number(),
            PlanRefusal::DemandCount(_) => 10,
            PlanRefusal::DemandTooLarge(_) => 11,
            PlanRefusal::ListTooShort(list, _) => list.number(),
        }
    }

    // The refusal's place.
    fn place(self) -> u64 {
        match self {
            PlanRefusal::Table(refusal) => refusal.place(),
            PlanRefusal::DemandCount(place)
            | PlanRefusal::DemandTooLarge(place)
            | PlanRefusal::ListTooShort(_, place) => place as u64,
        }
    }
}

// What is wrong with a list of grants: nothing; a cord, by its place, that has less than its low or more than its want; a node, by its
// number, whose limit is passed; or a root, by its number, whose tree is short, and the highest rank at which it is.
#[derive(Clone, Copy, PartialEq, Eq)]
pub enum Verdict {
    Passes,
    BelowLow(usize),
    AboveWant(usize),
    OverLimit(usize),
    Short(usize, usize),
}

// By hand: number, cord or node, and rank are three definitions, one for each figure of C's answer, which `judge` tells together.
impl Verdict {
    // The verdict's number, 0 if the list passes.
    pub fn number(self) -> u64
        ensures result { result ≡ verdict_number self }
    {
        match self {
            Verdict::Passes => 0,
            Verdict::BelowLow(_) => 1,
            Verdict::AboveWant(_) => 2,
            Verdict::OverLimit(_) => 3,
            Verdict::Short(_, _) => 4,
        }
    }

    // The cord, the node or the root that it names, or 0.
    pub fn names(self) -> usize
        ensures result { result ≡ verdict_names self }
    {
        match self {
            Verdict::Passes => 0,
            Verdict::BelowLow(place) | Verdict::AboveWant(place) => place,
            Verdict::OverLimit(number) | Verdict::Short(number, _) => number,
        }
    }

    // The rank that it names, or 0.
    pub fn rank(self) -> usize
        ensures result { result ≡ verdict_rank self }
    {
        match self {
            Verdict::Short(_, rank) => rank,
            _ => 0,
        }
    }
}
