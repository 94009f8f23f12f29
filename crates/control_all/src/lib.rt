// Every server's DC cap loop in one pass: A.7 of document 02. Each controller ends as a step of its own would leave it.
#![tactic(auto)]

ghost use Rattle.std.specs.Prelude.{◌≡◌, ◌+◌, ◌≤◌, length};
ghost use Rattle.outcomes.specs.Outcome.{after};
ghost use Rattle.control.specs.Step.{step_number};
ghost use Rattle.control.specs.Judged.{judged_first, judged_all};
ghost use Rattle.control.specs.Call.{controller_at, reading_at, readings_at, step_at, figures_after};
ghost use Rattle.control_all.specs.Pass.{fitting, stepped_to, numbers_to, zeros, pass_refusal_number, pass_refusal_place, passed, answer_of};
ghost use Rattle.control_all.specs.Fitting.{Fitting, CordsTo};

use control::{Controller, Reading, RefusedStep, StepRefusal, Tally};
use outcomes::Refusal;

pub mod call;

// At most so many controllers are stepped in one pass.
const MOST_CONTROLLERS: usize = 512;

// Why a pass is turned back: its lists do not fit so many controllers.
#[derive(Clone, Copy, PartialEq, Eq)]
pub struct PassRefusal {
    pub controllers: usize,
}

impl Refusal for PassRefusal {
    ghost number_of = { pass_refusal_number };

    ghost place_of = { pass_refusal_place };

    // Document 02's number.
    fn number(self) -> u64 {
        18
    }

    // The number of controllers.
    fn place(self) -> u64 {
        self.controllers as u64
    }
}

// What every cord reads: the lists of the marks, of the budgets and of the measured watts.
#[derive(Clone, Copy)]
struct Cords<'a> {
    working: &'a [u8],
    budgets: &'a [f64],
    measured: &'a [f64],
}

impl Cords<'_> {
    // Whether there are at most 512 controllers, with four cords each in every list, and one result each.
    fn fit(&self, controllers: usize, results: usize) -> bool
        ensures result { result ≡ fitting controllers (length self.now.working.now) (length self.now.budgets.now)
            (length self.now.measured.now) results }
    {
        controllers <= MOST_CONTROLLERS
            && self.working.len() == 4 * controllers
            && self.budgets.len() == 4 * controllers
            && self.measured.len() == 4 * controllers
            && results == controllers
    }

    // The reading of the cord at a place.
    fn reading(&self, at: usize) -> Reading
        requires cords_long { CordsTo (at + 1) self.now.working.now self.now.budgets.now self.now.measured.now }
        ensures result { result ≡ reading_at self.now.working.now self.now.budgets.now self.now.measured.now at }
    {
        Reading::of(self.working[at], self.budgets[at], self.measured[at])
    }

    // The tally of a controller's cords, from a place on: each reading is judged as it is read.
    // By hand: the order of `Controller::tally`; one function for both is compiled apart, and a pass takes twice as long (DECISIONS).
    fn tally(&self, controller: Controller, at: usize) -> Result<Tally, StepRefusal>
        requires cords_long { CordsTo (at + 4) self.now.working.now self.now.budgets.now self.now.measured.now }
        ensures result { result ≡ judged_all (judged_first controller) 0
            (readings_at self.now.working.now self.now.budgets.now self.now.measured.now at) }
    {
        let none = controller.judged()?;
        let one = none.with(0, self.reading(at))?;
        let two = one.with(1, self.reading(at + 1))?;
        let three = two.with(2, self.reading(at + 2))?;
        three.with(3, self.reading(at + 3))
    }
}

// Steps every controller by the readings of its four cords, in place; each one's number goes into its place of the results.
//
// It gives how many have 0 for their number. A controller is four figures in a row: cap, k, low and high. Its cords are four in a row of
// the marks, the budgets and the measured watts.
pub fn step_all(
    controllers: &mut [f64],
    working: &[u8],
    budgets: &[f64],
    measured: &[f64],
    results: &mut [u8],
) -> Result<usize, PassRefusal>
    ensures answer { result ≡ answer_of
        (passed controllers.old working.now budgets.now measured.now results.old) }
    ensures controllers { controllers.new ≡ after (λ pass. pass.controllers)
        (passed controllers.old working.now budgets.now measured.now results.old)
        controllers.old }
    ensures results { results.new ≡ after (λ pass. pass.results)
        (passed controllers.old working.now budgets.now measured.now results.old)
        results.old }
{
    let cords = Cords {
        working,
        budgets,
        measured,
    };
    let count = controllers.len() / 4;
    if !cords.fit(count, results.len()) {
        return Err(PassRefusal { controllers: count });
    }
    Ok(step_each(controllers, &cords, results))
}

// Steps every controller of lists that fit; how many have 0 for their number.
fn step_each(controllers: &mut [f64], cords: &Cords, results: &mut [u8]) -> usize
    requires fitting_lists { Fitting controllers.old cords.now.working.now cords.now.budgets.now cords.now.measured.now results.old }
    ensures controllers { controllers.new ≡ stepped_to controllers.old cords.now.working.now cords.now.budgets.now
        cords.now.measured.now (length results.old) }
    ensures results { results.new ≡ numbers_to controllers.old cords.now.working.now cords.now.budgets.now
        cords.now.measured.now
        results.old (length results.old) }
    ensures result { result ≡ zeros results.new }
{
    let mut stepped = 0;
    for (i, result) in results.iter_mut().enumerate() {
        let step = step_at(controllers, cords, 4 * i);
        let number = keep_at(step, controllers, 4 * i);
        *result = number;
        stepped += usize::from(number == 0);
    }
    stepped
}

// The step of the controller whose figures, and whose cords', stand from a place on, made of the parts of `Controller::step`.
fn step_at(controllers: &[f64], cords: &Cords, at: usize) -> Result<Controller, RefusedStep>
    requires controllers_long { at + 4 ≤ length controllers.now }
    requires cords_long { CordsTo (at + 4) cords.now.working.now cords.now.budgets.now cords.now.measured.now }
    ensures result { result ≡ step_at controllers.now cords.now.working.now cords.now.budgets.now cords.now.measured.now at }
{
    let controller = controller_at(controllers, at);
    controller.step_by(cords.tally(controller, at))
}

// The controller whose figures stand from a place on.
fn controller_at(controllers: &[f64], at: usize) -> Controller
    requires controllers_long { at + 4 ≤ length controllers.now }
    ensures result { result ≡ controller_at controllers.now at }
{
    Controller::of(
        controllers[at],
        controllers[at + 1],
        controllers[at + 2],
        controllers[at + 3],
    )
}

// Stores the cap of an accepted step at the controller's place, and gives the step's number. After a refused one nothing is stored.
fn keep_at(step: Result<Controller, RefusedStep>, controllers: &mut [f64], at: usize) -> u8
    requires controllers_long { at + 4 ≤ length controllers.old }
    ensures controllers { controllers.new ≡ figures_after step controllers.old at }
    ensures number { result ≡ step_number step }
{
    match step {
        Ok(next) => {
            controllers[at] = next.cap.0;
            0
        }
        Err(refused) => refused.refusal.number() as u8,
    }
}
