// The DC cap loop: a server's controller holds the cap on its DC power, and each step moves that cap by what the server's cords read.
//
// This is A.6 of document 02, after section IV.B of the report. Figures are 64-bit floats; each operation is rounded once.
#![tactic(auto)]

ghost use Rattle.std.specs.Prelude.{◌≡◌, ◌&&◌, Ok};
ghost use Rattle.control.specs.Step.{float0, most_watts, ordered, is_efficiency, difference, lesser_figure, lesser, dc_change, sum, cut_figure};
ghost use Rattle.control.specs.Step.{cut, good_reading, good_controller, moved, stepped, step_refusal_number, step_refusal_place};
ghost use Rattle.control.specs.Judged.{greater_figure, no_tally, tallied, moved_by, judged_first, judged_with, judged_all, stepped_by};

use outcomes::Refusal;

pub mod call;

// The greatest watts of a budget, of a measurement and of a cap.
const MOST_WATTS: f64 = 16_777_215.0;

// The cords of a server.
const CORDS: u32 = 4;

// AC watts: what a cord draws, or may draw, from its feed.
#[derive(Clone, Copy)]
pub struct AcWatts(pub f64);

// DC watts: what a server's supplies give to the rest of it.
#[derive(Clone, Copy)]
pub struct DcWatts(pub f64);

// What a cord reads: working, with its budget and its measured watts; or failed, which one that is not fitted is too.
#[derive(Clone, Copy)]
pub enum Reading {
    Working(AcWatts, AcWatts),
    Failed,
}

// A server's controller: its DC cap, the efficiency of its supplies, and the low and high ends of the cap's range.
#[derive(Clone, Copy)]
pub struct Controller {
    pub cap: DcWatts,
    pub k: f64,
    pub low: DcWatts,
    pub high: DcWatts,
}

// Why a step is turned back: the controller is not good; or the working cord at a place has a figure that is not.
#[derive(Clone, Copy, PartialEq, Eq)]
pub enum StepRefusal {
    BadController,
    BadReading(u64),
}

// A step that is turned back: the refusal, beside the controller as it was.
#[derive(Clone, Copy)]
pub struct RefusedStep<R = StepRefusal> {
    pub refusal: R,
    pub controller: Controller,
}

// What good cords come to: how many of them work, and the least error of those.
#[derive(Clone, Copy)]
pub struct Tally {
    pub least: AcWatts,
    pub working: u32,
}

impl Refusal for StepRefusal {
    ghost number_of = { step_refusal_number };

    ghost place_of = { step_refusal_place };

    // Document 02's number.
    fn number(self) -> u64 {
        match self {
            StepRefusal::BadController => 16,
            StepRefusal::BadReading(_) => 17,
        }
    }

    // The cord's place, or 0.
    fn place(self) -> u64 {
        match self {
            StepRefusal::BadController => 0,
            StepRefusal::BadReading(cord) => cord,
        }
    }
}

// Whether low ≤ x ≤ high, which no NaN does.
fn ordered(low: f64, x: f64, high: f64) -> bool
    ensures result { result ≡ ordered low x high }
{
    low <= x && x <= high
}

// Whether k lies above 0 and up to 1.
fn is_efficiency(k: f64) -> bool
    ensures result { result ≡ is_efficiency k }
{
    0.0 < k && k <= 1.0
}

impl AcWatts {
    // A budget less what is measured.
    fn less(self, measured: AcWatts) -> AcWatts
        ensures result { result ≡ difference self measured }
    {
        AcWatts(self.0 - measured.0)
    }

    // The lesser of two errors, and the first of equals.
    fn lesser(self, second: AcWatts) -> AcWatts
        ensures result { result ≡ lesser self second }
    {
        AcWatts(lesser(self.0, second.0))
    }

    // The DC change for an AC error of so many working cords: the one place where AC watts become DC watts.
    fn dc_change(self, k: f64, working: u32) -> DcWatts
        ensures result { result ≡ dc_change self k working }
    {
        let count = f64::from(working);
        DcWatts((self.0 * k) * count)
    }
}

impl DcWatts {
    // A cap with a change added, and the sum cut to a range.
    fn moved(self, change: DcWatts, low: DcWatts, high: DcWatts) -> DcWatts
        ensures result { result ≡ cut (sum self change) low high }
    {
        let sum = DcWatts(self.0 + change.0);
        sum.cut(low, high)
    }

    // A cap cut to a range.
    fn cut(self, low: DcWatts, high: DcWatts) -> DcWatts
        ensures result { result ≡ cut self low high }
    {
        DcWatts(cut(self.0, low.0, high.0))
    }
}

// The lesser of two figures, and the first of equals. They are chosen as floats: a choice between structs goes through integer registers.
// By hand: `LeastError` has the first of equals, which −0 and +0 are; `f64::min` gives either of those, and passes over a NaN.
fn lesser(first: f64, second: f64) -> f64
    ensures result { result ≡ lesser_figure first second }
{
    if second < first { second } else { first }
}

// The greater of two figures, and the second of equals: whichever of them is not the lesser.
// By hand: `in_range` finds a NaN in the lesser or in this one, and `f64::max` passes over it.
fn greater(first: f64, second: f64) -> f64
    ensures result { result ≡ greater_figure first second }
{
    if second < first { first } else { second }
}

// Whether two figures are numbers from 0 to the greatest watts, by two bounds in place of four. Each figure, a NaN too, is either the lesser or the
// greater, and a NaN is within no bound.
fn in_range(first: f64, second: f64) -> bool
    ensures result { result ≡ ordered float0 first most_watts && ordered float0 second most_watts }
{
    0.0 <= lesser(first, second) && greater(first, second) <= MOST_WATTS
}

// A figure cut to a range.
// By hand: `f64::clamp` asks that low ≤ high, and `step_by` promises its result for any controller, whatever its range.
fn cut(x: f64, low: f64, high: f64) -> f64
    ensures result { result ≡ cut_figure x low high }
{
    if x < low {
        low
    } else if high < x {
        high
    } else {
        x
    }
}

impl Reading {
    // Whether a cord's figures are good: a failed cord has none.
    fn is_good(self) -> bool
        ensures result { result ≡ good_reading self }
    {
        match self {
            Reading::Working(budget, measured) => in_range(budget.0, measured.0),
            Reading::Failed => true,
        }
    }
}

impl Tally {
    // The tally of no cord: the error is infinite, so that any cord's is the lesser.
    fn none() -> Tally
        ensures result { result ≡ no_tally }
    {
        Tally {
            least: AcWatts(f64::INFINITY),
            working: 0,
        }
    }

    // The tally with one cord more, which is good.
    fn tallied(self, reading: Reading) -> Tally
        ensures result { result ≡ tallied self reading }
    {
        match reading {
            Reading::Working(budget, measured) => Tally {
                least: self.least.lesser(budget.less(measured)),
                working: self.working.saturating_add(1).min(CORDS),
            },
            Reading::Failed => self,
        }
    }

    // The tally with one cord more, the one at a place; or its refusal, where it is not good.
    pub fn with(self, cord: u64, reading: Reading) -> Result<Tally, StepRefusal>
        ensures result { result ≡ judged_with (Ok self) cord reading }
    {
        if !reading.is_good() {
            return Err(StepRefusal::BadReading(cord));
        }
        Ok(self.tallied(reading))
    }
}

impl Controller {
    // One step: the successor, by the readings of the server's four cords.
    //
    // It is made of small parts, so that each is compiled into this and into a pass over many controllers, which is made of them too: a
    // step that both called would be compiled apart, and its readings and what it gives would go through memory.
    pub fn step(self, readings: [Reading; 4]) -> Result<Controller, RefusedStep>
        ensures result { result ≡ stepped self readings }
    {
        self.step_by(self.tally(readings))
    }

    // The tally of the four cords; or the refusal of the controller, or else of the first cord that is not good.
    fn tally(self, readings: [Reading; 4]) -> Result<Tally, StepRefusal>
        ensures result { result ≡ judged_all (judged_first self) 0 readings }
    {
        let [first, second, third, fourth] = readings;
        let none = self.judged()?;
        let one = none.with(0, first)?;
        let two = one.with(1, second)?;
        let three = two.with(2, third)?;
        three.with(3, fourth)
    }

    // The controller judged, before its cords.
    pub fn judged(self) -> Result<Tally, StepRefusal>
        ensures result { result ≡ judged_first self }
    {
        if !self.is_good() {
            return Err(StepRefusal::BadController);
        }
        Ok(Tally::none())
    }

    // The step, once the controller and its cords are judged, by whatever refusals. It moves whatever controller it is given: the caller
    // hands over the judgement of this one.
    pub fn step_by<R>(self, judged: Result<Tally, R>) -> Result<Controller, RefusedStep<R>>
        ensures result { result ≡ stepped_by self judged }
    {
        match judged {
            Ok(tally) => Ok(self.moved_by(tally)),
            Err(refusal) => Err(RefusedStep {
                refusal,
                controller: self,
            }),
        }
    }

    // The successor, by the tally of all cords. With none working, the cap stays.
    fn moved_by(self, tally: Tally) -> Controller
        ensures result { result ≡ moved_by self tally }
    {
        if tally.working == 0 {
            return self;
        }
        let error = tally.least;
        self.moved(error, tally.working)
    }

    // Whether k is an efficiency, and 0 ≤ low ≤ cap ≤ high ≤ the greatest watts.
    fn is_good(self) -> bool
        ensures result { result ≡ good_controller self }
    {
        is_efficiency(self.k)
            && ordered(0.0, self.low.0, self.cap.0)
            && ordered(self.cap.0, self.high.0, MOST_WATTS)
    }

    // The controller with its cap moved by the least error of so many working cords.
    fn moved(self, error: AcWatts, working: u32) -> Controller
        ensures result { result ≡ moved self error working }
    {
        let change = error.dc_change(self.k, working);
        Controller {
            cap: self.cap.moved(change, self.low, self.high),
            ..self
        }
    }
}
