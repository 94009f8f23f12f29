// A step called from C: four figures of a controller, and a mark and two figures for each of its four cords.
ghost use Rattle.std.specs.Prelude.{◌≡◌};
ghost use Rattle.control.specs.Call.{controller_of, reading_of, readings_at, figures_after, answer_of, StepCall};

use crate::{AcWatts, Controller, DcWatts, Reading, RefusedStep, StepRefusal};
use calls::ANSWER_BYTES;
use std::array;

impl Controller {
    // The controller of four figures.
    pub fn of(cap: f64, k: f64, low: f64, high: f64) -> Controller
        ensures result { result ≡ controller_of cap k low high }
    {
        Controller {
            cap: DcWatts(cap),
            k,
            low: DcWatts(low),
            high: DcWatts(high),
        }
    }
}

impl Reading {
    // The reading of a mark, 0 for a cord that failed or is not fitted, and two figures.
    pub fn of(mark: u8, budget: f64, measured: f64) -> Reading
        ensures result { result ≡ reading_of mark budget measured }
    {
        if mark == 0 {
            Reading::Failed
        } else {
            Reading::Working(AcWatts(budget), AcWatts(measured))
        }
    }
}

// The readings of four cords.
fn readings(working: &[u8; 4], budgets: &[f64; 4], measured: &[f64; 4]) -> [Reading; 4]
    ensures result { result ≡ readings_at working.now budgets.now measured.now 0 }
{
    array::from_fn(|cord| Reading::of(working[cord], budgets[cord], measured[cord]))
}

// Stores the new cap of an accepted step, and gives the answer: the figure 0, or the refusal. After a refused one nothing is stored, so that
// also a NaN keeps its bits.
fn keep_cap(
    stepped: Result<Controller, RefusedStep>,
    controller: &mut [f64; 4],
) -> Result<u64, StepRefusal>
    ensures controller { controller.new ≡ figures_after stepped controller.old 0 }
    ensures answer { result ≡ answer_of stepped }
{
    match stepped {
        Ok(next) => {
            controller[0] = next.cap.0;
            Ok(0)
        }
        Err(refused) => Err(refused.refusal),
    }
}

// One step of a controller, in place, with the answer of a C call.
pub fn step_in_place(
    controller: &mut [f64; 4],
    working: &[u8; 4],
    budgets: &[f64; 4],
    measured: &[f64; 4],
    answer: &mut [u8],
) -> u32
    ensures called { StepCall controller.old working.now budgets.now measured.now
        answer.old
        result controller.new answer.new }
{
    if answer.len() < ANSWER_BYTES {
        return 0;
    }
    let before = Controller::of(controller[0], controller[1], controller[2], controller[3]);
    let stepped = before.step(readings(working, budgets, measured));
    calls::tell(keep_cap(stepped, controller), answer);
    1
}
