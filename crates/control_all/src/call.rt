// A pass called from C: figures as doubles, marks and results as bytes, and the answer.
ghost use Rattle.control_all.specs.Call.{PassCall};

use calls::ANSWER_BYTES;

// Every controller stepped in place, with the answer of a C call.
pub fn step_all_in_place(
    controllers: &mut [f64],
    working: &[u8],
    budgets: &[f64],
    measured: &[f64],
    results: &mut [u8],
    answer: &mut [u8],
) -> u32
    ensures called { PassCall controllers.old working.now budgets.now measured.now
        results.old answer.old
        result controllers.new results.new answer.new }
{
    if answer.len() < ANSWER_BYTES {
        return 0;
    }
    let told = crate::step_all(controllers, working, budgets, measured, results);
    calls::tell(told, answer);
    1
}
