// The C calls of the DC cap loop: one step, and a pass over every controller.
//
// An array passes as a pointer, and a slice as a pointer and a length:
//     uint32_t hutplan_step(double controller[4],
//                           const uint8_t working[4], const double budgets[4], const double measured[4],
//                           uint8_t *answer, uint64_t answer_len);
//     uint32_t hutplan_step_all(double *controllers, uint64_t controllers_len,
//                               const uint8_t *working, uint64_t working_len,
//                               const double *budgets, uint64_t budgets_len,
//                               const double *measured, uint64_t measured_len,
//                               uint8_t *results, uint64_t results_len,
//                               uint8_t *answer, uint64_t answer_len);
ghost use Rattle.control.specs.Call.{StepCall};
ghost use Rattle.control_all.specs.Call.{PassCall};

// One step of a controller, in place.
#[unsafe(no_mangle)]
pub extern "C" fn hutplan_step(
    controller: &mut [f64; 4],
    working: &[u8; 4],
    budgets: &[f64; 4],
    measured: &[f64; 4],
    answer: &mut [u8],
) -> u32
    ensures called { StepCall controller.old working.now budgets.now measured.now
        answer.old
        result controller.new answer.new }
{
    control::call::step_in_place(controller, working, budgets, measured, answer)
}

// A step of every controller, in place.
#[unsafe(no_mangle)]
pub extern "C" fn hutplan_step_all(
    controllers: &mut [f64],
    working: &[u8],
    budgets: &[f64],
    measured: &[f64],
    results: &mut [u8],
    answer: &mut [u8],
) -> u32
    ensures called { PassCall controllers.old working.now budgets.now measured.now
        results.old answer.old
        result controllers.new results.new answer.new }
{
    control_all::call::step_all_in_place(controllers, working, budgets, measured, results, answer)
}
