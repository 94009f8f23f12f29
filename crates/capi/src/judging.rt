// The C call of Judge. Its contract, of every byte, is that of `judge::judge_bytes`.
//
//     uint32_t hutplan_judge(const uint8_t *table, uint64_t table_len,
//                            const uint8_t *demands, uint64_t demands_len,
//                            const uint8_t *grants, uint64_t grants_len,
//                            uint8_t *answer, uint64_t answer_len);
ghost use Rattle.judge.specs.Call.{JudgeCall};

// Judge: the verdict on a list of grants, in the answer alone.
#[unsafe(no_mangle)]
pub extern "C" fn hutplan_judge(
    table: &[u8],
    demands: &[u8],
    grants: &[u8],
    answer: &mut [u8],
) -> u32
    ensures called { JudgeCall table.now demands.now grants.now answer.old result
        answer.new }
{
    judge::judge_bytes(table, demands, grants, answer)
}
