// The C call of Join: the words of two tables to those of one.
//
//     uint32_t hutplan_join(const uint8_t *first, uint64_t first_len,
//                           const uint8_t *second, uint64_t second_len,
//                           uint8_t *table, uint64_t table_len,
//                           uint8_t *answer, uint64_t answer_len);
ghost use Rattle.join.specs.Call.{JoinCall};

#[unsafe(no_mangle)]
pub extern "C" fn hutplan_join(
    first: &[u8],
    second: &[u8],
    table: &mut [u8],
    answer: &mut [u8],
) -> u32
    ensures call { JoinCall first.now second.now table.old answer.old result table.new
        answer.new }
{
    join::join(first, second, table, answer)
}
