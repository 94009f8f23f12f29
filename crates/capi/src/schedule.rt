// The C call of a breaker schedule: its text to the words of a table.
//
//     uint32_t hutplan_schedule(const uint8_t *text, uint64_t text_len,
//                               uint8_t *table, uint64_t table_len,
//                               uint8_t *answer, uint64_t answer_len);
ghost use Rattle.schedules.specs.Call.{ScheduleCall};

#[unsafe(no_mangle)]
pub extern "C" fn hutplan_schedule(text: &[u8], table: &mut [u8], answer: &mut [u8]) -> u32
    ensures called { ScheduleCall text.now table.old answer.old result table.new answer.new }
{
    schedules::schedule_bytes(text, table, answer)
}
