// The C calls of Read, Write and Plan. Each is exported here alone: its contract, of every byte, is that of the function that it calls.
//
// A slice passes as a pointer and a length:
//     uint32_t hutplan_read(const uint8_t *sheet, uint64_t sheet_len,
//                           uint8_t *table, uint64_t table_len,
//                           uint8_t *answer, uint64_t answer_len);
//     uint32_t hutplan_write(const uint8_t *table, uint64_t table_len,
//                            uint8_t *sheet, uint64_t sheet_len,
//                            uint8_t *answer, uint64_t answer_len);
//     uint32_t hutplan_plan(const uint8_t *table, uint64_t table_len,
//                           const uint8_t *demands, uint64_t demands_len,
//                           uint8_t *grants, uint64_t grants_len,
//                           uint8_t *caps, uint64_t caps_len,
//                           uint8_t *headroom, uint64_t headroom_len,
//                           uint8_t *held, uint64_t held_len,
//                           uint8_t *answer, uint64_t answer_len);
#![tactic(auto)]

ghost use Rattle.words.specs.Bytes.{words_of};
ghost use Rattle.sheet_bytes.specs.Call.{ReadCall, WriteCall};
ghost use Rattle.deals.specs.Plan.{lists};
ghost use Rattle.plan_bytes.specs.Call.{PlanCall};

pub mod joins;
pub mod judging;
pub mod parts;
pub mod releases;
pub mod schedule;
pub mod send;
pub mod steps;

// Read: the words of the sheet, at the front of the table.
#[unsafe(no_mangle)]
pub extern "C" fn hutplan_read(sheet: &[u8], table: &mut [u8], answer: &mut [u8]) -> u32
    ensures called { ReadCall sheet.now table.old answer.old result table.new answer.new }
{
    sheet_bytes::read_bytes(sheet, table, answer)
}

// Write: the words of the table as numbers, at the front of the sheet.
#[unsafe(no_mangle)]
pub extern "C" fn hutplan_write(table: &[u8], sheet: &mut [u8], answer: &mut [u8]) -> u32
    ensures called { WriteCall table.now sheet.old answer.old result sheet.new answer.new }
{
    sheet_bytes::write_bytes(table, sheet, answer)
}

// Plan: for each cord a grant, its headroom and the number of the node that holds it (0 for none), and for each server a cap, at the fronts
// of their lists.
// By hand: the seven buffers are the C interface (include/hutplan.h).
#[unsafe(no_mangle)]
pub extern "C" fn hutplan_plan(
    table: &[u8],
    demands: &[u8],
    grants: &mut [u8],
    caps: &mut [u8],
    headroom: &mut [u8],
    held: &mut [u8],
    answer: &mut [u8],
) -> u32
    ensures called { PlanCall (words_of table.now) (words_of demands.now)
        (lists grants.old caps.old headroom.old held.old) answer.old
        result (lists grants.new caps.new headroom.new held.new) answer.new }
{
    plan_bytes::plan_bytes(table, demands, grants, caps, headroom, held, answer)
}
