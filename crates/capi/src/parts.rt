// The C call of Part. Its contract, of every byte, is that of `part::part`.
//
//     uint32_t hutplan_part(const uint8_t *table, uint64_t table_len,
//                           uint64_t nodes, uint64_t servers,
//                           uint8_t *first, uint64_t first_len,
//                           uint8_t *second, uint64_t second_len,
//                           uint8_t *answer, uint64_t answer_len);
ghost use Rattle.part.specs.Call.{PartCall};

// Part: both parts of a table, at the fronts of their lists.
#[unsafe(no_mangle)]
pub extern "C" fn hutplan_part(
    table: &[u8],
    nodes: u64,
    servers: u64,
    first: &mut [u8],
    second: &mut [u8],
    answer: &mut [u8],
) -> u32
    ensures called { PartCall table.now nodes servers first.old second.old answer.old
        result first.new second.new answer.new }
{
    part::part(table, nodes, servers, first, second, answer)
}
