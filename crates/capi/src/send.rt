// The C call of Send. Its contract, of every byte, is that of `sender::send_bytes`.
//
//     uint32_t hutplan_send(uint64_t count, uint64_t position, uint64_t m,
//                           uint8_t *list, uint64_t list_len,
//                           uint8_t *answer, uint64_t answer_len);
ghost use Rattle.sender.specs.Call.{SendCall};

// Send: the servers that a period names, at the front of the list.
#[unsafe(no_mangle)]
pub extern "C" fn hutplan_send(
    count: u64,
    position: u64,
    m: u64,
    list: &mut [u8],
    answer: &mut [u8],
) -> u32
    ensures called { SendCall count position m list.old answer.old result list.new answer.new }
{
    sender::send_bytes(count, position, m, list, answer)
}
