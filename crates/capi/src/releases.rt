// The C call that tells the release. Its contract, of every byte, is that of `release::release_bytes`.
//
//     uint32_t hutplan_release(uint8_t *answer, uint64_t answer_len);
ghost use Rattle.release.specs.Release.{ReleaseCall};

// Release: its number and the newest version of the sheet, in the answer alone.
#[unsafe(no_mangle)]
pub extern "C" fn hutplan_release(answer: &mut [u8]) -> u32
    ensures called { ReleaseCall answer.old result answer.new }
{
    release::release_bytes(answer)
}
