// Read and Write called from C: bytes to words, the operation, words and the answer to bytes.
#![tactic(auto)]

ghost use Rattle.std.specs.Prelude.{◌≡◌, suc, ◌≤◌, length};
ghost use Rattle.rooms.specs.Table.{most_words};
ghost use Rattle.sheet_bytes.specs.Call.{ReadCall, WriteCall};

use calls::ANSWER_BYTES;
use rooms::DECIDING_WORDS;

// Read, called from C: the words of the sheet, at the front of the table, and the answer in a buffer of its own. Returns 1; or 0 where
// that buffer is too short.
pub fn read_bytes(sheet: &[u8], table: &mut [u8], answer: &mut [u8]) -> u32
    ensures called { ReadCall sheet.now table.old answer.old result table.new answer.new }
{
    let mut words = [0u32; DECIDING_WORDS];
    read_by(sheet, &mut words, table, answer)
}

// Write, called from C: the words of the table as numbers, at the front of the sheet, and the answer in a buffer of its own.
pub fn write_bytes(table: &[u8], sheet: &mut [u8], answer: &mut [u8]) -> u32
    ensures called { WriteCall table.now sheet.old answer.old result sheet.new answer.new }
{
    let mut words = [0u32; DECIDING_WORDS];
    write_by(table, &mut words, sheet, answer)
}

// Read by way of a list of words, of which those of an accepted table are stored.
// By hand: every C call has these steps with other lists; one function for all would take each call's own steps as a closure over them.
fn read_by(sheet: &[u8], words: &mut [u32], table: &mut [u8], answer: &mut [u8]) -> u32
    requires deciding { suc most_words ≤ length words.old }
    ensures called { ReadCall sheet.now table.old answer.old result table.new answer.new }
{
    if answer.len() < ANSWER_BYTES {
        return 0;
    }
    let read = rooms::parts::read_words(sheet, words, table.len() / 4);
    // No word is stored where the sheet is refused.
    let count = read.unwrap_or(0);
    words::store(&words[..count], table);
    calls::tell(read, answer);
    1
}

// Write by way of a list of words, which takes the first of the table.
fn write_by(table: &[u8], words: &mut [u32], sheet: &mut [u8], answer: &mut [u8]) -> u32
    requires deciding { suc most_words ≤ length words.old }
    ensures called { WriteCall table.now sheet.old answer.old result sheet.new answer.new }
{
    if answer.len() < ANSWER_BYTES {
        return 0;
    }
    let count = words::load(table, words);
    let written = rooms::write(&words[..count], sheet);
    calls::tell(written, answer);
    1
}
