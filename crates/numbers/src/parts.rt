// A part of Read, for `rooms`, which goes on with what it leaves. It is no operation: also where the sheet is refused, it writes to the list
// that is lent.
ghost use Rattle.std.specs.Prelude.{◌≡◌};
ghost use Rattle.std.proofs.lemmas.List.Edits.{sets};
ghost use Rattle.numbers.specs.Sheet.{sheet_of, judged};

use crate::BadNumber;

// Reads a sheet to its end or its first fault, and gives the count of its numbers. They go to the front of `words`, as many as it has space for.
pub fn decode_sheet(sheet: &[u8], words: &mut [u32]) -> Result<usize, BadNumber>
    ensures result { result ≡ judged (sheet_of sheet.now) }
    ensures words { words.new ≡ sets words.old 0 (sheet_of sheet.now).words }
{
    let mut at = 0;
    let mut count = 0;
    // By hand: how far a turn goes is what the number takes, which the sheet itself says.
    while at < sheet.len() {
        let (value, next) = crate::decode(sheet, at)?;
        if count < words.len() {
            words[count] = value;
        }
        count += 1;
        at = next;
    }
    Ok(count)
}
