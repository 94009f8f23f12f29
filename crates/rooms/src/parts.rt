// Parts of the operations, for the crates of this product that go on with what they leave. None is an operation: also where the input is
// refused, they write to the list that is lent.
ghost use Rattle.std.specs.Prelude.{◌≡◌, length};
ghost use Rattle.std.proofs.lemmas.List.Edits.{sets};
ghost use Rattle.numbers.specs.Sheet.{sheet_of};
ghost use Rattle.rooms.specs.Limits.{checked, lows_told};
ghost use Rattle.rooms.specs.Table.{room_cords};
ghost use Rattle.rooms.specs.Told.{told};
ghost use Rattle.rooms.specs.Outcome.{answer_of, reading_first};

use crate::{MOST_NODES, SheetRefusal};

// The whole check of a table, as `check`, with the lows of all cords beneath each node, at any depth, by the nodes' places: a caller that
// goes on with a good table need not sum them again. Past the nodes, and where the table is refused, the lows are 0.
pub fn check_lows(table: &[u32], lows: &mut [u64; MOST_NODES]) -> Result<(u32, usize), SheetRefusal>
    ensures result { result ≡ told room_cords (checked table.now 0) }
    ensures lows { lows.new ≡ lows_told (checked table.now 0) }
{
    *lows = [0; MOST_NODES];
    let checked = crate::check_summing(table, lows);
    if checked.is_err() {
        *lows = [0; MOST_NODES];
    }
    checked
}

// Read by way of a lent list, for an output of `space` words: the list gets the first words of a sheet, as many as it takes, also
// where the sheet is refused, and these are answered for. A list of DECIDING_WORDS words takes enough for the answer to be that of
// Read (`FirstWordsDecide`). A shorter one may accept, by the words that it takes, a sheet that Read refuses.
pub fn read_words(sheet: &[u8], words: &mut [u32], space: usize) -> Result<usize, SheetRefusal>
    ensures result { result ≡ answer_of (reading_first (length words.old) sheet.now space) }
    ensures words { words.new ≡ sets words.old 0 (sheet_of sheet.now).words }
{
    let count = numbers::parts::decode_sheet(sheet, words)?;
    let front = count.min(words.len());
    crate::answer_for(&words[..front], space)
}
