// The room table and its rules: the check of a table, Read and Write.
#![tactic(auto)]

ghost use Rattle.std.specs.Prelude.{◌≡◌, ℕ, suc, ◌≤◌, length, replicate};
ghost use Rattle.outcomes.specs.Outcome.{after};
ghost use Rattle.rooms.specs.Part.{good};
ghost use Rattle.rooms.specs.Limits.{checked, node_lows};
ghost use Rattle.rooms.specs.Table.{Room, most_nodes, most_words, room_cords};
ghost use Rattle.rooms.specs.Told.{told};
ghost use Rattle.rooms.specs.declared.SheetRefusal.TheVariants.{BadNumber};
ghost use Rattle.rooms.specs.Outcome.{sheet_refusal_number, sheet_refusal_place, unwritten_refusal, answer_of, if_good, reading, writing};

use numbers::{BadNumber, Fault, Unwritten};
use outcomes::Refusal;

pub mod form;
pub mod limits;
pub mod lists;
pub mod lows;
pub mod parts;
mod table;

// Why an input is turned back, and where: a byte or a word by its place, a node by its number, or a length.
#[derive(Clone, Copy, PartialEq, Eq)]
pub enum SheetRefusal {
    BadNumber(Fault, usize),
    WordMissing(usize),
    WordOutOfRange(usize),
    GreatestBelowLeast(usize),
    SharesNotWhole(usize),
    WordsLeftOver(usize),
    LowsAboveLimit(usize),
    OutputTooShort(usize),
}

// The newest version of the sheet (specs/Table.antt).
pub const NEWEST_VERSION: u32 = 3;

// The most nodes, servers and cords of a room, the most cords of a server, its highest rank and the most watts (specs/Table.antt).
pub const MOST_NODES: usize = 512;

pub const MOST_SERVERS: usize = 512;

pub const MOST_CORDS: usize = 1024;

pub const MOST_SERVER_CORDS: usize = 4;

pub const HIGHEST_RANK: u16 = 16;

pub const MOST_WATTS: u32 = 16_777_215;

// The most words of a table, of whatever version: version, count of nodes, three words a node, count of servers, four a server and
// two a cord (`most_words`, specs/Table.antt).
pub const MOST_WORDS: usize = 2 + 3 * MOST_NODES + 1 + 4 * MOST_SERVERS + 2 * MOST_CORDS;

// One word more than a table may have: so many decide every check.
pub const DECIDING_WORDS: usize = MOST_WORDS + 1;

impl Refusal for SheetRefusal {
    ghost number_of = { sheet_refusal_number };

    ghost place_of = { sheet_refusal_place };

    // The refusal's number.
    fn number(self) -> u64 {
        match self {
            SheetRefusal::BadNumber(Fault::TooLong, _) => 1,
            SheetRefusal::BadNumber(Fault::NotShortest, _) => 2,
            SheetRefusal::BadNumber(Fault::CutShort, _) => 3,
            SheetRefusal::WordMissing(_) => 4,
            SheetRefusal::WordOutOfRange(_) => 5,
            SheetRefusal::GreatestBelowLeast(_) => 6,
            SheetRefusal::SharesNotWhole(_) => 7,
            SheetRefusal::WordsLeftOver(_) => 8,
            SheetRefusal::LowsAboveLimit(_) => 9,
            SheetRefusal::OutputTooShort(_) => 12,
        }
    }

    // The refusal's place.
    fn place(self) -> u64 {
        match self {
            SheetRefusal::BadNumber(_, place)
            | SheetRefusal::WordMissing(place)
            | SheetRefusal::WordOutOfRange(place)
            | SheetRefusal::GreatestBelowLeast(place)
            | SheetRefusal::SharesNotWhole(place)
            | SheetRefusal::WordsLeftOver(place)
            | SheetRefusal::LowsAboveLimit(place)
            | SheetRefusal::OutputTooShort(place) => place as u64,
        }
    }
}

impl From<BadNumber> for SheetRefusal {
    ghost from_gives = { λ bad refusal. refusal ≡ BadNumber bad.fault bad.place };

    fn from(bad: BadNumber) -> SheetRefusal {
        SheetRefusal::BadNumber(bad.fault, bad.place)
    }
}

impl From<Unwritten> for SheetRefusal {
    ghost from_gives = { λ why refusal. refusal ≡ unwritten_refusal why };

    fn from(why: Unwritten) -> SheetRefusal {
        match why {
            Unwritten::TooShort(needed) => SheetRefusal::OutputTooShort(needed),
            // No word of a good table is too large to be written.
            Unwritten::TooLarge(index) => SheetRefusal::WordOutOfRange(index),
        }
    }
}

// The whole check of a table: the count of its cords and its length, or its refusal. `lows` come as zeros; a good table leaves those beneath
// each node there, a refused one may leave anything.
fn check_summing(table: &[u32], lows: &mut [u64; MOST_NODES]) -> Result<(u32, usize), SheetRefusal>
    requires zeros { lows.old ≡ replicate most_nodes 0 }
    ensures result { result ≡ told room_cords (checked table.now 0) }
    ensures lows { (q : Room) (j : ℕ) → checked table.now 0 ≡ good q j → lows.new ≡ node_lows q }
{
    let (cords, length) = table::check_table(table, lows)?;
    if let Some(node) = lows::overloaded(table, lows) {
        return Err(SheetRefusal::LowsAboveLimit(node));
    }
    Ok((cords, length))
}

// The whole check of a table: the count of its cords and its length, or its refusal.
pub fn check(table: &[u32]) -> Result<(u32, usize), SheetRefusal>
    ensures result { result ≡ told room_cords (checked table.now 0) }
{
    let mut lows = [0; MOST_NODES];
    parts::check_lows(table, &mut lows)
}

// The answer on a table whose words are to go to an output of `space` words.
fn answer_for(table: &[u32], space: usize) -> Result<usize, SheetRefusal>
    ensures result { result ≡ answer_of (if_good (checked table.now 0) table.now space) }
{
    check(table)?;
    let count = table.len();
    if space < count {
        return Err(SheetRefusal::OutputTooShort(count));
    }
    Ok(count)
}

// Read: the words of a sheet, at the front of the table. Refused, it leaves the table unchanged.
pub fn read(sheet: &[u8], table: &mut [u32]) -> Result<usize, SheetRefusal>
    ensures result { result ≡ answer_of (reading sheet.now (length table.old)) }
    ensures table { table.new ≡ after (λ words. words) (reading sheet.now (length table.old))
        table.old }
{
    // So many words decide, whatever follows them.
    let mut words = [0; DECIDING_WORDS];
    let count = parts::read_words(sheet, &mut words, table.len())?;
    // By hand: not `copy_from_slice`: see `figures::copy`.
    figures::copy(&words[..count], table);
    Ok(count)
}

// Write: the words of a table as numbers, at the front of the sheet. Refused, it leaves the sheet unchanged.
pub fn write(table: &[u32], sheet: &mut [u8]) -> Result<usize, SheetRefusal>
    ensures result { result ≡ answer_of (writing table.now (length sheet.old)) }
    ensures sheet { sheet.new ≡ after (λ bytes. bytes) (writing table.now (length sheet.old))
        sheet.old }
{
    check(table)?;
    let count = numbers::encode_sheet(table, sheet)?;
    Ok(count)
}
