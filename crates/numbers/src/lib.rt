// The number form of the sheet: whole numbers below 2^28 in one to four bytes of seven bits each.
// The definitions that the contracts cite stand in specs/Number.antt and specs/Sheet.antt.
#![tactic(auto)]

ghost use Rattle.std.specs.Prelude.{◌≡◌, ◌+◌, ◌^◌, ◌<◌, ◌≤◌, length, drop, MatchResult};
ghost use Rattle.std.proofs.lemmas.List.Edits.{sets};
ghost use Rattle.numbers.specs.Number.{number, decoded, form};
ghost use Rattle.numbers.specs.Followed.{Followed};
ghost use Rattle.numbers.specs.Sheet.{bytes_of, written, after_encode_sheet};
ghost use Rattle.figures.specs.Bounds.{AllBelow};

use figures::first_not_below;

pub mod parts;

// Why bytes are no number: four bytes that all say another follows; a last byte of 0 after others; the bytes end inside.
#[derive(Clone, Copy, PartialEq, Eq)]
pub enum Fault {
    TooLong,
    NotShortest,
    CutShort,
}

// A bad number: its fault, and the place where it starts.
#[derive(Clone, Copy, PartialEq, Eq)]
pub struct BadNumber {
    pub fault: Fault,
    pub place: usize,
}

// Why words are not written: the index of the first word that has no form, or the count of bytes needed.
#[derive(Clone, Copy, PartialEq, Eq)]
pub enum Unwritten {
    TooLarge(usize),
    TooShort(usize),
}

// The first value that has no form: 2^28.
const FORM_LIMIT: u32 = 1 << 28;

// The number that starts at a place of the sheet, byte by byte, and the place after it.
// By hand: the chips' build takes no `get`, whose pointer stands in a pair (chips/portable.awk).
fn decode_bytes(sheet: &[u8], at: usize) -> Result<(u32, usize), Fault>
    ensures result { MatchResult result (λ found. Ok found ≡ decoded at (number (drop at sheet.now)))
        (λ fault. Err (record { fault = fault; place = at }) ≡ decoded at (number (drop at sheet.now))) }
{
    if sheet.len() <= at {
        return Err(Fault::CutShort);
    }
    let first = u32::from(sheet[at]);
    if first < 128 {
        return Ok((first, at + 1));
    }
    let mut value = first - 128;
    let mut unit = 128;
    for next in at + 1..at + 4 {
        if sheet.len() <= next {
            return Err(Fault::CutShort);
        }
        let byte = u32::from(sheet[next]);
        if byte == 0 {
            return Err(Fault::NotShortest);
        }
        if byte < 128 {
            return Ok((value + unit * byte, next + 1));
        }
        value += unit * (byte - 128);
        unit *= 128;
    }
    Err(Fault::TooLong)
}

// The number that starts at a place of the sheet, and the place after it. If it has one or two bytes, and the sheet has two from there
// on, it is read without a branch on its size: the processor would often predict that wrongly.
pub fn decode(sheet: &[u8], at: usize) -> Result<(u32, usize), BadNumber>
    ensures result { result ≡ decoded at (number (drop at sheet.now)) }
{
    if at < sheet.len() && at + 1 < sheet.len() {
        let first = u32::from(sheet[at]);
        // 1 if another byte follows, else 0.
        let another = first / 128;
        let second = another * u32::from(sheet[at + 1]);
        // A second byte, if there is one, is not 0 and is the last.
        if another <= second && second < 128 {
            let value = first % 128 + 128 * second;
            return Ok((value, at + 1 + another as usize));
        }
    }
    decode_bytes(sheet, at).map_err(|fault| BadNumber { fault, place: at })
}

// The count of bytes in a number's form.
fn size(value: u32) -> usize
    ensures result { result ≡ length (form value) }
{
    if value < 128 {
        1
    } else if value < 16384 {
        2
    } else if value < 2097152 {
        3
    } else {
        4
    }
}

// Writes a number that has a form where there is space for it, and gives the place after it.
fn put(value: u32, sheet: &mut [u8], at: usize) -> usize
    requires value { value < 2 ^ 28 }
    requires space { at + length (form value) ≤ length sheet.old }
    ensures next { result ≡ at + length (form value) }
    ensures stored { sheet.new ≡ sets sheet.old at (form value) }
{
    let mut rest = value;
    let mut next = at;
    // By hand: what ends the loop is what is left of the value, and no count or list that is known before.
    while 128 <= rest {
        sheet[next] = (128 + rest % 128) as u8;
        rest /= 128;
        next += 1;
    }
    sheet[next] = rest as u8;
    next + 1
}

// Writes a number that has a form and that others follow, and gives the place after it. Below 2^14 it stores two bytes,
// without a branch on the size. If the form has only one, the second byte is overwritten by what follows.
fn put_followed(value: u32, sheet: &mut [u8], at: usize) -> usize
    requires value { value < 2 ^ 28 }
    requires space { at + length (form value) < length sheet.old }
    ensures next { result ≡ at + length (form value) }
    ensures stored { Followed value sheet.old at sheet.new result }
{
    if 16384 <= value {
        return put(value, sheet, at);
    }
    // 1 from 128 on, else 0: as a sum that carries, since a test may be compiled to a branch.
    let another = (value + 16256) / 16384;
    sheet[at] = (128 * another + value % 128) as u8;
    sheet[at + 1] = (value / 128) as u8;
    at + 1 + another as usize
}

// The count of bytes in the forms of some words.
fn total_size(words: &[u32]) -> usize
    ensures result { result ≡ length (bytes_of words.now) }
{
    let mut total = 0;
    for word in words {
        total += size(*word);
    }
    total
}

// Writes words that all have forms to the front of a sheet with space for them, and gives the count of bytes.
fn put_all(words: &[u32], sheet: &mut [u8]) -> usize
    requires values { AllBelow (2 ^ 28) words.now }
    requires space { length (bytes_of words.now) ≤ length sheet.old }
    ensures count { result ≡ length (bytes_of words.now) }
    ensures stored { sheet.new ≡ sets sheet.old 0 (bytes_of words.now) }
{
    if words.is_empty() {
        return 0;
    }
    // By hand: the chips' build takes no `split_last`, whose pointers stand in pairs (chips/portable.awk).
    let last = words.len() - 1;
    let mut at = 0;
    for word in &words[..last] {
        at = put_followed(*word, sheet, at);
    }
    // Nothing follows the last word.
    put(words[last], sheet, at)
}

// Writes words as numbers to the front of a sheet, and gives the count of bytes. Refused, it leaves the sheet unchanged.
pub fn encode_sheet(words: &[u32], sheet: &mut [u8]) -> Result<usize, Unwritten>
    ensures result { result ≡ written words.now (length sheet.old) }
    ensures sheet { sheet.new ≡ after_encode_sheet result words.now sheet.old }
{
    if let Some(large) = first_not_below(FORM_LIMIT, words) {
        return Err(Unwritten::TooLarge(large));
    }
    // No form is longer than four bytes, so only a sheet with fewer a word can be too short.
    if sheet.len() / 4 < words.len() {
        let needed = total_size(words);
        if sheet.len() < needed {
            return Err(Unwritten::TooShort(needed));
        }
    }
    Ok(put_all(words, sheet))
}
