// Which release the code is of. The number is read from a mark: a line of text that stays, byte by byte, in whatever is linked with the
// call, so that it can be found in a unit's image.
#![tactic(auto)]

ghost use Rattle.std.specs.Prelude.{◌≡◌, ◌≤◌, ◌<◌, length, take, get_or};
ghost use Rattle.std.proofs.lemmas.List.Edits.{sets};
ghost use Rattle.release.specs.Release.{mark, decimal, release_number, ReleaseCall};

use calls::LONG_ANSWER_BYTES;

const MARK_BYTES: usize = 32;

// The newest version of the sheet, as wide as a number of the answer.
const NEWEST_VERSION: u64 = rooms::NEWEST_VERSION as u64;

// Release, called from C: 0, the number of the release and the newest version of the sheet, in the answer. Returns 1; or 0 where the buffer
// is too short.
pub fn release_bytes(answer: &mut [u8]) -> u32
    ensures called { ReleaseCall answer.old result answer.new }
{
    if answer.len() < LONG_ANSWER_BYTES {
        return 0;
    }
    let number = release_number(answer.len().min(MARK_BYTES));
    calls::tell_figures([number, NEWEST_VERSION], answer);
    1
}

// The number of the release, read from so many bytes of the mark. How many is known when the call is made and not before: else the compiler
// would read the number itself, and leave the mark out of what it makes.
fn release_number(seen: usize) -> u64
    requires enough { 20 ≤ seen }
    requires within { seen ≤ 32 }
    ensures result { result ≡ release_number }
{
    let mut text = [0u8; MARK_BYTES];
    show_mark(seen, &mut text);
    decimal_of(text[16], text[17], text[18], text[19])
}

// So many bytes of the mark, at the front of a text.
fn show_mark(seen: usize, text: &mut [u8])
    requires within { seen ≤ length mark }
    requires fits { seen ≤ length text.old }
    ensures shown { text.new ≡ sets text.old 0 (take seen mark) }
{
    for (i, byte) in text[..seen].iter_mut().enumerate() {
        *byte = mark_byte(i as u32);
    }
}

// The number of four digits.
fn decimal_of(a: u8, b: u8, c: u8, d: u8) -> u64
    requires digits { (48 ≤ a) × (48 ≤ b) × (48 ≤ c) × (48 ≤ d) }
    ensures result { result ≡ decimal a b c d }
{
    1000 * u64::from(a - b'0')
        + 100 * u64::from(b - b'0')
        + 10 * u64::from(c - b'0')
        + u64::from(d - b'0')
}

// The byte of the mark at a place: hutplan release 0002 by Yerkozan. The compiler makes a constant table of these lines, and there alone: a
// constant list would be put together byte by byte in each call, and its text be gone. A place has 32 bits, as many as every chip has in a
// number: of more, some chips' compiler keeps the lowest few and turns the table.
fn mark_byte(place: u32) -> u8
    ensures result { result ≡ get_or mark place 0 }
{
    match place {
        0 => 104,
        1 => 117,
        2 => 116,
        3 => 112,
        4 => 108,
        5 => 97,
        6 => 110,
        7 => 32,
        8 => 114,
        9 => 101,
        10 => 108,
        11 => 101,
        12 => 97,
        13 => 115,
        14 => 101,
        15 => 32,
        16 => 48,
        17 => 48,
        18 => 48,
        19 => 50,
        20 => 32,
        21 => 98,
        22 => 121,
        23 => 32,
        24 => 89,
        25 => 101,
        26 => 114,
        27 => 107,
        28 => 111,
        29 => 122,
        30 => 97,
        31 => 110,
        _ => 0,
    }
}
