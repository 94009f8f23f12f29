// The text of a schedule: bytes, numbers and single lines.
ghost use Rattle.std.specs.Prelude.{◌≡◌, ◌<◌, length};
ghost use Rattle.schedules.specs.Text.{byte_at, number, field, line};
ghost use Rattle.schedules.specs.Told.{told};

use crate::Entry;

const MOST_DIGITS: usize = 4;

// The digit that no number of more digits begins with.
const LONE_DIGIT: u8 = b'0';

// The byte at a place; 0 past the end of the text.
// By hand: the chips' build takes no `get`, whose answer holds a pointer (chips/portable.awk).
fn byte_at(text: &[u8], at: usize) -> u8
    ensures result { result ≡ byte_at text.now at }
    ensures bounded { 0 < result → at < length text.now }
{
    if at < text.len() { text[at] } else { 0 }
}

// The number that starts at a place, and the place after it; nothing where it is not of the form.
fn read_number(text: &[u8], at: usize) -> Option<(u32, usize)>
    ensures result { result ≡ told (number text.now at) }
{
    let first = byte_at(text, at);
    if first == LONE_DIGIT {
        return Some((0, at + 1));
    }
    if !first.is_ascii_digit() {
        return None;
    }
    let mut value = 0;
    for done in 0..MOST_DIGITS {
        let byte = byte_at(text, at + done);
        if !byte.is_ascii_digit() {
            return Some((value, at + done));
        }
        value = value * 10 + u32::from(byte - b'0');
    }
    Some((value, at + MOST_DIGITS))
}

// The number that starts at a place, with the byte that must stand behind it, and the place after that.
fn read_field(text: &[u8], at: usize, end: u8) -> Option<(u32, usize)>
    requires end_given { 0 < end }
    ensures result { result ≡ told (field end text.now at) }
{
    let (value, next) = read_number(text, at)?;
    if byte_at(text, next) != end {
        return None;
    }
    Some((value, next + 1))
}

// The entry of the line that starts at a place, and the place after the line.
pub fn read_line(text: &[u8], at: usize) -> Option<(Entry, usize)>
    ensures result { result ≡ told (line text.now at) }
{
    let (parent, at_amperes) = read_field(text, at, b' ')?;
    let (amperes, at_volts) = read_field(text, at_amperes, b' ')?;
    let (volts, next) = read_field(text, at_volts, b'\n')?;
    let entry = Entry {
        parent,
        amperes,
        volts,
    };
    Some((entry, next))
}
