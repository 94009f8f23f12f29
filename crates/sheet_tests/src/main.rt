// Runs Read and Write on the rooms of document 01 and on inputs for each refusal, and prints a line for each:
// the operation and the case, the answer's number and figure, and all that the list or buffer holds after it.
// An entry that was not written holds 7 (Read) or ee (Write).
// The expected output, the file `stdout`, is written from the document.
#![tactic(auto)]

ghost use Rattle.std.specs.Prelude.{◌≤◌};

use outcomes::Refusal;
use rooms::SheetRefusal;
use samples::{ROOM_H, ROOM_S};
use std::io;

mod samples;

// The entries of the list and of the buffer that the cases lend.
const ENTRIES: usize = 64;

// A space and a number in decimal, for each word; and so for each byte, in two hexadecimal digits.
fn print_words(rt: &impl Print, words: &[u32]) -> io::Result<()> {
    for word in words {
        print!(rt; " {word}")?;
    }
    Ok(())
}

fn print_bytes(rt: &impl Print, bytes: &[u8]) -> io::Result<()> {
    for byte in bytes {
        print!(rt; " {byte:02x}")?;
    }
    Ok(())
}

// The start of a line: operation, case, number and figure.
fn print_answer(
    rt: &impl Print,
    operation: &str,
    case: &str,
    answer: Result<usize, SheetRefusal>,
) -> io::Result<()> {
    let (number, figure) = match answer {
        Ok(count) => (0, count as u64),
        Err(refusal) => (refusal.number(), refusal.place()),
    };
    print!(rt; "{operation} {case}: {number} {figure}:")
}

// Read into a list, and the line that says what became of it.
fn read_into(rt: &impl Print, case: &str, sheet: &[u8], list: &mut [u32]) -> io::Result<()> {
    let answer = rooms::read(sheet, list);
    print_answer(rt, "read", case, answer)?;
    print_words(rt, list)?;
    print!(rt; "\n")
}

// Read into a list of so many entries.
fn read(rt: &impl Print, case: &str, sheet: &[u8], entries: usize) -> io::Result<()>
    requires entries { entries ≤ 64 }
{
    let mut list = [7u32; ENTRIES];
    read_into(rt, case, sheet, &mut list[..entries])
}

// Write into a buffer, and the line that says what became of it.
fn write_into(rt: &impl Print, case: &str, table: &[u32], buffer: &mut [u8]) -> io::Result<()> {
    let answer = rooms::write(table, buffer);
    print_answer(rt, "write", case, answer)?;
    print_bytes(rt, buffer)?;
    print!(rt; "\n")
}

// Write into a buffer of so many bytes.
fn write(rt: &impl Print, case: &str, table: &[u32], entries: usize) -> io::Result<()>
    requires entries { entries ≤ 64 }
{
    let mut buffer = [0xEEu8; ENTRIES];
    write_into(rt, case, table, &mut buffer[..entries])
}

// Document 01's rooms as sheets.
fn read_rooms(rt: &impl Print) -> io::Result<()> {
    read(
        rt,
        "room H",
        b"\x01\x02\x00\x96\x01\x00\xF4\x03\x02\x01\x64\x90\x03\x02\x01\xF4\x03\x02\xF4\x03\x01\x64\x90\x03\x01\x02\xE8\x07",
        24,
    )?;
    read(
        rt,
        "room S",
        b"\x01\x03\x00\x8e\x0c\x01\xaa\x07\x01\xaa\x07\x04\x02\x8e\x02\xf4\x03\x01\x02\xe8\x07\x01\x8e\x02\xf4\x03\x01\x02\xe8\x07\
          \x01\x8e\x02\xf4\x03\x01\x03\xe8\x07\x01\x8e\x02\xf4\x03\x01\x03\xe8\x07",
        36,
    )?;
    read(
        rt,
        "H, node 2 rated 188",
        b"\x01\x02\x00\x96\x01\x00\xBC\x01\x02\x01\x64\x90\x03\x02\x01\xF4\x03\x02\xF4\x03\x01\x64\x90\x03\x01\x02\xE8\x07",
        21,
    )?;
    read(
        rt,
        "H, node 2 rated 187",
        b"\x01\x02\x00\x96\x01\x00\xBB\x01\x02\x01\x64\x90\x03\x02\x01\xF4\x03\x02\xF4\x03\x01\x64\x90\x03\x01\x02\xE8\x07",
        24,
    )?;
    read(rt, "no servers", b"\x01\x01\x00\x64\x00", 8)?;
    read(rt, "no bytes", b"", 3)
}

// Refusals 1 to 3: bytes that are no numbers.
fn read_bad_numbers(rt: &impl Print) -> io::Result<()> {
    read(rt, "80", b"\x80", 3)?;
    read(rt, "01 80 00", b"\x01\x80\x00", 3)?;
    read(rt, "80 80 80 80", b"\x80\x80\x80\x80", 3)?;
    read(
        rt,
        "a number of five bytes",
        b"\x01\x01\x00\xFF\xFF\xFF\xFF\x07\x00",
        3,
    )?;
    read(
        rt,
        "four bytes, the last 0",
        b"\x01\x01\x00\xFF\xFF\xFF\x00\x00",
        3,
    )?;
    read(rt, "version 4, then a number cut short", b"\x04\x80", 3)
}

// Refusals 4 and 5 of sheets: words that are missing or out of range.
fn read_bad_words(rt: &impl Print) -> io::Result<()> {
    read(
        rt,
        "H, last word missing",
        b"\x01\x02\x00\x96\x01\x00\xF4\x03\x02\x01\x64\x90\x03\x02\x01\xF4\x03\x02\xF4\x03\x01\x64\x90\x03\x01\x02",
        22,
    )?;
    read(rt, "version 4, and no more", b"\x04", 3)?;
    read(rt, "node 1 its own parent", b"\x01\x01\x01\x64\x00", 6)?;
    read(
        rt,
        "rating 16,777,215",
        b"\x01\x01\x00\xFF\xFF\xFF\x07\x00",
        6,
    )?;
    read(
        rt,
        "rating 16,777,216",
        b"\x01\x01\x00\x80\x80\x80\x08\x00",
        6,
    )
}

// Refusals 6 to 9 and 12 of sheets.
fn read_bad_tables(rt: &impl Print) -> io::Result<()> {
    read(
        rt,
        "greatest below least",
        b"\x01\x01\x00\x64\x01\x01\x0A\x09\x01\x01\xE8\x07",
        12,
    )?;
    read(
        rt,
        "shares of 999",
        b"\x01\x01\x00\x64\x01\x01\x0A\x0A\x01\x01\xE7\x07",
        12,
    )?;
    read(rt, "a word left over", b"\x01\x01\x00\x64\x00\x00", 8)?;
    read(
        rt,
        "lows of a child above the root's limit",
        b"\x01\x02\x00\x0C\x01\x64\x01\x01\x0A\x0A\x01\x02\xE8\x07",
        14,
    )?;
    read(
        rt,
        "H into 20 words",
        b"\x01\x02\x00\x96\x01\x00\xF4\x03\x02\x01\x64\x90\x03\x02\x01\xF4\x03\x02\xF4\x03\x01\x64\x90\x03\x01\x02\xE8\x07",
        20,
    )?;
    read(rt, "no servers into no words", b"\x01\x01\x00\x64\x00", 0)
}

// Version 2: room H at 80 throughout; then with node 2 at 100, rated just what its lows are, and 1 W less; and percents that are refused.
fn read_second_version(rt: &impl Print) -> io::Result<()> {
    read(
        rt,
        "H in version 2",
        b"\x02\x02\x00\x96\x01\x50\x00\xF4\x03\x50\x02\x01\x64\x90\x03\x02\x01\xF4\x03\x02\xF4\x03\x01\x64\x90\x03\x01\x02\xE8\x07",
        25,
    )?;
    read(
        rt,
        "H, node 2 rated 150 at 100",
        b"\x02\x02\x00\x96\x01\x50\x00\x96\x01\x64\x02\x01\x64\x90\x03\x02\x01\xF4\x03\x02\xF4\x03\x01\x64\x90\x03\x01\x02\xE8\x07",
        23,
    )?;
    read(
        rt,
        "H, node 2 rated 149 at 100",
        b"\x02\x02\x00\x96\x01\x50\x00\x95\x01\x64\x02\x01\x64\x90\x03\x02\x01\xF4\x03\x02\xF4\x03\x01\x64\x90\x03\x01\x02\xE8\x07",
        23,
    )?;
    read(rt, "version 2, and no more", b"\x02", 3)?;
    read(rt, "percent missing", b"\x02\x01\x00\x64", 6)?;
    read(rt, "percent 79", b"\x02\x01\x00\x64\x4F\x00", 6)?;
    read(rt, "percent 90", b"\x02\x01\x00\x64\x5A\x00", 6)?;
    read(rt, "percent 101", b"\x02\x01\x00\x64\x65\x00", 6)
}

// Version 3: room H, with shares of ten thousand; then with those of version 2.
fn read_third_version(rt: &impl Print) -> io::Result<()> {
    read(
        rt,
        "H in version 3",
        b"\x03\x02\x00\x96\x01\x50\x00\xF4\x03\x50\x02\x01\x64\x90\x03\x02\x01\x88\x27\x02\x88\x27\x01\x64\x90\x03\x01\x02\x90\x4E",
        23,
    )?;
    read(
        rt,
        "H in version 3, shares of version 2",
        b"\x03\x02\x00\x96\x01\x50\x00\xF4\x03\x50\x02\x01\x64\x90\x03\x02\x01\xF4\x03\x02\xF4\x03\x01\x64\x90\x03\x01\x02\xE8\x07",
        23,
    )?;
    read(rt, "version 3, and no more", b"\x03", 3)
}

// Write, on room H with another rating of node 2.
fn write_rated(rt: &impl Print, case: &str, rating: u32) -> io::Result<()> {
    let mut table = ROOM_H;
    table[5] = rating;
    write(rt, case, &table, 28)
}

// Write, on the first words of room H.
fn write_front(rt: &impl Print, case: &str, count: usize) -> io::Result<()>
    requires count { count ≤ 21 }
{
    let table = ROOM_H;
    write(rt, case, &table[..count], 28)
}

// Document 01's rooms as tables.
fn write_rooms(rt: &impl Print) -> io::Result<()> {
    write(rt, "room H", &ROOM_H, 31)?;
    write(rt, "room S", &ROOM_S, 50)?;
    write_rated(rt, "H, node 2 rated 188", 188)?;
    write_rated(rt, "H, node 2 rated 187", 187)?;
    write(rt, "no servers", &[1, 1, 0, 100, 0], 8)?;
    write_front(rt, "no words", 0)
}

// Refusals 4 to 9 and 12 of tables.
fn write_bad_tables(rt: &impl Print) -> io::Result<()> {
    write_front(rt, "H, last word missing", 20)?;
    write(rt, "version 4,294,967,295, and no more", &[4294967295], 3)?;
    write(rt, "node 1 its own parent", &[1, 1, 1, 100, 0], 6)?;
    write(rt, "rating 16,777,215", &[1, 1, 0, 16777215, 0], 9)?;
    write(rt, "rating 16,777,216", &[1, 1, 0, 16777216, 0], 9)?;
    write(
        rt,
        "greatest below least",
        &[1, 1, 0, 100, 1, 1, 10, 9, 1, 1, 1000],
        12,
    )?;
    write(
        rt,
        "shares of 999",
        &[1, 1, 0, 100, 1, 1, 10, 10, 1, 1, 999],
        12,
    )?;
    write(rt, "a word left over", &[1, 1, 0, 100, 0, 0], 8)?;
    write(
        rt,
        "lows of a child above the root's limit",
        &[1, 2, 0, 12, 1, 100, 1, 1, 10, 10, 1, 2, 1000],
        14,
    )?;
    write(rt, "H into 27 bytes", &ROOM_H, 27)?;
    write(rt, "no servers into no bytes", &[1, 1, 0, 100, 0], 0)
}

// Version 2: tables without servers.
fn write_second_version(rt: &impl Print) -> io::Result<()> {
    write(
        rt,
        "percents of 80 and 100",
        &[2, 2, 0, 100, 80, 1, 90, 100, 0],
        10,
    )?;
    write(rt, "percent 90", &[2, 1, 0, 100, 90, 0], 6)?;
    write(
        rt,
        "percent of the second node missing",
        &[2, 2, 0, 100, 80, 1, 90],
        8,
    )
}

// Version 3: one server, with a share that is the scale, one above it, and that of version 2.
fn write_third_version(rt: &impl Print) -> io::Result<()> {
    write(
        rt,
        "share 10,000",
        &[3, 1, 0, 100, 80, 1, 1, 10, 10, 1, 1, 10000],
        14,
    )?;
    write(
        rt,
        "share 10,001",
        &[3, 1, 0, 100, 80, 1, 1, 10, 10, 1, 1, 10001],
        14,
    )?;
    write(
        rt,
        "share 1,000 in version 3",
        &[3, 1, 0, 100, 80, 1, 1, 10, 10, 1, 1, 1000],
        14,
    )
}

fn main(rt: HostRuntime) -> io::Result<()> {
    read_rooms(&rt)?;
    read_bad_numbers(&rt)?;
    read_bad_words(&rt)?;
    read_bad_tables(&rt)?;
    read_second_version(&rt)?;
    read_third_version(&rt)?;
    write_rooms(&rt)?;
    write_bad_tables(&rt)?;
    write_second_version(&rt)?;
    write_third_version(&rt)
}
