// `hutplan`: reads a room from the file `room.bin` and its servers' demands from standard input, plans, and prints.
#![tactic(auto)]

ghost use Rattle.std.specs.Prelude.{◌≡◌, ◌≤◌, length, take};
ghost use Rattle.io.specs.Counts.{IsPrefixLen};
ghost use Rattle.deals.specs.Plan.{lists, lent, most_lent};
ghost use Rattle.demands.specs.Text.{most_lines};
ghost use Rattle.print.specs.Line.{Put};
ghost use Rattle.rooms.specs.Table.{most_words};
ghost use Rattle.hutplan.specs.Input.{most_bytes, ReadText};
ghost use Rattle.hutplan.specs.Printed.{most_text, table_text, sheet_text, input_text, Lent};

use demands::{DECIDING_DEMANDS, DemandReading};
use print::Lists;
use rooms::MOST_WORDS;
use std::io::{Read, Write};
use std::rt::Files;
use std::{fs, io};

// The most bytes of a print: 27 of the first line, 26 of each server's and 69 of each cord's.
const MOST_TEXT: usize = 83_995;

// The file's bytes, at most 32,768, at the front of the buffer; how many. A missing file is empty.
fn read_sheet<R: Files>(rt: &R, sheet: &mut [u8]) -> usize
    requires size { length sheet.old ≡ most_bytes }
    ensures counts { IsPrefixLen result sheet.new }
{
    let Ok(mut file) = fs::open(rt, "room.bin") else {
        return 0;
    };
    inputs::read_full(&mut file, sheet)
}

// The demands of standard input, at the front of the list; how many.
fn read_demands<R: Read>(input: &mut R, list: &mut [u32]) -> usize
    requires size { length list.old ≡ most_lines }
    ensures text { ReadText list.new result }
    ensures counts { IsPrefixLen result list.new }
{
    let mut reading = DemandReading::start();
    let mut piece = [0u8; 4096];
    // By hand: a loop has to end, and nothing says that the input does: no run uses up so many turns.
    for _ in 0..u64::MAX {
        // A read that fails is the end of the input.
        let count = input.read(&mut piece).unwrap_or(0);
        reading = reading.feed(&piece[..count], list);
        // No more is asked for once the last line that counts is read.
        if count == 0 || reading.is_full() {
            break;
        }
    }
    reading.finish(list)
}

// The print of a table with demands, by way of lists for the plan of any room.
// By hand: `plans::plan` writes these lists; `print::Lists` has them only to be read.
fn print_table(
    table: &[u32],
    demands: &[u32],
    grants: &mut [u32],
    caps: &mut [u32],
    headroom: &mut [u32],
    held: &mut [u32],
    buffer: &mut [u8],
) -> usize
    requires sizes { lent (lists grants.old caps.old headroom.old held.old) ≡ most_lent }
    ensures put { Put buffer.old 0 buffer.new result
        (table_text table.now demands.now) }
    ensures counts { IsPrefixLen result buffer.new }
{
    match plans::plan(table, demands, grants, caps, headroom, held) {
        Ok(freed) => {
            let lists = Lists {
                caps,
                grants,
                headroom,
                held,
            };
            print::plan(freed, table, lists, buffer)
        }
        Err(refusal) => print::refused(refusal, buffer),
    }
}

// The print of a sheet with demands, whole, by way of a list for the words of any table.
fn print_sheet(sheet: &[u8], demands: &[u32], table: &mut [u32], buffer: &mut [u8]) -> usize
    requires sizes { (length table.old ≡ most_words) × (most_text ≤ length buffer.old) }
    ensures printed { take result buffer.new ≡ sheet_text sheet.now demands.now }
    ensures counts { IsPrefixLen result buffer.new }
{
    let count = match rooms::read(sheet, table) {
        Ok(count) => count,
        Err(refusal) => return print::refused(refusal, buffer),
    };
    let mut grants = [0u32; 1024];
    let mut caps = [0u32; 512];
    let mut headroom = [0u32; 1024];
    let mut held = [0u32; 1024];
    print_table(
        &table[..count],
        demands,
        &mut grants,
        &mut caps,
        &mut headroom,
        &mut held,
        buffer,
    )
}

// The print of what was read: so many bytes at the front of the sheet, and so many demands at the front of their list.
// By hand: `main` has no contract to prove a cut of the lists in, so that it hands on the counts.
fn print_input(
    sheet: &[u8],
    bytes: usize,
    demands: &[u32],
    count: usize,
    table: &mut [u32],
    buffer: &mut [u8],
) -> usize
    requires lists { Lent sheet.now demands.now table.old buffer.old }
    requires counted { IsPrefixLen bytes sheet.now × IsPrefixLen count demands.now }
    ensures printed { take result buffer.new ≡ input_text sheet.now bytes demands.now count }
    ensures counts { IsPrefixLen result buffer.new }
{
    print_sheet(&sheet[..bytes], &demands[..count], table, buffer)
}

fn main(rt: HostRuntime) {
    let mut sheet = [0u8; 32768];
    let mut demands = [0u32; DECIDING_DEMANDS];
    let mut table = [0u32; MOST_WORDS];
    let mut buffer = [0u8; MOST_TEXT];
    let bytes = read_sheet(&rt, &mut sheet);
    let count = read_demands(&mut rt.stdin(), &mut demands);
    let length = print_input(&sheet, bytes, &demands, count, &mut table, &mut buffer);
    // The exit status is 0 also where the print could not be written.
    match rt.stdout().write_all(&buffer[..length]) {
        Ok(()) | Err(_) => {}
    }
}
