// `hutschedule`: reads a breaker schedule from standard input, and writes the sheet of its room to standard output.
#![tactic(auto)]

ghost use Rattle.std.specs.Prelude.{◌≡◌, ◌≤◌, length, take};
ghost use Rattle.io.specs.Counts.{IsPrefixLen};
ghost use Rattle.schedules.specs.Schedule.{most_schedule_words};
ghost use Rattle.hutschedule.specs.Printed.{most_output, printed, count_of, at, Lent};

use std::io;
use std::io::Write;

// What is written of a text, by way of a list for the words of any table without servers: so many bytes from the front of the buffer, to
// standard error if refused, else to standard output.
fn print_text(text: &[u8], table: &mut [u32], buffer: &mut [u8]) -> Result<usize, usize>
    requires sizes { (length table.old ≡ most_schedule_words) × (most_output ≤ length buffer.old) }
    ensures printed { at result buffer.new ≡ printed text.now }
    ensures counts { IsPrefixLen (count_of result) buffer.new }
{
    let count = match schedules::schedule(text, table) {
        Ok(count) => count,
        Err(refusal) => return Err(print::refused(refusal, buffer)),
    };
    // The table of a schedule is never refused (`ScheduleGivesRoom`).
    Ok(rooms::write(&table[..count], buffer).unwrap())
}

// What is written of the text that was read: so many bytes at its front.
// By hand: `main` has no contract to prove a cut of the text in, so that it hands on the count.
fn print_input(
    text: &[u8],
    count: usize,
    table: &mut [u32],
    buffer: &mut [u8],
) -> Result<usize, usize>
    requires lists { Lent text.now table.old buffer.old × IsPrefixLen count text.now }
    ensures printed { at result buffer.new ≡ printed (take count text.now) }
    ensures counts { IsPrefixLen (count_of result) buffer.new }
{
    print_text(&text[..count], table, buffer)
}

fn main(rt: HostRuntime) {
    let mut text = [0u8; 7710];
    let mut table = [0u32; 1027];
    let mut buffer = [0u8; 4108];
    let count = inputs::read_full(&mut rt.stdin(), &mut text);
    let written = match print_input(&text, count, &mut table, &mut buffer) {
        Ok(length) => rt.stdout().write_all(&buffer[..length]),
        Err(length) => rt.stderr().write_all(&buffer[..length]),
    };
    // The exit status is 0 also where nothing could be written.
    match written {
        Ok(()) | Err(_) => {}
    }
}
