// Breaker schedules: a text of lines, each with the parent, the amperes and the volts of a breaker, turned into a room table.
#![tactic(auto)]

ghost use Rattle.std.specs.Prelude.{◌≡◌, ◌≤◌, length};
ghost use Rattle.outcomes.specs.Outcome.{after};
ghost use Rattle.schedules.specs.Schedule.{schedule_refusal_number, schedule_refusal_place};
ghost use Rattle.schedules.specs.Schedule.{most_schedule_words, scheduling, answer_of};
ghost use Rattle.schedules.specs.Call.{ScheduleCall};
ghost use Rattle.schedules.specs.Told.{InFront};

use calls::ANSWER_BYTES;
use outcomes::Refusal;

mod lines;
mod sizes;
mod text;

// What a line says.
#[derive(Clone, Copy)]
pub struct Entry {
    pub parent: u32,
    pub amperes: u32,
    pub volts: u32,
}

// Why a schedule is turned back, and where: a line by its place, counted from 0, or the length that the table needs.
#[derive(Clone, Copy, PartialEq, Eq)]
pub enum ScheduleRefusal {
    NotALine(usize),
    NotASize(usize),
    OutOfRange(usize),
    TableTooShort(usize),
}

impl Refusal for ScheduleRefusal {
    ghost number_of = { schedule_refusal_number };

    ghost place_of = { schedule_refusal_place };

    // The refusal's number.
    fn number(self) -> u64 {
        match self {
            ScheduleRefusal::NotALine(_) => 24,
            ScheduleRefusal::NotASize(_) => 25,
            ScheduleRefusal::OutOfRange(_) => 26,
            ScheduleRefusal::TableTooShort(_) => 12,
        }
    }

    // The refusal's place.
    fn place(self) -> u64 {
        match self {
            ScheduleRefusal::NotALine(place)
            | ScheduleRefusal::NotASize(place)
            | ScheduleRefusal::OutOfRange(place)
            | ScheduleRefusal::TableTooShort(place) => place as u64,
        }
    }
}

// The words of the longest table without servers.
const MOST_SCHEDULE_WORDS: usize = 1027;

// The table of a schedule, at the front of the list, and its count of words. Refused, it leaves the list unchanged.
pub fn schedule(text: &[u8], table: &mut [u32]) -> Result<usize, ScheduleRefusal>
    ensures answer { result ≡ answer_of (scheduling text.now (length table.old)) }
    ensures table { table.new ≡ after (λ words. words) (scheduling text.now (length table.old))
        table.old }
{
    let mut words = [0u32; MOST_SCHEDULE_WORDS];
    schedule_by(text, &mut words, table)
}

// The same, called from C: the table in bytes, and the answer in its buffer.
pub fn schedule_bytes(text: &[u8], table: &mut [u8], answer: &mut [u8]) -> u32
    ensures called { ScheduleCall text.now table.old answer.old result table.new answer.new }
{
    let mut words = [0u32; MOST_SCHEDULE_WORDS];
    schedule_bytes_by(text, &mut words, table, answer)
}

// A schedule by way of a list of its own, which takes the words until all is checked.
fn schedule_by(text: &[u8], words: &mut [u32], table: &mut [u32]) -> Result<usize, ScheduleRefusal>
    requires words_long { most_schedule_words ≤ length words.old }
    ensures answer { result ≡ answer_of (scheduling text.now (length table.old)) }
    ensures table { table.new ≡ after (λ words. words) (scheduling text.now (length table.old))
        table.old }
{
    let count = schedule_words(text, words, table.len())?;
    figures::copy(&words[..count], table);
    Ok(count)
}

// The C call by way of a list of words, of which those of an accepted table are stored.
fn schedule_bytes_by(text: &[u8], words: &mut [u32], table: &mut [u8], answer: &mut [u8]) -> u32
    requires words_long { most_schedule_words ≤ length words.old }
    ensures called { ScheduleCall text.now table.old answer.old result table.new answer.new }
{
    if answer.len() < ANSWER_BYTES {
        return 0;
    }
    let told = schedule_words(text, words, table.len() / 4);
    let count = told.unwrap_or(0);
    words::store(&words[..count], table);
    calls::tell(told, answer);
    1
}

// The answer on a text whose table is to go to a list of `space` words. An accepted table stands at the front of `words`.
fn schedule_words(text: &[u8], words: &mut [u32], space: usize) -> Result<usize, ScheduleRefusal>
    requires words_long { most_schedule_words ≤ length words.old }
    ensures answer { result ≡ answer_of (scheduling text.now space) }
    ensures words { InFront (scheduling text.now space) words.new }
{
    let count = lines::read_lines(text, words)?;
    if count == 0 {
        return Err(ScheduleRefusal::OutOfRange(0));
    }
    let servers = 2 + 2 * count;
    if space <= servers {
        return Err(ScheduleRefusal::TableTooShort(servers + 1));
    }
    words[0] = 1;
    words[1] = count as u32;
    words[servers] = 0;
    Ok(servers + 1)
}
