// The lines of a schedule, judged one by one: refusals 24 to 26.
ghost use Rattle.std.specs.Prelude.{◌≡◌, ◌≤◌, length, IfOk};
ghost use Rattle.rooms.specs.Table.{most_nodes};
ghost use Rattle.std.proofs.lemmas.List.Edits.{sets};
ghost use Rattle.schedules.specs.Text.{line};
ghost use Rattle.schedules.specs.Schedule.{in_range, judged, lines_of, most_schedule_words};
ghost use Rattle.schedules.specs.Nodes.{entry_words};
ghost use Rattle.schedules.specs.Told.{told_judgement, told_lines};

use crate::sizes::is_size;
use crate::text::read_line;
use crate::{Entry, ScheduleRefusal};
use rooms::MOST_NODES;

const LEAST_VOLTS: u32 = 100;

const MOST_VOLTS: u32 = 480;

// Whether volts and parent of the line at a place are in range, and the line is no 513th.
fn in_range(entry: Entry, place: usize) -> bool
    ensures result { result ≡ in_range place entry }
{
    let parent = entry.parent as usize;
    (LEAST_VOLTS..=MOST_VOLTS).contains(&entry.volts) && parent <= place && place < MOST_NODES
}

// The entry of the line that starts at `at`, judged as the one at a place, and the place after the line.
fn judge_line(text: &[u8], at: usize, place: usize) -> Result<(Entry, usize), ScheduleRefusal>
    ensures result { result ≡ told_judgement (judged place (line text.now at)) }
{
    let (entry, next) = read_line(text, at).ok_or(ScheduleRefusal::NotALine(place))?;
    if !is_size(entry.amperes) {
        return Err(ScheduleRefusal::NotASize(place));
    }
    if !in_range(entry, place) {
        return Err(ScheduleRefusal::OutOfRange(place));
    }
    Ok((entry, next))
}

// Judges all lines, and gives their count. The words of their nodes go to the list from index 2 on.
pub fn read_lines(text: &[u8], words: &mut [u32]) -> Result<usize, ScheduleRefusal>
    requires words_long { most_schedule_words ≤ length words.old }
    ensures result { result ≡ told_lines (lines_of text.now) }
    ensures few { IfOk result (λ count. count ≤ most_nodes) }
    ensures words { words.new ≡ sets words.old 2 (entry_words (lines_of text.now).entries) }
{
    let mut at = 0;
    let mut count = 0;
    // By hand: how far a turn goes is what the line takes, which the text itself says.
    while at < text.len() {
        let (entry, next) = judge_line(text, at, count)?;
        let index = 2 + 2 * count;
        words[index] = entry.parent;
        words[index + 1] = entry.amperes * entry.volts;
        count += 1;
        at = next;
    }
    Ok(count)
}
