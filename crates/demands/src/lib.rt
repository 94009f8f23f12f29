// Demands in decimal, one a line: a text, read in pieces of any size, turned into words.
#![tactic(auto)]

ghost use Rattle.std.specs.Prelude.{◌≡◌};
ghost use Prim.Native.Nat.{};
ghost use Rattle.demands.specs.Reading.{empty_line, extended, has_byte, line_demand, held_reading, with};
ghost use Rattle.demands.specs.Reading.{closed, fed_byte, fed, finished, held_count, is_full};

// One demand more than a room may have servers: so many decide every demand list, and no more lines are read.
pub const DECIDING_DEMANDS: usize = 513;

// A demand has at most so many digits.
const MOST_DIGITS: u32 = 8;

// What a line counts as that isn't one to eight digits.
const NO_DEMAND: u32 = 16_777_216;

// What a line has come to so far.
// By hand: an Option of digits could have no methods of its own, and `None` would not say that the line is no number.
#[derive(Clone, Copy)]
pub enum DemandLine {
    // Digits alone: how many, and their number.
    Digits(u32, u32),
    // Not one to eight digits, whatever may follow.
    Other,
}

// How many lines have ended, their demands being at the front of the list, and the line that is open.
#[derive(Clone, Copy)]
pub struct DemandReading {
    pub count: usize,
    pub line: DemandLine,
}

impl DemandLine {
    // The line with a byte more.
    fn extend(self, byte: u8) -> DemandLine
        ensures result { result ≡ extended self byte }
    {
        match self {
            DemandLine::Digits(count, number)
                if byte.is_ascii_digit() && count < MOST_DIGITS && number < 10_000_000 => {
                DemandLine::Digits(count + 1, number * 10 + u32::from(byte - b'0'))
            }
            _ => DemandLine::Other,
        }
    }

    // Whether the line has a byte.
    fn has_byte(self) -> bool
        ensures result { result ≡ has_byte self }
    {
        !matches!(self, DemandLine::Digits(0, _))
    }

    // The line's demand.
    fn demand(self) -> u32
        ensures result { result ≡ line_demand self }
    {
        match self {
            DemandLine::Digits(count, number) if 0 < count => number,
            _ => NO_DEMAND,
        }
    }
}

impl DemandReading {
    // A reading before the first byte.
    pub fn start() -> DemandReading
        ensures result { result ≡ with 0 empty_line }
    {
        DemandReading {
            count: 0,
            line: DemandLine::Digits(0, 0),
        }
    }

    // The reading after a piece of the text, whose lines that end go into the list.
    pub fn feed(self, piece: &[u8], list: &mut [u32]) -> DemandReading
        ensures fed { held_reading result list.new ≡ fed (held_reading self list.old) piece.now }
    {
        let mut reading = self;
        for byte in piece {
            reading = reading.feed_byte(*byte, list);
        }
        reading
    }

    // The end of the text: how many demands stand at the front of the list.
    pub fn finish(self, list: &mut [u32]) -> usize
        ensures list { list.new ≡ (finished (held_reading self list.old)).list }
        ensures count { result ≡ held_count (finished (held_reading self list.old)) }
    {
        let last = if self.line.has_byte() {
            self.close(list)
        } else {
            self
        };
        last.count.min(list.len())
    }

    // Whether 513 lines are read, so that no further byte makes a difference.
    pub fn is_full(self) -> bool
        ensures result { result ≡ is_full self }
    {
        DECIDING_DEMANDS <= self.count
    }

    // The reading after a byte.
    fn feed_byte(self, byte: u8, list: &mut [u32]) -> DemandReading
        ensures fed { held_reading result list.new ≡ fed_byte (held_reading self list.old) byte }
    {
        if byte == b'\n' {
            return self.close(list);
        }
        DemandReading {
            count: self.count,
            line: self.line.extend(byte),
        }
    }

    // The reading after the open line's end.
    fn close(self, list: &mut [u32]) -> DemandReading
        ensures closed { held_reading result list.new ≡ closed (held_reading self list.old) }
    {
        let mut count = self.count;
        if count < DECIDING_DEMANDS.min(list.len()) {
            list[count] = self.line.demand();
            count += 1;
        }
        DemandReading {
            count,
            line: DemandLine::Digits(0, 0),
        }
    }
}
