// Caps over a slow bus: which servers the messages of a period go to, and where the next period begins.
#![tactic(auto)]

ghost use Rattle.std.specs.Prelude.{◌≡◌, not, [], ◌∷◌, ◌≤◌, ◌<◌, length};
ghost use Rattle.outcomes.specs.Outcome.{after};
ghost use Rattle.sender.specs.Period.{following, servers_from, position_after};
ghost use Rattle.sender.specs.Outcome.{most_servers, in_range, sending, answer_of, send_refusal_number, send_refusal_place};
ghost use Rattle.sender.specs.Call.{SendCall};

use calls::{Figures, LONG_ANSWER_BYTES};
use outcomes::Refusal;

// A room has at most so many servers.
const MOST_SERVERS: u64 = 512;

// Why a period is turned back: m is 0; the position or the count is out of range; or the list is too short for as many servers as would
// be named.
#[derive(Clone, Copy, PartialEq, Eq)]
pub enum SendRefusal {
    NoMessages,
    PositionOutOfRange,
    ListTooShort(u64),
}

// A period that is sent: how many servers were named, and the new position.
#[derive(Clone, Copy, PartialEq, Eq)]
pub struct Sent {
    pub named: u64,
    pub next: u64,
}

impl Figures<2> for Sent {
    ghost figures_of = { λ sent. sent.named ∷ sent.next ∷ [] };

    fn figures(self) -> [u64; 2] {
        [self.named, self.next]
    }
}

impl Refusal for SendRefusal {
    ghost number_of = { send_refusal_number };

    ghost place_of = { send_refusal_place };

    // The refusal's number.
    fn number(self) -> u64 {
        match self {
            SendRefusal::NoMessages => 27,
            SendRefusal::PositionOutOfRange => 28,
            SendRefusal::ListTooShort(_) => 12,
        }
    }

    // The refusal's place.
    fn place(self) -> u64 {
        match self {
            SendRefusal::NoMessages => 0,
            SendRefusal::PositionOutOfRange => 1,
            SendRefusal::ListTooShort(needed) => needed,
        }
    }
}

// Send: the next m of `count` servers, from the position on, at the front of the list, none of them twice. Refused, it leaves the list
// unchanged.
pub fn send(count: u64, position: u64, m: u64, list: &mut [u32]) -> Result<Sent, SendRefusal>
    ensures answer { result ≡ answer_of (sending count position m (length list.old)) }
    ensures list { list.new ≡ after (λ p. p.named) (sending count position m (length list.old)) list.old }
{
    let sent = answer_for(count, position, m, list.len())?;
    name_servers(count, position, &mut list[..sent.named as usize]);
    Ok(sent)
}

// Send, called from C: the list in bytes, and the answer in a buffer of its own. Returns 1; or 0 where that buffer is too short.
pub fn send_bytes(count: u64, position: u64, m: u64, list: &mut [u8], answer: &mut [u8]) -> u32
    ensures called { SendCall count position m list.old answer.old result list.new answer.new }
{
    let mut servers = [0u32; 512];
    send_by(count, position, m, &mut servers, list, answer)
}

// Send by way of a list of words, of which those named are stored.
fn send_by(
    count: u64,
    position: u64,
    m: u64,
    servers: &mut [u32],
    list: &mut [u8],
    answer: &mut [u8],
) -> u32
    requires servers_long { most_servers ≤ length servers.old }
    ensures called { SendCall count position m list.old answer.old result list.new answer.new }
{
    if answer.len() < LONG_ANSWER_BYTES {
        return 0;
    }
    let sent = answer_for(count, position, m, list.len() / 4);
    calls::tell(sent, answer);
    if let Ok(period) = sent {
        let named = period.named as usize;
        name_servers(count, position, &mut servers[..named]);
        words::store(&servers[..named], list);
    }
    1
}

// The answer on a list of so many words.
fn answer_for(count: u64, position: u64, m: u64, space: usize) -> Result<Sent, SendRefusal>
    ensures answer { result ≡ answer_of (sending count position m space) }
{
    let outside = out_of_range(count, position);
    if m == 0 {
        return Err(SendRefusal::NoMessages);
    }
    if outside {
        return Err(SendRefusal::PositionOutOfRange);
    }
    let named = m.min(count);
    if (space as u64) < named {
        return Err(SendRefusal::ListTooShort(named));
    }
    Ok(Sent {
        named,
        next: position_after(count, position, named),
    })
}

// Whether no server has the position, or there are more servers than a room has. With a count of 0 no server has any position.
fn out_of_range(count: u64, position: u64) -> bool
    ensures result { result ≡ not (in_range count position) }
{
    count <= position || MOST_SERVERS < count
}

// The position after so many servers, no more than there are.
fn position_after(count: u64, position: u64, named: u64) -> u64
    requires position_bounded { position < count }
    requires named_bounded { named ≤ count }
    ensures result { result ≡ position_after count position named }
{
    // So many servers are left up to the last; then the first follows.
    let left = count - position;
    if named < left {
        position + named
    } else {
        named - left
    }
}

// Fills the list with servers, from the position on.
fn name_servers(count: u64, position: u64, list: &mut [u32])
    requires position_bounded { position < count }
    requires count_bounded { count ≤ most_servers }
    ensures list { list.new ≡ servers_from count position (length list.old) }
{
    let mut server = position;
    for entry in list.iter_mut() {
        *entry = server as u32;
        server = follow(count, server);
    }
}

// The server that follows one.
fn follow(count: u64, server: u64) -> u64
    requires server_bounded { server < count }
    ensures result { (result ≡ following count server) × (result < count) }
{
    if server + 1 < count { server + 1 } else { 0 }
}
