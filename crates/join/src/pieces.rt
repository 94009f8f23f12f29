// Pieces of a table, put one behind the other into a list of words, with the numbers of nodes in them moved up or down: for Join and Part,
// and private to these.
ghost use Rattle.std.specs.Prelude.{◌≡◌, ◌+◌, ◌-◌, ◌*◌, ◌^◌, ◌≤◌, ◌<◌, length, get_or};
ghost use Rattle.words.specs.Bytes.{words_of};
ghost use Rattle.figures.specs.Bounds.{AllBelow};
ghost use Rattle.rooms.specs.Table.{node_words, form_of};
ghost use Rattle.join.specs.Pieces.{renumbered, renumbered_every, renumbered_cords, piece, PiecePut, MayPut};

use rooms::form::has_percents;
use std::ops::Range;

// How numbers of nodes are moved: up by some, and down by others.
#[derive(Clone, Copy)]
pub struct Shift {
    pub up: u32,
    pub down: u32,
    ghost small: { up < 2 ^ 31 },
}

impl Shift {
    // The number of a node, moved; 0, which is no node, stays 0.
    fn renumbered(self, number: u32) -> u32
        requires fits { number < 2 ^ 31 }
        ensures is { result ≡ renumbered self.up self.down number }
    {
        if number == 0 {
            return 0;
        }
        (number + self.up).saturating_sub(self.down)
    }

    // Every word that is a multiple of `width` from the first is renumbered: the parents of nodes.
    fn renumber_every(self, words: &mut [u32], width: usize)
        requires fits { (1 ≤ width) × AllBelow (2 ^ 31) words.old }
        ensures is { words.new ≡ renumbered_every (width - 1) self.up self.down 0 words.old }
    {
        for i in (0..words.len()).step_by(width) {
            words[i] = self.renumbered(words[i]);
        }
    }

    // The nodes of cords are renumbered, in the words of servers with their cords.
    // By hand: how far a step goes stands in the words themselves, 4 or 2 of them, so that no range has these steps.
    fn renumber_cords(self, words: &mut [u32])
        requires fits { AllBelow (2 ^ 31) words.old }
        ensures is { words.new ≡ renumbered_cords self.up self.down 0 words.old }
    {
        let mut i = 0;
        let mut left = 0;
        while i < words.len() {
            if left == 0 {
                left = count_at(words, i);
                i += 4;
            } else {
                words[i] = self.renumbered(words[i]);
                i += 2;
                left -= 1;
            }
        }
    }
}

// How many words a node has in a version.
pub fn node_width(version: u32) -> usize
    ensures is { (result ≡ node_words (form_of version).percents) × (2 ≤ result) × (result ≤ 3) }
{
    if has_percents(version) { 3 } else { 2 }
}

// The count of cords of the server whose words start at i; 0 where they are not all there.
// By hand: the chips' build takes no `get`, whose pointer stands beside a number (chips/portable.awk).
pub fn count_at(words: &[u32], i: usize) -> usize
    requires there { i < length words.now }
    ensures is { result ≡ get_or words.now (i + 3) 0 }
{
    if words.len() - i < 4 {
        return 0;
    }
    words[i + 3] as usize
}

// The words of some bytes, from one index to another, at a place of the list; the place behind them.
pub fn put_words(bytes: &[u8], span: Range<usize>, words: &mut [u32], at: usize) -> usize
    requires may_put { MayPut bytes.now span.start span.end words.old at }
    ensures put { PiecePut words.old at (piece span.start span.end (words_of bytes.now)) words.new result }
{
    let end = at + (span.end - span.start);
    words::load(&bytes[4 * span.start..4 * span.end], &mut words[at..end]);
    end
}

// Likewise words of nodes, of `width` words each, with their parents renumbered.
// By hand: with `put_servers` as one function of a closure, each call would write out the line in which they differ.
pub fn put_nodes(
    bytes: &[u8],
    span: Range<usize>,
    width: usize,
    shift: Shift,
    words: &mut [u32],
    at: usize,
) -> usize
    requires may_put { MayPut bytes.now span.start span.end words.old at }
    requires fits { (1 ≤ width) × AllBelow (2 ^ 31) (words_of bytes.now) }
    ensures put { PiecePut words.old at
        (renumbered_every (width - 1) shift.up shift.down 0 (piece span.start span.end (words_of bytes.now))) words.new result }
{
    let end = put_words(bytes, span, words, at);
    shift.renumber_every(&mut words[at..end], width);
    end
}

// Likewise words of servers, with the nodes of their cords renumbered.
pub fn put_servers(
    bytes: &[u8],
    span: Range<usize>,
    shift: Shift,
    words: &mut [u32],
    at: usize,
) -> usize
    requires may_put { MayPut bytes.now span.start span.end words.old at }
    requires fits { AllBelow (2 ^ 31) (words_of bytes.now) }
    ensures put { PiecePut words.old at (renumbered_cords shift.up shift.down 0 (piece span.start span.end (words_of bytes.now)))
        words.new result }
{
    let end = put_words(bytes, span, words, at);
    shift.renumber_cords(&mut words[at..end]);
    end
}
