// What the programs read.
#![tactic(auto)]

ghost use Rattle.io.specs.Counts.{IsPrefixLen};

use std::io::Read;

// Reads until the buffer is full, the input ends or a read fails; how many bytes that put at its front.
pub fn read_full<R: Read>(input: &mut R, buffer: &mut [u8]) -> usize
    ensures counts { IsPrefixLen result buffer.new }
{
    let mut done = 0;
    // By hand: std's `read_exact` tells nothing of what a read that fails had put there, and `read_to_end` wants memory of its own.
    while done < buffer.len() {
        match input.read(&mut buffer[done..]) {
            Ok(0) | Err(_) => break,
            Ok(count) => done += count,
        }
    }
    done
}
