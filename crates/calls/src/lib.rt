// The answer of a C call: numbers of eight bytes each, low byte first, at the front of its buffer.
#![tactic(auto)]

ghost use Rattle.std.specs.Prelude.{◌≡◌, List, [], ◌∷◌, ℕ, ◌+◌, ◌*◌, ◌<◌, ◌≤◌, length};
ghost use Rattle.std.specs.Bool.{OnTrue, OnFalse};
ghost use Rattle.std.proofs.lemmas.List.Edits.{sets};
ghost use Rattle.calls.specs.Call.{answer_bytes, answered, told_numbers};

use outcomes::Refusal;

// The bytes of an answer of two numbers, and of one of three.
pub const ANSWER_BYTES: usize = 16;

pub const LONG_ANSWER_BYTES: usize = 24;

// What an answer tells of a result: so many figures.
pub trait Figures<const N: usize>: Copy {
    ghost figures_of: { Self → List ℕ };

    fn figures(self) -> [u64; N]
        ensures result { result ≡ figures_of self };
}

impl Figures<1> for u64 {
    ghost figures_of = { λ figure. figure ∷ [] };

    fn figures(self) -> [u64; 1] {
        [self]
    }
}

impl Figures<1> for usize {
    ghost figures_of = { λ count. count ∷ [] };

    fn figures(self) -> [u64; 1] {
        [self as u64]
    }
}

impl<const N: usize> Figures<N> for [u64; N] {
    ghost figures_of = { λ figures. figures };

    fn figures(self) -> [u64; N] {
        self
    }
}

// An answer of up to N + 1 numbers: 0 and the figures of a result, or a refusal's number and place. A buffer that is too short for so many
// is left alone.
pub fn tell<const N: usize, A: Figures<N>, R: Refusal>(answer: Result<A, R>, buffer: &mut [u8])
    requires figures { 1 ≤ N }
    ensures told { buffer.new ≡ answered (N + 1) (told_numbers A.figures_of R.number_of R.place_of answer) buffer.old }
{
    match answer {
        Ok(result) => tell_figures(result, buffer),
        Err(refusal) => {
            if holds::<N>(buffer) {
                store(&[refusal.number(), refusal.place()], buffer, 0);
            }
        }
    }
}

// The answer of a call that is never turned back.
pub fn tell_figures<const N: usize, A: Figures<N>>(told: A, buffer: &mut [u8])
    ensures told { buffer.new ≡ answered (N + 1) (0 ∷ A.figures_of told) buffer.old }
{
    if !holds::<N>(buffer) {
        return;
    }
    store(&[0], buffer, 0);
    store(&told.figures(), buffer, 8);
}

// Whether a buffer has space for an answer of up to N + 1 numbers: by the named sizes where there is one, as the C calls test it.
fn holds<const N: usize>(buffer: &[u8]) -> bool
    ensures long { OnTrue result (8 * (N + 1) ≤ length buffer.now) }
    ensures short { OnFalse result (length buffer.now < 8 * (N + 1)) }
{
    match N {
        1 => ANSWER_BYTES <= buffer.len(),
        2 => LONG_ANSWER_BYTES <= buffer.len(),
        _ => N < buffer.len() / 8,
    }
}

// Numbers, one after the other, from a place of a buffer that has space for them.
fn store(numbers: &[u64], buffer: &mut [u8], at: usize)
    requires space { at + 8 * length numbers.now ≤ length buffer.old }
    ensures stored { buffer.new ≡ sets buffer.old at (answer_bytes numbers.now) }
{
    for (i, number) in numbers.iter().enumerate() {
        words::store_number(*number, buffer, at + 8 * i);
    }
}
