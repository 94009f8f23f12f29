// The split of an amount among children by their weights, child by child. Every split goes by these functions: in numbers of 32
// bits where the amount and the total weight are small, and of 64 else. Where no child has weight, none gets anything. Private to
// Plan: no operation stands here.
#![tactic(auto)]

ghost use Rattle.std.specs.Prelude.{◌≡◌, ◌&&◌, ◌*◌, ◌/◌, ◌^◌, ◌≤◌, ◌<◌, eqb};
ghost use Rattle.splits.specs.Ways.{quotient_in};
ghost use Rattle.splits.specs.Serving.{MayServe, HasServed};

// An amount and a total weight below this have a product below 2^32.
const SHORT: u64 = 65_536;

// The short way, which has no number of 64 bits: floor(amount × upto / whole). The amount may be above the whole. Where the whole
// is 0, so is the running sum: 0 is divided by 1.
fn short_quotient(amount: u32, upto: u32, whole: u32) -> u32
    requires short { (amount < 65536) × (whole < 65536) × (upto ≤ whole) }
    ensures result { result ≡ quotient_in 32 amount upto whole }
{
    amount * upto / whole.max(1)
}

// The long way: the same wherever the product fits in 64 bits.
// By hand: as one generic function with the short way it would not say of either how wide its numbers are, which is what tells them apart.
fn long_quotient(amount: u32, upto: u64, whole: u64) -> u32
    requires in_range { (upto ≤ whole) × (amount * whole < 2 ^ 64) }
    ensures result { result ≡ quotient_in 64 amount upto whole }
{
    (u64::from(amount) * upto / whole.max(1)) as u32
}

// What the children up to a running sum of the weights get together: floor(amount × upto / whole), the short way where it serves.
// Amount and whole are both small if the greater is: one test.
pub fn quotient(amount: u32, upto: u64, whole: u64) -> u32
    requires in_range { (upto ≤ whole) × (amount * whole < 2 ^ 64) }
    ensures result { result ≡ amount * upto / whole }
{
    if u64::from(amount).max(whole) < SHORT {
        return short_quotient(amount, upto as u32, whole as u32);
    }
    long_quotient(amount, upto, whole)
}

// The part of the next child of the node at place p, by its weight. The weights served and the watts dealt there grow by it.
// Always by a division, for children of which few have all the weight.
pub fn serve_by_division(
    amount: u32,
    whole: u64,
    weight: u64,
    p: usize,
    before: &mut [u64],
    dealt: &mut [u32],
) -> u32
    requires may_serve { MayServe amount whole weight p before.old dealt.old }
    ensures served { HasServed amount whole weight p before.old dealt.old result before.new dealt.new }
{
    let upto = before[p] + weight;
    let watts = quotient(amount, upto, whole);
    let given = watts - dealt[p];
    before[p] = upto;
    dealt[p] = watts;
    given
}

// What a child with all the weight gets: all, and nothing where the weights sum to 0.
fn all_of(amount: u32, whole: u64) -> u32
    ensures result { result ≡ amount * whole / whole }
{
    if whole == 0 { 0 } else { amount }
}

// Whether a child is seen to have all the weight. That is looked at where children are mostly alone; elsewhere the processor
// would predict it badly, and a division costs less.
// By hand: `alone` is a hint that the tree's walk has, a node behind its parent; the watts are the same with either (`HasServed`).
fn has_all(alone: bool, weight: u64, whole: u64) -> bool
    ensures result { result ≡ alone && eqb weight whole }
{
    alone && weight == whole
}

// The same part. Where children are mostly alone, one with all the weight takes all without a division.
// By hand: a struct of the node's two lists would be made anew for each child.
pub fn serve(
    alone: bool,
    amount: u32,
    whole: u64,
    weight: u64,
    p: usize,
    before: &mut [u64],
    dealt: &mut [u32],
) -> u32
    requires may_serve { MayServe amount whole weight p before.old dealt.old }
    ensures served { HasServed amount whole weight p before.old dealt.old result before.new dealt.new }
{
    if has_all(alone, weight, whole) {
        let all = all_of(amount, whole);
        before[p] = weight;
        dealt[p] = all;
        return all;
    }
    serve_by_division(amount, whole, weight, p, before, dealt)
}
