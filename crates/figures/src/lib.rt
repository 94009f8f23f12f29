// What is done with lists of numbers, whatever they mean.
#![tactic(auto)]

ghost use Rattle.std.specs.Prelude.{◌≡◌, ◌+◌, ◌-◌, ◌^◌, ◌≤◌, ◌<◌, length, get_or, MatchOption};
ghost use Rattle.std.proofs.lemmas.List.Edits.{sets};
ghost use Rattle.figures.specs.Bounds.{first_not_below};
ghost use Rattle.figures.specs.Credits.{credited};

// The words of `from` at the front of `to`, as many as fit.
// By hand: the chips' build takes no `copy_from_slice`, which makes numbers of pointers (chips/portable.awk).
pub fn copy(from: &[u32], to: &mut [u32])
    ensures copied { to.new ≡ sets to.old 0 from.now }
{
    let count = from.len().min(to.len());
    for (i, word) in from[..count].iter().enumerate() {
        to[i] = *word;
    }
}

// The index of the first word that is not below a bound.
// By hand: the chips' build takes no `position`, whose iterator holds pointers in pairs (chips/portable.awk).
pub fn first_not_below(bound: u32, list: &[u32]) -> Option<usize>
    ensures found { MatchOption result (length list.now ≤ first_not_below bound list.now)
        (λ i. (i ≡ first_not_below bound list.now) × (i < length list.now)) }
{
    for (i, word) in list.iter().enumerate() {
        if bound <= *word {
            return Some(i);
        }
    }
    None
}

// A figure added to the one that stands on a node, by the node's number; 0 is no node.
// By hand: 0 is no node in the table itself, and in `credited`.
pub fn credit(sums: &mut [u64], node: usize, figure: u64)
    requires node { node ≤ length sums.old }
    requires no_overflow { get_or sums.old (node - 1) 0 + figure < 2 ^ 64 }
    ensures credited { sums.new ≡ credited node figure sums.old }
{
    if node == 0 {
        return;
    }
    let place = node - 1;
    let sum = sums[place];
    sums[place] = sum + figure;
}
