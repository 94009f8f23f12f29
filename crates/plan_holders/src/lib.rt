// The nodes that hold cords down, named from the marks of the nodes' cuts.
// Private to Plan: no operation stands here.
#![tactic(auto)]

ghost use Rattle.std.specs.Prelude.{◌≡◌, cond, suc, eqb, leb, length};
ghost use Rattle.figures.specs.Places.{ZeroRows};
ghost use Rattle.figures.specs.Sums.{on};
ghost use Rattle.rooms.specs.Table.{most_nodes, highest_rank};
ghost use Rattle.plan_holders.specs.Holding.{HeldLists, CutNodes, HolderRows, next_row, held_from};

use rooms::lists::CordRow;

// A node's number if it is cut at a rank or a higher one, else 0. `cut` is the highest rank at which it is.
fn own(rank: u16, cut: u16, number: u16) -> u16
    ensures result { result ≡ on (leb rank cut) number }
{
    if rank <= cut { number } else { 0 }
}

// The number from above, nearer the root, unless none is named there.
fn nearer_root(above: u16, own: u16) -> u16
    ensures result { result ≡ cond (eqb above 0) own above }
{
    if above == 0 { own } else { above }
}

// A node's row, from that of its parent.
fn next_row(above: [u16; 16], cut: u16, number: u16) -> [u16; 16]
    ensures result { result ≡ next_row above cut number }
{
    let mut row = above;
    for (level, holder) in row.iter_mut().enumerate() {
        *holder = nearer_root(*holder, own(level as u16 + 1, cut, number));
    }
    row
}

// The row of each node, by its number, from the first node to the last: a parent's stands before its child's. Row 0, which stands for a
// root's parent, names none; all rows come as zeros.
// By hand: 0 for none in the rows, as in the held list that C is given; a list of `Option<u16>` would take twice the 16 KiB of stack.
fn fill_rows(parents: &[u16], cuts: &[u16], rows: &mut [[u16; 16]; 513])
    requires nodes { CutNodes parents.now cuts.now × ZeroRows (suc most_nodes) highest_rank rows.old }
    ensures holders { HolderRows parents.now cuts.now rows.new }
{
    for (n, &parent) in parents.iter().enumerate() {
        let above = rows[usize::from(parent)];
        rows[n + 1] = next_row(above, cuts[n], n as u16 + 1);
    }
}

// 0 if a cord's grant is its want, else the node that holds it.
fn held_by(grant: u32, want: u32, holder: u16) -> u32
    ensures result { result ≡ cond (eqb grant want) 0 holder }
{
    if grant == want { 0 } else { u32::from(holder) }
}

// For each cord 0 if its grant is its want, else the number of the node that holds it. `cuts` have the highest rank at which each node is
// cut.
pub fn name_holders(
    parents: &[u16],
    cuts: &[u16],
    cords: &[CordRow],
    wants: &[u32],
    grants: &[u32],
    held: &mut [u32],
)
    requires lists { HeldLists parents.now cuts.now cords.now wants.now grants.now × (length held.old ≡ length cords.now) }
    ensures named { held.new ≡ held_from parents.now cuts.now cords.now wants.now
        grants.now }
{
    let mut rows = [[0u16; 16]; 513];
    fill_rows(parents, cuts, &mut rows);
    for (c, cord) in cords.iter().enumerate() {
        let node = usize::from(cord.node);
        let level = usize::from(cord.level);
        held[c] = held_by(grants[c], wants[c], rows[node][level]);
    }
}
