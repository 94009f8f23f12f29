// The form of a table's words: what its version says, and where a node stands in it.
ghost use Rattle.std.specs.Prelude.{◌≡◌, ◌+◌, ◌^◌, ◌<◌, ◌≤◌, length};
ghost use Rattle.rooms.specs.Table.{form_of, node_words};
ghost use Rattle.rooms.specs.Limits.{limit};
ghost use Rattle.rooms.specs.Credits.{node_from, node_index};

use crate::limits::limit_of;

const USUAL_PERCENT: u32 = 80;

// Whether a version's nodes have a word for their percent.
pub fn has_percents(version: u32) -> bool
    ensures result { result ≡ (form_of version).percents }
{
    1 < version
}

// A version's scale.
pub fn scale_of(version: u32) -> u32
    ensures result { result ≡ (form_of version).scale }
{
    if 2 < version { 10000 } else { 1000 }
}

// The index of the node at a place, or of what follows the last node.
// By hand: whether nodes have percents is a parameter of the definitions themselves (`node_index`, `node`, `nodes`).
pub fn node_index(percents: bool, place: usize) -> usize
    requires place { place < 2 ^ 32 }
    ensures result { result ≡ node_index percents place }
{
    if percents {
        2 + 3 * place
    } else {
        2 + 2 * place
    }
}

// The limit of the node whose words start at i.
pub fn limit_at(w: &[u32], i: usize, percents: bool) -> u32
    requires there { (i + node_words percents ≤ length w.now) × ((node_from percents w.now i).percent ≤ 100) }
    ensures result { result ≡ limit (node_from percents w.now i) }
{
    if percents {
        limit_of(w[i + 1], w[i + 2])
    } else {
        limit_of(w[i + 1], USUAL_PERCENT)
    }
}
