// The edges of the boxes, from 1 up to a ceiling.
ghost use Rattle.std.specs.Prelude.{◌≡◌, ℕ, ◌+◌, ◌<◌, ◌≤◌, true, if◌then◌else◌, Some, None, nat_le, slice_index};
ghost use Rattle.ratio.specs.Edges.{after, edge, EdgesEnclose};
ghost use Rattle.ratio.specs.Rule.{in_range, extent_of};

use crate::scaling::Scale;

// The most boxes that an objective may have.
pub(crate) const MOST: usize = 1024;

// Each figure from 1 on is at least the edge of its box and below the next, and that is so of no other box.
pub fn edges_enclose()
    ensures { EdgesEnclose }
{}

// The edge after this one: at least one more, and the per cent more where that is greater.
fn next_edge(per_cent: u32, from: u32) -> u32
    requires { (per_cent ≤ 100) × (from ≤ 1000000) }
    ensures { result ≡ after per_cent from }
{
    (from + 1).max(from * (100 + per_cent) / 100)
}

// Writes the edges that are at most the ceiling, and says how many there are; None where they are more than fit.
pub(crate) fn fill_edges(scale: Scale, edges: &mut [u32; MOST]) -> Option<u32>
    requires { in_range scale ≡ true }
    ensures count { result ≡ (if nat_le (extent_of scale) 1024 then Some (extent_of scale) else None) }
    ensures filled { (k : ℕ) → k < extent_of scale → k < 1024 → slice_index edges.new k ≡ edge scale.per_cent k }
{
    let mut edge = 1;
    for (count, place) in edges.iter_mut().enumerate() {
        if edge > scale.ceiling {
            return Some(count as u32);
        }
        *place = edge;
        edge = next_edge(scale.per_cent, edge);
    }
    (edge > scale.ceiling).then_some(MOST as u32)
}
