ghost use Rattle.std.specs.Prelude.{◌≡◌, length};
ghost use Rattle.h2_memory_sets.specs.View.{moved, moved_up, moved_all};
ghost use Rattle.h2_set.specs.Ranges.{holds};

use crate::node::Node;
use h2_ref::Ref;
use h2_set::holds;

// What is above a node at this key, once node `c` has what lay in the range of `r` below node `at`.
fn moved_up(up: Option<u32>, low: u64, at: u32, c: u32, r: &Ref) -> Option<u32>
    ensures { result ≡ moved_up at c r.now low up }
{
    let u = up?;
    if u == c {
        return None;
    }
    if u != at {
        return Some(u);
    }
    if holds(r, low) {
        return Some(c);
    }
    Some(u)
}

// Lets node `c` have a node, where it lies in the range of `r` below node `at`.
fn move_one(x: &mut Node, at: u32, c: u32, r: &Ref)
    ensures { x.new ≡ moved at c r.now x.old }
{
    x.up = moved_up(x.up, x.low, at, c, r);
}

/// Lets node `c` have what lies in the range of `r` below node `at`.
pub(crate) fn move_below(nodes: &mut [Node], at: u32, c: u32, r: &Ref)
    ensures { nodes.new ≡ moved_all at c r.now nodes.old }
{
    for i in 0..nodes.len() {
        move_one(&mut nodes[i], at, c, r);
    }
}
