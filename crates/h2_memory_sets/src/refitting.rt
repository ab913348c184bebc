//! Sets of nodes, which are those of their inodes too.
ghost use Rattle.std.specs.Prelude.{◌≡◌};
ghost use Rattle.h2_memory_sets.specs.Owners.{refit_body, refit};
ghost use Rattle.h2_memory_sets.specs.View.{with_set};

use crate::node::Node;
use h2_inode::{Body, Inode};
use h2_set::Set;

// Gives a body a set, where it has one.
fn refit_body(body: &mut Body, set: &Set)
    ensures { body.new ≡ refit_body body.old set.now }
{
    if let Body::Refs(own) = body {
        *own = set.copy();
    }
}

// Gives an inode a set, where there is one.
fn refit(inode: &mut Option<Inode>, set: &Set)
    ensures { inode.new ≡ refit inode.old set.now }
{
    if let Some(i) = inode {
        refit_body(&mut i.body, set);
    }
}

/// Gives a node another set.
pub(crate) fn give_set(x: &mut Node, set: Set)
    ensures { x.new ≡ with_set x.old set }
{
    refit(&mut x.inode, &set);
    x.set = set;
}
