//! Roots that are held.
ghost use Rattle.std.specs.Prelude.{◌≡◌, true, false};
ghost use Rattle.h2_memory_sets.specs.Inodes.{with_held};

use crate::node::Node;

/// Holds a root.
pub(crate) fn hold_one(x: &mut Node)
    ensures { x.new ≡ with_held true x.old }
{
    x.held = true;
}

/// Lets go of a root.
pub(crate) fn release_one(x: &mut Node)
    ensures { x.new ≡ with_held false x.old }
{
    x.held = false;
}
