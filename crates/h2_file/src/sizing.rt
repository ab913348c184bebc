ghost use Rattle.std.specs.Prelude.{◌≡◌, true};
ghost use Rattle.h2_set.specs.Forest.{IsSound};
ghost use Rattle.h2_set.specs.Calls.{MeetsNone};
ghost use Rattle.h2_inode.specs.Nodes.{held_by, KeepsOthersBeside};
ghost use Rattle.h2_file.specs.Blocks.{IsFileOfRefs};
ghost use Rattle.h2_file.specs.Sizing.{IsResized, HasResized, Sizes};

use h2_inode::{Body, Inode, Nodes, PfsName};
use h2_set::{NodeId, Set};

// An equal name.
fn copy_of(name: &PfsName) -> PfsName
    ensures { result ≡ name.now }
{
    match PfsName::from_slice(name.as_slice()) {
        Some(copy) => copy,
        None => unreachable!(),
    }
}

/// The inode with this size, in bytes, and these references as its body. All else of it is as it was.
pub(crate) fn resized(inode: &Inode, set: Set, size: u64) -> Inode
    ensures { IsResized inode.now result size set }
{
    Inode {
        kind: inode.kind,
        number: inode.number,
        size,
        links: inode.links,
        next: inode.next,
        name: copy_of(&inode.name),
        body: Body::Refs(set),
    }
}

/// Gives a file another size. Its body is references, and its root is writable.
pub(crate) fn set_size<N: Nodes>(n: &mut N, at: NodeId, size: u64)
    requires sound { IsSound (N.forest n.old) }
    requires file { IsFileOfRefs (N.forest n.old) (held_by N.fields (N.beside n.old)) at.0 }
    requires writable { let f = N.forest n.old in f.writable at.0 ≡ true }
    ensures sizes { Sizes (N.forest n.old) (N.forest n.new) at.0 }
    ensures none_met { MeetsNone (N.forest n.old) (N.forest n.new) }
    ensures inode { (file : IsFileOfRefs (N.forest n.old) (held_by N.fields (N.beside n.old)) at.0) → HasResized (N.forest n.new) (held_by N.fields (N.beside n.new)) at.0 file.inode size }
    ensures beside { KeepsOthersBeside (N.forest n.old) (N.forest n.new) at.0 (N.beside n.old) (N.beside n.new) }
    ensures later { N.later n.old n.new }
{
    let set = n.get(at).copy();
    let inode = resized(n.inode(at), set, size);
    n.set_inode(at, inode);
}
