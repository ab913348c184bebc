ghost use Rattle.std.specs.Prelude.{◌≡◌, true};
ghost use Rattle.h2_set.specs.Forest.{IsSound};
ghost use Rattle.h2_inode.specs.declared.inode.Inode.{Inode};
ghost use Rattle.h2_inode.specs.Nodes.{held_by, HasInode, Replaces, KeepsOthersBeside};
ghost use Rattle.h2_dir.specs.Changing.{HasRefs, with_entries, with_size};

use h2_inode::{Body, Inode, Nodes, PfsName};
use h2_set::NodeId;

// An equal name.
fn copy_name(name: &PfsName) -> PfsName
    ensures { result ≡ name.now }
{
    match PfsName::from_slice(name.as_slice()) {
        Some(copy) => copy,
        None => unreachable!(),
    }
}

// An equal body.
fn copy_body(body: &Body) -> Body
    ensures { result ≡ body.now }
{
    match body {
        Body::Refs(set) => Body::Refs(set.copy()),
        Body::Bytes(bytes) => Body::Bytes(*bytes),
    }
}

// An equal inode, but for its size.
fn with_size(inode: &Inode, size: u64) -> Inode
    ensures { result ≡ with_size inode.now size }
{
    Inode {
        kind: inode.kind,
        number: inode.number,
        size,
        links: inode.links,
        next: inode.next,
        name: copy_name(&inode.name),
        body: copy_body(&inode.body),
    }
}

/// Gives the inode of a writable root another size. Its set stays.
pub(crate) fn resize<N: Nodes>(n: &mut N, at: NodeId, size: u64)
    requires sound { IsSound (N.forest n.old) }
    requires inode { (i : Inode) × HasInode (N.forest n.old) (held_by N.fields (N.beside n.old)) at.0 i }
    requires writable { let f = N.forest n.old in f.writable at.0 ≡ true }
    ensures replaces { let f = N.forest n.old in Replaces f (N.forest n.new) at.0 (f.set at.0) }
    ensures inode { (i : Inode) → HasInode (N.forest n.old) (held_by N.fields (N.beside n.old)) at.0 i → HasRefs i → let f = N.forest n.old in HasInode (N.forest n.new) (held_by N.fields (N.beside n.new)) at.0 (with_entries i size (f.set at.0)) }
    ensures beside { KeepsOthersBeside (N.forest n.old) (N.forest n.new) at.0 (N.beside n.old) (N.beside n.new) }
    ensures later { N.later n.old n.new }
{
    let inode = with_size(n.inode(at), size);
    n.set_inode(at, inode);
}
