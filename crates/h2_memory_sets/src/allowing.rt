//! Which leaves a tree may have.
ghost use Rattle.std.specs.Prelude.{◌≡◌, ◌&&◌, Some};
ghost use Rattle.h2_memory_sets.specs.Owners.{is_leaf_of, is_plain, inode_allows, tree_allows, allows_of};

use crate::node::{Leaves, Node};
use h2_inode::{Body, Inode, InodeKind};
use h2_ref::{Kind, Ref};
use h2_set::is_held;

// Whether leaves of a kind are those of an inode of the other.
fn is_leaf_of(kind: InodeKind, leaf: Kind) -> bool
    ensures { result ≡ is_leaf_of kind leaf }
{
    match (kind, leaf) {
        (InodeKind::Directory, Kind::Dirent) => true,
        (InodeKind::File, Kind::Content) => true,
        (InodeKind::Pfs, Kind::Inode) => true,
        _ => false,
    }
}

// Whether the tree of an inode may have a leaf.
fn inode_allows(inode: &Inode, r: &Ref) -> bool
    ensures { result ≡ inode_allows inode.now.kind inode.now.body r.now }
{
    match &inode.body {
        Body::Refs(_) => is_leaf_of(inode.kind, r.kind) && is_held(r),
        Body::Bytes(_) => false,
    }
}

// Whether a reference of the kind names something, but no inode.
fn is_plain(kind: Kind) -> bool
    ensures { result ≡ is_plain kind }
{
    match kind {
        Kind::Empty | Kind::Inode => false,
        Kind::Indirect | Kind::Content | Kind::Dirent | Kind::MapNode | Kind::MapLeaf => true,
    }
}

// Whether the tree of a root without an inode may have a leaf.
fn tree_allows(leaves: Leaves, r: &Ref) -> bool
    ensures { result ≡ tree_allows leaves r.now }
{
    match leaves {
        Leaves::Any => is_plain(r.kind),
        Leaves::Inodes => is_leaf_of(InodeKind::Pfs, r.kind) && is_held(r),
    }
}

/// Whether the tree of a root may have a leaf.
pub(crate) fn allows(root: &Node, r: &Ref) -> bool
    ensures { result ≡ allows_of (Some root.now) r.now }
{
    match &root.inode {
        Some(inode) => inode_allows(inode, r),
        None => tree_allows(root.leaves, r),
    }
}
