//! The calls of a forest with inodes, in memory. Beside what the trait asks, each says which planned failures it counts, and
//! which blocks it changes, of all nodes, loaded or not.
ghost use Rattle.std.specs.Prelude.{◌≡◌, ◌≤◌, ◌++◌, ◌∷◌, [], ◌⊎◌, ℕ, Some, true, false, IfOk, IfErr, OnErr, OnOk, IsOk, length};
ghost use Rattle.h2_num.specs.Causes.{one_more};
ghost use Rattle.h2_ref.specs.declared.reference.Ref.{Ref};
ghost use Rattle.h2_ref.specs.declared.faults.Trouble.{Trouble};
ghost use Rattle.h2_ref.specs.declared.faults.Why.{Why};
ghost use Rattle.h2_set.specs.Forest.{IsSound, IsRootOf};
ghost use Rattle.h2_set.specs.Calls.{IsBad, Unchanged, HasCause, MeetsNone, MeetsOnly, KeepsBeside};
ghost use Rattle.h2_inode.specs.declared.inode.Inode.{Inode};
ghost use Rattle.h2_inode.specs.Inode.{IsInode};
ghost use Rattle.h2_inode.specs.Nodes.{held_by, set_of, HasInode, IsInodeLeaf, IsUnloaded, Told, IsAsTold, IsPlantable, Replaceable, Seeks, Plants, Replaces, KeepsOthersBeside};
ghost use Rattle.h2_memory_sets.specs.Inodes.{fields_seen};
ghost use Rattle.h2_memory_sets.specs.Seen.{forest_of, beside_seen, told_of, blocks_of, failing_load, spoiled_load, KeepsPlans};
ghost use Rattle.h2_memory_sets.specs.Later.{GoesOn};
ghost use Rattle.h2_memory_sets.specs.Plans.{StaysAll, NoneNamed, LoadsOne, FailsExactlyIf, TellsBad, GivesBlock, block_with, inode_block};

use crate::dropping::drop_all;
use crate::judging::is_due;
use crate::memory::{MemorySets, one_more};
use crate::node::Owner;
use crate::planting::{add_inode, give_inode, set_of};
use crate::seeking::{bring_root, find_root, find_sought};
use h2_inode::{Inode, Nodes};
use h2_ref::{Ref, Trouble, Why};
use h2_set::NodeId;
use std::alloc::Global;

impl Nodes for MemorySets {
    ghost fields = { fields_seen };

    ghost told = { told_of };

    ghost told_later = { λ p q later r x is. is };

    /// The root of the inode that the leaf names. Where it is loaded, no load is counted, and nothing changes. Else one is,
    /// which fails exactly where that is planned; no block changes.
    fn seek(&mut self, alloc: Global, root: NodeId, leaf: &Ref) -> Result<NodeId, Trouble>
        requires sound { IsSound (forest_of self.old) }
        requires leaf { IsInodeLeaf (forest_of self.old) root.0 leaf.now }
        ensures ok { IfOk result (λ c. let r : Ref = leaf.now in Seeks (forest_of self.old) (forest_of self.new) root.0 r.key c.0) }
        ensures inode { IfOk result (λ c. let r : Ref = leaf.now in (i : Inode) × HasInode (forest_of self.new) (held_by fields_seen (beside_seen self.new)) c.0 i × (i.number ≡ r.key)) }
        ensures spelled { let f = forest_of self.old in IfOk result (λ c. (i : Inode) → f.stands c.0 ≡ false → HasInode (forest_of self.new) (held_by fields_seen (beside_seen self.new)) c.0 i → IsInode i) }
        ensures told { let f = forest_of self.old in IfOk result (λ c. (x : Told) → f.stands c.0 ≡ false → told_of self.old leaf.now ≡ Some x → IsAsTold (forest_of self.new) (held_by fields_seen (beside_seen self.new)) c.0 x) }
        ensures same { OnErr result (Unchanged (forest_of self.old) (forest_of self.new)) }
        ensures err { IfErr result (HasCause (forest_of self.old) (forest_of self.new)) }
        ensures unloaded { OnErr result (let r : Ref = leaf.now in IsUnloaded (forest_of self.old) root.0 r.key) }
        ensures place { let r : Ref = leaf.now in IfErr result (λ e. (place : ℕ) (why : Why) → e ≡ Trouble.Bad place why → place ≡ r.place) }
        ensures none_met { OnOk result (MeetsNone (forest_of self.old) (forest_of self.new)) }
        ensures met_only { IfErr result (MeetsOnly (forest_of self.old) (forest_of self.new)) }
        ensures good { IfErr result (λ e. (x : Told) → told_of self.old leaf.now ≡ Some x → IsBad e → ⊥) }
        ensures beside { KeepsBeside (forest_of self.old) (forest_of self.new) (beside_seen self.old) (beside_seen self.new) }
        ensures later { GoesOn self.old self.new }
        ensures still { let r : Ref = leaf.now in (c : ℕ) → IsRootOf (forest_of self.old) root.0 r.key c → IsOk result × StaysAll self.old self.new }
        ensures counted { let r : Ref = leaf.now in IsUnloaded (forest_of self.old) root.0 r.key → LoadsOne self.old self.new }
        ensures fails { let r : Ref = leaf.now in IsUnloaded (forest_of self.old) root.0 r.key → FailsExactlyIf (failing_load self.old ≡ 1) result }
        ensures spoils { let r : Ref = leaf.now in IsUnloaded (forest_of self.old) root.0 r.key → (failing_load self.old ≡ 1 → ⊥) → (spoiled_load self.old ≡ 1) ⊎ NoneNamed self.old root.0 r.key → TellsBad result }
        ensures bad { let r : Ref = leaf.now in TellsBad result → (spoiled_load self.old ≡ 1) ⊎ NoneNamed self.old root.0 r.key }
        ensures unrefused { IfErr result (λ e. e ≡ Trouble.NoMemory → ⊥) }
        ensures counts_bad { let f = forest_of self.old in let g = forest_of self.new in TellsBad result → g.bad ≡ one_more f.bad }
        ensures blocks { blocks_of self.new ≡ blocks_of self.old }
    {
        let _ = alloc;
        if let Some(c) = find_root(&self.nodes, root.0, leaf.key) {
            return Ok(NodeId(c as u32));
        }
        if is_due(&mut self.fault) {
            self.failed = one_more(self.failed);
            return Err(Trouble::Failed);
        }
        let Some(c) = find_sought(&self.nodes, root.0, leaf.key, &mut self.spoiled) else {
            self.bad = one_more(self.bad);
            self.met = Some((leaf.place, Why::Inode));
            return Err(Trouble::Bad {
                place: leaf.place,
                why: Why::Inode,
            });
        };
        bring_root(&mut self.nodes[c as usize]);
        Ok(NodeId(c))
    }

    fn inode(&self, at: NodeId) -> &Inode {
        match &self.nodes[at.0 as usize].inode {
            Some(inode) => inode,
            None => unreachable!(),
        }
    }

    /// Replaces the inode of a writable root. Nothing leads any more to the blocks that go with a reference that it lacks,
    /// loaded or not; all others stay, and what is planned.
    fn set_inode(&mut self, at: NodeId, inode: Inode)
        requires sound { IsSound (forest_of self.old) }
        requires kept { (i : Inode) × HasInode (forest_of self.old) (held_by fields_seen (beside_seen self.old)) at.0 i × (inode.kind ≡ i.kind) × (inode.number ≡ i.number) }
        requires writable { let f = forest_of self.old in f.writable at.0 ≡ true }
        requires replaceable { Replaceable (forest_of self.old) at.0 inode.kind (set_of inode.body) }
        ensures replaces { Replaces (forest_of self.old) (forest_of self.new) at.0 (set_of inode.body) }
        ensures inode { HasInode (forest_of self.new) (held_by fields_seen (beside_seen self.new)) at.0 inode }
        ensures beside { KeepsOthersBeside (forest_of self.old) (forest_of self.new) at.0 (beside_seen self.old) (beside_seen self.new) }
        ensures later { GoesOn self.old self.new }
        ensures plans { KeepsPlans self.old self.new }
        ensures blocks { GivesBlock (forest_of self.old) (blocks_of self.old) (blocks_of self.new) at.0 (set_of inode.body) (block_with inode) }
    {
        let x = &self.nodes[at.0 as usize];
        let (root, bits) = (x.root, x.bits);
        let old = x.set.copy();
        let set = set_of(&inode.body);
        drop_all(&mut self.nodes, root, bits, &old, &set);
        give_inode(&mut self.nodes[at.0 as usize], inode);
    }

    /// Makes the writable root of a new inode, which the leaf names. Its block is the last one then; all others stay, and
    /// what is planned.
    fn plant(&mut self, root: NodeId, leaf: &Ref, inode: Inode) -> NodeId
        requires sound { IsSound (forest_of self.old) }
        requires leaf { IsInodeLeaf (forest_of self.old) root.0 leaf.now }
        requires unloaded { let r : Ref = leaf.now in IsUnloaded (forest_of self.old) root.0 r.key }
        requires number { let r : Ref = leaf.now in inode.number ≡ r.key }
        requires plantable { IsPlantable inode }
        requires spare { let f = forest_of self.old in 1 ≤ f.spare }
        ensures plants { let r : Ref = leaf.now in Plants (forest_of self.old) (forest_of self.new) root.0 r.key result.0 }
        ensures inode { HasInode (forest_of self.new) (held_by fields_seen (beside_seen self.new)) result.0 inode }
        ensures beside { KeepsBeside (forest_of self.old) (forest_of self.new) (beside_seen self.old) (beside_seen self.new) }
        ensures later { GoesOn self.old self.new }
        ensures plans { KeepsPlans self.old self.new }
        ensures number { result.0 ≡ length (blocks_of self.old) }
        ensures blocks { let r : Ref = leaf.now in blocks_of self.new ≡ blocks_of self.old ++ inode_block root.0 r.key inode ∷ [] }
    {
        let owner = Owner {
            root: root.0,
            key: leaf.key,
        };
        let c = add_inode(&mut self.nodes, owner, inode);
        self.spare -= 1;
        NodeId(c)
    }
}
