//! The calls of a forest of sets, in memory. Beside what the trait asks, each call says which planned failures it counts, and
//! which blocks it changes, of all nodes, loaded or not.
ghost use Rattle.std.specs.Prelude.{◌≡◌, ◌≤◌, ◌<◌, ◌-◌, ◌⊎◌, ℕ, true, List, Some, None, IfOk, IfErr, OnErr, OnOk, IsOk, IsErr, slice_get, take, length};
ghost use Rattle.h2_num.specs.Causes.{one_more};
ghost use Rattle.h2_ref.specs.declared.reference.Ref.{Ref};
ghost use Rattle.h2_ref.specs.declared.reference.Dirent.{Dirent};
ghost use Rattle.h2_ref.specs.declared.faults.Trouble.{Trouble};
ghost use Rattle.h2_ref.specs.declared.faults.Why.{Why};
ghost use Rattle.h2_ref.specs.Ref.{IsValid};
ghost use Rattle.h2_set.specs.Forest.{refs, loaded, told, IsSound};
ghost use Rattle.h2_set.specs.Calls.{IsBad, IsIndirectAt, Walks, HasCause, MeetsNone, MeetsOnly, Alters, Storable, Stores, Loads, Unchanged, MadeFrom, Makes, ReadiesOnly, KeepsBeside};
ghost use Rattle.h2_memory_sets.specs.Seen.{forest_of, beside_seen, blocks_of, name_of, failing_load, spoiled_load, refused_spare, KeepsPlans};
ghost use Rattle.h2_memory_sets.specs.Later.{GoesOn};
ghost use Rattle.h2_memory_sets.specs.LaterLaws.{goes_on_refl, goes_on_trans};
ghost use Rattle.h2_memory_sets.specs.Plans.{StaysAll, LeadsTo, NeedsLoad, NoneFits, LoadsOne, FailsExactlyIf, TellsBad, GivesBlock, refit_block, MakesBlock};

use crate::adding::{add_node, new_reference, with_left, with_one};
use crate::altering::{is_settled, mark_all, place_of, recount_all};
use crate::dropping::drop_lost;
use crate::judging::{bring_in, find_unspoiled, is_due};
use crate::memory::{MemorySets, one_more};
use crate::naming::inline_name;
use crate::refitting::give_set;
use crate::searching::find_child;
use h2_inode::Inode;
use h2_num::{Bytes, NoMemory};
use h2_ref::{Ref, Trouble, Why};
use h2_set::{NodeId, Set, Sets, Split};
use std::alloc::Global;

impl Sets for MemorySets {
    type Beside = Option<Inode>;

    ghost forest = { forest_of };

    ghost beside = { beside_seen };

    ghost later = { GoesOn };

    ghost same_later = { goes_on_refl };

    ghost later_later = { goes_on_trans };

    fn get(&self, at: NodeId) -> &Set {
        &self.nodes[at.0 as usize].set
    }

    fn epoch(&self) -> u64 {
        self.epoch
    }

    /// The node that the indirect reference at place `i` leads to. Where it is loaded, no load is counted, and nothing
    /// changes. Else one is, which fails exactly where that is planned; no block changes.
    fn child(&mut self, alloc: Global, at: NodeId, i: usize) -> Result<NodeId, Trouble>
        requires sound { IsSound (forest_of self.old) }
        requires stands { let f = forest_of self.old in f.stands at.0 ≡ true }
        requires indirect { IsIndirectAt (refs (forest_of self.old) at.0) i }
        ensures walks { Walks (forest_of self.old) (forest_of self.new) }
        ensures ok { let g = forest_of self.new in IfOk result (λ c. (r : Ref) → slice_get (refs (forest_of self.old) at.0) i ≡ Some r → g.link at.0 r.key ≡ loaded c.0) }
        ensures loads { (r : Ref) → slice_get (refs (forest_of self.old) at.0) i ≡ Some r → Loads (forest_of self.old) (forest_of self.new) at.0 r.key }
        ensures same { OnErr result (Unchanged (forest_of self.old) (forest_of self.new)) }
        ensures err { IfErr result (HasCause (forest_of self.old) (forest_of self.new)) }
        ensures unloaded { let f = forest_of self.old in OnErr result ((r : Ref) (c : ℕ) → slice_get (refs f at.0) i ≡ Some r → f.link at.0 r.key ≡ loaded c → ⊥) }
        ensures place { let f = forest_of self.old in IfErr result (λ e. (r : Ref) (place : ℕ) (why : Why) → slice_get (refs f at.0) i ≡ Some r → e ≡ Trouble.Bad place why → place ≡ r.place) }
        ensures none_met { OnOk result (MeetsNone (forest_of self.old) (forest_of self.new)) }
        ensures met_only { IfErr result (MeetsOnly (forest_of self.old) (forest_of self.new)) }
        ensures good { let f = forest_of self.old in IfErr result (λ e. (r : Ref) (l : List Ref) → slice_get (refs f at.0) i ≡ Some r → f.link at.0 r.key ≡ told l → IsBad e → ⊥) }
        ensures beside { KeepsBeside (forest_of self.old) (forest_of self.new) (beside_seen self.old) (beside_seen self.new) }
        ensures later { GoesOn self.old self.new }
        ensures still { (c : ℕ) → LeadsTo (forest_of self.old) at.0 i c → IsOk result × StaysAll self.old self.new }
        ensures counted { NeedsLoad (forest_of self.old) at.0 i → LoadsOne self.old self.new }
        ensures fails { NeedsLoad (forest_of self.old) at.0 i → FailsExactlyIf (failing_load self.old ≡ 1) result }
        ensures spoils { NeedsLoad (forest_of self.old) at.0 i → (failing_load self.old ≡ 1 → ⊥) → (spoiled_load self.old ≡ 1) ⊎ NoneFits self.old at.0 i → TellsBad result }
        ensures bad { TellsBad result → (spoiled_load self.old ≡ 1) ⊎ NoneFits self.old at.0 i }
        ensures unrefused { IfErr result (λ e. e ≡ Trouble.NoMemory → ⊥) }
        ensures counts_bad { let f = forest_of self.old in let g = forest_of self.new in TellsBad result → g.bad ≡ one_more f.bad }
        ensures blocks { blocks_of self.new ≡ blocks_of self.old }
    {
        let _ = alloc;
        let r = *self.nodes[at.0 as usize].set.at(i);
        let hint = self.hints.get(at.0, r.key);
        if let Some(c) = find_child(&self.nodes, at.0, r.key, hint) {
            self.hints.set(at.0, r.key, c as u32);
            return Ok(NodeId(c as u32));
        }
        if is_due(&mut self.fault) {
            self.failed = one_more(self.failed);
            return Err(Trouble::Failed);
        }
        let Some(c) = find_unspoiled(&self.nodes, at.0, &r, &mut self.spoiled) else {
            self.bad = one_more(self.bad);
            self.met = Some((r.place, Why::Shape));
            return Err(Trouble::Bad {
                place: r.place,
                why: Why::Shape,
            });
        };
        let x = &self.nodes[at.0 as usize];
        let (root, copies) = (x.root, x.copies);
        bring_in(&mut self.nodes[c], root, copies, r.keybits);
        self.hints.set(at.0, r.key, c as u32);
        Ok(NodeId(c as u32))
    }

    /// Makes the number of spare nodes at least `n`. Where it is so already, nothing changes; else a call is counted, which is
    /// refused where that is planned, and may be for want of memory. No block and no other plan changes.
    fn ready(&mut self, alloc: Global, n: u32) -> Result<(), NoMemory>
        requires sound { IsSound (forest_of self.old) }
        ensures ok { let g = forest_of self.new in OnOk result (n ≤ g.spare) }
        ensures same { ReadiesOnly (forest_of self.old) (forest_of self.new) }
        ensures enough { let f = forest_of self.old in n ≤ f.spare → IsOk result }
        ensures still { let f = forest_of self.old in let g = forest_of self.new in n ≤ f.spare → g.spare ≡ f.spare }
        ensures err { let f = forest_of self.old in let g = forest_of self.new in OnErr result (g.spare ≡ f.spare) }
        ensures beside { KeepsBeside (forest_of self.old) (forest_of self.new) (beside_seen self.old) (beside_seen self.new) }
        ensures later { GoesOn self.old self.new }
        ensures uncounted { let f = forest_of self.old in n ≤ f.spare → StaysAll self.old self.new }
        ensures counted { let f = forest_of self.old in f.spare < n → refused_spare self.new ≡ refused_spare self.old - 1 }
        ensures refused { let f = forest_of self.old in f.spare < n → refused_spare self.old ≡ 1 → IsErr result }
        ensures plans { (failing_load self.new ≡ failing_load self.old) × (spoiled_load self.new ≡ spoiled_load self.old) }
        ensures blocks { blocks_of self.new ≡ blocks_of self.old }
    {
        if n <= self.spare {
            return Ok(());
        }
        if is_due(&mut self.refused) {
            return Err(NoMemory);
        }
        if self.nodes.len() > (u32::MAX - n) as usize {
            return Err(NoMemory);
        }
        match self.nodes.reserve(n as usize) {
            Ok(()) => {
                self.spare = n;
                self.hints.fit(alloc, &self.nodes);
                Ok(())
            }
            Err(_) => Err(NoMemory),
        }
    }

    /// Makes the node and all above it writable. What blocks hold and what is planned stays.
    fn alter(&mut self, at: NodeId)
        requires sound { IsSound (forest_of self.old) }
        requires stands { let f = forest_of self.old in f.stands at.0 ≡ true }
        requires room { let f = forest_of self.old in f.copies at.0 ≤ f.room }
        ensures alters { Alters (forest_of self.old) (forest_of self.new) at.0 }
        ensures beside { KeepsBeside (forest_of self.old) (forest_of self.new) (beside_seen self.old) (beside_seen self.new) }
        ensures later { GoesOn self.old self.new }
        ensures plans { KeepsPlans self.old self.new }
        ensures blocks { blocks_of self.new ≡ blocks_of self.old }
    {
        if is_settled(&self.nodes, at.0) {
            return;
        }
        let x = &self.nodes[at.0 as usize];
        let (place, copies) = (place_of(x), x.copies);
        mark_all(&mut self.nodes, place);
        recount_all(&mut self.nodes);
        self.room -= copies;
    }

    /// Makes `set` the set of a writable node. Nothing leads any more to the blocks that go with a reference that it lacks,
    /// loaded or not; all others stay, and what is planned.
    fn store(&mut self, at: NodeId, set: Set)
        requires sound { IsSound (forest_of self.old) }
        requires stands { let f = forest_of self.old in f.stands at.0 ≡ true }
        requires writable { let f = forest_of self.old in f.writable at.0 ≡ true }
        requires storable { Storable (forest_of self.old) at.0 set }
        ensures stores { Stores (forest_of self.old) (forest_of self.new) at.0 set }
        ensures beside { KeepsBeside (forest_of self.old) (forest_of self.new) (beside_seen self.old) (beside_seen self.new) }
        ensures later { GoesOn self.old self.new }
        ensures plans { KeepsPlans self.old self.new }
        ensures blocks { GivesBlock (forest_of self.old) (blocks_of self.old) (blocks_of self.new) at.0 set (refit_block set) }
    {
        let x = &self.nodes[at.0 as usize];
        let (root, bits) = (x.root, x.bits);
        drop_lost(&mut self.nodes, at.0 as usize, root, bits, &set);
        give_set(&mut self.nodes[at.0 as usize], set);
    }

    /// Makes a writable node of what a split moved. Blocks below that part, loaded or not, lie below it then; all others
    /// stay, and what is planned.
    fn make(&mut self, at: NodeId, set: Set, split: Split) -> NodeId
        requires sound { IsSound (forest_of self.old) }
        requires stands { let f = forest_of self.old in f.stands at.0 ≡ true }
        requires writable { let f = forest_of self.old in f.writable at.0 ≡ true }
        requires space { let f = forest_of self.old in (1 ≤ f.spare) × (1 ≤ f.room) }
        requires split { (r : Ref) × MadeFrom (forest_of self.old) at.0 r set split }
        ensures makes { Makes (forest_of self.old) (forest_of self.new) at.0 result.0 set split }
        ensures beside { KeepsBeside (forest_of self.old) (forest_of self.new) (beside_seen self.old) (beside_seen self.new) }
        ensures later { GoesOn self.old self.new }
        ensures plans { KeepsPlans self.old self.new }
        ensures blocks { let g = forest_of self.new in MakesBlock (blocks_of self.old) (blocks_of self.new) at.0 result.0 (g.set at.0) split }
    {
        let c = self.nodes.len() as u32;
        let r = new_reference(split.key, split.keybits, self.epoch);
        let kept = with_one(with_left(set, split.rest), r);
        add_node(&mut self.nodes, at.0, kept, split.moved, &r);
        self.hints.set(at.0, split.key, c);
        self.spare -= 1;
        self.room -= 1;
        NodeId(c)
    }

    /// The name of a directory's entry. One that stands in its entry needs no load, and nothing changes. Of a longer one it is
    /// the name that `add_name` gave the block; one load is counted, which fails exactly where that is planned.
    fn name(&mut self, alloc: Global, r: &Ref) -> Result<Bytes, Trouble>
        requires sound { IsSound (forest_of self.old) }
        requires valid { IsValid r.now }
        requires entry { (d : Dirent) × (r.now.dirent ≡ Some d) }
        ensures same { Unchanged (forest_of self.old) (forest_of self.new) }
        ensures told { let f = forest_of self.old in IfOk result (λ b. (name : List ℕ) → f.name r.now ≡ Some name → b ≡ name) }
        ensures inline { IfOk result (λ b. (d : Dirent) → r.now.dirent ≡ Some d → d.len ≤ 64 → b ≡ take d.len d.name) }
        ensures long { IfOk result (λ b. (d : Dirent) → r.now.dirent ≡ Some d → length b ≡ d.len) }
        ensures err { IfErr result (HasCause (forest_of self.old) (forest_of self.new)) }
        ensures place { IfErr result (λ e. (place : ℕ) (why : Why) → e ≡ Trouble.Bad place why → place ≡ r.now.place) }
        ensures none_met { OnOk result (MeetsNone (forest_of self.old) (forest_of self.new)) }
        ensures met_only { IfErr result (MeetsOnly (forest_of self.old) (forest_of self.new)) }
        ensures good { let f = forest_of self.old in IfErr result (λ e. (name : List ℕ) → f.name r.now ≡ Some name → IsBad e → ⊥) }
        ensures unread { IfErr result (λ e. (d : Dirent) → r.now.dirent ≡ Some d → d.len ≤ 64 → e ≡ Trouble.NoMemory) }
        ensures beside { KeepsBeside (forest_of self.old) (forest_of self.new) (beside_seen self.old) (beside_seen self.new) }
        ensures later { GoesOn self.old self.new }
        ensures unasked { (d : Dirent) → r.now.dirent ≡ Some d → d.len ≤ 64 → StaysAll self.old self.new }
        ensures known { IfOk result (λ b. (d : Dirent) → r.now.dirent ≡ Some d → 64 < d.len → name_of self.old r.now.place d.len ≡ Some b) }
        ensures unknown { IfErr result (λ e. (d : Dirent) → r.now.dirent ≡ Some d → IsBad e → (spoiled_load self.old ≡ 1) ⊎ (name_of self.old r.now.place d.len ≡ None)) }
        ensures counted { (d : Dirent) → r.now.dirent ≡ Some d → 64 < d.len → LoadsOne self.old self.new }
        ensures fails { (d : Dirent) → r.now.dirent ≡ Some d → 64 < d.len → FailsExactlyIf (failing_load self.old ≡ 1) result }
        ensures spoils { (d : Dirent) → r.now.dirent ≡ Some d → 64 < d.len → (failing_load self.old ≡ 1 → ⊥) → (spoiled_load self.old ≡ 1) ⊎ (name_of self.old r.now.place d.len ≡ None) → TellsBad result }
        ensures counts_bad { let f = forest_of self.old in let g = forest_of self.new in TellsBad result → g.bad ≡ one_more f.bad }
        ensures blocks { blocks_of self.new ≡ blocks_of self.old }
    {
        let Some(entry) = r.dirent else {
            return Err(Trouble::NoMemory);
        };
        match inline_name(alloc, entry) {
            Ok(Some(name)) => Ok(name),
            Ok(None) => self.load_name(alloc, r.place, entry.len),
            Err(NoMemory) => Err(Trouble::NoMemory),
        }
    }
}
