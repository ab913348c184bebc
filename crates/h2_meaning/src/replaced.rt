ghost use Rattle.std.specs.Prelude.{◌≡◌, ◌↔◌, ℕ, Bool, true, false, List, Contains, Option, Some, None, IsSome};
ghost use Rattle.std.specs.FinMap.{get, insert, remove};
ghost use Rattle.h2_num.specs.Places.{Places};
ghost use Rattle.h2_ref.specs.declared.reference.Kind.TheVariants.{Inode as Inode_kind};
ghost use Rattle.h2_ref.specs.declared.reference.Ref.{Ref};
ghost use Rattle.h2_set.specs.Calls.{names_node};
ghost use Rattle.h2_set.specs.Forest.{IsSound, IsRootOf};
ghost use Rattle.h2_forest.specs.declared.table.Node.{Node};
ghost use Rattle.h2_forest.specs.declared.pfs.Pfs.{Pfs};
ghost use Rattle.h2_forest.specs.Forest.{PlainForest};
ghost use Rattle.h2_forest.specs.Table.{Table};
ghost use Rattle.h2_consistent.specs.FileTree.{IsFileTree};
ghost use Rattle.h2_inode.specs.Nodes.{NamesOne};
ghost use Rattle.h2_inode.specs.Loaded.{at_root, View, reading, TellsOn};
ghost use Rattle.h2_inode.specs.Others.{RenewsOthers};
ghost use Rattle.h2_meaning.specs.Forest.{InTable, IsTable, IsForest};
ghost use Rattle.h2_meaning.specs.Replaced.{RenewsAllBut, HoldsNodes, HoldsNode, SameKind, IsIn, HoldsPfs, with_pfs, GainsLeaf, LosesLeaf};

/// A law of a change of one inode of a PFS, that with number k, which a leaf of the PFS's tree at root t names, where all
/// other trees of the PFS stay or are renewed: the tree then stands for the table before with this inode replaced. It is
/// the table of a PFS where it is a file tree; a command that changes several inodes has tables between that aren't.
/// The same of a forest, in which a PFS changed, or an inode below it: it is the one before with this PFS replaced, and
/// where an inode of a PFS's table changed, the PFS is the one before with this inode replaced in its table.
/// A tree to which an inode is added has those of the table before, and this one; one from which one is taken out, the
/// others; the entries of a file tree name its inodes alone.
/// A change that renews all other roots is such a one.
pub fn replaced_law()
    ensures nodes { (u v : View) (stay : ℕ → Bool) (block : Ref → Option Places) (t k c : ℕ) (before after table : Table) (old node : Node)
        → RenewsAllBut u v (λ m. stay m ≡ true) c → ((r : Ref) (b : Places) → block r ≡ Some b → names_node r.kind ≡ false) → stay t ≡ true
        → IsRootOf u.forest t k c → ((target number : ℕ) → InTable before target number → InTable after target number)
        → get table k ≡ Some old → HoldsNode v (λ r b. block r ≡ Some b) (InTable after) c k node
        → HoldsNodes (reading u (λ r b. block r ≡ Some b)) (InTable before) (at_root t) table
        → HoldsNodes (reading v (λ r b. block r ≡ Some b)) (InTable after) (at_root t) (insert table k node) }
    ensures tables { (u v : View) (stay : ℕ → Bool) (block : Ref → Option Places) (t k c next now_next : ℕ) (table : Table) (old node : Node)
        → RenewsAllBut u v (λ m. stay m ≡ true) c → ((r : Ref) (b : Places) → block r ≡ Some b → names_node r.kind ≡ false) → stay t ≡ true
        → IsRootOf u.forest t k c → get table k ≡ Some old → SameKind old node
        → HoldsNode v (λ r b. block r ≡ Some b) (InTable (insert table k node)) c k node → IsFileTree now_next (insert table k node)
        → IsTable (reading u (λ r b. block r ≡ Some b)) (at_root t) next table
        → IsTable (reading v (λ r b. block r ≡ Some b)) (at_root t) now_next (insert table k node) }
    ensures forests { (u v : View) (stay : ℕ → Bool) (block : Ref → Option Places) (top t c next : ℕ) (forest : PlainForest) (p : Pfs)
        → RenewsAllBut u v (λ m. stay m ≡ true) c → ((r : Ref) (b : Places) → block r ≡ Some b → names_node r.kind ≡ false) → stay top ≡ true
        → IsRootOf u.forest top p.id t → IsIn u.forest t c → HoldsPfs v (λ r b. block r ≡ Some b) t p
        → ((q : Pfs) → Contains forest.pfss q → q.id ≡ p.id → q.name ≡ p.name)
        → IsForest (reading u (λ r b. block r ≡ Some b)) (at_root top) next forest
        → IsForest (reading v (λ r b. block r ≡ Some b)) (at_root top) next (with_pfs forest p) }
    ensures inodes { (u v : View) (stay : ℕ → Bool) (block : Ref → Option Places) (top t k c next : ℕ) (forest : PlainForest) (p : Pfs) (old node : Node)
        → RenewsAllBut u v (λ m. stay m ≡ true) c → ((r : Ref) (b : Places) → block r ≡ Some b → names_node r.kind ≡ false) → NamesOne u.forest → stay top ≡ true → stay t ≡ true
        → IsRootOf u.forest top p.id t → IsRootOf u.forest t k c → Contains forest.pfss p → get p.table k ≡ Some old → SameKind old node
        → HoldsNode v (λ r b. block r ≡ Some b) (InTable (insert p.table k node)) c k node → IsFileTree p.next (insert p.table k node)
        → IsForest (reading u (λ r b. block r ≡ Some b)) (at_root top) next forest
        → IsForest (reading v (λ r b. block r ≡ Some b)) (at_root top) next (with_pfs forest (record p { table = insert p.table k node })) }
    ensures added { (u v : View) (stay : ℕ → Bool) (block : Ref → Option Places) (t d : ℕ) (leaf : Ref) (before after table : Table) (node : Node)
        → RenewsAllBut u v (λ m. stay m ≡ true) t → ((r : Ref) (b : Places) → block r ≡ Some b → names_node r.kind ≡ false) → GainsLeaf u v (λ m. stay m ≡ true) t leaf
        → ((target number : ℕ) → InTable before target number → InTable after target number)
        → get table leaf.key ≡ None → leaf.kind ≡ Inode_kind → IsRootOf v.forest t leaf.key d → HoldsNode v (λ r b. block r ≡ Some b) (InTable after) d leaf.key node
        → HoldsNodes (reading u (λ r b. block r ≡ Some b)) (InTable before) (at_root t) table
        → HoldsNodes (reading v (λ r b. block r ≡ Some b)) (InTable after) (at_root t) (insert table leaf.key node) }
    ensures removed { (u v : View) (stay : ℕ → Bool) (block : Ref → Option Places) (t key : ℕ) (before after table : Table)
        → RenewsAllBut u v (λ m. stay m ≡ true) t → ((r : Ref) (b : Places) → block r ≡ Some b → names_node r.kind ≡ false) → LosesLeaf u v (λ m. stay m ≡ true) t key
        → ((target number : ℕ) → InTable before target number → InTable after target number)
        → HoldsNodes (reading u (λ r b. block r ≡ Some b)) (InTable before) (at_root t) table
        → HoldsNodes (reading v (λ r b. block r ≡ Some b)) (InTable after) (at_root t) (remove table key) }
    ensures held { (v : View) (block : Ref → Option Places) (t next : ℕ) (table : Table) → IsTable (reading v (λ r b. block r ≡ Some b)) (at_root t) next table
        → HoldsNodes (reading v (λ r b. block r ≡ Some b)) (InTable table) (at_root t) table }
    ensures whole { (v : View) (block : Ref → Option Places) (t next : ℕ) (table : Table) → HoldsNodes (reading v (λ r b. block r ≡ Some b)) (InTable table) (at_root t) table
        → IsFileTree next table → IsTable (reading v (λ r b. block r ≡ Some b)) (at_root t) next table }
    ensures narrowed { (v : View) (block : Ref → Option Places) (t next : ℕ) (before after table : Table) → IsFileTree next table
        → ((target number : ℕ) → InTable before target number → IsSome (get table number) → InTable after target number)
        → HoldsNodes (reading v (λ r b. block r ≡ Some b)) (InTable before) (at_root t) table
        → HoldsNodes (reading v (λ r b. block r ≡ Some b)) (InTable after) (at_root t) table }
    ensures others { (u v : View) (stay : ℕ → Bool) (c : ℕ) → IsSound u.forest → ((m : ℕ) → (stay m ≡ true) ↔ ((u.forest.stands m ≡ true) × (u.forest.root m ≡ m)))
        → RenewsOthers u v c
        → TellsOn u v → ((r : Ref) (name : List ℕ) → u.forest.name r ≡ Some name → v.forest.name r ≡ Some name)
        → ((r : Ref) (name : List ℕ) → u.forest.name r ≡ Some name → names_node r.kind ≡ false) → RenewsAllBut u v (λ m. stay m ≡ true) c }
{}
