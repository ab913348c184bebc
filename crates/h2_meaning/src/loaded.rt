ghost use Rattle.std.specs.Prelude.{◌≡◌, ℕ, Bool, true, false, Option, Some};
ghost use Rattle.h2_num.specs.Places.{Places};
ghost use Rattle.h2_ref.specs.declared.reference.Ref.{Ref};
ghost use Rattle.h2_set.specs.Calls.{names_node};
ghost use Rattle.h2_forest.specs.Table.{Table};
ghost use Rattle.h2_forest.specs.Forest.{PlainForest};
ghost use Rattle.h2_inode.specs.Nodes.{NamesOne};
ghost use Rattle.h2_inode.specs.Loaded.{Tree, at_root, View, reading, StandsAlike};
ghost use Rattle.h2_inode.specs.Others.{KeepsTrees, RenewsTrees};
ghost use Rattle.h2_meaning.specs.Forest.{IsTable, IsForest};

/// A law of forests of loaded nodes: where each leaf names one root at most and each block has one contents at most,
/// a tree stands for one table at most, and for one forest.
pub fn one_loaded_law()
    ensures table { (u : View) (block : Ref → Option Places) (t : Tree) (m n : ℕ) (x y : Table) → NamesOne u.forest
        → IsTable (reading u (λ r b. block r ≡ Some b)) t m x → IsTable (reading u (λ r b. block r ≡ Some b)) t n y → y ≡ x }
    ensures forest { (u : View) (block : Ref → Option Places) (t : Tree) (next : ℕ) (f g : PlainForest) → NamesOne u.forest
        → IsForest (reading u (λ r b. block r ≡ Some b)) t next f → IsForest (reading u (λ r b. block r ≡ Some b)) t next g → g ≡ f }
{}

/// A law of what loaded trees stand for: a table and a forest stand after loads, and where the contents of more blocks
/// are told. A table also stands after a change that keeps its tree and those of its files and directories, and a table
/// and a forest after one that renews them: their references tell of other blocks of inodes then. An inode that changes
/// itself isn't one of a table or a forest that is renewed.
pub fn loaded_law()
    ensures loads_tables { (u v : View) (block : Ref → Option Places) (at next : ℕ) (table : Table) → StandsAlike u v → u.forest.stands at ≡ true
        → IsTable (reading u (λ r b. block r ≡ Some b)) (at_root at) next table
        → IsTable (reading v (λ r b. block r ≡ Some b)) (at_root at) next table }
    ensures loads_forests { (u v : View) (block : Ref → Option Places) (at next : ℕ) (forest : PlainForest) → StandsAlike u v → u.forest.stands at ≡ true
        → IsForest (reading u (λ r b. block r ≡ Some b)) (at_root at) next forest
        → IsForest (reading v (λ r b. block r ≡ Some b)) (at_root at) next forest }
    ensures more_tables { (u : View) (block more : Ref → Option Places) (t : Tree) (next : ℕ) (table : Table)
        → ((r : Ref) (b : Places) → block r ≡ Some b → more r ≡ Some b)
        → IsTable (reading u (λ r b. block r ≡ Some b)) t next table → IsTable (reading u (λ r b. more r ≡ Some b)) t next table }
    ensures more_forests { (u : View) (block more : Ref → Option Places) (t : Tree) (next : ℕ) (forest : PlainForest)
        → ((r : Ref) (b : Places) → block r ≡ Some b → more r ≡ Some b)
        → IsForest (reading u (λ r b. block r ≡ Some b)) t next forest → IsForest (reading u (λ r b. more r ≡ Some b)) t next forest }
    ensures kept_tables { (u v : View) (stay : ℕ → Bool) (block : Ref → Option Places) (at next : ℕ) (table : Table)
        → KeepsTrees u v (λ m. stay m ≡ true) → stay at ≡ true
        → IsTable (reading u (λ r b. block r ≡ Some b)) (at_root at) next table
        → IsTable (reading v (λ r b. block r ≡ Some b)) (at_root at) next table }
    ensures renewed_tables { (u v : View) (stay : ℕ → Bool) (block : Ref → Option Places) (at next : ℕ) (table : Table)
        → RenewsTrees u v (λ m. stay m ≡ true) → ((r : Ref) (b : Places) → block r ≡ Some b → names_node r.kind ≡ false) → stay at ≡ true
        → IsTable (reading u (λ r b. block r ≡ Some b)) (at_root at) next table
        → IsTable (reading v (λ r b. block r ≡ Some b)) (at_root at) next table }
    ensures renewed_forests { (u v : View) (stay : ℕ → Bool) (block : Ref → Option Places) (at next : ℕ) (forest : PlainForest)
        → RenewsTrees u v (λ m. stay m ≡ true) → ((r : Ref) (b : Places) → block r ≡ Some b → names_node r.kind ≡ false) → stay at ≡ true
        → IsForest (reading u (λ r b. block r ≡ Some b)) (at_root at) next forest
        → IsForest (reading v (λ r b. block r ≡ Some b)) (at_root at) next forest }
{}
