ghost use Rattle.std.specs.Prelude.{◌≡◌, ℕ, List, All};
ghost use Rattle.h2_num.specs.Places.{Places};
ghost use Rattle.h2_ref.specs.declared.reference.Ref.{Ref};
ghost use Rattle.h2_ref.specs.Ref.{IsValid};
ghost use Rattle.h2_set.specs.Ranges.{Rising};
ghost use Rattle.h2_forest.specs.Forest.{PlainForest};
ghost use Rattle.h2_meaning.specs.Forest.{IsForest};
ghost use Rattle.h2_meaning.specs.Image.{in_image, LeavesIn, SameReached, named, Stands};
ghost use Rattle.h2_inode.specs.Single.{IsSingle};
ghost use Rattle.h2_inode.specs.Following.{Follows};
ghost use Rattle.h2_meaning.specs.Laws.{OneContents, OneDirectory, OneTable, OnePfsList, OneForest, LeavesAreEntries, EntriesAreLeaves, LeavesAreNodes, NodesAreLeaves, NumbersAscend, ListedIdsAscend, IdsAscend, CarriesContents, CarriesDirectories, CarriesTables, CarriesPfsLists, CarriesForests};

use crate::change::Change;
use crate::reading::Reading;

/// A law: by a reading that gives one answer at most, a tree stands for the bytes of one file at most, for one
/// directory, one table, one list of PFSs and one forest.
pub fn one_meaning_law<R: Reading>()
    ensures contents { IsSingle R.access → OneContents R.access }
    ensures directory { IsSingle R.access → OneDirectory R.access }
    ensures table { IsSingle R.access → OneTable R.access }
    ensures pfs_list { IsSingle R.access → OnePfsList R.access }
    ensures forest { IsSingle R.access → OneForest R.access }
{}

/// A law: the inodes that a tree holds stand in the order of their numbers, and the PFSs, be they listed or those of
/// a forest, in that of their ids.
pub fn order_law<R: Reading>()
    ensures numbers { NumbersAscend R.access }
    ensures listed_ids { ListedIdsAscend R.access }
    ensures ids { IdsAscend R.access }
{}

/// A law: a directory has a name with a number exactly where a leaf of its tree is that entry, and a table has an
/// inode exactly where a leaf of the PFS's tree names it.
pub fn leaf_law<R: Reading>()
    ensures leaves_of_directory { LeavesAreEntries R.access }
    ensures entries { EntriesAreLeaves R.access }
    ensures leaves_of_table { LeavesAreNodes R.access }
    ensures nodes { NodesAreLeaves R.access }
{}

/// A law: where a second reading gives whatever a first one gives, trees stand for the same in both.
pub fn carry_law<C: Change>()
    ensures contents { Follows C.passage → CarriesContents C.passage }
    ensures directories { Follows C.passage → CarriesDirectories C.passage }
    ensures tables { Follows C.passage → CarriesTables C.passage }
    ensures pfs_lists { Follows C.passage → CarriesPfsLists C.passage }
    ensures forests { Follows C.passage → CarriesForests C.passage }
{}

/// A law: the bytes of an image give one answer at most, so at most one forest stands in an image under some
/// references, and under the four of a header, of which some may be Empty. It depends on the blocks alone that these
/// lead to. Where they are in order, the leaves are.
pub fn image_law()
    ensures single { (image : Places) → IsSingle (in_image image) }
    ensures one_forest { (image : Places) (root : List Ref) (next : ℕ) (f g : PlainForest)
        → IsForest (in_image image) root next f → IsForest (in_image image) root next g → g ≡ f }
    ensures local { (image other : Places) (root : List Ref) (next : ℕ) (f : PlainForest) → All IsValid root
        → SameReached image root other → IsForest (in_image image) root next f → IsForest (in_image other) root next f }
    ensures one_stands { (image : Places) (root : List Ref) (next : ℕ) (f g : PlainForest)
        → Stands image root next f → Stands image root next g → g ≡ f }
    ensures stands_local { (image other : Places) (root : List Ref) (next : ℕ) (f : PlainForest) → All IsValid (named root)
        → SameReached image (named root) other → Stands image root next f → Stands other root next f }
    ensures order { (image : Places) (t leaves : List Ref) (low high : ℕ) → LeavesIn image t leaves
        → Rising low high t → Rising low high leaves }
{}
