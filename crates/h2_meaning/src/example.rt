ghost use Rattle.std.specs.Prelude.{◌≡◌, ◌<◌, ◌≤◌, ℕ, List, [], ◌∷◌, length};
ghost use Rattle.std.specs.FinMap as map;
ghost use Rattle.h2_num.specs.Places.{Places};
ghost use Rattle.h2_dirkey.specs.Name.{IsName};
ghost use Rattle.h2_forest.specs.Forest.{fresh};
ghost use Rattle.h2_inode.specs.Contents.{IsContents};
ghost use Rattle.h2_inode.specs.Directory.{IsDirectory};
ghost use Rattle.h2_inode.specs.PfsList.{IsPfsList};
ghost use Rattle.h2_meaning.specs.Forest.{IsForest};
ghost use Rattle.h2_inode.specs.Single.{IsSingle};
ghost use Rattle.h2_inode.specs.Following.{Follows};
ghost use Rattle.h2_meaning.specs.Image.{named, Stands};
ghost use Rattle.h2_meaning.specs.Example.{first_inode, new_volume, listed_root, unchanged, new_root, HasNewBlocks, one_block, content_leaf, entry_leaf, IsSecond};

/// A law: the trees of a new volume, one PFS with an empty root directory, stand for the forest of a formatted
/// volume, and their list of PFSs has `ROOT` alone. Their reading gives one answer at most, and follows itself.
pub fn new_volume_law()
    ensures list { IsPfsList new_volume 0 2 (listed_root ∷ []) }
    ensures forest { IsForest new_volume 0 2 fresh }
    ensures single { IsSingle new_volume }
    ensures follows { Follows unchanged }
{}

/// A law: of the four references of a header with one PFS one names something, and where it names the block of the PFS
/// of a new volume, and this one that of its empty root directory, the image stands for the forest of a formatted
/// volume.
pub fn new_image_law()
    ensures named { (place check : ℕ) → named (new_root (first_inode place check)) ≡ first_inode place check ∷ [] }
    ensures stands { (image : Places) (place check below under : ℕ) → HasNewBlocks image (first_inode place check) (first_inode below under)
        → Stands image (new_root (first_inode place check)) 2 fresh }
{}

/// A law: a tree with one block at key 0, in which some bytes stand and then zeros, stands for a file of these
/// bytes, be it one or all 16384.
pub fn one_block_law()
    ensures { (bytes : List ℕ) → 0 < length bytes → length bytes ≤ 16384
        → IsContents (one_block bytes) (content_leaf ∷ []) (length bytes) bytes }
{}

/// A law: a tree with one entry under the least key of its name, which has at most 64 bytes, stands for a
/// directory with this name.
pub fn one_entry_law()
    ensures { (name : List ℕ) → IsName name → length name ≤ 64
        → IsDirectory (one_block []) IsSecond (entry_leaf name ∷ []) 1 (map.insert map.empty name 2) }
{}
