ghost use Rattle.std.specs.Prelude.{◌≡◌, ◌<◌, ◌≤◌, ℕ, List, length};
ghost use Rattle.h2_num.specs.Places.{Places, AreBytes, SameBelow};
ghost use Rattle.h2_codes.specs.declared.code.Code.{Code};
ghost use Rattle.h2_geom.specs.Geometry.{chunks_of, segments_of};
ghost use Rattle.h2_freemap.specs.Space.{code_in};
ghost use Rattle.h2_ref.specs.declared.reference.Ref.{Ref};
ghost use Rattle.h2_freeleaf.specs.Leaf.{IsLeaf, LeafBytes, NoLeaf};
ghost use Rattle.h2_freeleaf.specs.Node.{IsNode, NodeBytes, NoNode};
ghost use Rattle.h2_freeleaf.specs.Fault.{IsLeafFault, IsNodeFault};
ghost use Rattle.h2_header.specs.declared.header.Header.{Header};
ghost use Rattle.h2_freeleaf.specs.InImage.{AreCodesOf, SameMap};
ghost use Rattle.h2_freeleaf.specs.FirstBad.{IsFirstBad};
ghost use Rattle.h2_freeleaf.specs.ChunkCode.{CodeOf};
ghost use Rattle.h2_freeleaf.specs.Plan.{AllStand, IsPlan};
ghost use Rattle.h2_freeleaf.specs.LeastPlace.{IsLeastOf, IsWrongInLeaf, IsWrongInNode};
ghost use Rattle.h2_freeleaf.specs.declared.fault.MapFault.{MapFault};

use h2_codes::layout_law;

/// A law: a leaf has one spelling, bytes spell one leaf at most, and which one is seen by their first 1024 alone.
pub fn leaf_law()
    ensures one_spelling { (leaf : List (List Code)) (a b : Places) → AreBytes a → AreBytes b → IsLeaf leaf
        → LeafBytes leaf a → LeafBytes leaf b → SameBelow 1024 a b }
    ensures one_value { (x y : List (List Code)) (b : Places) → IsLeaf x → IsLeaf y
        → LeafBytes x b → LeafBytes y b → y ≡ x }
    ensures local { (leaf : List (List Code)) (a b : Places) → IsLeaf leaf → SameBelow 1024 a b
        → LeafBytes leaf a → LeafBytes leaf b }
{
    layout_law();
}

/// A law: a node has one spelling, bytes spell one node at most, and which one is seen by their first 1024 alone.
pub fn node_law()
    ensures one_spelling { (node : List Ref) (a b : Places) → AreBytes a → AreBytes b → IsNode node
        → NodeBytes node a → NodeBytes node b → SameBelow 1024 a b }
    ensures one_value { (x y : List Ref) (b : Places) → IsNode x → IsNode y
        → NodeBytes x b → NodeBytes y b → y ≡ x }
    ensures local { (node : List Ref) (a b : Places) → IsNode node → SameBelow 1024 a b
        → NodeBytes node a → NodeBytes node b }
{}

/// A law: bytes that meet a refusal of leaves spell no leaf, and those that meet one of nodes no node; they meet
/// one refusal of each at most, which is at the least place of all that are wrong.
pub fn refusal_law()
    ensures no_leaf { (at : ℕ) (b : Places) (f : MapFault) → IsLeafFault at b f → NoLeaf b }
    ensures one_of_leaf { (at : ℕ) (b : Places) (f g : MapFault) → IsLeafFault at b f → IsLeafFault at b g → g ≡ f }
    ensures no_node { (at : ℕ) (b : Places) (f : MapFault) → IsNodeFault at b f → NoNode b }
    ensures one_of_node { (at : ℕ) (b : Places) (f g : MapFault) → IsNodeFault at b f → IsNodeFault at b g → g ≡ f }
    ensures least_of_leaf { (at : ℕ) (b : Places) (f : MapFault) → IsLeafFault at b f
        → IsLeastOf (λ p g. IsWrongInLeaf at b p g) f }
    ensures least_of_node { (at : ℕ) (b : Places) (f : MapFault) → IsNodeFault at b f
        → IsLeastOf (λ p g. IsWrongInNode at b p g) f }
{}

/// A law: an image has one list of codes at most under a header of up to 512 zones, which depends on the bytes of
/// the map's blocks alone. Where the map has a bad block there are none, and then one fault is the first.
pub fn map_law()
    ensures one_list { (image : Places) (h : Header) (s t : List (List Code)) → h.zones ≤ 512
        → AreCodesOf image h s → AreCodesOf image h t → t ≡ s }
    ensures local { (h : Header) (s : List (List Code)) (a b : Places) → SameMap h.zones h.map_number a b
        → AreCodesOf a h s → AreCodesOf b h s }
    ensures no_codes { (image : Places) (h : Header) (s : List (List Code)) (f : MapFault) → IsFirstBad image h f
        → AreCodesOf image h s → ⊥ }
    ensures one_fault { (image : Places) (h : Header) (f g : MapFault) → IsFirstBad image h f → IsFirstBad image h g → g ≡ f }
{
    layout_law();
}

/// A law: a chunk has one code at most in an image under a header of up to 512 zones, and where there is the list of
/// codes it is the one in the list. An image in which all writes of a plan stand has the codes of the planned
/// freemap, under each header with the plan's zones, number and references.
pub fn code_law()
    ensures one_code { (image : Places) (h : Header) (chunk : ℕ) (x y : Code)
        → CodeOf image h chunk x → CodeOf image h chunk y → y ≡ x }
    ensures in_list { (image : Places) (h : Header) (s : List (List Code)) (chunk : ℕ) → h.zones ≤ 512
        → AreCodesOf image h s → chunk < chunks_of h.zones → CodeOf image h chunk (code_in s chunk) }
    ensures planned { (image : Places) (h : Header) (s : List (List Code)) (writes : List (ℕ × List ℕ))
        → IsPlan h.zones h.map_number s writes h.map → length s ≡ segments_of h.zones → AllStand writes image
        → AreCodesOf image h s }
{
    layout_law();
}
