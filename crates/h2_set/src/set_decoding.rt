ghost use Rattle.std.specs.Prelude.{◌≡◌, ◌<◌, ◌≤◌, ◌⊎◌, ◌*◌, ◌/◌, ◌+◌, ◌%◌, ℕ, [], Some, None, All, length, IsTrue, ◌↔◌, IfOk, IfErr, OnOk};
ghost use Rattle.h2_num.specs.Places.{places};
ghost use Rattle.h2_ref.specs.Ref.{RefBytes, IsValid, empty_ref};
ghost use Rattle.h2_ref.specs.Set.{RefsBytes};
ghost use Rattle.h2_ref.specs.Fault.{first_fault};
ghost use Rattle.h2_set.specs.Ranges.{Rising, limit};
ghost use Rattle.h2_set.specs.SetBytes.{slot, AreRefs, IsSetAt, IsFaultOf, IsSlotFault, IsRefused};
ghost use Rattle.h2_set.specs.Front.{Extends, IsFront, EmptyFrom, IsRestFault};

use crate::set::Set;
use h2_ref::{Kind, REF_BYTES, Ref, RefFault, decode};

/// Why bytes are no set.
#[derive(Clone, Copy, Debug, PartialEq, Eq)]
pub enum SetFault {
    /// A reference is refused, the first of those that are.
    Reference {
        /// The place of its first byte.
        at: u32,
        /// Its first refusal.
        fault: RefFault,
    },
    /// Each reference is decoded, but they aren't those of a set with empty ones behind.
    Shape,
}

/// The bytes of the reference at a place of the set.
fn slot(b: &[u8], i: usize) -> &[u8; REF_BYTES]
    requires { 128 * i + 128 ≤ length b.now }
    ensures { places result.now ≡ slot (places b.now) i }
{
    let (_, from_slot) = b.split_at(REF_BYTES * i);
    let Some((bytes, _)) = from_slot.split_first_chunk::<REF_BYTES>() else {
        unreachable!();
    };
    bytes
}

/// The reference at a place of the set.
fn ref_at(b: &[u8], i: usize) -> Result<Ref, SetFault>
    requires within { 128 * i + 128 ≤ length b.now }
    requires few { length b.now ≤ 4096 }
    ensures found { IfOk result (λ r. IsValid r × RefBytes r (slot (places b.now) i)) }
    ensures decoded { OnOk result (first_fault (slot (places b.now) i) ≡ None) }
    ensures fault { IfErr result (IsSlotFault i (places b.now)) }
{
    match decode(slot(b, i)) {
        Ok(r) => Ok(r),
        Err(fault) => Err(SetFault::Reference {
            at: (REF_BYTES * i) as u32,
            fault,
        }),
    }
}

/// Whether the range of a reference ends at the key or before.
fn ends_by(r: &Ref, key: u64) -> bool
    ensures { IsTrue result ↔ (limit r.now ≤ key) }
{
    if r.keybits >= 64 {
        return false;
    }
    if r.key > key {
        return false;
    }
    key - r.key >= 1 << r.keybits
}

/// Whether a reference with the key may stand behind those of the set.
fn may_follow(set: &Set, key: u64) -> bool
    ensures { IsTrue result ↔ Rising 0 key set.now.refs }
{
    let len = set.len();
    if len == 0 {
        return true;
    }
    ends_by(set.at(len - 1), key)
}

/// Whether the reference names nothing.
fn is_nothing(r: &Ref) -> bool
    ensures { IsTrue result ↔ (r.now.kind ≡ Kind.Empty) }
{
    r.kind == Kind::Empty
}

/// Whether the reference names something and may stand behind those of the set.
fn extends(set: &Set, r: &Ref) -> bool
    ensures { IsTrue result ↔ Extends r.now set.now.refs }
{
    if is_nothing(r) {
        return false;
    }
    may_follow(set, r.key)
}

/// Fills an empty set with the longest front of the references that is a set. The error is the first of them that is
/// refused.
fn fill_front(b: &[u8], capacity: u8, set: &mut Set) -> Result<(), SetFault>
    requires known { (capacity ≡ 4) ⊎ (capacity ≡ 32) }
    requires whole { length b.now ≡ 128 * capacity }
    requires room { set.old.capacity ≡ capacity }
    requires empty { set.old.refs ≡ [] }
    ensures capacity { OnOk result (set.new.capacity ≡ capacity) }
    ensures found { OnOk result (IsFront capacity set.new.refs (places b.now)) }
    ensures fault { IfErr result (IsRefused capacity (places b.now)) }
{
    for i in 0..capacity as usize {
        let r = ref_at(b, i)?;
        if !extends(set, &r) {
            return Ok(());
        }
        set.put(r);
    }
    Ok(())
}

/// Decodes the references from a place on. The error is the first that is refused.
fn check_refs(b: &[u8], from: usize) -> Result<(), SetFault>
    requires few { length b.now ≤ 4096 }
    requires before { AreRefs from (places b.now) }
    ensures decoded { OnOk result (AreRefs (length b.now / 128) (places b.now)) }
    ensures fault { IfErr result (IsRefused (length b.now / 128) (places b.now)) }
{
    for i in from..b.len() / REF_BYTES {
        ref_at(b, i)?;
    }
    Ok(())
}

/// Sees that all references from a place on are empty ones. The error is the first that is refused, or else
/// Shape, where one names something.
fn check_rest(b: &[u8], from: usize) -> Result<(), SetFault>
    requires few { length b.now ≤ 4096 }
    requires before { AreRefs from (places b.now) }
    ensures empty { OnOk result (EmptyFrom from (length b.now / 128) (places b.now)) }
    ensures fault { IfErr result (IsRestFault from (length b.now / 128) (places b.now)) }
{
    for i in from..b.len() / REF_BYTES {
        let r = ref_at(b, i)?;
        if !is_nothing(&r) {
            check_refs(b, i + 1)?;
            return Err(SetFault::Shape);
        }
    }
    Ok(())
}

/// The set in 512 or 4096 bytes: its references in order, and then empty ones.
///
/// # Errors
/// `Reference` exactly where a reference isn't decoded; the first one is told by the place of its first byte.
/// Else `Shape` exactly where the references aren't those of a set followed by empty ones.
pub fn decode_set(b: &[u8]) -> Result<Set, SetFault>
    requires { (length b.now ≡ 512) ⊎ (length b.now ≡ 4096) }
    ensures capacity { IfOk result (λ s. 128 * s.capacity ≡ length b.now) }
    ensures found { IfOk result (λ s. IsSetAt s.capacity s.refs (places b.now)) }
    ensures fault { IfErr result (IsFaultOf (length b.now / 128) (places b.now)) }
{
    let capacity = (b.len() / REF_BYTES) as u8;
    let mut set = Set::new(capacity);
    fill_front(b, capacity, &mut set)?;
    match check_rest(b, set.len()) {
        Ok(()) => Ok(set),
        Err(fault) => Err(fault),
    }
}
