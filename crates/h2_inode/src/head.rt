ghost use Rattle.std.specs.Prelude.{◌≡◌, ◌↔◌, ◌≤◌, ◌<◌, ℕ, List, [], take, drop, length, IsTrue, IfOk, IfErr, IfSome, OnOk, MatchOption};
ghost use Rattle.h2_num.specs.Places.{places, number_at};
ghost use Rattle.h2_dirkey.specs.PfsName.{IsPfsName};
ghost use Rattle.h2_inode.specs.Head.{HasBody, HasLinks, HasNumber, HasSize, HasNext, HasName, IsNameOf, HeadFits, IsHeadFault, IsFirstPadding, HasZeros, ToName, zeros_from, body_of};

use crate::fault::InodeFault;
use crate::kind::InodeKind;
use crate::layout::{
    BODY_AT, BODY_END, CONTENTS_AT, INODE_BYTES, LINKS_AT, NAME_AT, NAME_LEN_AT, NAME_LEN_END,
    NEXT_AT, NUMBER_AT, SIZE_AT,
};
use crate::limits::{NUMBERS, limits_of};
use crate::pfs_name::PfsName;
use h2_dirkey::{PFS_NAME_BYTES, is_pfs_name};
use h2_num::{first_nonzero, get16, get32, get64};
use h2_ref::in_span;

/// The greatest size of a file whose bytes lie in its inode.
pub const EMBEDDED_BYTES: u64 = 512;

/// The number of the body that a kind has at a size: 0 for references, 1 for bytes.
pub fn body_of(kind: InodeKind, size: u64) -> u8
    ensures { result ≡ body_of kind size }
{
    match kind {
        InodeKind::File if size <= EMBEDDED_BYTES => 1,
        _ => 0,
    }
}

/// Where the zeros begin that end the block: behind a file's bytes, or nowhere where references stand.
fn zeros_from(kind: InodeKind, size: u64) -> usize
    ensures from { result ≡ zeros_from kind size }
    ensures low { 512 ≤ result }
    ensures high { result ≤ 1024 }
{
    match kind {
        InodeKind::File if size <= EMBEDDED_BYTES => CONTENTS_AT + size as usize,
        _ => INODE_BYTES,
    }
}

/// The name of a kind that has none; None where the length says otherwise.
fn no_name(len: usize) -> Option<PfsName>
    ensures { MatchOption result (0 < len) (λ name. (len ≡ 0) × (name ≡ [])) }
{
    if len == 0 {
        Some(PfsName::empty())
    } else {
        None
    }
}

/// So many bytes from the name's place on.
fn name_bytes(b: &[u8; INODE_BYTES], len: usize) -> &[u8]
    requires { len ≤ 64 }
    ensures { result.now ≡ take len (drop 48 b.now) }
{
    let (_, from_name) = b.split_at(NAME_AT);
    from_name.split_at(len).0
}

/// The name of a PFS in the bytes. None exactly where no name that a PFS may have stands there.
fn pfs_name_at(b: &[u8; INODE_BYTES], len: usize) -> Option<PfsName>
    requires { len ≡ number_at (places b.now) 32 2 }
    ensures { MatchOption result ((name : List ℕ) → HasName name (places b.now) → IsPfsName name → ⊥)
        (λ name. HasName name (places b.now) × IsPfsName name) }
{
    if len > PFS_NAME_BYTES {
        return None;
    }
    let name = name_bytes(b, len);
    if !is_pfs_name(name) {
        return None;
    }
    PfsName::from_slice(name)
}

/// The name in the bytes. None exactly where no name that the kind allows stands there.
fn name_at(kind: InodeKind, b: &[u8; INODE_BYTES]) -> Option<PfsName>
    ensures { MatchOption result ((name : List ℕ) → HasName name (places b.now) → IsNameOf kind name → ⊥)
        (λ name. HasName name (places b.now) × IsNameOf kind name) }
{
    let len = get16(b, NAME_LEN_AT) as usize;
    match kind {
        InodeKind::Directory | InodeKind::File => no_name(len),
        InodeKind::Pfs => pfs_name_at(b, len),
    }
}

/// The first place that must be zero and isn't.
fn first_padding(kind: InodeKind, b: &[u8; INODE_BYTES]) -> Option<usize>
    requires { number_at (places b.now) 32 2 ≤ 64 }
    ensures place { MatchOption result (HasZeros kind (places b.now)) (IsFirstPadding kind (places b.now)) }
    ensures within { IfSome result (λ at. at < 1024) }
{
    let in_fields = first_nonzero(b, BODY_END, LINKS_AT);
    if in_fields.is_some() {
        return in_fields;
    }
    let before_name = first_nonzero(b, NAME_LEN_END, NAME_AT);
    if before_name.is_some() {
        return before_name;
    }
    let behind_name = first_nonzero(b, NAME_AT + get16(b, NAME_LEN_AT) as usize, CONTENTS_AT);
    if behind_name.is_some() {
        return behind_name;
    }
    first_nonzero(b, zeros_from(kind, get64(b, SIZE_AT)), INODE_BYTES)
}

/// The first fault up to the next inode number.
fn check_numbers(kind: InodeKind, b: &[u8; INODE_BYTES]) -> Result<(), InodeFault>
    ensures fits { OnOk result (ToName kind (places b.now)) }
    ensures fault { IfErr result (IsHeadFault kind (places b.now)) }
{
    let limits = limits_of(kind);
    let size = get64(b, SIZE_AT);
    if b[BODY_AT] != body_of(kind, size) {
        return Err(InodeFault::Body);
    }
    let links = get32(b, LINKS_AT);
    if !in_span(limits.links, links as u64) {
        return Err(InodeFault::Links(links));
    }
    if !in_span(NUMBERS, get64(b, NUMBER_AT)) {
        return Err(InodeFault::Number);
    }
    if !in_span(limits.sizes, size) {
        return Err(InodeFault::Size(size));
    }
    if !in_span(limits.nexts, get64(b, NEXT_AT)) {
        return Err(InodeFault::Next);
    }
    Ok(())
}

/// The name of an inode of a kind whose fields and zeros before its references are in order, or the first
/// fault of them.
pub fn check_head(kind: InodeKind, b: &[u8; INODE_BYTES]) -> Result<PfsName, InodeFault>
    ensures fits { IfOk result (λ name. HeadFits kind name (places b.now)) }
    ensures fault { IfErr result (IsHeadFault kind (places b.now)) }
{
    check_numbers(kind, b)?;
    let Some(name) = name_at(kind, b) else {
        return Err(InodeFault::Name);
    };
    match first_padding(kind, b) {
        Some(at) => Err(InodeFault::Padding(at as u16)),
        None => Ok(name),
    }
}
