ghost use Rattle.std.specs.Prelude.{◌≡◌, ◌≤◌, IsTrue, IfSome, length};
ghost use Rattle.h2_ref.specs.declared.reference.Kind.TheVariants.{Content};
ghost use Rattle.h2_set.specs.SetBytes.{IsHeld};
ghost use Rattle.h2_file.specs.Cutting.{IsCutBlock};
ghost use Rattle.h2_file.specs.Linking.{IsBlock, FollowFrom, IsRun, AreBlocks};
ghost use Rattle.h2_file_rows.specs.FileUnderTest.{AreEachBlocks};

use h2_file::BLOCK_BYTES;
use h2_num::NoMemory;
use h2_ref::{Check, Kind, Ref};
use std::alloc::Global;

/// Where the blocks of contents lie: a place of a block of 16 KiB.
const PLACE: u64 = 1 << 24;

/// The base-2 logarithm of the bytes of a block.
const BLOCK_BITS: u8 = 14;

/// The reference of a file's block with a number, in one of its versions.
pub(super) fn content(block: u64, version: u64) -> Ref {
    Ref {
        kind: Kind::Content,
        key: block.saturating_mul(BLOCK_BYTES),
        keybits: BLOCK_BITS,
        place: PLACE,
        radix: BLOCK_BITS,
        id: version,
        check: Check::Xx(0),
        dirent: None,
    }
}

/// Consecutive blocks of a file, in one version.
#[derive(Clone, Copy, Debug, PartialEq, Eq)]
pub(super) struct Run {
    pub first: u64,
    pub count: u64,
    pub version: u64,
}

impl Run {
    /// The references of the blocks.
    pub fn refs(self, alloc: Global) -> Result<Vec<Ref>, NoMemory> {
        let mut refs = Vec::new(alloc);
        for i in 0..self.count {
            refs.push(content(self.first.saturating_add(i), self.version))?;
        }
        Ok(refs)
    }

    /// The references of the blocks, with that of block 0 before them.
    pub fn refs_behind_zero(self, alloc: Global) -> Result<Vec<Ref>, NoMemory> {
        let mut refs = Vec::new(alloc);
        refs.push(content(0, self.version))?;
        for i in 0..self.count {
            refs.push(content(self.first.saturating_add(i), self.version))?;
        }
        Ok(refs)
    }

    /// Where the last block ends.
    pub fn end(self) -> u64 {
        self.first
            .saturating_add(self.count)
            .saturating_mul(BLOCK_BYTES)
    }
}

// Whether a reference is that of a block of contents, which can be written.
fn is_content(r: &Ref) -> bool
    ensures kind { IsTrue result → r.now.kind ≡ Content }
    ensures held { IsTrue result → IsHeld r.now }
{
    if r.kind != Kind::Content {
        return false;
    }
    r.valid()
}

// Whether a reference may be put into a file.
fn is_block(r: &Ref) -> bool
    ensures { IsTrue result → IsBlock r.now }
{
    if !is_content(r) {
        return false;
    }
    if r.keybits != BLOCK_BITS {
        return false;
    }
    if r.key % BLOCK_BYTES != 0 {
        return false;
    }
    r.key < 1 << 62
}

// Whether each of the references may be put into a file.
fn are_each_blocks(refs: &[Ref]) -> bool
    ensures { IsTrue result → AreEachBlocks refs.now }
{
    for i in 0..refs.len() {
        if !is_block(&refs[i]) {
            return false;
        }
    }
    true
}

// Whether the keys are those of consecutive blocks, from this one on.
fn follow_from(refs: &[Ref], first: u64) -> bool
    ensures { IsTrue result → FollowFrom first refs.now }
{
    let mut rest = refs;
    let mut key = first;
    while let Some((r, tail)) = rest.split_first() {
        if r.key != key {
            return false;
        }
        if key >= 1 << 62 {
            return false;
        }
        key += BLOCK_BYTES;
        rest = tail;
    }
    true
}

// Whether the keys are those of at most 65 consecutive blocks.
fn are_consecutive(refs: &[Ref], first: u64) -> bool
    ensures follow { IsTrue result → FollowFrom first refs.now }
    ensures few { IsTrue result → length refs.now ≤ 65 }
{
    if refs.len() > 65 {
        return false;
    }
    follow_from(refs, first)
}

// Whether the keys are those of at most 65 consecutive blocks, before which block 0 may stand.
fn is_run(refs: &[Ref]) -> bool
    ensures { IsTrue result → IsRun refs.now }
{
    let Some((r, rest)) = refs.split_first() else {
        return true;
    };
    if are_consecutive(refs, r.key) {
        return true;
    }
    if r.key != 0 {
        return false;
    }
    let Some((next, _)) = rest.split_first() else {
        return false;
    };
    if next.key == 0 {
        return false;
    }
    are_consecutive(rest, next.key)
}

/// Whether the references may be put into a file.
pub(super) fn are_blocks(refs: &[Ref]) -> bool
    ensures { IsTrue result → AreBlocks refs.now }
{
    if !are_each_blocks(refs) {
        return false;
    }
    is_run(refs)
}

/// The reference of the block in which a cut to the size ends, in a version. None where the cut ends at a block's edge.
pub(super) fn cut_block(size: u64, version: u64) -> Option<Ref>
    ensures { IfSome result (IsCutBlock size) }
{
    let r = content(size / BLOCK_BYTES, version);
    if !is_block(&r) {
        return None;
    }
    if r.key >= size {
        return None;
    }
    if r.key + BLOCK_BYTES <= size {
        return None;
    }
    Some(r)
}
