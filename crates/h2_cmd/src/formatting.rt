ghost use Rattle.std.specs.Prelude.{◌≡◌, ◌≤◌, ◌<◌, ◌+◌, ◌*◌, ◌^◌, ℕ, IsTrue, IfOk, IfErr, OnOk, OnErr, MatchOption, length};
ghost use Rattle.h2_num.specs.Places.{Places};
ghost use Rattle.h2_disk.specs.Disk.{HasCause, CountsWants, MayCountWants, Keeps};
ghost use Rattle.h2_disk.specs.Trace.{IsDurable};
ghost use Rattle.h2_checkpoint.specs.Stands.{disk_state};
ghost use Rattle.h2_geom.specs.Geometry.{IsZoneCount};
ghost use Rattle.h2_image.specs.VolumeFormat.{HasNoHeader};
ghost use Rattle.h2_cmd.specs.Planning.{IsPlanned};
ghost use Rattle.h2_cmd.specs.Formatting.{IsSlotHeader, AreSlotHeaders, IsNewestNumber, SameElsewhere, LeavesVolume, MakesVolume, DoesFormat, TakesMoments, CutsFormat, moments_of};

use crate::planning::{Plan, plan_volume};
use h2_checkpoint::make;
use h2_disk::{Disk, DiskFault};
use h2_geom::header_place;
use h2_header::{HEADER_BYTES, Header, SLOTS, newest, read_from, write_into};
use h2_image::Volume;
use std::alloc::Global;

// The slot of the first header.
const FIRST_SLOT_PLACE: u64 = 0;

/// What formatting did.
#[derive(Clone, Copy, Debug, PartialEq, Eq)]
pub enum Formatting {
    /// The volume was made, and is durable.
    Made,
    /// The image has a header already, and is as it was.
    Already { number: u64 },
}

// The header in a slot, if there is one.
fn read_slot<D: Disk>(
    disk: &mut D,
    slot: u32,
    block: &mut [u8],
) -> Result<Option<Header>, DiskFault>
    requires slot { slot < 4 }
    requires size { length block.old ≡ 65536 }
    ensures header { IfOk result (λ found. IsTrue D.tells → IsSlotHeader (D.image disk.old) slot found) }
    ensures keeps { IsTrue D.tells → Keeps (D.image disk.old) (D.image disk.new) (D.trace disk.old) (D.trace disk.new) }
    ensures time { D.moment disk.new ≡ D.moment disk.old }
    ensures later { D.faults disk.old ≤ D.faults disk.new }
    ensures cause { IfErr result (λ fault. HasCause (D.faults disk.old) (D.faults disk.new) fault) }
    ensures memory { CountsWants (D.wants disk.old) (D.wants disk.new) result }
{
    if let Err(fault) = disk.read(header_place(slot), block) {
        return Err(fault);
    }
    Ok(read_from(block, slot).ok())
}

// The headers in the four slots.
fn read_slots<D: Disk>(disk: &mut D, block: &mut [u8]) -> Result<[Option<Header>; SLOTS], DiskFault>
    requires size { length block.old ≡ 65536 }
    ensures headers { IfOk result (λ headers. IsTrue D.tells → AreSlotHeaders 4 (D.image disk.old) headers) }
    ensures keeps { IsTrue D.tells → Keeps (D.image disk.old) (D.image disk.new) (D.trace disk.old) (D.trace disk.new) }
    ensures time { D.moment disk.new ≡ D.moment disk.old }
    ensures later { D.faults disk.old ≤ D.faults disk.new }
    ensures cause { IfErr result (λ fault. HasCause (D.faults disk.old) (D.faults disk.new) fault) }
    ensures memory { CountsWants (D.wants disk.old) (D.wants disk.new) result }
{
    let mut headers = [None; SLOTS];
    for slot in 0..4u32 {
        match read_slot(disk, slot, block) {
            Ok(found) => headers[slot as usize] = found,
            Err(fault) => return Err(fault),
        }
    }
    Ok(headers)
}

// The number of the newest header of the slots, if there is a header.
fn newest_number(headers: &[Option<Header>; SLOTS]) -> Option<u64>
    ensures { (image : Places) → AreSlotHeaders 4 image headers.now → IsNewestNumber image result }
{
    let Some(slot) = newest(headers) else {
        return None;
    };
    match headers[slot] {
        Some(header) => Some(header.number),
        None => None,
    }
}

/// The number of the newest header of an image, or None where no slot has a header. The block has the
/// bytes of a header. It takes no memory of its own: memory is wanting exactly where the disk answered so.
pub fn find_newest<D: Disk>(disk: &mut D, block: &mut [u8]) -> Result<Option<u64>, DiskFault>
    requires size { length block.old ≡ 65536 }
    ensures number { IfOk result (λ found. IsTrue D.tells → IsNewestNumber (D.image disk.old) found) }
    ensures keeps { IsTrue D.tells → Keeps (D.image disk.old) (D.image disk.new) (D.trace disk.old) (D.trace disk.new) }
    ensures time { D.moment disk.new ≡ D.moment disk.old }
    ensures later { D.faults disk.old ≤ D.faults disk.new }
    ensures cause { IfErr result (λ fault. HasCause (D.faults disk.old) (D.faults disk.new) fault) }
    ensures memory { CountsWants (D.wants disk.old) (D.wants disk.new) result }
{
    match read_slots(disk, block) {
        Ok(headers) => Ok(newest_number(&headers)),
        Err(fault) => Err(fault),
    }
}

// Writes a planned volume: its blocks, a sync, its header, a sync.
fn write_plan<D: Disk>(
    disk: &mut D,
    plan: &Plan,
    zones: u32,
    block: &mut [u8],
) -> Result<(), DiskFault>
    requires planned { IsPlanned zones plan.now.pieces.items plan.now.header }
    requires size { length block.old ≡ 65536 }
    ensures made { OnOk result (IsTrue D.tells → HasNoHeader (D.image disk.old)
        → MakesVolume zones (disk_state D.image D.moment D.trace disk.old) (disk_state D.image D.moment D.trace disk.new)) }
    ensures cuts { IsTrue D.tells → IsDurable (D.trace disk.old) (D.image disk.old) → HasNoHeader (D.image disk.old)
        → CutsFormat zones (disk_state D.image D.moment D.trace disk.old) (disk_state D.image D.moment D.trace disk.new) }
    ensures elsewhere { IsTrue D.tells → SameElsewhere zones (D.image disk.old) (D.image disk.new) }
    ensures time { OnOk result (D.moment disk.new ≡ D.moment disk.old + moments_of zones) }
    ensures time_failed { OnErr result (D.moment disk.old ≤ D.moment disk.new) }
    ensures later { D.faults disk.old ≤ D.faults disk.new }
    ensures cause { IfErr result (λ fault. HasCause (D.faults disk.old) (D.faults disk.new) fault) }
    ensures memory { CountsWants (D.wants disk.old) (D.wants disk.new) result }
{
    write_into(&plan.header, block);
    if let Err(fault) = make::<D, Volume>(disk, &plan.pieces, FIRST_SLOT_PLACE, block) {
        return Err(fault);
    }
    Ok(())
}

/// Makes a volume of so many zones of 32 MiB where the image has no header.
///
/// It reads the four slots of headers, and where there is none it writes the blocks and then, between two
/// syncs, the header. A power cut at any moment leaves no header, or this volume.
pub fn format_volume<D: Disk>(
    alloc: Global,
    zones: u32,
    disk: &mut D,
) -> Result<Formatting, DiskFault>
    requires { IsZoneCount zones }
    ensures does { IfOk result (λ formatting. IsTrue D.tells
        → DoesFormat zones (disk_state D.image D.moment D.trace disk.old) (disk_state D.image D.moment D.trace disk.new) formatting) }
    ensures cuts { IsTrue D.tells → IsDurable (D.trace disk.old) (D.image disk.old) → HasNoHeader (D.image disk.old)
        → CutsFormat zones (disk_state D.image D.moment D.trace disk.old) (disk_state D.image D.moment D.trace disk.new) }
    ensures elsewhere { IsTrue D.tells → SameElsewhere zones (D.image disk.old) (D.image disk.new) }
    ensures untouched { IsTrue D.tells → LeavesVolume (disk_state D.image D.moment D.trace disk.old) (disk_state D.image D.moment D.trace disk.new) }
    ensures time { IfOk result (λ formatting. TakesMoments zones (D.moment disk.old) (D.moment disk.new) formatting) }
    ensures time_failed { OnErr result (D.moment disk.old ≤ D.moment disk.new) }
    ensures later { D.faults disk.old ≤ D.faults disk.new }
    ensures cause { IfErr result (λ fault. HasCause (D.faults disk.old) (D.faults disk.new) fault) }
    ensures memory { MayCountWants (D.wants disk.old) (D.wants disk.new) result }
{
    let Ok(mut block) = vec![in alloc; 0u8; HEADER_BYTES] else {
        return Err(DiskFault::NoMemory);
    };
    let found = match find_newest(disk, &mut block) {
        Ok(found) => found,
        Err(fault) => return Err(fault),
    };
    if let Some(number) = found {
        return Ok(Formatting::Already { number });
    }
    if let Err(fault) = make_volume(alloc, zones, disk, &mut block) {
        return Err(fault);
    }
    Ok(Formatting::Made)
}

// Plans the volume and writes it.
fn make_volume<D: Disk>(
    alloc: Global,
    zones: u32,
    disk: &mut D,
    block: &mut [u8],
) -> Result<(), DiskFault>
    requires zones { IsZoneCount zones }
    requires size { length block.old ≡ 65536 }
    ensures makes { OnOk result (IsTrue D.tells → HasNoHeader (D.image disk.old)
        → MakesVolume zones (disk_state D.image D.moment D.trace disk.old) (disk_state D.image D.moment D.trace disk.new)) }
    ensures cuts { IsTrue D.tells → IsDurable (D.trace disk.old) (D.image disk.old) → HasNoHeader (D.image disk.old)
        → CutsFormat zones (disk_state D.image D.moment D.trace disk.old) (disk_state D.image D.moment D.trace disk.new) }
    ensures elsewhere { IsTrue D.tells → SameElsewhere zones (D.image disk.old) (D.image disk.new) }
    ensures time { OnOk result (D.moment disk.new ≡ D.moment disk.old + moments_of zones) }
    ensures time_failed { OnErr result (D.moment disk.old ≤ D.moment disk.new) }
    ensures later { D.faults disk.old ≤ D.faults disk.new }
    ensures cause { IfErr result (λ fault. HasCause (D.faults disk.old) (D.faults disk.new) fault) }
    ensures memory { MayCountWants (D.wants disk.old) (D.wants disk.new) result }
{
    let Ok(plan) = plan_volume(alloc, zones) else {
        return Err(DiskFault::NoMemory);
    };
    if let Err(fault) = write_plan(disk, &plan, zones, block) {
        return Err(fault);
    }
    Ok(())
}
