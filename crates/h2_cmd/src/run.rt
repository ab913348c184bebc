ghost use Rattle.std.specs.Prelude.{◌≡◌, ◌⊎◌, ◌≤◌, ◌+◌, ◌++◌, ◌∷◌, [], ℕ, IsTrue, IfOk, Contains, map};
ghost use Rattle.std.specs.String.{string_bytes};
ghost use Rattle.h2_num.specs.Causes.{Rose};
ghost use Rattle.h2_disk.specs.Trace.{IsDurable};
ghost use Rattle.h2_io.specs.Sink.{GrowsByFront};
ghost use Rattle.h2_checkpoint.specs.Stands.{disk_state};
ghost use Rattle.h2_geom.specs.Geometry.{IsZoneCount};
ghost use Rattle.h2_image.specs.VolumeFormat.{HasNoHeader};
ghost use Rattle.h2_cmd.specs.CommandLine.{Asks, AsksNothing};
ghost use Rattle.h2_cmd.specs.Formatting.{SameElsewhere, LeavesVolume, MakesVolume, FindsHeader, CutsFormat, moments_of};
ghost use Rattle.h2_cmd.specs.Lines.{sink_state, PrintsWhole, PrintsFront, Prints, PrintsSome, formatted_line, usage_line, disk_fault_line, already_line};
ghost use Rattle.h2_cmd.specs.Run.{Run, Ends, IsServed, EndsAs, CutsAs, SameElsewhereAs, LeavesVolumeAs};

use crate::command_line::{Request, read_words};
use crate::formatting::{Formatting, format_volume};
use crate::status::Status;
use h2_disk::{Disk, DiskFault};
use h2_io::{PutFault, Sink, print};
use std::alloc::{AllocError, Global};

/// How a run ended: the exit status, and the disk.
pub struct Outcome<D> {
    /// The exit status, as the table of [`run_alone`] has it.
    pub status: u8,
    /// The disk after the run.
    pub disk: D,
}

fn formatted_text(alloc: Global, zones: u32) -> Result<String, AllocError>
    requires { IsZoneCount zones }
    ensures { IfOk result (λ text. string_bytes text ≡ formatted_line zones) }
{
    let chunks = 2048 * zones;
    let reserved = 256 * zones;
    let free = 1792 * zones - 1;
    format!(in alloc; "formatted zones {zones} chunks {chunks} reserved {reserved} free {free}\n")
}

fn already_text(alloc: Global, number: u64) -> Result<String, AllocError>
    ensures { IfOk result (λ text. string_bytes text ≡ already_line number) }
{
    format!(in alloc; "already formatted: header {number}\n")
}

// Prints the line of a refusal, which stays the status also where the sink fails.
fn say_refusal<K: Sink>(out: &mut K, line: &[u8], status: Status) -> Status
    ensures said { (result ≡ Status.NoMemory) ⊎ ((result ≡ status)
        × (IsTrue K.tells → Prints line.now (sink_state K.held K.faults out.old) (sink_state K.held K.faults out.new))) }
    ensures memory { IsTrue K.never_wants_memory → result ≡ status }
    ensures front { IsTrue K.tells → GrowsByFront line.now (K.held out.old) (K.held out.new) }
    ensures later { K.faults out.old ≤ K.faults out.new }
{
    match print(out, line) {
        Ok(()) | Err(PutFault::Failed) => status,
        Err(PutFault::NoMemory) => Status::NoMemory,
    }
}

// Prints the line of a volume that was made.
fn say_formatted<K: Sink>(alloc: Global, zones: u32, out: &mut K) -> Status
    requires { IsZoneCount zones }
    ensures said { (result ≡ Status.NoMemory)
        ⊎ ((result ≡ Status.Done) × (IsTrue K.tells → PrintsWhole (formatted_line zones) (sink_state K.held K.faults out.old) (sink_state K.held K.faults out.new)))
        ⊎ ((result ≡ Status.SinkFault) × Rose (K.faults out.old) (K.faults out.new)
        × (IsTrue K.tells → PrintsFront (formatted_line zones) (sink_state K.held K.faults out.old) (sink_state K.held K.faults out.new))) }
    ensures front { IsTrue K.tells → GrowsByFront (formatted_line zones) (K.held out.old) (K.held out.new) }
    ensures later { K.faults out.old ≤ K.faults out.new }
{
    let Ok(line) = formatted_text(alloc, zones) else {
        return Status::NoMemory;
    };
    match print(out, line.as_bytes()) {
        Ok(()) => Status::Done,
        Err(PutFault::Failed) => Status::SinkFault,
        Err(PutFault::NoMemory) => Status::NoMemory,
    }
}

// Prints the line of an image that has a header already.
fn say_already<K: Sink>(alloc: Global, number: u64, out: &mut K) -> Status
    ensures said { (result ≡ Status.NoMemory) ⊎ ((result ≡ Status.AlreadyFormatted)
        × (IsTrue K.tells → Prints (already_line number) (sink_state K.held K.faults out.old) (sink_state K.held K.faults out.new))) }
    ensures front { IsTrue K.tells → GrowsByFront (already_line number) (K.held out.old) (K.held out.new) }
    ensures later { K.faults out.old ≤ K.faults out.new }
{
    let Ok(line) = already_text(alloc, number) else {
        return Status::NoMemory;
    };
    say_refusal(out, line.as_bytes(), Status::AlreadyFormatted)
}

// Formats, and prints what came of it.
fn run_format<D: Disk, K: Sink>(alloc: Global, zones: u32, disk: &mut D, out: &mut K) -> Status
    requires { IsZoneCount zones }
    ensures ends { Ends zones (record {
      disk_tells = D.tells;
      disk_old = disk_state D.image D.moment D.trace disk.old;
      disk_new = disk_state D.image D.moment D.trace disk.new;
      disk_faults_old = D.faults disk.old;
      disk_faults_new = D.faults disk.new;
      sink_tells = K.tells;
      sink_old = sink_state K.held K.faults out.old;
      sink_new = sink_state K.held K.faults out.new;
    }) result }
    ensures cuts { IsTrue D.tells → IsDurable (D.trace disk.old) (D.image disk.old) → HasNoHeader (D.image disk.old)
        → CutsFormat zones (disk_state D.image D.moment D.trace disk.old) (disk_state D.image D.moment D.trace disk.new) }
    ensures elsewhere { IsTrue D.tells → SameElsewhere zones (D.image disk.old) (D.image disk.new) }
    ensures untouched { IsTrue D.tells → LeavesVolume (disk_state D.image D.moment D.trace disk.old) (disk_state D.image D.moment D.trace disk.new) }
    ensures prints { IsTrue K.tells → PrintsSome (K.held out.old) (K.held out.new) }
    ensures time { D.moment disk.old ≤ D.moment disk.new }
    ensures disk_later { D.faults disk.old ≤ D.faults disk.new }
    ensures sink_later { K.faults out.old ≤ K.faults out.new }
{
    match format_volume(alloc, zones, disk) {
        Ok(Formatting::Made) => say_formatted(alloc, zones, out),
        Ok(Formatting::Already { number }) => say_already(alloc, number, out),
        Err(DiskFault::Failed) => say_refusal(out, b"disk fault\n", Status::DiskFault),
        Err(DiskFault::NoMemory) => Status::NoMemory,
    }
}

// Does what was asked for: one row for each command.
fn run_request<D: Disk, K: Sink>(
    alloc: Global,
    request: Request,
    disk: &mut D,
    out: &mut K,
) -> Status
    requires { IsServed request }
    ensures ends { EndsAs request (record {
      disk_tells = D.tells;
      disk_old = disk_state D.image D.moment D.trace disk.old;
      disk_new = disk_state D.image D.moment D.trace disk.new;
      disk_faults_old = D.faults disk.old;
      disk_faults_new = D.faults disk.new;
      sink_tells = K.tells;
      sink_old = sink_state K.held K.faults out.old;
      sink_new = sink_state K.held K.faults out.new;
    }) result }
    ensures cuts { IsTrue D.tells → IsDurable (D.trace disk.old) (D.image disk.old) → HasNoHeader (D.image disk.old)
        → CutsAs request (disk_state D.image D.moment D.trace disk.old) (disk_state D.image D.moment D.trace disk.new) }
    ensures elsewhere { IsTrue D.tells → SameElsewhereAs request (D.image disk.old) (D.image disk.new) }
    ensures untouched { IsTrue D.tells → LeavesVolumeAs request (disk_state D.image D.moment D.trace disk.old) (disk_state D.image D.moment D.trace disk.new) }
    ensures prints { IsTrue K.tells → PrintsSome (K.held out.old) (K.held out.new) }
    ensures time { D.moment disk.old ≤ D.moment disk.new }
    ensures disk_later { D.faults disk.old ≤ D.faults disk.new }
    ensures sink_later { K.faults out.old ≤ K.faults out.new }
{
    match request {
        Request::Format { zones } => run_format(alloc, zones, disk, out),
    }
}

/// Runs the command that the words ask for on a disk, prints its line, and answers how it ended.
///
/// | Status | Comes | Line |
/// |---|---|---|
/// | 0 | the volume was made and is durable | `formatted zones Z chunks C reserved R free F` |
/// | 1 | only where the words ask for nothing; the disk is as it was | `usage: h2 COMMAND IMAGE [ARGUMENTS]` |
/// | 4 | only where the sink's count of faults rose; the volume was made | a front of that line |
/// | 5 | only where the disk's count of faults rose | `disk fault` |
/// | 7 | memory was wanting, which no clause ties to a cause | a front of one of these lines, or nothing |
/// | 8 | the image has a header; the disk is as it was | `already formatted: header N`, the newest one's number |
///
/// The first cause in the order words, disk, sink decides. Where the sink fails, a front of the line of
/// the status was printed. Words that ask for nothing give 1 where the sink never wants memory. A power cut
/// at any moment of a run on a durable image without a header leaves no header, or the new volume. An
/// image that has a header is left as it was, whatever the status.
pub fn run_alone<D: Disk, K: Sink>(
    alloc: Global,
    words: &[String],
    disk: D,
    out: &mut K,
) -> Outcome<D>
    ensures known { Contains (0 ∷ 1 ∷ 4 ∷ 5 ∷ 7 ∷ 8 ∷ []) result.status }

    // The words come first.
    ensures usage { result.status ≡ 1 → AsksNothing (map string_bytes words.now) }
    ensures asks_nothing { AsksNothing (map string_bytes words.now) → ((result.status ≡ 1) ⊎ (result.status ≡ 7)) × (result.disk ≡ disk) }
    ensures usage_memory { AsksNothing (map string_bytes words.now) → IsTrue K.never_wants_memory → result.status ≡ 1 }
    ensures usage_line { result.status ≡ 1 → IsTrue K.tells → Prints usage_line (sink_state K.held K.faults out.old) (sink_state K.held K.faults out.new) }

    // Then the disk: a fault has its cause, and a header that stands there is left as it is.
    ensures disk_fault { result.status ≡ 5 → Rose (D.faults disk) (D.faults result.disk) }
    ensures disk_fault_line { result.status ≡ 5 → IsTrue K.tells → Prints disk_fault_line (sink_state K.held K.faults out.old) (sink_state K.held K.faults out.new) }
    ensures already { result.status ≡ 8 → (number : ℕ)
        × (IsTrue D.tells → FindsHeader number (disk_state D.image D.moment D.trace disk) (disk_state D.image D.moment D.trace result.disk))
        × (IsTrue K.tells → Prints (already_line number) (sink_state K.held K.faults out.old) (sink_state K.held K.faults out.new))
        × (D.moment result.disk ≡ D.moment disk) }

    // Then the sink.
    ensures sink_fault { result.status ≡ 4 → Rose (K.faults out.old) (K.faults out.new) }
    ensures sink_fault_line { (zones : ℕ) → Asks (map string_bytes words.now) (Request.Format zones) → result.status ≡ 4 → IsTrue K.tells
        → PrintsFront (formatted_line zones) (sink_state K.held K.faults out.old) (sink_state K.held K.faults out.new) }
    ensures formatted_line { (zones : ℕ) → Asks (map string_bytes words.now) (Request.Format zones) → result.status ≡ 0 → IsTrue K.tells
        → PrintsWhole (formatted_line zones) (sink_state K.held K.faults out.old) (sink_state K.held K.faults out.new) }

    // With status 0 or 4 there was no header, and the new volume stands and is durable.
    ensures formatted { (zones : ℕ) → Asks (map string_bytes words.now) (Request.Format zones) → (result.status ≡ 0) ⊎ (result.status ≡ 4) → IsTrue D.tells
        → MakesVolume zones (disk_state D.image D.moment D.trace disk) (disk_state D.image D.moment D.trace result.disk) }
    ensures moments { (zones : ℕ) → Asks (map string_bytes words.now) (Request.Format zones) → (result.status ≡ 0) ⊎ (result.status ≡ 4)
        → D.moment result.disk ≡ D.moment disk + moments_of zones }

    // Right words, no header and no fault give 0 or 7.
    ensures complete { (zones : ℕ) → Asks (map string_bytes words.now) (Request.Format zones) → IsTrue D.tells → HasNoHeader (D.image disk)
        → (Rose (D.faults disk) (D.faults result.disk) → ⊥) → (Rose (K.faults out.old) (K.faults out.new) → ⊥) → (result.status ≡ 0) ⊎ (result.status ≡ 7) }

    // A power cut at any moment leaves no header, or the new volume; all other bytes stay.
    ensures cuts { (zones : ℕ) → Asks (map string_bytes words.now) (Request.Format zones) → IsTrue D.tells
        → IsDurable (D.trace disk) (D.image disk) → HasNoHeader (D.image disk)
        → CutsFormat zones (disk_state D.image D.moment D.trace disk) (disk_state D.image D.moment D.trace result.disk) }
    ensures elsewhere { (zones : ℕ) → Asks (map string_bytes words.now) (Request.Format zones) → IsTrue D.tells
        → SameElsewhere zones (D.image disk) (D.image result.disk) }

    // An image that has a header is left as it was, whatever the status.
    ensures untouched { (zones : ℕ) → Asks (map string_bytes words.now) (Request.Format zones) → IsTrue D.tells
        → LeavesVolume (disk_state D.image D.moment D.trace disk) (disk_state D.image D.moment D.trace result.disk) }

    // Whatever the status, at most a line was printed.
    ensures prints { IsTrue K.tells → PrintsSome (K.held out.old) (K.held out.new) }

    ensures time { D.moment disk ≤ D.moment result.disk }
    ensures disk_later { D.faults disk ≤ D.faults result.disk }
    ensures sink_later { K.faults out.old ≤ K.faults out.new }
{
    match read_words(words) {
        Some(request) => {
            let mut disk = disk;
            let status = run_request(alloc, request, &mut disk, out);
            Outcome {
                status: status.code(),
                disk,
            }
        }
        None => {
            let status = say_refusal(out, b"usage: h2 COMMAND IMAGE [ARGUMENTS]\n", Status::Usage);
            Outcome {
                status: status.code(),
                disk,
            }
        }
    }
}
