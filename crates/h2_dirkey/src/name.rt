ghost use Rattle.std.specs.Prelude.{MatchResult};
ghost use Rattle.h2_dirkey.specs.Name.{IsName, IsFaultOf};

use crate::name_fault::NameFault;

/// The greatest length of a name, in bytes.
pub const NAME_BYTES: usize = 255;

/// Whether a directory's entry may have the name: 1 to 255 bytes, no slash, no zero byte, and neither
/// `.` nor `..`. What is wrong first is the error.
pub fn check_name(name: &[u8]) -> Result<(), NameFault>
    ensures { MatchResult result (λ _. IsName name.now) (λ fault. IsFaultOf name.now fault) }
{
    if name.is_empty() {
        return Err(NameFault::Empty);
    }
    if name.len() > NAME_BYTES {
        return Err(NameFault::Long(name.len()));
    }
    if name.contains(&b'/') {
        return Err(NameFault::Slash);
    }
    if name.contains(&0) {
        return Err(NameFault::Zero);
    }
    if matches!(name, b"." | b"..") {
        return Err(NameFault::Dot);
    }
    Ok(())
}
