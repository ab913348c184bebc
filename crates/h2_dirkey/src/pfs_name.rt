ghost use Rattle.std.specs.Prelude.{◌↔◌, IsTrue, All};
ghost use Rattle.h2_dirkey.specs.PfsName.{IsPfsNameByte, IsPfsName};

/// The greatest length of a PFS's name, in bytes.
pub const PFS_NAME_BYTES: usize = 64;

fn is_pfs_name_byte(byte: u8) -> bool
    ensures { IsTrue result ↔ IsPfsNameByte byte }
{
    match byte {
        b'0'..=b'9' | b'A'..=b'Z' | b'a'..=b'z' | b'.' | b'_' | b'-' => true,
        _ => false,
    }
}

fn are_pfs_name_bytes(bytes: &[u8]) -> bool
    ensures { IsTrue result ↔ All IsPfsNameByte bytes.now }
{
    for byte in bytes {
        if !is_pfs_name_byte(*byte) {
            return false;
        }
    }
    true
}

/// Whether a PFS may have the name: 1 to 64 bytes of letters, digits, `.`, `_` and `-`.
pub fn is_pfs_name(name: &[u8]) -> bool
    ensures { IsTrue result ↔ IsPfsName name.now }
{
    if name.is_empty() {
        return false;
    }
    if name.len() > PFS_NAME_BYTES {
        return false;
    }
    are_pfs_name_bytes(name)
}
