//! Files that are packed.

/// The name of the packing that begins with these bytes, if they are those of a kind that is known.
pub fn packing_of(bytes: &[u8; 6]) -> Option<&'static str> {
    if bytes.starts_with(b"\xfd7zXZ\0") {
        Some("xz")
    } else if bytes.starts_with(b"\x1f\x8b") {
        Some("gzip")
    } else if bytes.starts_with(b"\x28\xb5\x2f\xfd") {
        Some("zstd")
    } else if bytes.starts_with(b"BZh") {
        Some("bzip2")
    } else if bytes.starts_with(b"PK\x03\x04") {
        Some("zip")
    } else {
        None
    }
}
