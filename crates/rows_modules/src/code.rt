// Bytes as text.
use std::alloc::{AllocError, Global};

/// Bytes in hexadecimal.
pub fn hex(alloc: Global, bytes: &[u8]) -> Result<String, AllocError> {
    let mut text = String::new(alloc);
    let mut gap = "";
    for byte in bytes {
        write!(text, "{gap}{byte:02x}")?;
        gap = " ";
    }
    Ok(text)
}
