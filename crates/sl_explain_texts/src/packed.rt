//! Files that are compressed, or no text in UTF-8, by their first bytes.

// The first bytes of compressed files, and what the compression is called.
const PACKED: [(&[u8], &str); 7] = [
    (b"PK\x03\x04", "zip"),
    (b"PK\x05\x06", "zip"),
    (b"\x1F\x8B", "gzip"),
    (b"BZh", "bzip2"),
    (b"\xFD7zXZ\x00", "xz"),
    (b"7z\xBC\xAF\x27\x1C", "7z"),
    (b"\x28\xB5\x2F\xFD", "zstd"),
];

/// How a file that begins with these bytes is compressed, such as `gzip`, if it is. A workbook (.xlsx, .ods) is a `zip`.
pub fn packing_of(bytes: &[u8]) -> Option<&'static str> {
    for (start, name) in PACKED {
        if bytes.starts_with(start) {
            return Some(name);
        }
    }
    None
}

/// Whether bytes are of a text in UTF-16: after a byte order mark, or with a byte 0 in one of its first two.
pub fn is_utf16(bytes: &[u8]) -> bool {
    let has_mark = bytes.starts_with(b"\xFF\xFE") || bytes.starts_with(b"\xFE\xFF");
    has_mark || bytes.iter().take(2).any(|byte| *byte == 0)
}
