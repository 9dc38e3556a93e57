// Numbers in bytes.
#![tactic(auto, unfolding(format::specs::Bytes::le16, format::specs::Bytes::le32, format::specs::Bytes::be16, format::specs::Bytes::be32, format::specs::Bytes::to_le16, format::specs::Bytes::to_le32, format::specs::Bytes::to_be32, format::specs::Bytes::over, crate::specs::Four::to_le64))]

ghost use Rattle.std.specs.Prelude.{◌≡◌, ◌≤◌, ◌<◌, length, take};
ghost use Rattle.format.specs.Bytes.{le16, le32, be16, be32, to_le16, to_le32, to_be32, over};
ghost use Rattle.number.specs.Four.{Four, to_le64};

// A byte as a length or an index.
pub fn index(x: u8) -> usize
    ensures { (result ≡ x) × (result < 256) }
{
    usize::from(x)
}

// A byte as a number to compute with.
pub fn wide(x: u8) -> u32
    ensures { (result ≡ x) × (result < 256) }
{
    u32::from(x)
}

// The number in the first two bytes of s, the lowest first.
pub fn get_le16(s: &[u8]) -> u32
    requires { 2 ≤ length s.now }
    ensures { (result ≡ le16 s.now) × (result < 65536) }
{
    u32::from(u16::from_le_bytes([s[0], s[1]]))
}

// The number in the first four bytes of s, the lowest first, and that they are bytes: so
// the number tells them apart.
pub fn get_le32(s: &[u8]) -> u32
    requires { 4 ≤ length s.now }
    ensures { (result ≡ le32 s.now) × Four s.now }
{
    u32::from_le_bytes([s[0], s[1], s[2], s[3]])
}

// The number in the first two bytes of s, the highest first.
pub fn get_be16(s: &[u8]) -> u32
    requires { 2 ≤ length s.now }
    ensures { (result ≡ be16 s.now) × (result < 65536) }
{
    u32::from(u16::from_be_bytes([s[0], s[1]]))
}

// The number in the first four bytes of s, the highest first.
pub fn get_be32(s: &[u8]) -> u32
    requires { 4 ≤ length s.now }
    ensures { result ≡ be32 s.now }
{
    u32::from_be_bytes([s[0], s[1], s[2], s[3]])
}

// The lowest 16 bits of n as bytes, the lowest first.
pub fn le16_bytes(n: u32) -> [u8; 2]
    ensures { result ≡ to_le16 n }
{
    let low = n.to_le_bytes();
    [low[0], low[1]]
}

// n as bytes, the lowest first.
pub fn le32_bytes(n: u32) -> [u8; 4]
    ensures { result ≡ to_le32 n }
{
    n.to_le_bytes()
}

// n as bytes, the highest first.
pub fn be32_bytes(n: u32) -> [u8; 4]
    ensures { result ≡ to_be32 n }
{
    n.to_be_bytes()
}

// ---- numbers over the front of a slice, a word at a time

// A byte as a long number to compute with.
pub fn long(x: u8) -> u64
    ensures { (result ≡ x) × (result < 256) }
{
    u64::from(x)
}

// The four bytes of n the other way about.
pub fn swap32(n: u32) -> u32
    ensures { to_le32 result ≡ to_be32 n }
{
    n.swap_bytes()
}

// n over the first four bytes of s, the lowest first.
pub fn put_le32(s: &mut [u8], n: u32)
    requires { 4 ≤ length s.old }
    ensures { s.new ≡ over (to_le32 n) s.old }
{
    s[..4].copy_from_slice(&n.to_le_bytes());
}

// n over the first four bytes of s, the highest first.
pub fn put_be32(s: &mut [u8], n: u32)
    requires { 4 ≤ length s.old }
    ensures { s.new ≡ over (to_be32 n) s.old }
{
    s[..4].copy_from_slice(&n.to_be_bytes());
}

// The first eight bytes of s as one number.
pub fn get_le64(s: &[u8]) -> u64
    requires { 8 ≤ length s.now }
    ensures { to_le64 result ≡ take 8 s.now }
{
    u64::from_le_bytes([s[0], s[1], s[2], s[3], s[4], s[5], s[6], s[7]])
}

// n over the first eight bytes of s, the lowest first.
pub fn put_le64(s: &mut [u8], n: u64)
    requires { 8 ≤ length s.old }
    ensures { s.new ≡ over (to_le64 n) s.old }
{
    s[..8].copy_from_slice(&n.to_le_bytes());
}
