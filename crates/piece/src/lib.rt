// Pieces of a lent room: numbers of three and five bytes, bytes laid in, and names
// compared.
#![tactic(auto, unfolding(crate::specs::Pieces::le24, crate::specs::Pieces::le40, crate::specs::Pieces::to_le24))]

ghost use Rattle.std.specs.Prelude.{◌≡◌, ◌≤◌, ◌<◌, length, take, replicate};
ghost use Rattle.format.specs.Bytes.{same};
ghost use Rattle.piece.specs.Pieces.{le24, le40, to_le24};

use number::get_le32;
pub use wire::{lay, lay_words};

// The number in the first three bytes of s, the lowest first.
pub fn get_le24(s: &[u8]) -> usize
    requires { 3 ≤ length s.now }
    ensures { (result ≡ le24 s.now) × (result < 16777216) }
{
    usize::from(s[0]) + usize::from(s[1]) * 256 + usize::from(s[2]) * 65536
}

// The number in the first five bytes of s, the lowest first.
pub fn get_le40(s: &[u8]) -> usize
    requires { 5 ≤ length s.now }
    ensures { result ≡ le40 s.now }
{
    usize::from(s[0])
        + usize::from(s[1]) * 256
        + usize::from(s[2]) * 65536
        + usize::from(s[3]) * 16777216
        + usize::from(s[4]) * 4294967296
}

// The lowest 24 bits of n as bytes, the lowest first.
pub fn le24_bytes(n: usize) -> [u8; 3]
    ensures { result ≡ to_le24 n }
{
    [
        (n % 256) as u8,
        (n / 256 % 256) as u8,
        (n / 65536 % 256) as u8,
    ]
}

// Whether a and b begin with the same four bytes, which are compared as one number.
fn same_four(a: &[u8], b: &[u8]) -> bool
    requires { (4 ≤ length a.now) × (4 ≤ length b.now) }
    ensures { result ≡ same (take 4 a.now) (take 4 b.now) }
{
    let x = get_le32(a);
    let y = get_le32(b);
    if x != y {
        return false;
    }
    true
}

// Whether a and b hold the same bytes: by fours, and then those behind whole fours.
pub fn same_name(a: &[u8], b: &[u8]) -> bool
    ensures { result ≡ same a.now b.now }
{
    if a.len() != b.len() {
        return false;
    }
    for turn in 0..a.len() / 4 {
        let i = 4 * turn;
        if !same_four(&a[i..], &b[i..]) {
            return false;
        }
    }
    for i in a.len() / 4 * 4..a.len() {
        if a[i] != b[i] {
            return false;
        }
    }
    true
}

// Fills s with zeros.
pub fn clear(s: &mut [u8])
    ensures { s.new ≡ replicate (length s.old) 0 }
{
    s.fill(0);
}
