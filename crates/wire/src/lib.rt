// Slices of bytes: copied, compared and searched.
#![tactic(auto)]

ghost use Rattle.std.specs.Prelude.{◌≡◌, ◌+◌, ◌≤◌, ◌<◌, length, take};
ghost use Rattle.format.specs.Bytes.{same, over, to_be32};
ghost use Rattle.format.specs.Header.{line_end};
ghost use Rattle.format.specs.Codes.{common};
ghost use Rattle.wire.specs.Begun.{Begun};
ghost use Rattle.wire.specs.Laid.{laid};

use number::get_le64;

// Copies N bytes. Of a constant size it is a load and a store: as an array of their own, which
// overlaps nothing, they need no test for that.
pub fn copy_exactly<const N: usize>(src: &[u8], dst: &mut [u8])
    requires { (N ≤ length src.now) × (N ≤ length dst.old) }
    ensures { dst.new ≡ over (take N src.now) dst.old }
{
    let bytes = *src[..N].as_array::<N>().unwrap();
    dst[..N].copy_from_slice(&bytes);
}

// Copies from N to 2 N bytes, as the first N and the last N, which may overlap.
fn copy_ends<const N: usize>(src: &[u8], dst: &mut [u8])
    requires { (length src.now ≤ length dst.old) × (N ≤ length src.now) × (length src.now ≤ N + N) }
    ensures { dst.new ≡ over src.now dst.old }
{
    let last = src.len() - N;
    copy_exactly::<N>(src, dst);
    copy_exactly::<N>(&src[last..], &mut dst[last..]);
}

// Copies sixteen bytes.
pub fn copy_sixteen(src: &[u8], dst: &mut [u8])
    requires { (16 ≤ length src.now) × (16 ≤ length dst.old) }
    ensures { dst.new ≡ over (take 16 src.now) dst.old }
{
    copy_exactly::<16>(src, dst);
}

// Copies at most fifteen bytes, without a loop.
pub fn copy_short(src: &[u8], dst: &mut [u8])
    requires { (length src.now ≤ length dst.old) × (length src.now < 16) }
    ensures { dst.new ≡ over src.now dst.old }
{
    let n = src.len();
    if 8 <= n {
        copy_ends::<8>(src, dst);
    } else if 4 <= n {
        copy_ends::<4>(src, dst);
    } else if 2 <= n {
        copy_ends::<2>(src, dst);
    } else if n == 1 {
        copy_exactly::<1>(src, dst);
    }
}

// Copies sixteen bytes and more.
fn copy_long(src: &[u8], dst: &mut [u8])
    requires { (length src.now ≤ length dst.old) × (16 ≤ length src.now) }
    ensures { dst.new ≡ over src.now dst.old }
{
    let last = src.len() - 16;
    for turn in 0..last.div_ceil(16) {
        let i = 16 * turn;
        copy_sixteen(&src[i..], &mut dst[i..]);
    }
    copy_sixteen(&src[last..], &mut dst[last..]);
}

// Copies src to the front of dst, byte by byte: `copy_from_slice` would ask the C library for
// memmove, which the static library does without.
pub fn copy(src: &[u8], dst: &mut [u8])
    requires { length src.now ≤ length dst.old }
    ensures { dst.new ≡ over src.now dst.old }
{
    for i in 0..src.len() {
        dst[i] = src[i];
    }
}

// Copies src to the front of dst, by words that overlap; up to 32 bytes it takes no loop.
pub fn copy_words(src: &[u8], dst: &mut [u8])
    requires { length src.now ≤ length dst.old }
    ensures { dst.new ≡ over src.now dst.old }
{
    let n = src.len();
    if n < 16 {
        copy_short(src, dst);
    } else if n <= 32 {
        copy_ends::<16>(src, dst);
    } else {
        copy_long(src, dst);
    }
}

// Copies src into dst from index at on.
pub fn lay(src: &[u8], dst: &mut [u8], at: usize)
    requires { at + length src.now ≤ length dst.old }
    ensures { dst.new ≡ laid dst.old at src.now }
{
    copy(src, &mut dst[at..]);
}

// The same by words.
pub fn lay_words(src: &[u8], dst: &mut [u8], at: usize)
    requires { at + length src.now ≤ length dst.old }
    ensures { dst.new ≡ laid dst.old at src.now }
{
    copy_words(src, &mut dst[at..]);
}

// Writes the bytes of n into dst from index at on, the highest first.
pub fn lay_be32(n: u32, dst: &mut [u8], at: usize)
    requires { at + 4 ≤ length dst.old }
    ensures { dst.new ≡ laid dst.old at (to_be32 n) }
{
    number::put_be32(&mut dst[at..], n);
}

// Whether a and b hold the same bytes.
pub fn same_bytes(a: &[u8], b: &[u8]) -> bool
    ensures { result ≡ same a.now b.now }
{
    a == b
}

// How many bytes at the front of a and b are the same, of the first eight, which are
// compared as one number.
fn same_eight(a: &[u8], b: &[u8]) -> usize
    requires { (8 ≤ length a.now) × (8 ≤ length b.now) }
    ensures { (result ≤ common (take 8 a.now) (take 8 b.now)) × (result ≤ 8) }
{
    let x = get_le64(a);
    let y = get_le64(b);
    u64::trailing_zeros(x ^ y) as usize / 8
}

// How many of the first n bytes are the same, but for a part at their end: whole eights,
// and those of the eight in which the first differs.
fn same_eights(l: &[u8], m: &[u8], n: usize) -> usize
    requires { (n ≤ length l.now) × (n ≤ length m.now) }
    ensures { Begun l.now m.now result × (result ≤ n) }
{
    for turn in 0..n / 8 {
        let i = 8 * turn;
        let k = same_eight(&l[i..], &m[i..]);
        if k < 8 {
            return i + k;
        }
    }
    n / 8 * 8
}

// How many bytes l and m have in common at their start.
pub fn common_start(l: &[u8], m: &[u8]) -> usize
    ensures { result ≡ common l.now m.now }
{
    let n = l.len().min(m.len());
    for i in same_eights(l, m, n)..n {
        if l[i] != m[i] {
            return i;
        }
    }
    n
}

// How many bytes stand before the first linefeed of s; all of them where it has none.
pub fn line_end(s: &[u8]) -> usize
    ensures { result ≡ line_end s.now }
{
    for (i, b) in s.iter().enumerate() {
        if *b == b'\n' {
            return i;
        }
    }
    s.len()
}
