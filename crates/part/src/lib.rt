// Label parts of v8, written: how many bytes of the previous label to drop, how many to
// append, and those. Each piece is written where it fits.
#![tactic(auto)]

ghost use Rattle.std.specs.Prelude.{◌≡◌, ◌++◌, ◌-◌, ◌≤◌, length, drop};
ghost use Rattle.format.specs.Bytes.{same};
ghost use Rattle.format.specs.Codes.{common, kept_bytes, length_codes, short_part, part_codes};
ghost use Rattle.part.specs.Lays.{Lays};
ghost use Rattle.format.specs.Label.{label_limit};

// How many bytes two labels have in common at their start, and whether they are the same.
#[derive(Clone, Copy)]
pub struct Overlap {
    pub kept: usize,
    pub same: bool,
}

// Writes s into out from `at` on where it fits; answers where it ends.
pub fn put(out: &mut [u8], at: usize, s: &[u8]) -> usize
    requires { (at ≤ 65536) × (length s.now ≤ label_limit) }
    ensures { Lays out.old out.new at s.now (length s.now) result }
{
    let end = at + s.len();
    if out.len() < end {
        return end;
    }
    wire::copy(s, &mut out[at..]);
    end
}

// A length: one byte below ff, or ff and 32 bits.
fn put_length(out: &mut [u8], at: usize, n: usize) -> usize
    requires { (at ≤ 32768) × (n ≤ label_limit) }
    ensures { Lays out.old out.new at (length_codes n) 5 result }
{
    if n < 0xff {
        return put(out, at, &[n as u8]);
    }
    let b = number::le32_bytes(n as u32);
    put(out, at, &[0xff, b[0], b[1], b[2], b[3]])
}

// Whether d bytes to drop and a to append go in one byte.
#[tactic(auto, unfolding(format::specs::Codes::short_part))]
pub fn one_byte(d: usize, a: usize) -> bool
    ensures { result ≡ short_part d a }
{
    d <= 15 && a <= 15 && (0 < d || 0 < a)
}

// d bytes to drop and a to append: both in one byte, or 00 and each as a length.
fn put_part(out: &mut [u8], at: usize, d: usize, a: usize) -> usize
    requires { (at ≤ 16384) × (d ≤ label_limit) × (a ≤ label_limit) }
    ensures { Lays out.old out.new at (part_codes d a) 11 result }
{
    if one_byte(d, a) {
        return put(out, at, &[(16 * d + a) as u8]);
    }
    let first = put(out, at, &[0]);
    let second = put_length(out, first, d);
    put_length(out, second, a)
}

// The label `name` after one of len bytes, of which k stay.
pub fn put_label(out: &mut [u8], at: usize, len: usize, name: &[u8], k: usize) -> usize
    requires { (at ≤ 8192) × (len ≤ label_limit) × (length name.now ≤ label_limit) × (k ≤ len) × (k ≤ length name.now) }
    ensures { Lays out.old out.new at (part_codes (len - k) (length name.now - k) ++ drop k name.now) 4107 result }
{
    let next = put_part(out, at, len - k, name.len() - k);
    put(out, next, &name[k..])
}

// How many bytes the labels have in common, and whether they are the same.
pub fn shared(last: &[u8], name: &[u8]) -> Overlap
    ensures { (result.kept ≡ common last.now name.now) × (result.same ≡ same last.now name.now) }
{
    let kept = wire::common_start(last, name);
    let same = last.len() <= kept && name.len() <= kept;
    Overlap { kept, same }
}

// How many bytes of the previous label a station or a cross-section keeps: of the
// same label all but the last.
pub fn kept_bytes(last: &[u8], name: &[u8]) -> usize
    ensures { result ≡ kept_bytes last.now name.now }
{
    let s = shared(last, name);
    if s.same {
        s.kept.saturating_sub(1)
    } else {
        s.kept
    }
}
