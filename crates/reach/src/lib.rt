// How far a survey reaches: the least and greatest x, y and z over both ends of its legs,
// in one pass over a sheet. The box is two rows of three.
#![tactic(auto)]

ghost use Rattle.std.specs.Prelude.{◌≡◌, [], ◌∷◌, true, ◌+◌, ◌≤◌, length, get_or, take, drop};
ghost use Rattle.format.specs.Bytes.{same};
ghost use Rattle.format.specs.Sheet.{leg_entry, entry_of, records_of};
ghost use Rattle.format.specs.Reach.{signed, lesser, greater, highest, lowest, begins, takes_part, reach_of, result_reach};
ghost use Rattle.format.specs.Answers.{reached_of};
ghost use Rattle.reach.specs.Reaching.{row_from, bounds_from, size_of, ends_at, takes_at, legs_reach_from};

use format::{Corner, Fault, Point, Reached, Refusal};

// ---- the box

// The i32 of a bit pattern.
pub fn signed_of(n: u32) -> i32
    ensures { result ≡ signed n }
{
    if n < 0x80000000 {
        return n as i32;
    }
    let below = (0xffffffff - n) as i32;
    -1 - below
}

// The lesser of a number and that of a bit pattern.
fn lesser_of(a: i32, n: u32) -> i32
    ensures { result ≡ lesser a (signed n) }
{
    let b = signed_of(n);
    if a < b { a } else { b }
}

// The greater of the two.
fn greater_of(a: i32, n: u32) -> i32
    ensures { result ≡ greater a (signed n) }
{
    let b = signed_of(n);
    if a < b { b } else { a }
}

// The least x, y and z with a place taken in.
fn lower(row: [i32; 3], p: Point) -> [i32; 3]
    ensures { result ≡ row_from lesser row (p ∷ []) }
{
    [
        lesser_of(row[0], p.x),
        lesser_of(row[1], p.y),
        lesser_of(row[2], p.z),
    ]
}

// The greatest.
fn upper(row: [i32; 3], p: Point) -> [i32; 3]
    ensures { result ≡ row_from greater row (p ∷ []) }
{
    [
        greater_of(row[0], p.x),
        greater_of(row[1], p.y),
        greater_of(row[2], p.z),
    ]
}

// The box with a place taken in.
fn taken(b: [[i32; 3]; 2], p: Point) -> [[i32; 3]; 2]
    ensures { result ≡ bounds_from b (p ∷ []) }
{
    [lower(b[0], p), upper(b[1], p)]
}

// The box with both ends of the leg's record s taken in.
fn with_leg(b: [[i32; 3]; 2], s: &[u8]) -> [[i32; 3]; 2]
    requires { 34 ≤ length s.now }
    ensures { result ≡ bounds_from b (ends_at s.now) }
{
    let from = sheet::point(&s[10..]);
    let first = taken(b, from);
    let to = sheet::point(&s[22..]);
    taken(first, to)
}

// The box that no place has been taken into: any place makes all six bounds.
fn unbounded() -> [[i32; 3]; 2]
    ensures { result ≡ (highest ∷ highest ∷ highest ∷ []) ∷ (lowest ∷ lowest ∷ lowest ∷ []) ∷ [] }
{
    let high: i32 = 0x7fffffff;
    let low: i32 = -0x7fffffff - 1;
    [[high, high, high], [low, low, low]]
}

// ---- the legs that take part

// Whether the first eight bytes of both are the same, which are compared as one number.
fn same_word(a: &[u8], b: &[u8]) -> bool
    requires { (8 ≤ length a.now) × (8 ≤ length b.now) }
    ensures { result ≡ same (take 8 a.now) (take 8 b.now) }
{
    let x = number::get_le64(a);
    let y = number::get_le64(b);
    x == y
}

// Whether s begins with a name of eight bytes or more: by words, the last of which may
// overlap the one before.
fn begins_long(s: &[u8], name: &[u8]) -> bool
    requires { (8 ≤ length name.now) × (length name.now ≤ length s.now) }
    ensures { result ≡ begins name.now s.now }
{
    let last = name.len() - 8;
    let mut i = 0;
    // a while, since a turn passes eight bytes
    while i < last {
        if !same_word(&s[i..], &name[i..]) {
            return false;
        }
        i += 8;
    }
    same_word(&s[last..], &name[last..])
}

// Whether s begins with the name.
fn begins_with(s: &[u8], name: &[u8]) -> bool
    ensures { result ≡ begins name.now s.now }
{
    let n = name.len();
    if s.len() < n {
        return false;
    }
    if 8 <= n {
        return begins_long(s, name);
    }
    wire::same_bytes(&s[0..n], name)
}

// Whether a leg of this label takes part.
fn takes_part(label: &[u8], name: &[u8]) -> bool
    ensures { result ≡ takes_part name.now label.now }
{
    let n = name.len();
    if n == 0 {
        return true;
    }
    if !begins_with(label, name) {
        return false;
    }
    if label.len() == n {
        return true;
    }
    label[n] == 0x2e
}

// Whether the record s of so many bytes is a leg that takes part.
fn takes(s: &[u8], size: usize, name: &[u8]) -> bool
    requires { (3 ≤ size) × (size ≤ length s.now) × (get_or s.now 2 0 ≡ 1 → 34 ≤ size) }
    ensures { result ≡ takes_at name.now size s.now }
{
    if s[2] != 1 {
        return false;
    }
    takes_part(&s[34..size], name)
}

// ---- the sheet

// The size of the leg's record s, whose body has n bytes, where it is well-formed.
fn leg_size(s: &[u8], n: usize) -> Option<usize>
    requires { 2 + n ≤ length s.now }
    ensures { result ≡ size_of (leg_entry n (drop 2 s.now)) }
{
    if !sheet::label_fits(n, 32) {
        return None;
    }
    if 0x07 < s[3] {
        return None;
    }
    if 5 < s[4] {
        return None;
    }
    let first = sheet::day_of(number::get_be16(&s[6..]));
    let last = sheet::day_of(number::get_be16(&s[8..]));
    if !sheet::good_date(s[5], first, last) {
        return None;
    }
    Some(2 + n)
}

// The size of the record at the front of s, whatever it is, where it is well-formed.
pub fn other_size(s: &[u8], version: u8) -> Option<usize>
    ensures { result ≡ size_of (entry_of version s.now) }
{
    let entry = sheet::read_entry(s, version)?;
    Some(entry.size)
}

// The same: a leg is judged without being taken apart.
fn size_at(s: &[u8], version: u8) -> Option<usize>
    ensures { result ≡ size_of (entry_of version s.now) }
{
    if !sheet::is_framed(s) {
        return None;
    }
    if s[2] != 1 {
        return other_size(s, version);
    }
    let n = sheet::size_of(number::get_be16(s));
    leg_size(s, n)
}

// What so many legs reach, whose ends are all in the box.
fn answer(b: [[i32; 3]; 2], legs: usize) -> Result<Reached, Refusal>
    ensures { reached_of result ≡ legs_reach_from legs b [] }
{
    if legs == 0 {
        return Err(Fault::NoLegs.at(0));
    }
    let least = Corner {
        x: b[0][0],
        y: b[0][1],
        z: b[0][2],
    };
    let greatest = Corner {
        x: b[1][0],
        y: b[1][1],
        z: b[1][2],
    };
    Ok(Reached {
        legs,
        least,
        greatest,
    })
}

// How far the survey reaches in the records of a sheet of the version, from `begin` on.
fn records_reach(sheet: &[u8], version: u8, begin: usize, name: &[u8]) -> Result<Reached, Refusal>
    requires { begin ≤ length sheet.now }
    ensures { reached_of result ≡ result_reach name.now (records_of version (drop begin sheet.now)) }
{
    let mut at = begin;
    let mut number: usize = 0;
    let mut legs: usize = 0;
    let mut bounds = unbounded();
    // a while, since each record has a size of its own
    while at < sheet.len() {
        let rest = &sheet[at..];
        let Some(size) = size_at(rest, version) else {
            return Err(Fault::BrokenLayout.at(number));
        };
        if takes(rest, size, name) {
            let wider = with_leg(bounds, rest);
            bounds = wider;
            legs += 1;
            number += 1;
            at += size;
            continue;
        }
        number += 1;
        at += size;
    }
    answer(bounds, legs)
}

// How far the survey of that name reaches in a sheet.
pub fn reach(sheet: &[u8], name: &[u8]) -> Result<Reached, Refusal>
    ensures { reached_of result ≡ reach_of sheet.now name.now }
{
    let version = sheet::version_of(sheet);
    let Some(front) = sheet::read_front(sheet, version) else {
        return Err(Fault::BrokenLayout.at(0));
    };
    records_reach(sheet, version, 7 + front.title + front.time, name)
}
