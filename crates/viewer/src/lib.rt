// Legs for the viewer: six f32 a leg, less an origin. The box of all legs says whether one
// of them is too far; the numbers are written in a second pass over the sheet.
#![tactic(auto)]

ghost use Rattle.format.specs.Refusals.{Good};
ghost use Rattle.std.specs.Prelude.{◌≡◌, ◌++◌, false, ◌+◌, ◌≤◌, length, get_or, drop, ltb, ◌-ℤ◌, nat_abs};
ghost use Rattle.format.specs.Bytes.{be16, be32};
ghost use Rattle.format.specs.Items.{point_of};
ghost use Rattle.format.specs.Sheet.{sheet_result};
ghost use Rattle.format.specs.Viewer.{place_of, less_origin, farthest, too_far, far_verdict, view_of, number_of, numbers_over, view_differences, view_buffer, ViewExact};
ghost use Rattle.format.specs.Answers.{viewed_of, verdict_of};
ghost use Rattle.viewer.specs.Viewing.{six_at, far_at, Boxed, Counted, Fits};

use format::{Corner, Fault, Origin, Refusal};

// Up to here an f32 holds every whole number, and down to there.
const FARTHEST: i64 = 16777216;

const FARTHEST_BELOW: i64 = -16777216;

// ---- a number less the origin's

fn less(a: i32, o: i32) -> i64
    ensures { result ≡ a -ℤ o }
{
    (a as i64) - (o as i64)
}

// Whether the difference is too far.
fn is_far(a: i32, o: i32) -> bool
    ensures { result ≡ ltb farthest (nat_abs (a -ℤ o)) }
{
    let d = less(a, o);
    if FARTHEST < d {
        return true;
    }
    d < FARTHEST_BELOW
}

// The difference as an f32, which loses nothing.
fn exact(a: i32, o: i32) -> f32
    requires { nat_abs (a -ℤ o) ≤ farthest }
    ensures { result ≡ number_of (a -ℤ o) }
{
    let d = less(a, o);
    d as f32
}

// ---- a place less the origin

// The place at the front of s.
fn place_at(s: &[u8]) -> Corner
    requires { 12 ≤ length s.now }
    ensures { result ≡ place_of (point_of be32 s.now) }
{
    let p = sheet::point(s);
    Corner {
        x: reach::signed_of(p.x),
        y: reach::signed_of(p.y),
        z: reach::signed_of(p.z),
    }
}

// Whether one of the three differences is too far.
fn far_place(c: Corner, origin: Origin) -> bool
    ensures { result ≡ too_far (less_origin origin c) }
{
    if is_far(c.x, origin.x) {
        return true;
    }
    if is_far(c.y, origin.y) {
        return true;
    }
    is_far(c.z, origin.z)
}

// Writes the three differences to the front of out.
fn put_place(out: &mut [f32], c: Corner, origin: Origin)
    requires { (3 ≤ length out.old) × (too_far (less_origin origin c) ≡ false) }
    ensures { out.new ≡ numbers_over (less_origin origin c) out.old }
{
    out[0] = exact(c.x, origin.x);
    out[1] = exact(c.y, origin.y);
    out[2] = exact(c.z, origin.z);
}

// ---- a record

// The size of the record s with its length bytes.
fn size_at(s: &[u8]) -> usize
    requires { 2 ≤ length s.now }
    ensures { result ≡ 2 + be16 s.now }
{
    2 + sheet::size_of(number::get_be16(s))
}

// Whether the record s is a leg that is too far.
fn far_record(s: &[u8], origin: Origin) -> bool
    requires { (3 ≤ length s.now) × (get_or s.now 2 0 ≡ 1 → 34 ≤ length s.now) }
    ensures { result ≡ far_at origin s.now }
{
    if s[2] != 1 {
        return false;
    }
    if far_place(place_at(&s[10..]), origin) {
        return true;
    }
    far_place(place_at(&s[22..]), origin)
}

fn put_ends(out: &mut [f32], from: Corner, to: Corner, origin: Origin)
    requires { (6 ≤ length out.old) × (too_far (less_origin origin from) ≡ false) × (too_far (less_origin origin to) ≡ false) }
    ensures { out.new ≡ numbers_over (less_origin origin from ++ less_origin origin to) out.old }
{
    put_place(out, from, origin);
    put_place(&mut out[3..], to, origin);
}

// Writes the six numbers of the leg's record s to the front of out.
fn put_leg(out: &mut [f32], s: &[u8], origin: Origin)
    requires { (6 ≤ length out.old) × (34 ≤ length s.now) × (too_far (six_at origin s.now) ≡ false) }
    ensures { out.new ≡ numbers_over (six_at origin s.now) out.old }
{
    let from = place_at(&s[10..]);
    let to = place_at(&s[22..]);
    put_ends(out, from, to, origin);
}

// ---- the sheet, which is known to be good

// Where its first record starts.
fn first_place(sheet: &[u8]) -> usize
    requires { 3 ≤ length sheet.now }
    ensures { result ≡ 3 + be16 (drop 1 sheet.now) }
{
    3 + sheet::size_of(number::get_be16(&sheet[1..]))
}

// The refusal of the first leg that is too far.
fn first_far(sheet: &[u8], origin: Origin) -> Result<(), Refusal>
    requires { (sheet_result sheet.now).verdict ≡ Good }
    ensures { verdict_of result ≡ far_verdict origin 0 (sheet_result sheet.now).records }
{
    let mut at = first_place(sheet);
    let mut number: usize = 0;
    // a while, since each record has a size of its own
    while at < sheet.len() {
        let rest = &sheet[at..];
        if far_record(rest, origin) {
            return Err(Fault::TooFar.at(number));
        }
        number += 1;
        at += size_at(rest);
    }
    Ok(())
}

// The same, where the box of all legs may say that there is none.
fn judge(sheet: &[u8], origin: Origin, least: Corner, greatest: Corner) -> Result<(), Refusal>
    requires { Boxed sheet.now least greatest }
    ensures { verdict_of result ≡ far_verdict origin 0 (sheet_result sheet.now).records }
{
    if far_place(least, origin) {
        return first_far(sheet, origin);
    }
    if far_place(greatest, origin) {
        return first_far(sheet, origin);
    }
    Ok(())
}

// Writes the numbers of all legs to the front of out.
fn fill(sheet: &[u8], origin: Origin, out: &mut [f32])
    requires { Fits sheet.now origin (length out.old) }
    ensures { out.new ≡ numbers_over (view_differences sheet.now origin) out.old }
{
    let mut at = first_place(sheet);
    let mut k: usize = 0;
    // a while, since each record has a size of its own
    while at < sheet.len() {
        let rest = &sheet[at..];
        let size = size_at(rest);
        if rest[2] == 1 {
            put_leg(&mut out[k..], rest, origin);
            k += 6;
            at += size;
            continue;
        }
        at += size;
    }
}

// So many legs, none of which is too far: 11, or their numbers.
fn show(sheet: &[u8], origin: Origin, legs: usize, out: &mut [f32]) -> Result<usize, Refusal>
    requires { Counted sheet.now origin legs }
    ensures answer { viewed_of result ≡ view_of sheet.now origin (length out.old) }
    ensures numbers { out.new ≡ view_buffer sheet.now origin out.old }
{
    let needed = 6 * legs;
    if out.len() < needed {
        return Err(Fault::BufferTooSmall.at(needed));
    }
    fill(sheet, origin, out);
    Ok(legs)
}

// The legs of a sheet for the viewer, less the origin, written to the front of out.
pub fn viewer_legs(sheet: &[u8], origin: Origin, out: &mut [f32]) -> Result<usize, Refusal>
    ensures answer { viewed_of result ≡ view_of sheet.now origin (length out.old) }
    ensures numbers { out.new ≡ view_buffer sheet.now origin out.old }
    ensures exact { ViewExact sheet.now origin (length out.old) out.new }
{
    let all = match reach::reach(sheet, &sheet[0..0]) {
        Ok(all) => all,
        Err(refusal) => {
            if refusal.number == Fault::NoLegs.number() {
                return Ok(0);
            }
            return Err(refusal);
        }
    };
    judge(sheet, origin, all.least, all.greatest)?;
    show(sheet, origin, all.legs, out)
}
