// Which of two files was written later, by the time lines of their headers.
#![tactic(auto)]

ghost use Rattle.std.specs.Prelude.{◌≡◌, ◌+◌, ◌≤◌, length, take, drop};
ghost use Rattle.format.specs.Times.{seconds_of, stamp_of, judged, compare_of, part_of, later_part};
ghost use Rattle.format.specs.Answers.{later_of};
ghost use Rattle.timeline.specs.Handing.{Stands, Stamping, line_in, place_in, handed_line, handed_place};

use format::{Fault, Handed, Incomparable, Later, Refusal, Stamp};

// The part of no file.
const NO_PART: Handed = Handed {
    file: 0,
    place: 0,
    size: 0,
};

// A file's time line, of size bytes at place, as its time.
fn line_stamp(file: &[u8], place: usize, size: usize) -> Result<Stamp, Refusal>
    requires { place + size ≤ length file.now }
    ensures { Stamping result file.now (seconds_of (take size (drop place file.now))) place size }
{
    let end = place + size;
    let Some(seconds) = seconds::seconds_of(&file[place..end]) else {
        return Err(Fault::TimeUnreadable.at(place));
    };
    Ok(Stamp {
        seconds,
        place,
        size,
    })
}

// A file's time, by its header alone.
fn stamp(file: &[u8]) -> Result<Stamp, Refusal>
    ensures { (result ≡ stamp_of file.now) × Stands result file.now }
{
    let head = header::opening(file)?;
    line_stamp(file, 25 + head.title, head.time)
}

// Which of two times is later. The first file's refusal comes first.
fn judge(
    first: Result<Stamp, Refusal>,
    second: Result<Stamp, Refusal>,
) -> Result<Later, Incomparable>
    ensures { later_of result ≡ judged first second }
{
    let one = match first {
        Ok(one) => one,
        Err(refusal) => return Err(Incomparable::First { refusal }),
    };
    let other = match second {
        Ok(other) => other,
        Err(refusal) => return Err(Incomparable::Second { refusal }),
    };
    if other.seconds < one.seconds {
        return Ok(Later::First);
    }
    if one.seconds < other.seconds {
        return Ok(Later::Second);
    }
    Ok(Later::Same)
}

// Which of two files was written later, by their headers alone.
pub fn compare(first: &[u8], second: &[u8]) -> Result<Later, Incomparable>
    ensures { later_of result ≡ compare_of first.now second.now }
{
    judge(stamp(first), stamp(second))
}

// The time line of the file with this number; the empty part after a refusal.
fn part_of(file: u8, stamp: Result<Stamp, Refusal>) -> Handed
    ensures { result ≡ part_of file stamp }
{
    let Ok(line) = stamp else {
        return NO_PART;
    };
    Handed {
        file,
        place: line.place,
        size: line.size,
    }
}

// The later file's time line by its place and length, for callers that cannot be
// handed a part of a file.
pub fn later_part(first: &[u8], second: &[u8]) -> Handed
    ensures { result ≡ later_part first.now second.now }
{
    let one = stamp(first);
    let other = stamp(second);
    match judge(one, other) {
        Ok(Later::First) => part_of(1, one),
        Ok(Later::Second) => part_of(2, other),
        Ok(Later::Same) => NO_PART,
        Err(_) => NO_PART,
    }
}

// The time line of a file whose time is known; an empty part after a refusal.
fn line_of<'a>(file: &'a [u8], stamp: Result<Stamp, Refusal>) -> &'a [u8]
    requires { Stands stamp file.now }
    ensures result_value { result.now ≡ line_in stamp file.now }
    ensures ref_ptr_value { result.ref_ptr ≡ place_in stamp file.entry.ref_ptr }
{
    let Ok(line) = stamp else {
        return &file[0..0];
    };
    let end = line.place + line.size;
    &file[line.place..end]
}

// The later file's time line, as the part of the file that it came from; an
// empty part when same or refused.
pub fn later_line<'a>(first: &'a [u8], second: &'a [u8]) -> &'a [u8]
    ensures contents { result.now ≡ handed_line (later_part first.now second.now) first.now second.now }
    ensures place { result.ref_ptr ≡ handed_place (later_part first.now second.now) first.entry.ref_ptr second.entry.ref_ptr }
{
    let one = stamp(first);
    let other = stamp(second);
    match judge(one, other) {
        Ok(Later::First) => line_of(first, one),
        Ok(Later::Second) => line_of(second, other),
        Ok(Later::Same) => &first[0..0],
        Err(_) => &first[0..0],
    }
}
