// Opening a file: its length and its header, and where its items start.
#![tactic(auto)]

ghost use Rattle.std.specs.Prelude.{◌≡◌, ◌+◌, ◌-◌, ◌≤◌, length, take, get_or};
ghost use Rattle.format.specs.Bytes.{same};
ghost use Rattle.format.specs.Header.{magic, good_version, extended_byte, closed_header, time_line, title_line, opening_of, file_limit, time_limit, title_limit};
ghost use Rattle.header.specs.Head.{line_of, saying, HeadIs};

use format::{FILE_LIMIT, Fault, Refusal, TIME_LIMIT, TITLE_LIMIT};

// What opening a file finds: the version, the first item's place, extended 0 or 1, and
// the lengths of title and time line.
#[derive(Clone, Copy, PartialEq, Eq)]
pub struct Head {
    pub version: u8,
    pub place: usize,
    pub extended: u8,
    pub title: usize,
    pub time: usize,
}

// Whether the file starts as a Survex file does.
fn magic_ok(file: &[u8]) -> bool
    ensures { result ≡ same (take 21 file.now) magic }
{
    if file.len() < 21 {
        return false;
    }
    wire::same_bytes(&file[0..21], b"Survex 3D Image File\n")
}

// Whether the three bytes after that are v3 to v8 and a linefeed.
fn version_ok(file: &[u8]) -> bool
    ensures { result ≡ good_version file.now }
{
    if file.len() < 24 {
        return false;
    }
    if file[21] != 118 {
        return false;
    }
    let version = file[22];
    if version < 51 {
        return false;
    }
    if 56 < version {
        return false;
    }
    file[23] == 10
}

// How many bytes stand before the linefeed of the line at the front of s, which has at most
// limit bytes and no final carriage return.
fn good_line(limit: usize, s: &[u8]) -> Option<usize>
    ensures { result ≡ line_of limit s.now }
{
    let end = wire::line_end(s);
    if s.len() <= end {
        return None;
    }
    if limit < end {
        return None;
    }
    if end == 0 {
        return Some(0);
    }
    if s[end - 1] == b'\r' {
        return None;
    }
    Some(end)
}

// The v8 byte, after a title line and a time line of so many bytes.
fn extended_byte(file: &[u8], title: usize, time: usize) -> Result<Head, Refusal>
    requires { (title ≤ title_limit) × (time ≤ time_limit) × (26 + title + time ≤ length file.now) × (length file.now ≤ file_limit) }
    ensures { HeadIs result file.now (extended_byte file.now (26 + title + time) (saying 0 title time file.now)) }
{
    let place = 26 + title + time;
    if file.len() <= place {
        return Err(Fault::BrokenHeader.at(file.len()));
    }
    let flags = file[place];
    if flags == 0x00 {
        return Ok(Head {
            version: 8,
            place: place + 1,
            extended: 0,
            title,
            time,
        });
    }
    if flags == 0x80 {
        return Ok(Head {
            version: 8,
            place: place + 1,
            extended: 1,
            title,
            time,
        });
    }
    Err(Fault::Reserved.at(place))
}

// What stands after both lines: the v8 byte, or at once the first item.
fn closed_header(version: u8, file: &[u8], title: usize, time: usize) -> Result<Head, Refusal>
    requires { (3 ≤ version) × (version ≤ 8) × (title ≤ title_limit) × (time ≤ time_limit) × (26 + title + time ≤ length file.now) × (length file.now ≤ file_limit) }
    ensures { HeadIs result file.now (closed_header version file.now (26 + title + time) (saying 0 title time file.now)) }
{
    if version == 8 {
        return extended_byte(file, title, time);
    }
    Ok(Head {
        version,
        place: 26 + title + time,
        extended: 0,
        title,
        time,
    })
}

// The time line, after a title line of so many bytes, and what follows.
fn time_line(version: u8, file: &[u8], title: usize) -> Result<Head, Refusal>
    requires { (3 ≤ version) × (version ≤ 8) × (title ≤ title_limit) × (25 + title ≤ length file.now) × (length file.now ≤ file_limit) }
    ensures { HeadIs result file.now (time_line version file.now title) }
{
    let from = 25 + title;
    let line = good_line(TIME_LIMIT, &file[from..]);
    let Some(time) = line else {
        return Err(Fault::BrokenHeader.at(from));
    };
    closed_header(version, file, title, time)
}

// The title line, and what follows.
fn title_line(version: u8, file: &[u8]) -> Result<Head, Refusal>
    requires { (3 ≤ version) × (version ≤ 8) × (24 ≤ length file.now) × (length file.now ≤ file_limit) }
    ensures { HeadIs result file.now (title_line version file.now) }
{
    let line = good_line(TITLE_LIMIT, &file[24..]);
    let Some(title) = line else {
        return Err(Fault::BrokenHeader.at(24));
    };
    time_line(version, file, title)
}

// Judges a file's length and header.
pub fn opening(file: &[u8]) -> Result<Head, Refusal>
    ensures { HeadIs result file.now (opening_of file.now) }
{
    if FILE_LIMIT < file.len() {
        return Err(Fault::FileTooLong.at(0));
    }
    if !magic_ok(file) {
        return Err(Fault::NotSurvex.at(0));
    }
    if !version_ok(file) {
        return Err(Fault::UnknownVersion.at(21));
    }
    title_line(file[22] - b'0', file)
}
