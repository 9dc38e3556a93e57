// The commonest items: a LINE, a LABEL or an XSECT whose label part is one byte, a LINE of v8
// with the same label and a MOVE, with bytes enough behind them; and the code of v3 to v7 that
// drops some bytes of the label. Any other item is None: nothing is refused here.
#![tactic(auto)]

ghost use Rattle.std.specs.Prelude.{◌≡◌, ℕ, ◌≤◌, length};
ghost use Rattle.format.specs.Label.{label_limit};
ghost use Rattle.short.specs.Brief.{NewPart, OldPart, Repeats, Trims, sides_of, Finds, FindsNew, FindsOld};

use format::LABEL_LIMIT;
use number::index;

// A label part of one byte: how many bytes of the label stay, and how many come.
#[derive(Clone, Copy)]
struct Part {
    keep: usize,
    add: usize,
}

// A LINE or a LABEL with its label part and its flags; a LINE with the same label; an XSECT
// with its label part and its code; the label's length after some bytes of it were dropped; or
// a MOVE.
#[derive(Clone, Copy)]
pub enum Short {
    Line { keep: usize, add: usize, flags: u8 },
    Again { flags: u8 },
    Place { keep: usize, add: usize, flags: u8 },
    Section { keep: usize, add: usize, code: u8 },
    Trim { len: usize },
    Move,
}

// The label part of v8 that is the byte b, after a label of len bytes.
fn new_part(b: u8, len: usize) -> Option<Part>
    ensures { NewPart result b len }
{
    let n = index(b);
    if n == 0x00 {
        return None;
    }
    let off = n / 16;
    if len < off {
        return None;
    }
    let keep = len - off;
    if LABEL_LIMIT - 16 < keep {
        return None;
    }
    Some(Part { keep, add: n % 16 })
}

// The same in v3 to v7, where at most fifteen bytes come.
fn old_part(b: u8, len: usize) -> Option<Part>
    ensures { OldPart result b len }
{
    let n = index(b);
    if 15 < n {
        return None;
    }
    if LABEL_LIMIT - 16 < len {
        return None;
    }
    Some(Part { keep: len, add: n })
}

// A code of v8 from 0x60 to 0x7f: 60-67 are LINE with "no label bytes and no change".
fn same_label(code: u8, len: usize) -> Option<Short>
    requires { 0x60 ≤ code }
    ensures { Repeats result code len }
{
    if 0x67 < code {
        return None;
    }
    if LABEL_LIMIT - 16 < len {
        return None;
    }
    let flags = code - 0x60;
    Some(Short::Again { flags })
}

// The item of v8 at the front of s, after a label of len bytes.
pub fn new_item(s: &[u8], len: usize) -> Option<Short>
    ensures { FindsNew result s.now len }
{
    if s.len() < 33 {
        return None;
    }
    let code = s[0];
    if code < 0x30 {
        if code == 0x0f {
            return Some(Short::Move);
        }
        return None;
    }
    if code < 0x80 {
        if 0x5f < code {
            return same_label(code, len);
        }
    }
    let p = new_part(s[1], len);
    let Some(Part { keep, add }) = p else {
        return None;
    };
    if code < 0x34 {
        return Some(Short::Section { keep, add, code });
    }
    if code < 0x40 {
        return None;
    }
    if code < 0x48 {
        let flags = code - 0x40;
        return Some(Short::Line { keep, add, flags });
    }
    if code < 0x80 {
        return None;
    }
    let flags = code - 0x80;
    Some(Short::Place { keep, add, flags })
}

// A code of v3 to v7 below 0x30: 10-1f drop 1 to 16 bytes of the label, and leave some; or a
// MOVE.
fn trim(code: u8, len: usize) -> Option<Short>
    requires { len ≤ label_limit }
    ensures { Trims result code len }
{
    let n = index(code);
    if n < 0x10 {
        if n == 0x0f {
            return Some(Short::Move);
        }
        return None;
    }
    if 0x1f < n {
        return None;
    }
    let off = n - 0x0f;
    if len <= off {
        return None;
    }
    Some(Short::Trim { len: len - off })
}

// The item of v3 to v7 at the front of s, after a label of len bytes.
pub fn old_item(version: u8, s: &[u8], len: usize) -> Option<Short>
    requires { len ≤ label_limit }
    ensures { FindsOld result version s.now len }
{
    if s.len() < 33 {
        return None;
    }
    let code = s[0];
    if code < 0x30 {
        return trim(code, len);
    }
    let p = old_part(s[1], len);
    let Some(Part { keep, add }) = p else {
        return None;
    };
    if code < 0x40 {
        if version < 5 {
            return None;
        }
        if 0x33 < code {
            return None;
        }
        return Some(Short::Section { keep, add, code });
    }
    if code < 0x60 {
        let flags = code - 0x40;
        return Some(Short::Place { keep, add, flags });
    }
    if code < 0x80 {
        return None;
    }
    if 0x87 < code {
        return None;
    }
    let flags = code - 0x80;
    Some(Short::Line { keep, add, flags })
}

// The item at the front of s, after a label of len bytes.
pub fn short_item(version: u8, s: &[u8], len: usize) -> Option<Short>
    requires { len ≤ label_limit }
    ensures { Finds result version s.now len }
{
    if version < 8 {
        return old_item(version, s, len);
    }
    new_item(s, len)
}

// How many bytes follow the label of an XSECT: its sides as i16, or as i32.
pub fn sides(code: u8) -> usize
    ensures { (result ≡ sides_of code) × (result ≤ 16) }
{
    if code < 0x32 {
        return 8;
    }
    16
}
