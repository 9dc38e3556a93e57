// The current label: its buffer of 4,096 bytes, and the one step that changes it in
// every version. The buffer is lent, beside plain numbers: nothing here copies it.
// A label's bytes and its length stand apart: C lends the bytes and has the length in its stand.
#![tactic(auto)]

ghost use Rattle.std.specs.Prelude.{◌≡◌, ℕ, ◌+◌, ◌≤◌, length, take};
ghost use Rattle.std.proofs.Math.Seq.{paste};
ghost use Rattle.format.specs.Label.{dot_from, kept_to_dot, kept_of, label_step, label_limit};
ghost use Rattle.label.specs.Seen.{Within, kept_after, Tells, TellsKept};
ghost use Rattle.wire.specs.Laid.{laid};

use format::{Cut, Fault, LABEL_LIMIT};

#[derive(Clone, Copy)]
pub struct Label {
    pub bytes: [u8; LABEL_LIMIT],
    pub len: usize,
}

// What a step leaves: the label's new length, and how many bytes of the old one were kept.
#[derive(Clone, Copy, PartialEq, Eq)]
pub struct Relabelled {
    pub len: usize,
    pub kept: usize,
}

// The empty label.
pub fn blank() -> Label
    ensures { result.len ≡ 0 }
{
    let bytes = [0u8; LABEL_LIMIT];
    Label { bytes, len: 0 }
}

// What stays of the first len bytes, back to the nth dot from the end: that dot stays.
fn nth_dot(bytes: &[u8; LABEL_LIMIT], len: usize, n: usize) -> Option<usize>
    requires { (len ≤ label_limit) × (length bytes.now ≡ label_limit) }
    ensures { (result ≡ dot_from n 0 (take len bytes.now)) × Within len result }
{
    let mut i = len;
    let mut dots: usize = 0;
    // Document 01 names this form: back from the end, and out by break.
    loop {
        if i == 0 {
            break None;
        }
        i -= 1;
        if bytes[i] == b'.' {
            dots += 1;
            if dots == n {
                break Some(i + 1);
            }
        }
    }
}

// What stays of the label of len bytes, 16 bytes off and then back to the nth dot.
fn kept_to_dot(bytes: &[u8; LABEL_LIMIT], len: usize, n: usize) -> Option<usize>
    requires { (len ≤ label_limit) × (length bytes.now ≡ label_limit) }
    ensures { (result ≡ kept_to_dot (take len bytes.now) n) × Within len result }
{
    if len < 16 {
        return None;
    }
    nth_dot(bytes, len - 16, n)
}

// What stays of len bytes after off of them are dropped, where least have to stay.
fn kept_after(len: usize, off: usize, least: usize) -> Option<usize>
    ensures { (result ≡ kept_after len off least) × Within len result }
{
    if len < off {
        return None;
    }
    let keep = len - off;
    if keep < least {
        return None;
    }
    Some(keep)
}

// What stays of the label of len bytes.
pub fn kept_of(bytes: &[u8; LABEL_LIMIT], len: usize, cut: Cut) -> Option<usize>
    requires { (len ≤ label_limit) × (length bytes.now ≡ label_limit) }
    ensures { (result ≡ kept_of (take len bytes.now) cut) × Within len result }
{
    match cut {
        Cut::Empty => Some(0),
        Cut::ToDot { dots } => kept_to_dot(bytes, len, dots),
        Cut::Trim { bytes: off } => kept_after(len, off, 1),
        Cut::Back { bytes: off } => kept_after(len, off, 0),
    }
}

// Lays added over the label's bytes from keep on.
fn append(bytes: &mut [u8; LABEL_LIMIT], keep: usize, added: &[u8])
    requires { (keep + length added.now ≤ label_limit) × (length bytes.old ≡ label_limit) }
    ensures { bytes.new ≡ paste bytes.old keep added.now (length added.now) }
{
    let mut i: usize = 0;
    while i < added.len() {
        bytes[keep + i] = added[i];
        i += 1;
    }
}

// Lays sixteen bytes of s over the room's from keep on.
fn extend_in(room: &mut [u8], keep: usize, s: &[u8])
    requires { (keep + 16 ≤ length room.old) × (16 ≤ length s.now) }
    ensures { room.new ≡ laid room.old keep (take 16 s.now) }
{
    wire::copy_sixteen(s, &mut room[keep..]);
}

// The same over the label's bytes, of which keep stay: what stands behind a label is
// free, so that a label which gains at most sixteen bytes is extended without a test.
pub fn extend(bytes: &mut [u8; LABEL_LIMIT], keep: usize, s: &[u8])
    requires { (keep + 16 ≤ label_limit) × (length bytes.old ≡ label_limit) × (16 ≤ length s.now) }
    ensures { bytes.new ≡ laid bytes.old keep (take 16 s.now) }
{
    extend_in(&mut bytes[..], keep, s);
}

// The label step of every version: what stays of the label of len bytes, then the
// bytes to append; with how many stayed.
pub fn label_step(
    bytes: &mut [u8; LABEL_LIMIT],
    len: usize,
    cut: Cut,
    added: &[u8],
) -> Result<Relabelled, Fault>
    requires { (len ≤ label_limit) × (length bytes.old ≡ label_limit) }
    ensures { Tells result bytes.new (label_step (take len bytes.old) cut added.now) × TellsKept result (kept_of (take len bytes.old) cut) }
{
    let kept = kept_of(bytes, len, cut);
    let Some(keep) = kept else {
        return Err(Fault::LabelTooShort);
    };
    if LABEL_LIMIT - keep < added.len() {
        return Err(Fault::LabelTooLong);
    }
    append(bytes, keep, added);
    Ok(Relabelled {
        len: keep + added.len(),
        kept: keep,
    })
}
