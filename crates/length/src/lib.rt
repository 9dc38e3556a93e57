// The numbers of a label part.
#![tactic(auto)]

ghost use Rattle.std.specs.Prelude.{◌≡◌, ℕ, ◌+◌, ◌≤◌, ◌<◌, length, None};
ghost use Rattle.format.specs.Bytes.{pick};
ghost use Rattle.format.specs.Items.{old_part, long_part, new_part, numbers};
ghost use Rattle.length.specs.Parts.{Small, part_at, finished, LengthTold};

use format::LabelPart;
use number::{get_le16, get_le32, index};

// A number and how many bytes say it.
#[derive(Clone, Copy)]
struct Length {
    size: usize,
    value: usize,
}

// The number as a length.
fn long(x: u32) -> usize
    ensures { (result ≡ x) × (result < 4294967296) }
{
    x as usize
}

// ---- label parts; t is what follows the code

// The numbers of a label part, v3 to v7.
fn old_part(t: &[u8]) -> Option<LabelPart>
    ensures { (result ≡ old_part t.now) × Small result }
{
    if t.len() < 1 {
        return None;
    }
    let b = index(t[0]);
    if b < 0xfe {
        return Some(LabelPart {
            size: 1,
            drop: 0,
            add: b,
        });
    }
    if b == 0xfe {
        if t.len() < 3 {
            return None;
        }
        let n = long(get_le16(&t[1..]));
        return Some(LabelPart {
            size: 3,
            drop: 0,
            add: n + 254,
        });
    }
    if t.len() < 5 {
        return None;
    }
    let n = long(get_le32(&t[1..]));
    Some(LabelPart {
        size: 5,
        drop: 0,
        add: n,
    })
}

// The number at the front of t, v8, with its size; none where it is unfinished.
fn length_at(t: &[u8]) -> Option<Length>
    ensures { LengthTold result t.now }
{
    if t.len() < 1 {
        return None;
    }
    let b = index(t[0]);
    if b < 0xff {
        return Some(Length { size: 1, value: b });
    }
    if t.len() < 5 {
        return None;
    }
    let value = long(get_le32(&t[1..]));
    Some(Length { size: 5, value })
}

// The numbers of a label part that begins with 00, v8.
fn long_part(t: &[u8]) -> Option<LabelPart>
    requires { 1 ≤ length t.now }
    ensures { (result ≡ long_part t.now) × Small result }
{
    let first = &t[1..];
    let drop = length_at(first)?;
    let second = &first[drop.size..];
    let add = length_at(second)?;
    Some(LabelPart {
        size: 1 + drop.size + add.size,
        drop: drop.value,
        add: add.value,
    })
}

// The numbers of a label part, v8.
fn new_part(t: &[u8]) -> Option<LabelPart>
    ensures { (result ≡ new_part t.now) × Small result }
{
    if t.len() < 1 {
        return None;
    }
    let b = index(t[0]);
    if b == 0 {
        return long_part(t);
    }
    Some(LabelPart {
        size: 1,
        drop: b / 16,
        add: b % 16,
    })
}

// The numbers of a label part of the version; a bare item has none.
pub fn part_of(version: u8, bare: bool, t: &[u8]) -> Option<LabelPart>
    ensures { (result ≡ pick bare (numbers 0 0 0) (part_at version t.now)) × Small result }
{
    if bare {
        return Some(LabelPart {
            size: 0,
            drop: 0,
            add: 0,
        });
    }
    if version < 8 {
        return old_part(t);
    }
    new_part(t)
}

// The part, where its numbers, its bytes and n more are all there.
pub fn whole_part(p: Option<LabelPart>, t: &[u8], n: usize) -> Option<LabelPart>
    requires { Small p × (n ≤ 16) }
    ensures { result ≡ finished p t.now n }
{
    let part = p?;
    if t.len() < part.size + part.add + n {
        return None;
    }
    Some(part)
}
