// The records of a file, one at a time: the items are read where they lie, up to the
// next one that makes a record.
// A label's bytes and its length stand apart: C lends the bytes and has the length in its stand.
#![tactic(auto)]

ghost use Rattle.std.specs.Prelude.{◌≡◌, ◌++◌, ◌+◌, ◌-◌, ◌≤◌, ◌<◌, length, take};
ghost use Rattle.scan.specs.Places.{Starts, ended_at, Finds};
ghost use Rattle.scan.specs.Keeping.{Swaps, Keeps};
ghost use Rattle.format.specs.Label.{label_limit};

use format::{Cut, Fault, Fields, LABEL_LIMIT, Refusal, Setting};
use item::Step;

// Where reading stands: the next item's place, the label's length and the setting. The
// label's bytes are lent beside it.
#[derive(Clone, Copy)]
pub struct Place {
    pub at: usize,
    pub len: usize,
    pub setting: Setting,
}

// What comes next: the end; or a record, whose label is in the buffer, and where
// reading then stands.
#[derive(Clone, Copy)]
pub enum Found {
    End,
    Record { place: Place, fields: Fields },
}

// Before the first item, in the state at the start of a file.
pub fn first_place(at: usize) -> Place
    ensures { Starts result at }
{
    Place {
        at,
        len: 0,
        setting: format::start_setting(),
    }
}

// The end item at `at`, with so many bytes from it on: 10 where bytes follow it.
fn ended(at: usize, left: usize) -> Result<Found, Refusal>
    requires { at < 18446744073709551615 }
    ensures { result ≡ ended_at at left }
{
    if 1 < left {
        return Err(Fault::BytesAfterEnd.at(at + 1));
    }
    Ok(Found::End)
}

// The next record of the file.
pub fn next_record(
    file: &[u8],
    version: u8,
    from: Place,
    bytes: &mut [u8; LABEL_LIMIT],
) -> Result<Found, Refusal>
    requires { (from.at ≤ length file.now) × (from.len ≤ label_limit) × (length bytes.old ≡ label_limit) }
    ensures { Finds version file.now from bytes.old result bytes.new }
{
    let mut at = from.at;
    let mut len = from.len;
    let mut setting = from.setting;
    // Items differ in size: each turn moves the place on by its own item.
    loop {
        let rest = &file[at..];
        match item::take_item(version, rest, bytes, len, setting) {
            Err(fault) => return Err(fault.at(at)),
            Ok(Step::End) => return ended(at, rest.len()),
            Ok(
                Step::On {
                    size,
                    len: m,
                    setting: after,
                },
            ) => {
                len = m;
                setting = after;
                at += size;
            }
            Ok(
                Step::Made {
                    size,
                    len: m,
                    setting: after,
                    fields,
                    kept: _,
                },
            ) => {
                let place = Place {
                    at: at + size,
                    len: m,
                    setting: after,
                };
                return Ok(Found::Record { place, fields });
            }
        }
    }
}

// The label of len bytes in a buffer, of which `off` are dropped, with the bytes that
// come: answers its length.
pub fn relabel(bytes: &mut [u8; LABEL_LIMIT], len: usize, off: usize, added: &[u8]) -> usize
    requires { (len ≤ label_limit) × (length bytes.old ≡ label_limit) × (off ≤ len) × (len - off + length added.now ≤ label_limit) }
    ensures { Swaps bytes.new (take (len - off) bytes.old ++ added.now) result }
{
    label::label_step(bytes, len, Cut::Back { bytes: off }, added)
        .unwrap()
        .len
}

// A label in a buffer that held another, of len bytes: answers its length.
pub fn swap_label(bytes: &mut [u8; LABEL_LIMIT], len: usize, name: &[u8]) -> usize
    requires { (len ≤ label_limit) × (length bytes.old ≡ label_limit) × (length name.now ≤ label_limit) }
    ensures { Swaps bytes.new name.now result }
{
    relabel(bytes, len, len, name)
}

// The label after a record of this name, in a buffer that held the one before, of len
// bytes: answers its length. A traverse error leaves the label as it was.
pub fn keep_label(bytes: &mut [u8; LABEL_LIMIT], len: usize, name: &[u8], fields: Fields) -> usize
    requires { (len ≤ label_limit) × (length bytes.old ≡ label_limit) × (length name.now ≤ label_limit) }
    ensures { Keeps bytes.old bytes.new len name.now fields result }
{
    match fields {
        Fields::Leg { .. } => swap_label(bytes, len, name),
        Fields::Station { .. } => swap_label(bytes, len, name),
        Fields::Section { .. } => swap_label(bytes, len, name),
        Fields::Error { .. } => len,
    }
}
