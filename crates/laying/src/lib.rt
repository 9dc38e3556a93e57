// The records of the commonest items, laid in by themselves: for a step, which leaves all else
// in its buffer as it was, and for a pass of reading, which lays record behind record, so that
// what stands behind one is free. Which item it is, reading and stepping each tell in a function
// of their own: one with two callers would not be joined to the loop of reading.
// A label's bytes and its length stand apart: C lends the bytes and has the length in its stand.
#![tactic(auto)]

ghost use Rattle.std.specs.Prelude.{◌≡◌, ◌+◌, ◌-◌, ◌^◌, ◌≤◌, ◌<◌, length, take};
ghost use Rattle.short.specs.Brief.{place_at, station_at};
ghost use Rattle.format.specs.State.{leg, station, section};
ghost use Rattle.format.specs.Label.{label_limit};
ghost use Rattle.format.specs.Sheet.{sheet_version, layout};
ghost use Rattle.item.specs.Commonest.{extended};
ghost use Rattle.layout.specs.Freely.{LaidFreely};
ghost use Rattle.laying.specs.Quickly.{Joined, LaysLine, name_of, laid_from, led_by, made_by};

use format::{LABEL_LIMIT, Leg, Point, Section, Setting, Station};
use item::{leg_at, station_at};

// What one of the commonest items comes to: a leg, with the item's size, the label's new
// length, where it leads and how many bytes of the label were kept; a station or a
// cross-section, with the record's bytes; the label's length after a trim; or the same of a
// MOVE, with where it leads.
#[derive(Clone, Copy)]
pub enum Quick {
    Leg {
        size: usize,
        len: usize,
        to: Point,
        kept: usize,
    },
    Made {
        size: usize,
        len: usize,
        bytes: usize,
        kept: usize,
    },
    Trim {
        len: usize,
    },
    Move {
        len: usize,
        to: Point,
    },
}

// How many bytes of the label an item keeps, how many it adds, the item's own size, and where
// in the sheet its record goes.
#[derive(Clone, Copy)]
pub struct Joint {
    pub keep: usize,
    pub add: usize,
    pub size: usize,
    pub out: usize,
}

// Lays a leg into the sheet, where it fits, and extends the label by what the item at the front
// of s adds to it: what the item comes to. (This and `lay_line` are joined to a step by name: a
// call hands all of it through memory.)
#[inline(always)]
fn lay_leg(
    s: &[u8],
    bytes: &mut [u8; LABEL_LIMIT],
    joint: Joint,
    fields: Leg,
    sheet: &mut [u8],
) -> Quick
    requires { Joined joint s.now bytes.old }
    ensures label { bytes.new ≡ extended bytes.old joint.keep s.now }
    ensures sheet { sheet.new ≡ laid_from joint.out (leg fields (name_of joint s.now bytes.old)) sheet.old }
    ensures answer { result ≡ led_by joint fields.to }
{
    let keep = joint.keep;
    let out = joint.out;
    let behind = 2 + joint.add;
    layout::lay_short(sheet, out, fields, bytes, keep, &s[2..behind]);
    label::extend(bytes, keep, &s[2..]);
    Quick::Leg {
        size: joint.size,
        len: keep + joint.add,
        to: fields.to,
        kept: keep,
    }
}

// The same of a LINE, whose last twelve bytes say where the leg leads. Where the position is
// not set, it is left to the general item.
#[inline(always)]
pub fn lay_line(
    s: &[u8],
    bytes: &mut [u8; LABEL_LIMIT],
    joint: Joint,
    flags: u8,
    setting: Setting,
    sheet: &mut [u8],
) -> Option<Quick>
    requires { Joined joint s.now bytes.old × (12 ≤ joint.size) × (joint.size ≤ length s.now) }
    ensures { LaysLine result joint flags setting s.now bytes.old bytes.new sheet.old sheet.new }
{
    let from = setting.position?;
    let leg = leg_at(s, joint.size - 12, flags, setting, from);
    Some(lay_leg(s, bytes, joint, leg, sheet))
}

// A station, in the same way.
fn lay_station(
    s: &[u8],
    bytes: &mut [u8; LABEL_LIMIT],
    joint: Joint,
    fields: Station,
    sheet: &mut [u8],
) -> Quick
    requires { Joined joint s.now bytes.old }
    ensures label { bytes.new ≡ extended bytes.old joint.keep s.now }
    ensures sheet { sheet.new ≡ laid_from joint.out (station fields (name_of joint s.now bytes.old)) sheet.old }
    ensures answer { result ≡ made_by joint 16 }
{
    let keep = joint.keep;
    let out = joint.out;
    let behind = 2 + joint.add;
    layout::lay_short(sheet, out, fields, bytes, keep, &s[2..behind]);
    label::extend(bytes, keep, &s[2..]);
    let len = keep + joint.add;
    Quick::Made {
        size: joint.size,
        len,
        bytes: 16 + len,
        kept: keep,
    }
}

// The station of a LABEL, whose last twelve bytes are its place.
pub fn lay_place(
    s: &[u8],
    bytes: &mut [u8; LABEL_LIMIT],
    joint: Joint,
    flags: u8,
    sheet: &mut [u8],
) -> Quick
    requires { Joined joint s.now bytes.old × (12 ≤ joint.size) × (joint.size ≤ length s.now) }
    ensures label { bytes.new ≡ extended bytes.old joint.keep s.now }
    ensures sheet { sheet.new ≡ laid_from joint.out (station (station_at s.now (joint.size - 12) flags) (name_of joint s.now bytes.old)) sheet.old }
    ensures answer { result ≡ made_by joint 16 }
{
    let station = station_at(s, joint.size - 12, flags);
    lay_station(s, bytes, joint, station, sheet)
}

// A cross-section. (With its numbers read here, it would be too large to be joined twice.)
pub fn lay_section(
    s: &[u8],
    bytes: &mut [u8; LABEL_LIMIT],
    joint: Joint,
    fields: Section,
    sheet: &mut [u8],
) -> Quick
    requires { Joined joint s.now bytes.old }
    ensures label { bytes.new ≡ extended bytes.old joint.keep s.now }
    ensures sheet { sheet.new ≡ laid_from joint.out (section fields (name_of joint s.now bytes.old)) sheet.old }
    ensures answer { result ≡ made_by joint 25 }
{
    let keep = joint.keep;
    let out = joint.out;
    let behind = 2 + joint.add;
    layout::lay_short(sheet, out, fields, bytes, keep, &s[2..behind]);
    label::extend(bytes, keep, &s[2..]);
    let len = keep + joint.add;
    Quick::Made {
        size: joint.size,
        len,
        bytes: 25 + len,
        kept: keep,
    }
}

// ---- the same records in a pass that lays record behind record: what stands behind one is
// free, for the next is laid over it.

// Lays a leg into the sheet, where it fits.
fn put_leg_freely(s: &[u8], bytes: &[u8; LABEL_LIMIT], joint: Joint, fields: Leg, sheet: &mut [u8])
    requires { Joined joint s.now bytes.now }
    ensures { LaidFreely sheet.old sheet.new joint.out (layout sheet_version (leg fields (name_of joint s.now bytes.now))) }
{
    let keep = joint.keep;
    let add = joint.add;
    let out = joint.out;
    let len = keep + add;
    let name = out + 34;
    if sheet.len() < name + len {
        return;
    }
    layout::put_leg(&mut sheet[out..], fields, len);
    layout::put_name_freely(sheet, name, bytes, keep, &s[2..], add);
}

// A station, in the same way.
fn put_station_freely(
    s: &[u8],
    bytes: &[u8; LABEL_LIMIT],
    joint: Joint,
    fields: Station,
    sheet: &mut [u8],
)
    requires { Joined joint s.now bytes.now }
    ensures { LaidFreely sheet.old sheet.new joint.out (layout sheet_version (station fields (name_of joint s.now bytes.now))) }
{
    let keep = joint.keep;
    let add = joint.add;
    let out = joint.out;
    let len = keep + add;
    let name = out + 16;
    if sheet.len() < name + len {
        return;
    }
    layout::put_station(&mut sheet[out..], fields, len);
    layout::put_name_freely(sheet, name, bytes, keep, &s[2..], add);
}

// A cross-section.
fn put_section_freely(
    s: &[u8],
    bytes: &[u8; LABEL_LIMIT],
    joint: Joint,
    fields: Section,
    sheet: &mut [u8],
)
    requires { Joined joint s.now bytes.now }
    ensures { LaidFreely sheet.old sheet.new joint.out (layout sheet_version (section fields (name_of joint s.now bytes.now))) }
{
    let keep = joint.keep;
    let add = joint.add;
    let out = joint.out;
    let len = keep + add;
    let name = out + 25;
    if sheet.len() < name + len {
        return;
    }
    layout::put_section(&mut sheet[out..], fields, len);
    layout::put_name_freely(sheet, name, bytes, keep, &s[2..], add);
}

// Lays a leg so, and extends the label by what the item at the front of s adds to it.
pub fn lay_leg_freely(
    s: &[u8],
    bytes: &mut [u8; LABEL_LIMIT],
    joint: Joint,
    fields: Leg,
    sheet: &mut [u8],
)
    requires { Joined joint s.now bytes.old }
    ensures label { bytes.new ≡ extended bytes.old joint.keep s.now }
    ensures sheet { LaidFreely sheet.old sheet.new joint.out (layout sheet_version (leg fields (name_of joint s.now bytes.old))) }
{
    let keep = joint.keep;
    put_leg_freely(s, bytes, joint, fields, sheet);
    label::extend(bytes, keep, &s[2..]);
}

// A station, in the same way.
pub fn lay_station_freely(
    s: &[u8],
    bytes: &mut [u8; LABEL_LIMIT],
    joint: Joint,
    fields: Station,
    sheet: &mut [u8],
)
    requires { Joined joint s.now bytes.old }
    ensures label { bytes.new ≡ extended bytes.old joint.keep s.now }
    ensures sheet { LaidFreely sheet.old sheet.new joint.out (layout sheet_version (station fields (name_of joint s.now bytes.old))) }
{
    let keep = joint.keep;
    put_station_freely(s, bytes, joint, fields, sheet);
    label::extend(bytes, keep, &s[2..]);
}

// A cross-section.
pub fn lay_section_freely(
    s: &[u8],
    bytes: &mut [u8; LABEL_LIMIT],
    joint: Joint,
    fields: Section,
    sheet: &mut [u8],
)
    requires { Joined joint s.now bytes.old }
    ensures label { bytes.new ≡ extended bytes.old joint.keep s.now }
    ensures sheet { LaidFreely sheet.old sheet.new joint.out (layout sheet_version (section fields (name_of joint s.now bytes.old))) }
{
    let keep = joint.keep;
    put_section_freely(s, bytes, joint, fields, sheet);
    label::extend(bytes, keep, &s[2..]);
}

// A leg whose label is the current one, whole.
pub fn lay_same_freely(
    bytes: &[u8; LABEL_LIMIT],
    len: usize,
    out: usize,
    fields: Leg,
    sheet: &mut [u8],
)
    requires { (len + 16 ≤ label_limit) × (length bytes.now ≡ label_limit) × (out < 2 ^ 62) }
    ensures { LaidFreely sheet.old sheet.new out (layout sheet_version (leg fields (take len bytes.now))) }
{
    let name = out + 34;
    if sheet.len() < name + len {
        return;
    }
    layout::put_leg(&mut sheet[out..], fields, len);
    layout::put_label_freely(sheet, name, bytes, len);
}
