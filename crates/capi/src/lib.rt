// The library for C and Rust: each answer as numbers.
// Kinds and refusals are numbers here, since C reads them.
#![tactic(auto)]

ghost use Rattle.std.specs.Prelude.{◌≡◌, length, replicate};
ghost use Rattle.format.specs.Header.{opening_of};
ghost use Rattle.format.specs.Reading.{read_outcome, read_buffer};
ghost use Rattle.format.specs.Writing.{v8, v7, write_outcome, write_buffer};
ghost use Rattle.format.specs.Conversion.{convert_outcome, convert_buffer};
ghost use Rattle.format.specs.Times.{compare_of, later_part};
ghost use Rattle.format.specs.Editing.{edit_outcome, edit_buffer};
ghost use Rattle.format.specs.Stepping.{open_stand, step_of, step_buffer};
ghost use Rattle.format.specs.Reach.{reach_of};
ghost use Rattle.format.specs.Viewer.{view_of, view_buffer, ViewExact};
ghost use Rattle.format.specs.Summary.{summary_outcome, summary_words, entrances_outcome, update_outcome, update_words};
ghost use Rattle.format.specs.Answers.{open_outcome, reached_of};
ghost use Rattle.step.specs.Standing.{Opens};
ghost use Rattle.step.specs.Going.{next_record, next_buffer};
ghost use Rattle.held.specs.Numbers.{held_of, state_stand};
ghost use Rattle.abi.specs.Numbers.{outcome_numbers, open_numbers, step_numbers};
ghost use Rattle.read.specs.Salvage.{salvage_outcome, salvage_buffer, salvaged_of};
ghost use Rattle.strict.specs.Strict.{strict_outcome, strict_buffer};
ghost use Rattle.sha256.specs.Digest.{sha256_of};
ghost use Rattle.sha256.specs.Streams.{updated, finished, begun, running_of, state_stream};
ghost use Rattle.abi.specs.Compares.{compared_of};
ghost use Rattle.capi.specs.Reaches.{reach_numbers};
ghost use Rattle.capi.specs.Salvages.{salvage_numbers};
ghost use Rattle.abi.specs.Views.{origin_of, view_numbers};
ghost use Rattle.abi.specs.Summaries.{summary_numbers, entrance_numbers};

use abi::{
    AnswerNumbers, Compared, EntranceNumbers, OpenNumbers, StepNumbers, SummaryNumbers, ViewNumbers,
};
use format::{LABEL_LIMIT, Origin, Reached, Refusal};
use held::STAND_NUMBERS;
use read::Saved;
use sha256::{BLOCK, DIGEST, RUNNING_NUMBERS};

// How far a survey reaches. Number 0 is success, with how many legs took part and the
// least and the greatest x, y and z; any other is the refusal's number, with its place.
#[repr(C)]
#[derive(Clone, Copy)]
pub struct ReachNumbers {
    pub number: u64,
    pub place: usize,
    pub legs: usize,
    pub least_x: i32,
    pub least_y: i32,
    pub least_z: i32,
    pub greatest_x: i32,
    pub greatest_y: i32,
    pub greatest_z: i32,
}

// Reads a file into the lent sheet.
#[unsafe(no_mangle)]
pub extern "C" fn cockledrift_read(file: &[u8], sheet: &mut [u8]) -> AnswerNumbers
    ensures answer { result ≡ outcome_numbers (read_outcome file.now (length sheet.old)) }
    ensures sheet { sheet.new ≡ read_buffer file.now sheet.old }
{
    let a = read::read(file, sheet);
    abi::tell(a)
}

// What can be saved of a file. Refused 0 is success, with the sheet's bytes and records, the
// file's version, and the report: the refusal's number, or 0 for a whole file, its place, and
// how many of the file's bytes stand from there on. Any other is the number of a refusal, with
// its place.
#[repr(C)]
#[derive(Clone, Copy)]
pub struct SalvageNumbers {
    pub refused: u64,
    pub bytes: usize,
    pub records: usize,
    pub version: u64,
    pub number: u64,
    pub place: usize,
    pub left: usize,
}

fn tell_saved(answer: Result<Saved, Refusal>) -> SalvageNumbers
    ensures { result ≡ salvage_numbers (salvaged_of answer) }
{
    match answer {
        Ok(saved) => SalvageNumbers {
            refused: 0,
            bytes: saved.bytes,
            records: saved.records,
            version: u64::from(saved.version),
            number: u64::from(saved.number),
            place: saved.place,
            left: saved.left,
        },
        Err(refusal) => SalvageNumbers {
            refused: u64::from(refusal.number),
            bytes: 0,
            records: 0,
            version: 0,
            number: 0,
            place: refusal.place,
            left: 0,
        },
    }
}

// Salvages a file: the records made by items before the first refused one go to the lent
// sheet.
#[unsafe(no_mangle)]
pub extern "C" fn cockledrift_salvage(file: &[u8], sheet: &mut [u8]) -> SalvageNumbers
    ensures answer { result ≡ salvage_numbers (salvage_outcome file.now (length sheet.old)) }
    ensures sheet { sheet.new ≡ salvage_buffer file.now sheet.old }
{
    let s = read::salvage(file, sheet);
    tell_saved(s)
}

// Reads a file into the lent sheet and refuses unknown and moved stations, with lent room
// for an index of names and a seed for its hash. The room then holds zeros.
#[unsafe(no_mangle)]
pub extern "C" fn cockledrift_read_strict(
    file: &[u8],
    sheet: &mut [u8],
    room: &mut [u8],
    seed: u64,
) -> AnswerNumbers
    ensures answer { result ≡ outcome_numbers (strict_outcome file.now (length room.old) (length sheet.old)) }
    ensures sheet { sheet.new ≡ strict_buffer file.now (length room.old) sheet.old }
    ensures room { room.new ≡ replicate (length room.old) 0 }
{
    let a = read::read_strict(file, sheet, room, seed);
    abi::tell(a)
}

// Writes a sheet as a v8 file into the lent buffer.
#[unsafe(no_mangle)]
pub extern "C" fn cockledrift_write(sheet: &[u8], out: &mut [u8]) -> AnswerNumbers
    ensures answer { result ≡ outcome_numbers (write_outcome v8 sheet.now (length out.old)) }
    ensures file { out.new ≡ write_buffer v8 sheet.now out.old }
{
    let a = write::write(sheet, out);
    abi::tell(a)
}

// Writes a sheet as a v7 file into the lent buffer.
#[unsafe(no_mangle)]
pub extern "C" fn cockledrift_write_v7(sheet: &[u8], out: &mut [u8]) -> AnswerNumbers
    ensures answer { result ≡ outcome_numbers (write_outcome v7 sheet.now (length out.old)) }
    ensures file { out.new ≡ write_buffer v7 sheet.now out.old }
{
    let a = write_v7::write_v7(sheet, out);
    abi::tell(a)
}

// Reads a file to the lent sheet, then writes it as v8.
#[unsafe(no_mangle)]
pub extern "C" fn cockledrift_convert(
    file: &[u8],
    sheet: &mut [u8],
    out: &mut [u8],
) -> AnswerNumbers
    ensures answer { result ≡ outcome_numbers (convert_outcome file.now (length sheet.old) (length out.old)) }
    ensures sheet { sheet.new ≡ read_buffer file.now sheet.old }
    ensures file { out.new ≡ convert_buffer file.now (length sheet.old) out.old }
{
    let converted = convert::convert(file, sheet, out);
    abi::tell(converted)
}

// Which of two files was written later. The part of a file cannot be handed to C, so its
// place and length are.
#[unsafe(no_mangle)]
pub extern "C" fn cockledrift_compare(first: &[u8], second: &[u8]) -> Compared
    ensures { result ≡ compared_of (compare_of first.now second.now) (later_part first.now second.now) }
{
    let l = timeline::compare(first, second);
    let line = timeline::later_part(first, second);
    abi::tell_later(l, line)
}

// Replaces `count` records of a house-written v8 file, from `first` on, by those of `new`,
// and writes the edited file into the lent buffer.
#[unsafe(no_mangle)]
pub extern "C" fn cockledrift_edit(
    file: &[u8],
    first: usize,
    count: usize,
    new: &[u8],
    out: &mut [u8],
) -> AnswerNumbers
    ensures answer { result ≡ outcome_numbers (edit_outcome file.now first count new.now (length out.old)) }
    ensures file { out.new ≡ edit_buffer file.now first count new.now out.old }
{
    let a = edit::edit(file, first, count, new, out);
    abi::tell(a)
}

// Opens a step reader: where it stands is laid into the lent state. A refused opening
// gives a reader too, whose every step answers that refusal. The label's buffer may hold
// anything.
#[unsafe(no_mangle)]
pub extern "C" fn cockledrift_open(file: &[u8], state: &mut [u64; STAND_NUMBERS]) -> OpenNumbers
    ensures answer { result ≡ open_numbers (open_outcome (opening_of file.now)) }
    ensures stand { Opens (held_of state.new) (open_stand file.now) }
{
    let stand = step::open_at(file);
    let numbers = held::numbers_of(stand);
    *state = numbers;
    let o = step::opened(file);
    abi::tell_open(o)
}

// One step of a reader, from whatever the state and the label's buffer hold: exactly one
// item, or the end or the refusal again.
#[unsafe(no_mangle)]
pub extern "C" fn cockledrift_step(
    file: &[u8],
    state: &mut [u64; STAND_NUMBERS],
    label: &mut [u8; LABEL_LIMIT],
    out: &mut [u8],
) -> StepNumbers
    ensures answer { result ≡ step_numbers (step_of (state_stand state.old label.old) file.now (length out.old)).answer }
    ensures stand { state_stand state.new label.new ≡ (step_of (state_stand state.old label.old) file.now (length out.old)).stand }
    ensures record { out.new ≡ step_buffer (state_stand state.old label.old) file.now out.old }
{
    let answer = held::one_step(file, state, label, out);
    abi::tell_step(answer)
}

// Steps on to the next record, the end or a refusal: never answers 2. Each item on the way
// takes a byte of the file, so there are no more steps than bytes and one.
#[unsafe(no_mangle)]
pub extern "C" fn cockledrift_next(
    file: &[u8],
    state: &mut [u64; STAND_NUMBERS],
    label: &mut [u8; LABEL_LIMIT],
    out: &mut [u8],
) -> StepNumbers
    ensures answer { result ≡ step_numbers (next_record (state_stand state.old label.old) file.now (length out.old)).answer }
    ensures stand { state_stand state.new label.new ≡ (next_record (state_stand state.old label.old) file.now (length out.old)).stand }
    ensures record { out.new ≡ next_buffer (state_stand state.old label.old) file.now out.old }
{
    let mut left = file.len();
    // A for would want an answer behind it, for turns that never come.
    loop {
        let answer = cockledrift_step(file, state, label, out);
        if answer.what != 2 {
            return answer;
        }
        if left == 0 {
            return answer;
        }
        left -= 1;
    }
}

// Writes the SHA-256 of bytes to the lent digest.
#[unsafe(no_mangle)]
pub extern "C" fn cockledrift_sha256(bytes: &[u8], out: &mut [u8; DIGEST])
    ensures { out.new ≡ sha256_of bytes.now }
{
    sha256::sha256(bytes, out);
}

// Starts the SHA-256 of bytes that come in parts. The block may hold anything.
#[unsafe(no_mangle)]
pub extern "C" fn cockledrift_sha256_start(state: &mut [u64; RUNNING_NUMBERS])
    ensures { running_of state.new ≡ begun }
{
    let run = sha256::start();
    let numbers = sha256::numbers_of(run);
    *state = numbers;
}

// Takes in bytes more, from whatever the state and the block hold.
#[unsafe(no_mangle)]
pub extern "C" fn cockledrift_sha256_update(
    state: &mut [u64; RUNNING_NUMBERS],
    block: &mut [u8; BLOCK],
    bytes: &[u8],
)
    ensures { state_stream state.new block.new ≡ updated (state_stream state.old block.old) bytes.now }
{
    let run = sha256::running_of(state);
    let next = sha256::update(run, block, bytes);
    let numbers = sha256::numbers_of(next);
    *state = numbers;
}

// Writes the digest of the bytes that came, from whatever the state and the block hold.
#[unsafe(no_mangle)]
pub extern "C" fn cockledrift_sha256_finish(
    state: &[u64; RUNNING_NUMBERS],
    block: &[u8; BLOCK],
    out: &mut [u8; DIGEST],
)
    ensures { out.new ≡ finished (state_stream state.now block.now) }
{
    let run = sha256::running_of(state);
    sha256::finish(run, block, out);
}

fn tell_reach(answer: Result<Reached, Refusal>) -> ReachNumbers
    ensures { result ≡ reach_numbers (reached_of answer) }
{
    match answer {
        Ok(reached) => ReachNumbers {
            number: 0,
            place: 0,
            legs: reached.legs,
            least_x: reached.least.x,
            least_y: reached.least.y,
            least_z: reached.least.z,
            greatest_x: reached.greatest.x,
            greatest_y: reached.greatest.y,
            greatest_z: reached.greatest.z,
        },
        Err(refusal) => ReachNumbers {
            number: u64::from(refusal.number),
            place: refusal.place,
            legs: 0,
            least_x: 0,
            least_y: 0,
            least_z: 0,
            greatest_x: 0,
            greatest_y: 0,
            greatest_z: 0,
        },
    }
}

// How far the survey of that name reaches in a sheet.
#[unsafe(no_mangle)]
pub extern "C" fn cockledrift_reach(sheet: &[u8], name: &[u8]) -> ReachNumbers
    ensures { result ≡ reach_numbers (reach_of sheet.now name.now) }
{
    let r = reach::reach(sheet, name);
    tell_reach(r)
}

// The legs of a sheet for the viewer, six numbers each, less the origin x y z.
#[unsafe(no_mangle)]
pub extern "C" fn cockledrift_viewer_legs(
    sheet: &[u8],
    x: i32,
    y: i32,
    z: i32,
    out: &mut [f32],
) -> ViewNumbers
    ensures answer { result ≡ view_numbers (view_of sheet.now (origin_of x y z) (length out.old)) }
    ensures numbers { out.new ≡ view_buffer sheet.now (origin_of x y z) out.old }
    ensures exact { ViewExact sheet.now (origin_of x y z) (length out.old) out.new }
{
    let origin = Origin { x, y, z };
    let r = viewer::viewer_legs(sheet, origin, out);
    abi::tell_viewed(r)
}

// Makes the summary of a sheet's entrances in the lent words.
#[unsafe(no_mangle)]
pub extern "C" fn cockledrift_summary(sheet: &[u8], words: &mut [u64]) -> SummaryNumbers
    ensures answer { result ≡ summary_numbers (summary_outcome sheet.now (length words.old)) }
    ensures words { words.new ≡ summary_words sheet.now words.old }
{
    let s = summary::summarize(sheet, words);
    abi::tell_summed(s)
}

// How many entrances a summary of so many records holds from one record up to but not
// including another, and where the next one is.
#[unsafe(no_mangle)]
pub extern "C" fn cockledrift_entrances(
    words: &[u64],
    records: u32,
    from: usize,
    to: usize,
) -> EntranceNumbers
    ensures { result ≡ entrance_numbers (entrances_outcome words.now records from to) }
{
    let e = summary::entrances(words, records, from, to);
    abi::tell_entrances(e)
}

// Brings a summary up to date after an edit of so many records: the run of `count` from
// `first` on is now the records of `new`.
#[unsafe(no_mangle)]
pub extern "C" fn cockledrift_summary_update(
    words: &mut [u64],
    records: u32,
    first: usize,
    count: usize,
    new: &[u8],
) -> SummaryNumbers
    ensures answer { result ≡ summary_numbers (update_outcome records first count new.now (length words.old)) }
    ensures words { words.new ≡ update_words records first count new.now words.old }
{
    let s = summary::update(words, records, first, count, new);
    abi::tell_summed(s)
}
