// Answers as numbers, for C and Rust.
// Kinds and refusals are numbers here, since C reads them.
#![tactic(auto)]

ghost use Rattle.std.specs.Prelude.{◌≡◌};
ghost use Rattle.format.specs.Summary.{holds};
ghost use Rattle.format.specs.Answers.{later_of, opened_of, stepped_of, viewed_of, summed_of, entrances_of};
ghost use Rattle.abi.specs.Numbers.{answer_numbers, open_numbers, step_numbers};
ghost use Rattle.abi.specs.Compares.{compared_of};
ghost use Rattle.abi.specs.Views.{view_numbers};
ghost use Rattle.abi.specs.Summaries.{summary_numbers, entrance_numbers};

use format::{Done, Entrances, Handed, Incomparable, Later, Opened, Refusal, Stepped};

// An answer. Number 0 is success, with bytes, records and version; any other is the
// refusal's number, with its place in `bytes`.
#[repr(C)]
#[derive(Clone, Copy)]
pub struct AnswerNumbers {
    pub number: u64,
    pub bytes: usize,
    pub records: usize,
    pub version: u64,
}

// A byte as a number of the interface.
pub fn long(x: u8) -> u64
    ensures { result ≡ x }
{
    u64::from(x)
}

pub fn tell(answer: Result<Done, Refusal>) -> AnswerNumbers
    ensures { result ≡ answer_numbers answer }
{
    match answer {
        Ok(done) => AnswerNumbers {
            number: 0,
            bytes: done.bytes,
            records: done.records,
            version: u64::from(done.version),
        },
        Err(refusal) => AnswerNumbers {
            number: u64::from(refusal.number),
            bytes: refusal.place,
            records: 0,
            version: 0,
        },
    }
}

// What opening a step reader answers. Number 0 is success, with the version and the first
// item's place; any other is the refusal's number, with its place.
#[repr(C)]
#[derive(Clone, Copy)]
pub struct OpenNumbers {
    pub number: u64,
    pub place: usize,
    pub version: u64,
}

pub fn tell_open(answer: Result<Opened, Refusal>) -> OpenNumbers
    ensures { result ≡ open_numbers (opened_of answer) }
{
    match answer {
        Ok(opened) => OpenNumbers {
            number: 0,
            place: opened.place,
            version: u64::from(opened.version),
        },
        Err(refusal) => OpenNumbers {
            number: u64::from(refusal.number),
            place: refusal.place,
            version: 0,
        },
    }
}

// What a step answers: 1 a record, with its bytes and how many bytes of the label were
// kept; 2 no record; 3 the end; 4 a refusal, with its number, and its place in `bytes`.
#[repr(C)]
#[derive(Clone, Copy)]
pub struct StepNumbers {
    pub what: u64,
    pub bytes: usize,
    pub kept: usize,
    pub number: u64,
}

// An answer with no number of its own.
fn plain(what: u64) -> StepNumbers
    ensures { result ≡ record { what = what; bytes = 0; kept = 0; number = 0 } }
{
    StepNumbers {
        what,
        bytes: 0,
        kept: 0,
        number: 0,
    }
}

pub fn tell_step(answer: Result<Stepped, Refusal>) -> StepNumbers
    ensures { result ≡ step_numbers (stepped_of answer) }
{
    match answer {
        Ok(Stepped::Record { bytes, kept }) => StepNumbers {
            what: 1,
            bytes,
            kept,
            number: 0,
        },
        Ok(Stepped::Nothing) => plain(2),
        Ok(Stepped::End) => plain(3),
        Err(stop) => StepNumbers {
            what: 4,
            bytes: stop.place,
            kept: 0,
            number: u64::from(stop.number),
        },
    }
}

// Which file is later: 1 the first, 2 the second, with the place and the length of its
// time line; 0 neither; or 3 and the file that is refused, 1 or 2, with the refusal's
// number and place.
#[repr(C)]
#[derive(Clone, Copy)]
pub struct Compared {
    pub which: u64,
    pub file: u64,
    pub number: u64,
    pub place: usize,
    pub length: usize,
}

// A comparison with no refusal.
fn judged(which: u64, line: Handed) -> Compared
    ensures { result ≡ record { which = which; file = 0; number = 0; place = line.place; length = line.size } }
{
    Compared {
        which,
        file: 0,
        number: 0,
        place: line.place,
        length: line.size,
    }
}

// A comparison that names the file that is refused.
fn refused(file: u64, refusal: Refusal) -> Compared
    ensures { result ≡ record { which = 3; file = file; number = refusal.number; place = refusal.place; length = 0 } }
{
    Compared {
        which: 3,
        file,
        number: u64::from(refusal.number),
        place: refusal.place,
        length: 0,
    }
}

pub fn tell_later(answer: Result<Later, Incomparable>, line: Handed) -> Compared
    ensures { result ≡ compared_of (later_of answer) line }
{
    match answer {
        Ok(Later::First) => judged(1, line),
        Ok(Later::Second) => judged(2, line),
        Ok(Later::Same) => judged(0, line),
        Err(Incomparable::First { refusal }) => refused(1, refusal),
        Err(Incomparable::Second { refusal }) => refused(2, refusal),
    }
}

// Legs for the viewer. Number 0 is success, with how many legs came; any other is the
// refusal's number, with its place.
#[repr(C)]
#[derive(Clone, Copy)]
pub struct ViewNumbers {
    pub number: u64,
    pub place: usize,
    pub legs: usize,
}

pub fn tell_viewed(answer: Result<usize, Refusal>) -> ViewNumbers
    ensures { result ≡ view_numbers (viewed_of answer) }
{
    match answer {
        Ok(legs) => ViewNumbers {
            number: 0,
            place: 0,
            legs,
        },
        Err(refusal) => ViewNumbers {
            number: u64::from(refusal.number),
            place: refusal.place,
            legs: 0,
        },
    }
}

// What a summary takes. Number 0 is success, with the words; any other is the refusal's
// number, with its place.
#[repr(C)]
#[derive(Clone, Copy)]
pub struct SummaryNumbers {
    pub number: u64,
    pub place: usize,
    pub words: usize,
}

pub fn tell_summed(answer: Result<usize, Refusal>) -> SummaryNumbers
    ensures { result ≡ summary_numbers (summed_of answer) }
{
    match answer {
        Ok(words) => SummaryNumbers {
            number: 0,
            place: 0,
            words,
        },
        Err(refusal) => SummaryNumbers {
            number: u64::from(refusal.number),
            place: refusal.place,
            words: 0,
        },
    }
}

// How many entrances a stretch of records holds. Number 0 is success, with the count, and
// found 1 with the next entrance's record, or 0 where there is none; any other is the
// refusal's number, with its place.
#[repr(C)]
#[derive(Clone, Copy)]
pub struct EntranceNumbers {
    pub number: u64,
    pub place: usize,
    pub count: u64,
    pub found: u64,
    pub next: usize,
}

fn tell_next(count: u64, next: Option<usize>) -> EntranceNumbers
    ensures { result ≡ entrance_numbers (holds count next) }
{
    match next {
        Some(record) => EntranceNumbers {
            number: 0,
            place: 0,
            count,
            found: 1,
            next: record,
        },
        None => EntranceNumbers {
            number: 0,
            place: 0,
            count,
            found: 0,
            next: 0,
        },
    }
}

pub fn tell_entrances(answer: Result<Entrances, Refusal>) -> EntranceNumbers
    ensures { result ≡ entrance_numbers (entrances_of answer) }
{
    match answer {
        Ok(entrances) => tell_next(entrances.count, entrances.next),
        Err(refusal) => EntranceNumbers {
            number: u64::from(refusal.number),
            place: refusal.place,
            count: 0,
            found: 0,
            next: 0,
        },
    }
}
