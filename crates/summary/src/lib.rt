// The summary of a sheet's entrances: a mark for each record, 64 to a word, lowest bit first
// and spare bits 0, then as many words with a running total at each word's start. It is
// made of a sheet, asked, and brought up to date in its place after an edit.
#![tactic(auto)]

ghost use Rattle.std.specs.Prelude.{◌≡◌, ℕ, ◌+◌, ◌-◌, ◌*◌, ◌^◌, ◌<◌, ◌≤◌, length, drop, slice_index};
ghost use Rattle.format.specs.Bytes.{over};
ghost use Rattle.format.specs.Sheet.{sheet_version, records_of};
ghost use Rattle.format.specs.Summary.{one, words_for, needed, marks_in, marks_of, summary, bit, bit_at, rank_in, count_in, next_of, made_outcome, made_words, summary_outcome, summary_words, entrances_outcome, edited_marks, updated_outcome, update_outcome, update_words};
ghost use Rattle.format.specs.Answers.{entrances_of, summed_of};
ghost use Rattle.summary.specs.Bits.{sum_to, Field, Wrote, Put, Cleared, Totalled, Least};
ghost use Rattle.summary.specs.Records.{mark_at, RecordsIn, RecordsFit, Marked, CountedAs};

use format::{Entrances, Fault, Refusal, SHEET_VERSION};

// ---- numbers and words

// The mark words of n records.
fn words_for(n: usize) -> usize
    ensures { result ≡ words_for n }
{
    let whole = n / 64;
    if n % 64 == 0 { whole } else { whole + 1 }
}

// The n low bits, 1 to 64 of them.
fn low_bits(n: usize) -> u64
    requires { (0 < n) × (n ≤ 64) }
    ensures { result ≡ 2 ^ n - 1 }
{
    0xffff_ffff_ffff_ffffu64 >> (64 - n)
}

// A word with its `size` bits from s on replaced by the low bits of v.
fn put_field(w: u64, s: usize, size: usize, v: u64) -> u64
    requires { (0 < size) × (s + size ≤ 64) }
    ensures { Field w s size v result }
{
    w ^ ((((w >> s) ^ v) & low_bits(size)) << s)
}

// ---- bits of many words

// The `size` bits from bit k on.
fn read_bits(words: &[u64], k: usize, size: usize) -> u64
    requires { (0 < size) × (size ≤ 64) × (k + size ≤ 64 * length words.now) }
    ensures { (i : ℕ) → i < size → bit result i ≡ bit_at words.now (k + i) }
{
    let j = k / 64;
    let s = k % 64;
    let low = words[j] >> s;
    let part = 64 - s;
    if size <= part {
        return low;
    }
    low | (words[j + 1] << part)
}

// The same of one word of many.
fn write_in(words: &mut [u64], j: usize, s: usize, size: usize, v: u64)
    requires { (0 < size) × (s + size ≤ 64) × (j < length words.old) }
    ensures { Wrote words.old words.new (64 * j + s) size v }
{
    words[j] = put_field(words[j], s, size, v);
}

// The `size` bits from bit k on become the low bits of v.
fn write_bits(words: &mut [u64], k: usize, size: usize, v: u64)
    requires { (0 < size) × (size ≤ 64) × (k + size ≤ 64 * length words.old) }
    ensures { Wrote words.old words.new k size v }
{
    let j = k / 64;
    let s = k % 64;
    let part = 64 - s;
    if size <= part {
        write_in(words, j, s, size, v);
    } else {
        write_in(words, j, s, part, v);
        write_in(words, j + 1, 0, size - part, v >> part);
    }
}

// ---- runs of bits

// At most 64 of so many.
fn part_of(left: usize) -> usize
    requires { 0 < left }
    ensures { (0 < result) × (result ≤ 64) × (result ≤ left) }
{
    left.min(64)
}

// Moves bits up, the last ones first.
fn move_up(words: &mut [u64], from: usize, to: usize, size: usize)
    requires { (from ≤ to) × (to + size ≤ 64 * length words.old) × (to + size < 2 ^ 64) }
    ensures { Put words.old words.new to 0 size (λ i. bit_at words.old (from + i)) }
{
    let mut left = size;
    // a while, since a turn moves up to 64 bits
    while 0 < left {
        let part = part_of(left);
        left -= part;
        let v = read_bits(words, from + left, part);
        write_bits(words, to + left, part, v);
    }
}

// Moves bits down, the first ones first.
fn move_down(words: &mut [u64], from: usize, to: usize, size: usize)
    requires { (to ≤ from) × (from + size ≤ 64 * length words.old) × (from + size < 2 ^ 64) }
    ensures { Put words.old words.new to 0 size (λ i. bit_at words.old (from + i)) }
{
    let mut done = 0;
    // a while, since a turn moves up to 64 bits
    while done < size {
        let part = part_of(size - done);
        let v = read_bits(words, from + done, part);
        write_bits(words, to + done, part, v);
        done += part;
    }
}

fn move_bits(words: &mut [u64], from: usize, to: usize, size: usize)
    requires { (from + size ≤ 64 * length words.old) × (from + size < 2 ^ 64) × (to + size ≤ 64 * length words.old) × (to + size < 2 ^ 64) }
    ensures { Put words.old words.new to 0 size (λ i. bit_at words.old (from + i)) }
{
    if from < to {
        move_up(words, from, to, size);
        return;
    }
    if to < from {
        move_down(words, from, to, size);
    }
}

// ---- the records of a sheet

// How many records of the version's layout s holds from `begin` on, if all of them are
// well-formed.
fn count_records(s: &[u8], version: u8, begin: usize) -> Result<usize, Refusal>
    requires { begin ≤ length s.now }
    ensures { CountedAs result (length s.now) (records_of version (drop begin s.now)) }
{
    let mut at = begin;
    let mut number: usize = 0;
    // a while, since each record has a size of its own
    while at < s.len() {
        let Some(size) = reach::other_size(&s[at..], version) else {
            return Err(Fault::BrokenLayout.at(number));
        };
        number += 1;
        at += size;
    }
    Ok(number)
}

// The mark of the well-formed record at the front of s.
fn mark_of(s: &[u8]) -> u64
    requires { (3 ≤ length s.now) × (slice_index s.now 2 ≡ 2 → 4 ≤ length s.now) }
    ensures { result ≡ one (mark_at s.now) }
{
    if s[2] != 2 {
        return 0;
    }
    u64::from(s[3] / 0x04 % 2)
}

// The marks of well-formed records, which s holds from `begin` on, from bit `first` on.
fn put_marks(words: &mut [u64], first: usize, s: &[u8], begin: usize)
    requires { (begin ≤ length s.now) × RecordsFit (drop begin s.now) first (length words.old) }
    ensures { Marked (drop begin s.now) first words.old words.new }
{
    let mut at = begin;
    let mut number: usize = 0;
    // a while, since each record has a size of its own
    while at < s.len() {
        let rest = &s[at..];
        let mark = mark_of(rest);
        write_bits(words, first + number, 1, mark);
        number += 1;
        at += 2 + sheet::size_of(number::get_be16(rest));
    }
}

// ---- the summary of marks that stand in the first words

fn clear_spare(words: &mut [u64], n: usize)
    requires { words_for n ≤ length words.old }
    ensures { Cleared words.old words.new n (words_for n) }
{
    let s = n % 64;
    if 0 < s {
        write_in(words, n / 64, s, 64 - s, 0);
    }
}

fn ones_of(w: u64) -> u64
    ensures { (result ≡ sum_to (bit w) 64) × (result ≤ 64) }
{
    u64::count_ones(w) as u64
}

// The totals of w words, behind them.
fn put_totals(words: &mut [u64], w: usize)
    requires { (2 * w ≤ length words.old) × (w < 2 ^ 58) }
    ensures { Totalled words.old words.new w w }
{
    let mut sum: u64 = 0;
    for j in 0..w {
        words[w + j] = sum;
        sum += ones_of(words[j]);
    }
}

// Spare bits and totals, for n records whose marks stand in the words.
fn finish(words: &mut [u64], n: usize)
    requires { (needed n ≤ length words.old) × (n < 2 ^ 64 - 64) }
    ensures { words.new ≡ over (summary (marks_of n words.old)) words.old }
{
    clear_spare(words, n);
    put_totals(words, words_for(n));
}

// ---- making the summary

// The summary of the records that a sheet of the version holds from `begin` on.
fn summarize_records(
    sheet: &[u8],
    version: u8,
    begin: usize,
    words: &mut [u64],
) -> Result<usize, Refusal>
    requires { begin ≤ length sheet.now }
    ensures answer { summed_of result ≡ made_outcome (records_of version (drop begin sheet.now)) (length words.old) }
    ensures words { words.new ≡ made_words (records_of version (drop begin sheet.now)) words.old }
{
    let records = count_records(sheet, version, begin)?;
    let least = 2 * words_for(records);
    if words.len() < least {
        return Err(Fault::BufferTooSmall.at(least));
    }
    put_marks(words, 0, sheet, begin);
    finish(words, records);
    Ok(least)
}

// The summary of a sheet, to the front of the words.
pub fn summarize(sheet: &[u8], words: &mut [u64]) -> Result<usize, Refusal>
    ensures answer { summed_of result ≡ summary_outcome sheet.now (length words.old) }
    ensures words { words.new ≡ summary_words sheet.now words.old }
{
    let version = sheet::version_of(sheet);
    let Some(front) = sheet::read_front(sheet, version) else {
        return Err(Fault::BrokenLayout.at(0));
    };
    summarize_records(sheet, version, 7 + front.title + front.time, words)
}

// ---- questions

// The marks before record k.
fn rank(words: &[u64], n: usize, k: usize) -> u64
    requires { (k ≤ n) × (needed n ≤ length words.now) }
    ensures { result ≡ rank_in words.now n k }
{
    if k == 0 {
        return 0;
    }
    let last = k - 1;
    let j = last / 64;
    let total = words_for(n) + j;
    let low = low_bits(last % 64 + 1);
    let part = u64::count_ones(words[j] & low) as u64;
    std::num::wrapping_add_u64(words[total], part)
}

// The marks from a up to but not including b.
fn count_marks(words: &[u64], n: usize, a: usize, b: usize) -> u64
    requires { (a ≤ n) × (b ≤ n) × (needed n ≤ length words.now) }
    ensures { result ≡ count_in words.now n a b }
{
    let before = rank(words, n, a);
    let to = rank(words, n, b);
    std::num::wrapping_sub_u64(to, before)
}

// The place of a word's least set bit.
fn least_bit(w: u64) -> usize
    requires { 0 < w }
    ensures { Least w result × (result < 64) }
{
    u64::trailing_zeros(w) as usize
}

// The least marked record at or after a.
fn next_mark(words: &[u64], n: usize, a: usize) -> Option<usize>
    requires { needed n ≤ length words.now }
    ensures { result ≡ next_of (marks_of n words.now) a }
{
    let w = words_for(n);
    let mut s = a % 64;
    for j in a / 64..w {
        let rest = words[j] >> s;
        if 0 < rest {
            let at = j * 64 + (s + least_bit(rest));
            if at < n {
                return Some(at);
            }
            return None;
        }
        s = 0;
    }
    None
}

// How many entrances the records hold from `from` up to but not including `to`, and where
// the next one is at or after `from`.
pub fn entrances(words: &[u64], records: u32, from: usize, to: usize) -> Result<Entrances, Refusal>
    ensures { entrances_of result ≡ entrances_outcome words.now records from to }
{
    let n = records as usize;
    let least = 2 * words_for(n);
    if words.len() < least {
        return Err(Fault::BufferTooSmall.at(least));
    }
    if to < from {
        return Err(Fault::PastRecords.at(n));
    }
    if n < to {
        return Err(Fault::PastRecords.at(n));
    }
    let count = count_marks(words, n, from, to);
    let next = next_mark(words, n, from);
    Ok(Entrances { count, next })
}

// ---- bringing it up to date

// The marks of a run, up to `from`, become those of `added` records; `rest` records follow it.
fn replace(words: &mut [u64], first: usize, from: usize, rest: usize, new: &[u8], added: usize)
    requires { (first ≤ from) × (needed (from + rest) ≤ length words.old) × (needed (first + added + rest) ≤ length words.old) × (from + rest < 2 ^ 64) × (first + added + rest < 2 ^ 64 - 64) × RecordsIn added (length new.now) (records_of sheet_version new.now) }
    ensures { words.new ≡ over (summary (edited_marks (marks_of (from + rest) words.old) first (from - first) (marks_in (records_of sheet_version new.now).records))) words.old }
{
    let to = first + added;
    move_bits(words, from, to, rest);
    put_marks(words, first, new, 0);
    finish(words, to + rest);
}

// After an edit of n records: the run of `count` from `first` on is now `added` records.
fn update_marks(
    words: &mut [u64],
    n: usize,
    first: usize,
    count: usize,
    new: &[u8],
    added: usize,
) -> Result<usize, Refusal>
    requires { (n < 2 ^ 32) × (first + count ≤ n) × RecordsIn added (length new.now) (records_of sheet_version new.now) }
    ensures answer { summed_of result ≡ updated_outcome n first count (records_of sheet_version new.now) (length words.old) }
    ensures words { words.new ≡ update_words n first count new.now words.old }
{
    let from = first + count;
    let after = n - count + added;
    let taken = 2 * words_for(after);
    let most = (2 * words_for(n)).max(taken);
    if words.len() < most {
        return Err(Fault::BufferTooSmall.at(most));
    }
    replace(words, first, from, n - from, new, added);
    Ok(taken)
}

// After an edit: of the old records, the run of `count` from `first` on is now those of `new`.
pub fn update(
    words: &mut [u64],
    records: u32,
    first: usize,
    count: usize,
    new: &[u8],
) -> Result<usize, Refusal>
    ensures answer { summed_of result ≡ update_outcome records first count new.now (length words.old) }
    ensures words { words.new ≡ update_words records first count new.now words.old }
{
    let n = records as usize;
    if n < first {
        return Err(Fault::PastRecords.at(n));
    }
    if n - first < count {
        return Err(Fault::PastRecords.at(n));
    }
    let added = count_records(new, SHEET_VERSION, 0)?;
    update_marks(words, n, first, count, new, added)
}
