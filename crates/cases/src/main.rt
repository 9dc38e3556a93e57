// Cases 11, 12 and 13 of document 01 (13 with the zones of #101) and the dates of
// cross-sections (#106), run through the proved functions.
#![tactic(auto)]

use format::{Incomparable, Later, Refusal};
use listing::Printed;

// Prints the first n bytes of a line.
fn print_line(line: &[u8], n: usize) {
    if n <= line.len() {
        io::write_all(1, &line[..n]);
    }
}

fn print_refusal(refusal: Refusal) {
    let mut line = [0u8; 64];
    let n = listing::list(Printed::Refused { refusal }, b"", &mut line);
    print_line(&line, n);
}

// Reads a file and prints its listing, or the refusal.
fn run_read(file: &[u8]) {
    let mut sheet = [0u8; 4096];
    let mut text = [0u8; 4096];
    match read::read(file, &mut sheet) {
        Ok(done) => {
            let version = done.version;
            let n = listing::list(Printed::Sheet { version }, &sheet[..done.bytes], &mut text);
            print_line(&text, n);
        }
        Err(refusal) => print_refusal(refusal),
    }
}

// Compares two files and prints which is later, with its time line, or which is refused.
fn run_compare<'a>(first: &'a [u8], second: &'a [u8]) {
    match timeline::compare(first, second) {
        Ok(Later::First) => {
            io::write_all(1, b"first ");
        }
        Ok(Later::Second) => {
            io::write_all(1, b"second ");
        }
        Ok(Later::Same) => {
            io::write_all(1, b"same");
        }
        Err(Incomparable::First { refusal }) => {
            io::write_all(1, b"first ");
            print_refusal(refusal);
            return;
        }
        Err(Incomparable::Second { refusal }) => {
            io::write_all(1, b"second ");
            print_refusal(refusal);
            return;
        }
    }
    io::write_all(1, timeline::later_line(first, second));
    io::write_all(1, b"\n");
}

fn main() {
    // 11: v7 code 60 gives 4; v8 code a0 is an anonymous station.
    run_read(
        b"Survex 3D Image File\nv7\nA\n@0\n\x60\x01a\x00\x00\x00\x00\x00\x00\x00\x00\x00\x00\x00\x00\x00",
    );
    run_read(
        b"Survex 3D Image File\nv8\nA\n@0\n\x00\xa0\x01a\x00\x00\x00\x00\x00\x00\x00\x00\x00\x00\x00\x00\x00\x00",
    );
    // 12: v8 first item 40 20 and 12 bytes: 6, before 8.
    run_read(
        b"Survex 3D Image File\nv8\nA\n@0\n\x00\x40\x20\x00\x00\x00\x00\x00\x00\x00\x00\x00\x00\x00\x00\x00\x00",
    );
    // #106: a cross-section without a date, of a day and of a range; the date stands after
    // the last-in-passage number.
    run_read(
        b"Survex 3D Image File\nv8\nA\n@0\n\x00\x30\x01a\x00\x00\x00\x00\x00\x00\x00\x00\x11\x07\x00\x31\x11a\x00\x00\x00\x00\x00\x00\x00\x00\x12\x07\x00\x02\x30\x11a\x00\x00\x00\x00\x00\x00\x00\x00\x00\x00",
    );
    // 13: a text form equals its seconds. #101: in a zone other than `GMT` and `UTC` it gives 17.
    let text = b"Survex 3D Image File\nv7\nA\nSun,2002.03.17 14:01:07 GMT\n";
    let world = b"Survex 3D Image File\nv7\nA\nSun,2002.03.17 14:01:07 UTC\n";
    let summer = b"Survex 3D Image File\nv7\nA\nSun,2002.03.17 14:01:07 BST\n";
    let number = b"Survex 3D Image File\nv7\nA\n@1016373667\n";
    let next = b"Survex 3D Image File\nv7\nA\n@1016373668\n";
    run_compare(text, number);
    run_compare(world, number);
    run_compare(summer, number);
    run_compare(number, summer);
    run_compare(text, next);
    run_compare(next, text);
}
