// What a v8 file has around the codes of its records: the header and the closing codes.
// Each piece is written where it fits.
#![tactic(auto)]

ghost use Rattle.std.specs.Prelude.{◌≤◌, length};
ghost use Rattle.format.specs.Header.{title_limit, time_limit};
ghost use Rattle.format.specs.Codes.{closing, header_codes, header_limit};
ghost use Rattle.part.specs.Lays.{Puts};

pub fn put_header(out: &mut [u8], extended: u8, title: &[u8], time: &[u8]) -> usize
    requires { (extended ≤ 1) × (length title.now ≤ title_limit) × (length time.now ≤ time_limit) }
    ensures { Puts out.old out.new (header_codes (record { extended = extended; title = title.now; time = time.now })) header_limit result }
{
    let a = part::put(out, 0, b"Survex 3D Image File\nv8\n");
    let b = part::put(out, a, title);
    let linefeed = [10];
    let c = part::put(out, b, &linefeed);
    let d = part::put(out, c, time);
    part::put(out, d, &[10, extended * 0x80])
}

// 00 unless the style is normal, then 00.
pub fn put_closing(out: &mut [u8], style: u8) -> usize
    ensures { Puts out.old out.new (closing style) 2 result }
{
    if style == 0 {
        return part::put(out, 0, &[0x00]);
    }
    part::put(out, 0, &[0x00, 0x00])
}
