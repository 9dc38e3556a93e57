// SHA-256 (FIPS 180-4): of bytes in one slice, and of bytes that come in parts.
#![tactic(auto, unfolding(crate::specs::Words::plus, crate::specs::Words::rotate_right, crate::specs::Words::choose, crate::specs::Words::majority, crate::specs::Words::big_sigma0, crate::specs::Words::big_sigma1, crate::specs::Words::small_sigma0, crate::specs::Words::small_sigma1, crate::specs::Digest::next_word, crate::specs::Digest::constants, crate::specs::Digest::initial))]

ghost use Rattle.std.specs.Prelude.{◌≡◌, ◌+◌, ◌-◌, ◌*◌, ◌/◌, ◌%◌, ◌^◌, ◌<◌, ◌≤◌, ◌∷◌, ◌++◌, length, take, replicate, slice_index, slice_set};
ghost use Rattle.format.specs.Bytes.{to_be32};
ghost use Rattle.wire.specs.Laid.{laid};
ghost use Rattle.sha256.specs.Words.{plus, choose, majority, big_sigma0, big_sigma1, small_sigma0, small_sigma1};
ghost use Rattle.sha256.specs.Digest.{constants, initial, bit_length, schedule, next_word, round_of, rounds, sum_of, compressed, blocks, digest, half_digest, hashed, sha256_of};
ghost use Rattle.sha256.specs.Streams.{TakenIn, updated, finished, stream_of, begun, running_of};

// The bytes of a block and of a digest.
pub const BLOCK: usize = 64;

pub const DIGEST: usize = 32;

// How many numbers say what was taken in.
pub const RUNNING_NUMBERS: usize = 9;

// The numbers that a word can be.
const WORD_RANGE: u64 = 4294967296;

const K: [u32; 64] = [
    0x428a2f98, 0x71374491, 0xb5c0fbcf, 0xe9b5dba5, 0x3956c25b, 0x59f111f1, 0x923f82a4, 0xab1c5ed5,
    0xd807aa98, 0x12835b01, 0x243185be, 0x550c7dc3, 0x72be5d74, 0x80deb1fe, 0x9bdc06a7, 0xc19bf174,
    0xe49b69c1, 0xefbe4786, 0x0fc19dc6, 0x240ca1cc, 0x2de92c6f, 0x4a7484aa, 0x5cb0a9dc, 0x76f988da,
    0x983e5152, 0xa831c66d, 0xb00327c8, 0xbf597fc7, 0xc6e00bf3, 0xd5a79147, 0x06ca6351, 0x14292967,
    0x27b70a85, 0x2e1b2138, 0x4d2c6dfc, 0x53380d13, 0x650a7354, 0x766a0abb, 0x81c2c92e, 0x92722c85,
    0xa2bfe8a1, 0xa81a664b, 0xc24b8b70, 0xc76c51a3, 0xd192e819, 0xd6990624, 0xf40e3585, 0x106aa070,
    0x19a4c116, 0x1e376c08, 0x2748774c, 0x34b0bcb5, 0x391c0cb3, 0x4ed8aa4a, 0x5b9cca4f, 0x682e6ff3,
    0x748f82ee, 0x78a5636f, 0x84c87814, 0x8cc70208, 0x90befffa, 0xa4506ceb, 0xbef9a3f7, 0xc67178f2,
];

// The eight words of a hash value, or the working variables.
#[derive(Clone, Copy)]
pub struct Hash {
    pub a: u32,
    pub b: u32,
    pub c: u32,
    pub d: u32,
    pub e: u32,
    pub f: u32,
    pub g: u32,
    pub h: u32,
}

// What was taken in: the hash value of the whole blocks, and how many bytes came. The
// bytes behind the whole blocks wait at the front of a block that is lent beside it.
#[derive(Clone, Copy)]
pub struct Running {
    pub hash: Hash,
    pub length: u64,
}

// ---- the functions on words

fn word(x: u64) -> u32
    ensures { result ≡ x % 4294967296 }
{
    (x % WORD_RANGE) as u32
}

fn ch(x: u32, y: u32, z: u32) -> u32
    ensures { result ≡ choose x y z }
{
    (x & y) ^ (!x & z)
}

fn maj(x: u32, y: u32, z: u32) -> u32
    ensures { result ≡ majority x y z }
{
    (x & y) ^ (x & z) ^ (y & z)
}

fn big0(x: u32) -> u32
    ensures { result ≡ big_sigma0 x }
{
    x.rotate_right(2) ^ x.rotate_right(13) ^ x.rotate_right(22)
}

fn big1(x: u32) -> u32
    ensures { result ≡ big_sigma1 x }
{
    x.rotate_right(6) ^ x.rotate_right(11) ^ x.rotate_right(25)
}

fn small0(x: u32) -> u32
    ensures { result ≡ small_sigma0 x }
{
    x.rotate_right(7) ^ x.rotate_right(18) ^ (x >> 3)
}

fn small1(x: u32) -> u32
    ensures { result ≡ small_sigma1 x }
{
    x.rotate_right(17) ^ x.rotate_right(19) ^ (x >> 10)
}

// ---- the message schedule of a block

// Its first 16 words, of 64.
fn spread(b: &[u8]) -> [u32; 64]
    requires { length b.now ≡ 64 }
    ensures { (length result ≡ 64) × (take 16 result ≡ schedule b.now 16) }
{
    let mut w = [0u32; 64];
    for t in 0..16 {
        w[t] = number::get_be32(&b[4 * t..]);
    }
    w
}

fn mixed(w2: u32, w7: u32, w15: u32, w16: u32) -> u32
    ensures { result ≡ plus (plus (plus (small_sigma1 w2) w7) (small_sigma0 w15)) w16 }
{
    small1(w2)
        .wrapping_add(w7)
        .wrapping_add(small0(w15))
        .wrapping_add(w16)
}

// The word t, of those before it.
fn next_word(w: &[u32; 64], t: usize) -> u32
    requires { (16 ≤ t) × (t < 64) }
    ensures { result ≡ next_word w.now t }
{
    mixed(w[t - 2], w[t - 7], w[t - 15], w[t - 16])
}

// ---- the rounds of a block

// The round constants. A constant array is stored wherever it is read, so this is made
// once and lent.
fn table() -> [u32; 64]
    ensures { result ≡ constants }
{
    K
}

fn first_sum(s: Hash, k: u32, w: u32) -> u32
    ensures { result ≡ plus (plus (plus (plus s.h (big_sigma1 s.e)) (choose s.e s.f s.g)) k) w }
{
    s.h.wrapping_add(big1(s.e))
        .wrapping_add(ch(s.e, s.f, s.g))
        .wrapping_add(k)
        .wrapping_add(w)
}

fn round(s: Hash, k: u32, w: u32) -> Hash
    ensures { result ≡ round_of k w s }
{
    let t1 = first_sum(s, k, w);
    let t2 = big0(s.a).wrapping_add(maj(s.a, s.b, s.c));
    Hash {
        a: t1.wrapping_add(t2),
        b: s.a,
        c: s.b,
        d: s.c,
        e: s.d.wrapping_add(t1),
        f: s.e,
        g: s.f,
        h: s.g,
    }
}

// A round whose word is there.
fn early_round(k: &[u32; 64], w: &[u32; 64], t: usize, s: Hash) -> Hash
    requires { t < 64 }
    ensures { result ≡ round_of (slice_index k.now t) (slice_index w.now t) s }
{
    round(s, k[t], w[t])
}

// The first 16 rounds, whose words are the block's, four a turn.
fn early_rounds(k: &[u32; 64], w: &[u32; 64], h: Hash) -> Hash
    ensures { result ≡ rounds (take 16 k.now) (take 16 w.now) h }
{
    let mut s = h;
    for turn in 0..4 {
        let t = 4 * turn;
        let s1 = early_round(k, w, t, s);
        let s2 = early_round(k, w, t + 1, s1);
        let s3 = early_round(k, w, t + 2, s2);
        s = early_round(k, w, t + 3, s3);
    }
    s
}

// A later round, which makes its word.
fn late_round(k: &[u32; 64], w: &mut [u32; 64], t: usize, s: Hash) -> Hash
    requires { (16 ≤ t) × (t < 64) }
    ensures word { w.new ≡ slice_set w.old t (next_word w.old t) }
    ensures round { result ≡ round_of (slice_index k.now t) (next_word w.old t) s }
{
    let x = next_word(w, t);
    w[t] = x;
    round(s, k[t], x)
}

fn sum(x: Hash, y: Hash) -> Hash
    ensures { result ≡ sum_of x y }
{
    Hash {
        a: x.a.wrapping_add(y.a),
        b: x.b.wrapping_add(y.b),
        c: x.c.wrapping_add(y.c),
        d: x.d.wrapping_add(y.d),
        e: x.e.wrapping_add(y.e),
        f: x.f.wrapping_add(y.f),
        g: x.g.wrapping_add(y.g),
        h: x.h.wrapping_add(y.h),
    }
}

// The hash value after one block more. Eight rounds a turn: the working variables are
// then back in their places, and none is moved.
fn compress(k: &[u32; 64], h: Hash, b: &[u8]) -> Hash
    requires { (k.now ≡ constants) × (length b.now ≡ 64) }
    ensures { result ≡ compressed h b.now }
{
    let mut w = spread(b);
    let mut s = early_rounds(k, &w, h);
    let mut t: usize = 16;
    // By hand: a `for` over the turns spills more, 35 instructions a turn.
    while t < 64 {
        let s1 = late_round(k, &mut w, t, s);
        let s2 = late_round(k, &mut w, t + 1, s1);
        let s3 = late_round(k, &mut w, t + 2, s2);
        let s4 = late_round(k, &mut w, t + 3, s3);
        let s5 = late_round(k, &mut w, t + 4, s4);
        let s6 = late_round(k, &mut w, t + 5, s5);
        let s7 = late_round(k, &mut w, t + 6, s6);
        s = late_round(k, &mut w, t + 7, s7);
        t += 8;
    }
    sum(h, s)
}

// The whole blocks of bytes.
fn absorb(k: &[u32; 64], h: Hash, bytes: &[u8]) -> Hash
    requires { k.now ≡ constants }
    ensures { result ≡ blocks (length bytes.now / 64) bytes.now h }
{
    let mut s = h;
    for n in 0..bytes.len() / BLOCK {
        let at = n * BLOCK;
        s = compress(k, s, &bytes[at..at + BLOCK]);
    }
    s
}

// ---- the last bytes and the padding

// The number of bits of n bytes, as two words.
fn high_bits(n: u64) -> u32
    ensures { result ≡ n * 8 / 4294967296 % 4294967296 }
{
    word(n / 536870912)
}

fn low_bits(n: u64) -> u32
    ensures { result ≡ n * 8 % 4294967296 }
{
    word(n % 536870912 * 8)
}

// The number of bits of n bytes in the last eight places of a block.
fn lay_length(b: &mut [u8], n: u64)
    requires { length b.old ≡ 64 }
    ensures { b.new ≡ take 56 b.old ++ bit_length n }
{
    wire::lay_be32(high_bits(n), b, 56);
    wire::lay_be32(low_bits(n), b, 60);
}

fn zeros() -> [u8; BLOCK]
    ensures { result ≡ replicate 64 0 }
{
    [0u8; BLOCK]
}

// The bytes of s, 0x80, and zeros.
fn last_bytes(s: &[u8]) -> [u8; BLOCK]
    requires { length s.now < 64 }
    ensures { result ≡ s.now ++ (128 ∷ replicate (63 - length s.now) 0) }
{
    let mut b = zeros();
    wire::copy(s, &mut b);
    b[s.len()] = 0x80;
    b
}

// The last bytes of a message of n bytes, and its padding: one block or two.
fn close(k: &[u32; 64], h: Hash, s: &[u8], n: u64) -> Hash
    requires { (k.now ≡ constants) × (length s.now ≡ n % 64) }
    ensures { result ≡ hashed h s.now n }
{
    let mut b = last_bytes(s);
    if s.len() < 56 {
        lay_length(&mut b, n);
        return compress(k, h, &b);
    }
    let one = compress(k, h, &b);
    let mut e = zeros();
    lay_length(&mut e, n);
    compress(k, one, &e)
}

// ---- the digest

fn lay_half(out: &mut [u8], at: usize, a: u32, b: u32, c: u32, d: u32)
    requires { at + 16 ≤ length out.old }
    ensures { out.new ≡ laid out.old at (half_digest a b c d) }
{
    wire::lay_be32(a, out, at);
    wire::lay_be32(b, out, at + 4);
    wire::lay_be32(c, out, at + 8);
    wire::lay_be32(d, out, at + 12);
}

fn lay_digest(out: &mut [u8], s: Hash)
    requires { length out.old ≡ 32 }
    ensures { out.new ≡ digest s }
{
    lay_half(out, 0, s.a, s.b, s.c, s.d);
    lay_half(out, 16, s.e, s.f, s.g, s.h);
}

// ---- a message in parts

// Takes in the whole blocks of the bytes that wait in the block and those that come, and
// leaves the rest at the front of the block.
fn take_in(h: Hash, block: &mut [u8], held: usize, bytes: &[u8]) -> Hash
    requires { (length block.old ≡ 64) × (held < 64) }
    ensures { TakenIn h (take held block.old ++ bytes.now) result block.new }
{
    let room = BLOCK - held;
    if bytes.len() < room {
        wire::lay(bytes, block, held);
        return h;
    }
    let k = table();
    wire::lay(&bytes[0..room], block, held);
    let one = compress(&k, h, block);
    let behind = &bytes[room..];
    let next = absorb(&k, one, behind);
    let at = behind.len() / BLOCK * BLOCK;
    wire::lay(&behind[at..], block, 0);
    next
}

// How many bytes of a block wait after `length` bytes.
fn waiting(length: u64) -> usize
    ensures { (result ≡ length % 64) × (result < 64) }
{
    (length % 64) as usize
}

// Before any bytes. The block may hold anything.
pub fn start() -> Running
    ensures { result ≡ begun }
{
    let hash = Hash {
        a: 0x6a09e667,
        b: 0xbb67ae85,
        c: 0x3c6ef372,
        d: 0xa54ff53a,
        e: 0x510e527f,
        f: 0x9b05688c,
        g: 0x1f83d9ab,
        h: 0x5be0cd19,
    };
    Running { hash, length: 0 }
}

// Takes in bytes more, from whatever `run` and the block say.
pub fn update(run: Running, block: &mut [u8; BLOCK], bytes: &[u8]) -> Running
    ensures { stream_of result block.new ≡ updated (stream_of run block.old) bytes.now }
{
    let held = waiting(run.length);
    let before = run.hash;
    let hash = take_in(before, &mut block[..], held, bytes);
    let length = run.length.wrapping_add(bytes.len() as u64);
    Running { hash, length }
}

// Writes the digest of the bytes that came, from whatever `run` and the block say.
pub fn finish(run: Running, block: &[u8; BLOCK], out: &mut [u8; DIGEST])
    ensures { out.new ≡ finished (stream_of run block.now) }
{
    let held = waiting(run.length);
    let before = run.hash;
    let whole = &block[..];
    let k = table();
    let last = close(&k, before, &whole[0..held], run.length);
    lay_digest(&mut out[..], last);
}

// Writes the digest of bytes.
pub fn sha256(bytes: &[u8], out: &mut [u8; DIGEST])
    ensures { out.new ≡ sha256_of bytes.now }
{
    let mut block = zeros();
    let run = start();
    let last = update(run, &mut block, bytes);
    finish(last, &block, out);
}

// ---- what was taken in, as numbers

pub fn running_of(s: &[u64; RUNNING_NUMBERS]) -> Running
    ensures { result ≡ running_of s.now }
{
    let hash = Hash {
        a: word(s[0]),
        b: word(s[1]),
        c: word(s[2]),
        d: word(s[3]),
        e: word(s[4]),
        f: word(s[5]),
        g: word(s[6]),
        h: word(s[7]),
    };
    Running { hash, length: s[8] }
}

pub fn numbers_of(run: Running) -> [u64; RUNNING_NUMBERS]
    ensures { running_of result ≡ run }
{
    let hash = run.hash;
    [
        u64::from(hash.a),
        u64::from(hash.b),
        u64::from(hash.c),
        u64::from(hash.d),
        u64::from(hash.e),
        u64::from(hash.f),
        u64::from(hash.g),
        u64::from(hash.h),
        run.length,
    ]
}
