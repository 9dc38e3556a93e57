// An index of names in lent room, each with a place: nodes of 32 bytes from the room's
// front on, and the names from its end downwards. It is a hash table with chains. Each
// node has the heads of two chains, and all nodes are hung anew where the names outgrow
// the heads in use.
#![tactic(auto)]

ghost use Rattle.std.specs.Prelude.{◌≡◌, [], ◌+◌, ◌*◌, ◌/◌, ◌%◌, ◌≤◌, ◌<◌, length};
ghost use Rattle.format.specs.Bytes.{to_le32};
ghost use Rattle.table.specs.Hash.{factor_of, mix_of, hash_from, hash_of};
ghost use Rattle.table.specs.Room.{hash_at, point_at, head_at, next_at, head_spot, front_of, node_of, hung_at, blank};
ghost use Rattle.table.specs.Entries.{entries_of, lookup, nowhere};
ghost use Rattle.table.specs.Good.{Hit, Inside, Good, Chained, Rehung, Blank};
ghost use Rattle.table.specs.Told.{Says, Holds, NodeTold, FindTold, AddTold, StationTold};

use format::{Fault, Point};
use number::{get_le16, get_le32, le32_bytes, wide};
use piece::{get_le24, get_le40, lay, lay_words, le24_bytes, same_name};

// How many names there are, how many bytes they take, how many nodes' heads are in use,
// and the seed of the hash.
#[derive(Clone, Copy)]
pub struct Index {
    pub count: usize,
    pub back: usize,
    pub spread: usize,
    pub seed: u64,
}

// The factor that a seed gives, an odd number.
fn factor(seed: u64) -> u32
    ensures { result ≡ factor_of seed }
{
    ((2654435761 + seed / 8589934592 * 2) % 4294967296) as u32
}

// h with w mixed in.
fn mix(k: u32, h: u32, w: u32) -> u32
    ensures { result ≡ mix_of k h w }
{
    let m = ((h ^ w) as u64) * (k as u64);
    ((m / 4294967296) as u32) ^ ((m % 4294967296) as u32)
}

// The hash of a name from h on.
fn hash_from(k: u32, from: u32, name: &[u8]) -> u32
    ensures { result ≡ hash_from k from name.now }
{
    let (words, rest) = name.as_chunks::<4>();
    let mut h = from;
    for word in words {
        h = mix(k, h, get_le32(word));
    }
    for b in rest {
        h = mix(k, h, wide(*b));
    }
    h
}

// The hash of a name.
fn hash(seed: u64, name: &[u8]) -> u32
    ensures { result ≡ hash_of seed name.now }
{
    let k = factor(seed);
    hash_from(k, (seed % 4294967296) as u32, name)
}

// The chain of a hash.
fn chain(h: u32, spread: usize) -> usize
    requires { (0 < spread) × (spread < 16777216) }
    ensures { (result ≡ h % (2 * spread)) × (result < 2 * spread) }
{
    let m = 2 * spread;
    (h as usize) % m
}

// Where the head of chain b stands.
fn head_spot(b: usize) -> usize
    requires { b < 33554432 }
    ensures { result ≡ head_spot b }
{
    32 * (b / 2) + 11 + 3 * (b % 2)
}

// The first node of chain b, counted from 1.
fn head_of(room: &[u8], b: usize) -> usize
    requires { (b < 33554432) × (head_spot b + 3 ≤ length room.now) }
    ensures { (result ≡ head_at room.now b) × (result < 16777216) }
{
    let k = head_spot(b);
    get_le24(&room[k..])
}

// The node behind node i in its chain, counted from 1.
fn next_of(room: &[u8], i: usize) -> usize
    requires { 32 * i + 32 ≤ length room.now }
    ensures { result ≡ next_at room.now i }
{
    let k = 32 * i + 17;
    get_le24(&room[k..])
}

// The hash that node i keeps.
fn hash_of(room: &[u8], i: usize) -> u32
    requires { 32 * i + 32 ≤ length room.now }
    ensures { result ≡ hash_at room.now i }
{
    let k = 32 * i + 7;
    get_le32(&room[k..])
}

// The place that node i keeps.
fn place_at(room: &[u8], i: usize) -> Point
    requires { 32 * i + 32 ≤ length room.now }
    ensures { result ≡ point_at room.now i }
{
    let k = 32 * i + 20;
    let l = 32 * i + 24;
    let m = 32 * i + 28;
    Point {
        x: get_le32(&room[k..]),
        y: get_le32(&room[l..]),
        z: get_le32(&room[m..]),
    }
}

// Whether node i has this hash and this name.
fn has_name(room: &[u8], back: usize, i: usize, h: u32, name: &[u8]) -> bool
    requires { (32 * i + 32 ≤ length room.now) × (back ≤ length room.now) × Inside room.now back i }
    ensures { Says result (Hit room.now i h name.now) }
{
    let k = 32 * i;
    let node = &room[k..];
    let g = get_le32(&node[7..]);
    if g != h {
        return false;
    }
    let size = get_le16(&node[5..]) as usize;
    let start = get_le40(node);
    let from = room.len() - start;
    let to = from + size;
    same_name(&room[from..to], name)
}

// Searches for a name: its place, or the hash of a name that is not there.
pub fn find(room: &[u8], index: Index, name: &[u8]) -> Result<Point, u32>
    requires { Holds room.now index }
    ensures { FindTold result index.seed room.now index.count name.now }
{
    let count = index.count;
    let back = index.back;
    let spread = index.spread;
    let h = hash(index.seed, name);
    if count == 0 {
        return Err(h);
    }
    let b = chain(h, spread);
    let mut c = head_of(room, b);
    // (A chain goes where its links lead, so there is no range to go over.)
    while 0 < c {
        let i = c - 1;
        if has_name(room, back, i, h, name) {
            return Ok(place_at(room, i));
        }
        c = next_of(room, i);
    }
    Err(h)
}

// Puts node i at the front of the chain of its hash.
fn hang(room: &mut [u8], spread: usize, i: usize)
    requires { (0 < spread) × (spread < 16777216) × (32 * spread ≤ length room.old) × (32 * i + 32 ≤ length room.old) }
    ensures { room.new ≡ hung_at room.old (hash_at room.old i % (2 * spread)) i }
{
    let h = hash_of(room, i);
    let b = chain(h, spread);
    let first = head_of(room, b);
    let next = le24_bytes(first);
    let k = 32 * i + 17;
    lay(&next, room, k);
    let link = le24_bytes(i + 1);
    let to = head_spot(b);
    lay(&link, room, to);
}

// Takes the heads out of node i.
fn wipe(room: &mut [u8], i: usize)
    requires { 32 * i + 32 ≤ length room.old }
    ensures { room.new ≡ blank room.old i }
{
    let zeros = [0u8, 0, 0, 0, 0, 0];
    let k = 32 * i + 11;
    lay(&zeros, room, k);
}

// Takes the heads out of n nodes.
fn wipe_all(room: &mut [u8], n: usize)
    requires { 32 * n ≤ length room.old }
    ensures { Blank room.old room.new n n }
{
    for i in 0..n {
        wipe(room, i);
    }
}

// Hangs n nodes anew, with all their heads in use.
fn hang_all(room: &mut [u8], n: usize)
    requires { (0 < n) × (n < 16777216) × (32 * n ≤ length room.old) }
    ensures { Rehung room.old room.new n n }
{
    wipe_all(room, n);
    for i in 0..n {
        hang(room, n, i);
    }
}

// The bytes of a node before its links.
fn front(start: usize, size: usize, h: [u8; 4]) -> [u8; 11]
    ensures { result ≡ front_of start size h }
{
    [
        (start % 256) as u8,
        (start / 256 % 256) as u8,
        (start / 65536 % 256) as u8,
        (start / 16777216 % 256) as u8,
        (start / 4294967296 % 256) as u8,
        (size % 256) as u8,
        (size / 256 % 256) as u8,
        h[0],
        h[1],
        h[2],
        h[3],
    ]
}

// The bytes of a node with no links.
fn node(f: [u8; 11], x: [u8; 4], y: [u8; 4], z: [u8; 4]) -> [u8; 32]
    ensures { result ≡ node_of f x y z }
{
    [
        f[0], f[1], f[2], f[3], f[4], f[5], f[6], f[7], f[8], f[9], f[10], 0, 0, 0, 0, 0, 0, 0, 0,
        0, x[0], x[1], x[2], x[3], y[0], y[1], y[2], y[3], z[0], z[1], z[2], z[3],
    ]
}

// A number's bytes, and that it has four.
fn four(n: u32) -> [u8; 4]
    ensures { (result ≡ to_le32 n) × (n < 4294967296) }
{
    le32_bytes(n)
}

// The bytes of a node for a name.
fn node_for(start: usize, size: usize, hash: u32, place: Point) -> [u8; 32]
    ensures { NodeTold result start size hash place }
{
    let f = front(start, size, four(hash));
    node(f, four(place.x), four(place.y), four(place.z))
}

// Adds a name that no node has, with its hash; where there is no room for it, None.
pub fn add(room: &mut [u8], index: Index, hash: u32, name: &[u8], place: Point) -> Option<Index>
    requires { Holds room.old index × (lookup (entries_of room.old index.count) name.now ≡ nowhere) × (hash ≡ hash_of index.seed name.now) × (length name.now ≤ 4096) × (index.count < 16777215) }
    ensures { AddTold result room.old room.new index.count name.now place }
{
    let count = index.count;
    let spread = index.spread;
    let seed = index.seed;
    let back = index.back + name.len();
    let top = 32 * count;
    let n = count + 1;
    if room.len() < top + 32 + back {
        return None;
    }
    let from = room.len() - back;
    lay_words(name, room, from);
    let bytes = node_for(back, name.len(), hash, place);
    lay(&bytes, room, top);
    if 2 * spread < n {
        hang_all(room, n);
        return Some(Index {
            count: n,
            back,
            spread: n,
            seed,
        });
    }
    hang(room, spread, count);
    Some(Index {
        count: n,
        back,
        spread,
        seed,
    })
}

// Takes a station of a strict reading: the search and, where its name is new, the addition.
// The index after it; or why it is refused, by its place or by the room.
pub fn take(room: &mut [u8], index: Index, name: &[u8], place: Point) -> Result<Index, Fault>
    requires { Holds room.old index × (length name.now ≤ 4096) × (index.count < 16777215) }
    ensures { StationTold result room.old room.new index name.now place }
{
    match find(room, index, name) {
        Ok(known) if known == place => Ok(index),
        Ok(_) => Err(Fault::StationMoved),
        Err(hash) => add(room, index, hash, name, place).ok_or(Fault::NoRoomForNames),
    }
}

// The index of no names, in room of any content, with a seed for the hash.
pub fn empty(room: &[u8], seed: u64) -> Index
    ensures { Holds room.now result × (entries_of room.now result.count ≡ []) × (result.count ≡ 0) }
{
    Index {
        count: 0,
        back: 0,
        spread: 0,
        seed,
    }
}
