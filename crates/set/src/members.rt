// The members of a set that was read, in its slice, and membership: a binary search by the literals' keys.

ghost use Rattle.std.specs.Prelude.{◌+◌, ◌*◌, ◌≤◌, ◌<◌, ◌≡◌, MatchOption, cond, leb, false, length};
ghost use Rattle.buffer.specs.Bytes.{Bytes};
ghost use Rattle.literal.specs.Code.{key_room};
ghost use Rattle.set.specs.Code.{Ascends, has_key, key_set, any_key, member_key, At};

use literal::Literal;
use literal_fields::order::{key_at, key_of};

// One more than the largest key that five bytes spell.
const ROOM: u64 = 1099511627776;

// 1 where `key` is not above `wanted`, and 0 where it is. A number, so that the search has no branch that goes either way: with
// `(key <= wanted) as usize` it has one, and quotients and extensions take a quarter longer.
fn weigh(key: u64, wanted: u64) -> usize
    requires key_lt_key_room { key < key_room }
    requires wanted_lt_key_room { wanted < key_room }
    ensures { result ≡ cond (leb key wanted) 1 0 }
{
    ((ROOM + wanted - key) / ROOM) as usize
}

// The key of literal number i, from 0.
fn member_key(set: &[u8], i: usize) -> u64
    requires { 4 + 5 * (i + 1) ≤ length set.now }
    ensures { result ≡ member_key set.now i }
{
    let at = 4 + 5 * i;
    key_at(&set[at..])
}

// A set's record, and the number of its literals, each above the one before.
#[derive(Clone, Copy)]
pub struct Members<'a> {
    pub bytes: &'a [u8],
    pub count: usize,
    pub ghost fits: { 4 + 5 * count ≤ length bytes.now },
    pub ghost ascends: { Ascends bytes.now count },
    // True of each slice of bytes; a proof knows it of a slice by itself, and not of one in a struct.
    pub ghost are_bytes: { Bytes bytes.now },
}

impl<'a> Members<'a> {
    // The number of the literal with this key, from 0. Each step halves the part of `size` literals from `base` on that the literal lies in
    // if it is there at all: 13 steps for 5,352 literals, and one comparison at the end. The library's search would need the keys in a slice of
    // their own.
    pub fn place_of(self, wanted: u64) -> Option<usize>
        ensures { MatchOption result (has_key self.entry.bytes.now self.entry.count wanted ≡ false) (At self.entry.bytes.now self.entry.count wanted) }
    {
        if self.count == 0 || ROOM <= wanted {
            return None;
        }
        let set = self.bytes;
        let mut base: usize = 0;
        let mut size = self.count;
        while 1 < size {
            let half = size / 2;
            let mid = base + half;
            base += weigh(member_key(set, mid), wanted) * half;
            size -= half;
        }
        if member_key(set, base) == wanted {
            Some(base)
        } else {
            None
        }
    }

    // Whether one of the literals has this key: the same search, which answers without a branch that goes either way. By way of `place_of`
    // it had one, and extensions took a quarter longer; with the loop in a function that both call, the compiler reads a key byte by byte,
    // and they took a sixth longer.
    pub fn has_key(self, wanted: u64) -> bool
        ensures { result ≡ has_key self.entry.bytes.now self.entry.count wanted }
    {
        if self.count == 0 || ROOM <= wanted {
            return false;
        }
        let set = self.bytes;
        let mut base: usize = 0;
        let mut size = self.count;
        while 1 < size {
            let half = size / 2;
            let mid = base + half;
            base += weigh(member_key(set, mid), wanted) * half;
            size -= half;
        }
        member_key(set, base) == wanted
    }

    // Whether the literal is in the set.
    pub fn has(self, l: Literal) -> bool
        ensures { result ≡ key_set self.entry.bytes.now self.entry.count l }
    {
        self.has_key(key_of(l))
    }

    // Whether one of `n` literals of a slice, from a place on, is in the set. Kept out of its callers: inlined there, the compiler reads a
    // key byte by byte, and quotients take a sixth longer.
    #[inline(never)]
    pub fn has_any(self, n: usize, t: &[u8], from: usize) -> bool
        requires { from + 5 * n ≤ length t.now }
        ensures { result ≡ any_key self.entry.bytes.now self.entry.count n t.now from }
    {
        for i in 0..n {
            if self.has_key(key_at(&t[from + 5 * i..])) {
                return true;
            }
        }
        false
    }
}
