// The order of keys, whether the keys of rows rise, and where a key stands among rows, of any width and with their keys at any offset: table and plan are such rows.
#![tactic(auto)]

ghost use Rattle.std.specs.Prelude.{◌≡◌, true, ℕ, List, map, ◌+◌, ◌*◌, ◌-◌, ◌≤◌, ◌<◌, length};
ghost use Rattle.lists.specs.Part.{part};
ghost use Rattle.lists.specs.Rows.{rows_of};
ghost use Rattle.lists.specs.BigEndian.{number};
ghost use Rattle.passage.specs.Layout.{key_wide};
ghost use Rattle.keys.specs.Keys.{cmp};
ghost use Rattle.keys.specs.Sorted.{is_less, sorted_rows, lookup, Compares};

use std::cmp::Ordering;

// Keys are compared eight bytes at a time, and the last byte by itself.
const WORDS: usize = passage::KEY_WIDE / 8;

const LAST: usize = passage::KEY_WIDE - 1;

// The number that the eight bytes from `at` on spell: between as many bytes, byte order is the order of the numbers.
fn word_at(bytes: &[u8], at: usize) -> u64
    requires { at + 8 ≤ length bytes.now }
    ensures { result ≡ number (part at 8 bytes.now) }
{
    u64::from_be_bytes([
        bytes[at],
        bytes[at + 1],
        bytes[at + 2],
        bytes[at + 3],
        bytes[at + 4],
        bytes[at + 5],
        bytes[at + 6],
        bytes[at + 7],
    ])
}

// The key from `here` on in `left` against the one from `there` on in `right`, in byte order.
pub fn compare_key(left: &[u8], here: usize, right: &[u8], there: usize) -> Ordering
    requires { (here + key_wide ≤ length left.now) × (there + key_wide ≤ length right.now) }
    ensures { result ≡ cmp (part here key_wide left.now) (part there key_wide right.now) }
{
    for word in 0..WORDS {
        let x = word_at(left, here + word * 8);
        let y = word_at(right, there + word * 8);
        if x != y {
            return x.cmp(&y);
        }
    }
    left[here + LAST].cmp(&right[there + LAST])
}

// Whether the left key is below the right one. No branch: keys that stand side by side differ at any place.
fn is_below(left: &[u8], here: usize, right: &[u8], there: usize) -> bool
    requires { (here + key_wide ≤ length left.now) × (there + key_wide ≤ length right.now) }
    ensures { result ≡ is_less (cmp (part here key_wide left.now) (part there key_wide right.now)) }
{
    let mut below = false;
    let mut equal = true;
    for word in 0..WORDS {
        let x = word_at(left, here + word * 8);
        let y = word_at(right, there + word * 8);
        below |= equal & (x < y);
        equal &= x == y;
    }
    below | (equal & (left[here + LAST] < right[there + LAST]))
}

// Whether the keys rise strictly that stand from `offset` on in each of `count` rows of `width` bytes.
pub fn keys_rise(bytes: &[u8], width: usize, offset: usize, count: usize) -> bool
    requires { (count * width ≤ length bytes.now) × (offset + key_wide ≤ width) }
    ensures { result ≡ sorted_rows (map (part offset (width - offset)) (rows_of width count bytes.now)) }
{
    for row in 1..count {
        let p = row * width + offset;
        if !is_below(bytes, p - width, bytes, p) {
            return false;
        }
    }
    true
}

// Where `compare`, which tells of each of so many places, answers `Equal`, if it answers `Less` before and `Greater` behind; or, as `Err`, where it answers `Greater` first.
pub fn search_by<F: Fn(usize) -> Ordering>(count: usize, compare: F) -> Result<usize, usize>
    requires { (i : ℕ) → i < count → F.pre compare i }
    ensures { (k : List ℕ) (rs : List (List ℕ)) → length rs ≡ count → sorted_rows rs ≡ true → Compares (F.post compare) k rs → result ≡ lookup k rs }
{
    let mut lo = 0;
    let mut hi = count;
    // kept: (d) std searches a slice or a map, and here is neither: rows lie in bytes, or behind places.
    while lo < hi {
        let mid = lo + (hi - lo) / 2;
        match compare(mid) {
            Ordering::Less => lo = mid + 1,
            Ordering::Equal => return Ok(mid),
            Ordering::Greater => hi = mid,
        }
    }
    Err(lo)
}

// Where the key from `from` on in `key` stands among so many rows of `width` bytes, each with its key from `offset` on; or, as `Err`, where its row would be put.
pub fn find_key(
    bytes: &[u8],
    width: usize,
    offset: usize,
    count: usize,
    key: &[u8],
    from: usize,
) -> Result<usize, usize>
    requires width_in_bounds { (count * width ≤ length bytes.now) × (offset + key_wide ≤ width) × (from + key_wide ≤ length key.now) }
    requires bytes_value { sorted_rows (map (part offset (width - offset)) (rows_of width count bytes.now)) ≡ true }
    ensures { result ≡ lookup (part from key_wide key.now) (map (part offset (width - offset)) (rows_of width count bytes.now)) }
{
    search_by(
        count,
        |row| compare_key(bytes, row * width + offset, key, from),
    )
}
