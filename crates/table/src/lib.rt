// The table: rows of passages, sorted by key, in lent bytes. How many there is room for, whether they are sound, where a key stands, and a row put in, replaced or
// taken out. It knows rows by their keys, and not what an update does to one.
#![tactic(auto)]

ghost use Rattle.std.specs.Prelude.{◌≡◌, true, map, ◌*◌, ◌≤◌, ◌+◌, ◌<◌, length, set};
ghost use Rattle.passage.specs.Layout.{row_wide, body_of, key_wide};
ghost use Rattle.table.specs.Rules.{rows, table_room, all_in_range, table_sound};
ghost use Rattle.lists.specs.Part.{part};
ghost use Rattle.keys.specs.Sorted.{sorted_rows, lookup, remove};
ghost use Rattle.lists.specs.Rows.{insert_at, remove_at, store};
ghost use Rattle.passage.specs.inner.Roles.{all_common};

use std::cmp::Ordering;

// The most rows that a table has.
pub const MOST_ROWS: usize = 2048;

// How many rows the lent bytes have room for.
pub fn rows_room(table: &[u8]) -> usize
    ensures { result ≡ table_room table.now }
{
    (table.len() / passage::ROW_WIDE).min(MOST_ROWS)
}

// Whether each of the first `count` rows is in its range, where what is common is.
// kept: (a) `table` is a lent area that may be longer than its rows: the C calls lend it with its count beside.
fn all_in_range(table: &[u8], count: usize) -> bool
    requires row_wide_in_bounds { count * row_wide ≤ length table.now }
    requires table_value { all_common (map body_of (rows count table.now)) ≡ true }
    ensures { result ≡ all_in_range (rows count table.now) }
{
    for row in 0..count {
        if !passage::row_in_range(table, row * passage::ROW_WIDE) {
            return false;
        }
    }
    true
}

// Whether so many rows have room, each is in its range, and their keys rise: of any bytes and any count.
// kept: (a) `table` is a lent area that may be longer than its rows: the C calls lend it with its count beside.
pub fn table_is_sound(table: &[u8], count: usize) -> bool
    ensures { result ≡ table_sound count table.now }
{
    if rows_room(table) < count {
        return false;
    }
    passage::all_common(table, 0, passage::ROW_WIDE, 0, count)
        && all_in_range(table, count)
        && keys::keys_rise(table, passage::ROW_WIDE, 0, count)
}

// ---- where a key stands

// Where the key from `from` on in `key` stands among the first `count` rows, or, as `Err`, where its row would be put.
// kept: (a) `table` is a lent area that may be longer than its rows: the C calls lend it with its count beside.
pub fn find(table: &[u8], count: usize, key: &[u8], from: usize) -> Result<usize, usize>
    requires row_wide_in_bounds { (count * row_wide ≤ length table.now) × (from + key_wide ≤ length key.now) }
    requires table_value { sorted_rows (rows count table.now) ≡ true }
    ensures { result ≡ lookup (part from key_wide key.now) (rows count table.now) }
{
    keys::find_key(table, passage::ROW_WIDE, 0, count, key, from)
}

// The place to look at next: `wish`, if it is one of those from lo up to hi, or else their middle.
// kept: (d) it only says where `find_near` looks next.
fn probe(lo: usize, hi: usize, wish: usize) -> usize
    requires { lo < hi }
    ensures { (lo ≤ result) × (result < hi) }
{
    if lo <= wish && wish < hi {
        wish
    } else {
        lo + (hi - lo) / 2
    }
}

// The same as `find`, but it looks first at the place `hint`, then a little behind it: quick where the key stands there or soon after.
// kept: (d) its own loop beside `keys::search_by`: where it looks next follows from its last steps, which one search for both would have to be told at each step.
pub fn find_near(
    table: &[u8],
    count: usize,
    key: &[u8],
    from: usize,
    hint: usize,
) -> Result<usize, usize>
    requires row_wide_in_bounds { (count * row_wide ≤ length table.now) × (from + key_wide ≤ length key.now) }
    requires table_value { sorted_rows (rows count table.now) ≡ true }
    ensures { result ≡ lookup (part from key_wide key.now) (rows count table.now) }
{
    let mut low = 0;
    let mut high = count;
    let mut wish = hint;
    let mut leap = 8;
    let mut next = 64;
    while low < high {
        let look = probe(low, high, wish);
        let o = keys::compare_key(table, look * passage::ROW_WIDE, key, from);
        match o {
            Ordering::Less => {
                low = look + 1;
                wish = look + leap;
                leap = next;
                next = count;
            }
            Ordering::Equal => return Ok(look),
            Ordering::Greater => high = look,
        }
    }
    Err(low)
}

// ---- a row put in, replaced or taken out

// A row is put in at a place among `count` rows.
// kept: (a) `table` is a lent area that may be longer than its rows: the C calls lend it with its count beside.
pub fn insert_row(table: &mut [u8], count: usize, place: usize, row: &[u8])
    requires { (place ≤ count) × ((count + 1) * row_wide ≤ length table.old) × (length row.now ≡ row_wide) }
    ensures { table.new ≡ store row_wide count (insert_at place row.now (rows count table.old)) table.old }
{
    let at = place * passage::ROW_WIDE;
    lists::shift_up(table, at, count * passage::ROW_WIDE, passage::ROW_WIDE);
    lists::copy_to(table, at, row);
}

// A row takes the place of another, of `count` rows.
// kept: (a) `table` is a lent area that may be longer than its rows: the C calls lend it with its count beside.
pub fn replace_row(table: &mut [u8], count: usize, place: usize, row: &[u8])
    requires { (place < count) × (count * row_wide ≤ length table.old) × (length row.now ≡ row_wide) }
    ensures { table.new ≡ store row_wide count (set (rows count table.old) place row.now) table.old }
{
    lists::copy_to(table, place * passage::ROW_WIDE, row);
}

// The row at a place among `count` rows leaves, and the bytes of the last become zero.
// kept: (a) `table` is a lent area that may be longer than its rows: the C calls lend it with its count beside.
fn remove_row(table: &mut [u8], count: usize, place: usize)
    requires { (place < count) × (count * row_wide ≤ length table.old) }
    ensures { table.new ≡ store row_wide count (remove_at place (rows count table.old)) table.old }
{
    let at = place * passage::ROW_WIDE;
    let behind = (count - 1 - place) * passage::ROW_WIDE;
    lists::shift_down(table, at, behind, passage::ROW_WIDE);
    lists::clear(table, at + behind, passage::ROW_WIDE);
}

// The row of the key from `from` on in `key` leaves, if there is one; the new count.
// kept: (a) `table` is a lent area that may be longer than its rows: the C calls lend it with its count beside.
pub fn remove_key(table: &mut [u8], count: usize, key: &[u8], from: usize) -> usize
    requires row_wide_in_bounds { (count * row_wide ≤ length table.old) × (from + key_wide ≤ length key.now) }
    requires table_value { sorted_rows (rows count table.old) ≡ true }
    ensures value { result ≡ length (remove (part from key_wide key.now) (rows count table.old)) }
    ensures table_after { table.new ≡ store row_wide count (remove (part from key_wide key.now) (rows count table.old)) table.old }
{
    let f = find(table, count, key, from);
    match f {
        Ok(i) => {
            remove_row(table, count, i);
            count - 1
        }
        Err(_) => count,
    }
}
