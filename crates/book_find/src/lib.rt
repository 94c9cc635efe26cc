// What is found in a book: where a message stands among the updates, and the plan of a key. It writes nothing into the book.
#![tactic(auto)]

ghost use Rattle.std.specs.Prelude.{◌≡◌, true, map, ◌+◌, ◌*◌, ◌≤◌, length, drop};
ghost use Rattle.lists.specs.Part.{part, over, some};
ghost use Rattle.lists.specs.Rows.{rows_of};
ghost use Rattle.passage.specs.Layout.{key_wide, row_wide};
ghost use Rattle.keys.specs.Sorted.{sorted_rows, lookup, get};
ghost use Rattle.book.specs.Entries.{plan_wide, entry_wide, plan_body_of, updates_in};
ghost use Rattle.book.specs.Rules.{book_sound, plan_rows};
ghost use Rattle.book_find.specs.inner.Held.{leading_of, held_as};

// How many of the updates from `at` on stand before the first of another number; if not `own`, before the first of this number.
fn count_leading(book: &[u8], at: usize, entries: usize, number: u32, own: bool) -> usize
    requires { at + entries * entry_wide ≤ length book.now }
    ensures { result ≡ leading_of own number (rows_of entry_wide entries (drop at book.now)) }
{
    for i in 0..entries {
        let said = lists::get_number(
            book,
            at + i * book::ENTRY_WIDE + book::NUMBER_AT,
            book::NUMBER_WIDE,
        );
        if (said == number) != own {
            return i;
        }
    }
    entries
}

// Where the message of this number stands: the place of its first entry among the updates, and how many follow each other.
// kept: (a) `book` is a lent area longer than what is used of it: the C calls lend it with its counts beside.
pub fn find_message(book: &[u8], used: usize, number: u32) -> Option<(usize, usize)>
    requires { book_sound used book.now ≡ true }
    ensures { result ≡ held_as number (updates_in used book.now) }
{
    let from = book::count_plans(book, used) * book::PLAN_WIDE;
    let m = (used - from) / book::ENTRY_WIDE;
    let i = count_leading(book, from, m, number, false);
    if i == m {
        return None;
    }
    let k = count_leading(book, from + i * book::ENTRY_WIDE, m - i, number, true);
    Some((i, k))
}

// Where the key from `from` on in `key` stands among the plan entries, or would stand.
// kept: (a) `book` is a lent area longer than what is used of it: the C calls lend it with its counts beside.
pub fn find_plan(book: &[u8], plans: usize, key: &[u8], from: usize) -> Result<usize, usize>
    requires plan_wide_in_bounds { (plans * plan_wide ≤ length book.now) × (from + key_wide ≤ length key.now) }
    requires book_value { sorted_rows (map plan_body_of (rows_of plan_wide plans book.now)) ≡ true }
    ensures { result ≡ lookup (part from key_wide key.now) (map plan_body_of (rows_of plan_wide plans book.now)) }
{
    keys::find_key(book, book::PLAN_WIDE, book::KIND_WIDE, plans, key, from)
}

// The plan's row of that key is written into `out` from `at` on, if there is one.
// kept: (a) `book` is a lent area longer than what is used of it: the C calls lend it with its counts beside.
// kept: (a) no heap: the row goes into the lent `out`, as its contract says, and what is answered is whether there is one.
pub fn plan_row(
    book: &[u8],
    plans: usize,
    key: &[u8],
    from: usize,
    out: &mut [u8],
    at: usize,
) -> bool
    requires plan_wide_in_bounds { (plans * plan_wide ≤ length book.now) × (from + key_wide ≤ length key.now) }
    requires book_value { sorted_rows (map plan_body_of (rows_of plan_wide plans book.now)) ≡ true }
    requires row_wide_in_bounds { at + row_wide ≤ length out.old }
    ensures value { result ≡ some (get (part from key_wide key.now) (plan_rows (map plan_body_of (rows_of plan_wide plans book.now)))) }
    ensures out_after { out.new ≡ over at (get (part from key_wide key.now) (plan_rows (map plan_body_of (rows_of plan_wide plans book.now)))) out.old }
{
    let f = find_plan(book, plans, key, from);
    match f {
        Ok(i) => {
            let p = i * book::PLAN_WIDE + book::KIND_WIDE;
            lists::copy_to(out, at, &book[p..p + passage::BODY_WIDE]);
            out[at + passage::HEARD_AT] = 0;
            true
        }
        Err(_) => false,
    }
}
