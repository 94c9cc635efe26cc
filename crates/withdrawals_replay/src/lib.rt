// The passages that a message names, worked out again from the book: a slot for each, with its row or that there is none, begun from the plan, changed by the standing
// updates of the other messages, and taken into the table's rows.
#![tactic(auto)]

ghost use Rattle.std.specs.Prelude.{◌≡◌, true, ◌∷◌, map, [], ℕ, ◌+◌, ◌*◌, ◌≤◌, ◌<◌, leb, length, take, drop};
ghost use Rattle.lists.specs.Each.{Each};
ghost use Rattle.lists.specs.Part.{part, over};
ghost use Rattle.lists.specs.Rows.{rows_of, flat, store};
ghost use Rattle.passage.specs.Layout.{key_wide, body_wide, row_wide};
ghost use Rattle.keys.specs.Sorted.{sorted_rows, get, put, lookup};
ghost use Rattle.update.specs.Rule.{row_rule};
ghost use Rattle.table.specs.Rules.{most_rows, rows, table_room};
ghost use Rattle.book.specs.Entries.{plan_wide, entry_wide, plan_body_of};
ghost use Rattle.withdrawals_replay.specs.inner.Slots.{slot_wide, most_slots, slots_of, slot_key, slot_row, remove_one, removals, put_one, puts, settled, weight, weights};
ghost use Rattle.withdrawals_replay.specs.inner.Worked.{begun_slot, names_at, take_in, heard_in, Below};

// A slot: one byte, 1 where there is a row; then the row, or else its key and zero bytes.
pub const SLOT_WIDE: usize = 1 + passage::ROW_WIDE;

// ---- slots begun

// The slot from `at` on becomes that of the key from `from` on in `message`, with the row of the book's plan entries, if they have one.
// kept: (a) `book` is a lent area longer than what is used of it: the C calls lend it with its counts beside.
fn begin_slot(book: &[u8], plans: usize, message: &[u8], from: usize, slots: &mut [u8], at: usize)
    requires plan_wide_in_bounds { (plans * plan_wide ≤ length book.now) × (from + key_wide ≤ length message.now) × (at + slot_wide ≤ length slots.old) }
    requires book_value { sorted_rows (map plan_body_of (rows_of plan_wide plans book.now)) ≡ true }
    ensures { slots.new ≡ over at (begun_slot (map plan_body_of (rows_of plan_wide plans book.now)) (part from key_wide message.now)) slots.old }
{
    slots[at] = 0;
    lists::copy_to(slots, at + 1, &message[from..from + passage::KEY_WIDE]);
    lists::clear(
        slots,
        at + 1 + passage::KEY_WIDE,
        passage::ROW_WIDE - passage::KEY_WIDE,
    );
    if book_find::plan_row(book, plans, message, from, slots, at + 1) {
        slots[at] = 1;
    }
}

// A slot for each passage that the message's entries name, their places the first in `order`, as its plan says.
// kept: (a) `book` is a lent area longer than what is used of it: the C calls lend it with its counts beside.
pub fn begin_slots(
    book: &[u8],
    plans: usize,
    message: &[u8],
    entries: usize,
    order: &[u32],
    named: usize,
    slots: &mut [u8],
)
    requires plan_wide_in_bounds { (plans * plan_wide ≤ length book.now) × (entries * entry_wide ≤ length message.now) × (named ≤ length order.now) × (named * slot_wide ≤ length slots.old) }
    requires book_value { sorted_rows (map plan_body_of (rows_of plan_wide plans book.now)) ≡ true }
    requires each { Each (λ (j : ℕ). j < entries) (take named order.now) }
    ensures { slots.new ≡ over 0 (flat (map (begun_slot (map plan_body_of (rows_of plan_wide plans book.now))) (names_at message.now (take named order.now)))) slots.old }
{
    for i in 0..named {
        let p = order[i] as usize;
        begin_slot(
            book,
            plans,
            message,
            p * book::ENTRY_WIDE + book::BODY_AT,
            slots,
            i * SLOT_WIDE,
        );
    }
}

// ---- updates of the book taken into slots

// The update whose body stands from `from` on is taken into the slot from `at` on.
pub fn take_into(slots: &mut [u8], at: usize, bodies: &[u8], from: usize)
    requires { (at + slot_wide ≤ length slots.old) × (from + body_wide ≤ length bodies.now) }
    ensures { slots.new ≡ over at (1 ∷ row_rule (slot_row (part at slot_wide slots.old)) (part from body_wide bodies.now)) slots.old }
{
    if slots[at] == 1 {
        update::apply_row(slots, at + 1, bodies, from);
        return;
    }
    update::begin_row(slots, at + 1);
    update::apply_row(slots, at + 1, bodies, from);
    slots[at] = 1;
}

// The passages that the entries of a message name: their places, by key, are the first of `order`.
#[derive(Clone, Copy)]
struct Names<'a> {
    message: &'a [u8],
    entries: usize,
    order: &'a [u32],
    named: usize,
    ghost entries_there: { entries * entry_wide ≤ length message.now },
    ghost named_there: { named ≤ length order.now },
    ghost places_below: { Below entries (take named order.now) },
    ghost names_rise: { sorted_rows (names_at message.now (take named order.now)) ≡ true },
}

impl Names<'_> {
    // Where the key from `from` on in `book` stands among the names, or, as `Err`, would stand.
    fn find(self, book: &[u8], from: usize) -> Result<usize, usize>
        requires { from + key_wide ≤ length book.now }
        ensures { result ≡ lookup (part from key_wide book.now) (names_at self.entry.message.now (take self.entry.named self.entry.order.now)) }
    {
        sorting::find_place(
            self.message,
            self.entries,
            book::BODY_AT,
            book::ENTRY_WIDE,
            self.order,
            self.named,
            book,
            from,
        )
    }
}

// The update whose body stands from `from` on is taken into the slot of its key, if there is one.
fn take_update(book: &[u8], from: usize, names: Names, slots: &mut [u8])
    requires body_wide_in_bounds { (from + body_wide ≤ length book.now) × (names.named * slot_wide ≤ length slots.old) }
    requires slots_value { map slot_key (slots_of names.named slots.old) ≡ names_at names.message.now (take names.named names.order.now) }
    ensures taken { slots_of names.entry.named slots.new ≡ map (take_in (part from body_wide book.now)) (slots_of names.entry.named slots.old) }
    ensures rest { drop (names.entry.named * slot_wide) slots.new ≡ drop (names.entry.named * slot_wide) slots.old }
{
    let f = names.find(book, from);
    match f {
        Ok(i) => take_into(slots, i * SLOT_WIDE, book, from),
        Err(_) => {}
    }
}

// The entry from `at` on is taken into its slot, if it stands and is of another message.
fn replay_one(book: &[u8], at: usize, number: u32, names: Names, slots: &mut [u8])
    requires entry_wide_in_bounds { (at + entry_wide ≤ length book.now) × (names.named * slot_wide ≤ length slots.old) }
    requires slots_value { map slot_key (slots_of names.named slots.old) ≡ names_at names.message.now (take names.named names.order.now) }
    ensures taken { slots_of names.entry.named slots.new ≡ map (heard_in number (part at entry_wide book.now ∷ [])) (slots_of names.entry.named slots.old) }
    ensures rest { drop (names.entry.named * slot_wide) slots.new ≡ drop (names.entry.named * slot_wide) slots.old }
{
    let kind = book[at];
    if kind != 2 {
        return;
    }
    let own = lists::get_number(book, at + book::NUMBER_AT, book::NUMBER_WIDE);
    if own == number {
        return;
    }
    take_update(book, at + book::BODY_AT, names, slots);
}

// So many updates from `at` on, one after another, in the order accepted.
// kept: (a) fixed memory: places and slots stand in areas longer than they are, so their count goes beside them.
pub fn replay(
    book: &[u8],
    at: usize,
    updates: usize,
    number: u32,
    message: &[u8],
    entries: usize,
    order: &[u32],
    named: usize,
    slots: &mut [u8],
)
    requires entry_wide_in_bounds { (at + updates * entry_wide ≤ length book.now) × (entries * entry_wide ≤ length message.now) × (named ≤ length order.now) × (named * slot_wide ≤ length slots.old) }
    requires each { Each (λ (j : ℕ). j < entries) (take named order.now) }
    requires order_value { sorted_rows (names_at message.now (take named order.now)) ≡ true }
    requires slots_value { map slot_key (slots_of named slots.old) ≡ names_at message.now (take named order.now) }
    ensures taken { slots_of named slots.new ≡ map (heard_in number (rows_of entry_wide updates (drop at book.now))) (slots_of named slots.old) }
    ensures rest { drop (named * slot_wide) slots.new ≡ drop (named * slot_wide) slots.old }
{
    let names = Names {
        message,
        entries,
        order,
        named,
    };
    for i in 0..updates {
        replay_one(book, at + i * book::ENTRY_WIDE, number, names, slots);
    }
}

// ---- slots taken into the table

// What a slot adds to the count of rows: one for itself, one for its row, less one for the row that the table has. Its key is looked for from `near` on, which
// then is where the next slot's key would be: slots rise by key.
// kept: (a) `table` is a lent area that may be longer than its rows: the C calls lend it with its count beside.
fn weigh(table: &[u8], count: usize, slots: &[u8], at: usize, near: &mut usize) -> usize
    requires row_wide_in_bounds { (count * row_wide ≤ length table.now) × (at + slot_wide ≤ length slots.now) }
    requires table_value { sorted_rows (rows count table.now) ≡ true }
    ensures { result ≡ weight (get (slot_key (part at slot_wide slots.now)) (rows count table.now)) (slot_row (part at slot_wide slots.now)) }
{
    let has = slots[at];
    let f = table::find_near(table, count, slots, at + 1, *near);
    match f {
        Ok(place) => {
            *near = place + 1;
            if has == 1 { 1 } else { 0 }
        }
        Err(place) => {
            *near = place;
            if has == 1 { 2 } else { 1 }
        }
    }
}

// How many rows there will be, and one more for each slot: so nothing is ever taken away from the sum.
// kept: (a) `table` is a lent area that may be longer than its rows: the C calls lend it with its count beside.
fn count_after(table: &[u8], count: usize, slots: &[u8], named: usize) -> usize
    requires row_wide_in_bounds { (count * row_wide ≤ length table.now) × (named * slot_wide ≤ length slots.now) × (count ≤ most_rows) × (named ≤ most_slots) }
    requires table_value { sorted_rows (rows count table.now) ≡ true }
    ensures { result ≡ count + weights (rows count table.now) (slots_of named slots.now) }
{
    let mut sum = count;
    let mut near = 0;
    for i in 0..named {
        sum += weigh(table, count, slots, i * SLOT_WIDE, &mut near);
    }
    sum
}

// Whether the rows have room once the slots are taken in; weighed only where there could be too many.
// kept: (a) `table` is a lent area that may be longer than its rows: the C calls lend it with its count beside.
pub fn fits_after(table: &[u8], count: usize, slots: &[u8], named: usize) -> bool
    requires row_wide_in_bounds { (count * row_wide ≤ length table.now) × (named * slot_wide ≤ length slots.now) × (count ≤ most_rows) × (named ≤ most_slots) }
    requires table_value { sorted_rows (rows count table.now) ≡ true }
    ensures { result ≡ leb (count + weights (rows count table.now) (slots_of named slots.now)) (table_room table.now + named) }
{
    let most = table::rows_room(table);
    count + named <= most || count_after(table, count, slots, named) <= most + named
}

// A slot without a row removes that of its key; the new count.
// kept: (a) `table` is a lent area that may be longer than its rows: the C calls lend it with its count beside.
fn remove_one(table: &mut [u8], count: usize, slots: &[u8], at: usize) -> usize
    requires row_wide_in_bounds { (count * row_wide ≤ length table.old) × (at + slot_wide ≤ length slots.now) }
    requires table_value { sorted_rows (rows count table.old) ≡ true }
    ensures value { result ≡ length (remove_one (part at slot_wide slots.now) (rows count table.old)) }
    ensures table_after { table.new ≡ store row_wide count (remove_one (part at slot_wide slots.now) (rows count table.old)) table.old }
{
    if slots[at] == 1 {
        return count;
    }
    table::remove_key(table, count, slots, at + 1)
}

// The slots without a row, one after another; the new count.
// kept: (a) `table` is a lent area that may be longer than its rows: the C calls lend it with its count beside.
fn remove_all(table: &mut [u8], count: usize, slots: &[u8], named: usize) -> usize
    requires row_wide_in_bounds { (count * row_wide ≤ length table.old) × (named * slot_wide ≤ length slots.now) }
    requires table_value { sorted_rows (rows count table.old) ≡ true }
    ensures value { result ≡ length (removals (slots_of named slots.now) (rows count table.old)) }
    ensures table_after { table.new ≡ store row_wide count (removals (slots_of named slots.now) (rows count table.old)) table.old }
{
    let mut held = count;
    for i in 0..named {
        held = remove_one(table, held, slots, i * SLOT_WIDE);
    }
    held
}

// A row is put by its key, looked for from `near` on, which then is where the next row would be; the new count.
// kept: (a) `table` is a lent area that may be longer than its rows: the C calls lend it with its count beside.
fn put_near(table: &mut [u8], count: usize, row: &[u8], near: &mut usize) -> usize
    requires row_wide_in_bounds { (count * row_wide ≤ length table.old) × (length (put row.now (rows count table.old)) * row_wide ≤ length table.old) × (length row.now ≡ row_wide) }
    requires table_value { sorted_rows (rows count table.old) ≡ true }
    ensures value { result ≡ length (put row.now (rows count table.old)) }
    ensures table_after { table.new ≡ store row_wide count (put row.now (rows count table.old)) table.old }
{
    let f = table::find_near(table, count, row, 0, *near);
    match f {
        Ok(place) => {
            *near = place + 1;
            table::replace_row(table, count, place, row);
            count
        }
        Err(place) => {
            *near = place + 1;
            table::insert_row(table, count, place, row);
            count + 1
        }
    }
}

// A slot with a row puts it; the new count.
// kept: (a) `table` is a lent area that may be longer than its rows: the C calls lend it with its count beside.
fn put_one(table: &mut [u8], count: usize, slots: &[u8], at: usize, near: &mut usize) -> usize
    requires row_wide_in_bounds { (count * row_wide ≤ length table.old) × (at + slot_wide ≤ length slots.now) × (length (put_one (part at slot_wide slots.now) (rows count table.old)) * row_wide ≤ length table.old) }
    requires table_value { sorted_rows (rows count table.old) ≡ true }
    ensures value { result ≡ length (put_one (part at slot_wide slots.now) (rows count table.old)) }
    ensures table_after { table.new ≡ store row_wide count (put_one (part at slot_wide slots.now) (rows count table.old)) table.old }
{
    if slots[at] == 1 {
        return put_near(table, count, &slots[at + 1..at + SLOT_WIDE], near);
    }
    count
}

// The slots with a row, one after another; the new count.
// kept: (a) `table` is a lent area that may be longer than its rows: the C calls lend it with its count beside.
fn put_all(table: &mut [u8], count: usize, slots: &[u8], named: usize) -> usize
    requires row_wide_in_bounds { (count * row_wide ≤ length table.old) × (named * slot_wide ≤ length slots.now) × (length (puts (slots_of named slots.now) (rows count table.old)) * row_wide ≤ length table.old) }
    requires table_value { sorted_rows (rows count table.old) ≡ true }
    ensures value { result ≡ length (puts (slots_of named slots.now) (rows count table.old)) }
    ensures table_after { table.new ≡ store row_wide count (puts (slots_of named slots.now) (rows count table.old)) table.old }
{
    let mut held = count;
    let mut near = 0;
    for i in 0..named {
        held = put_one(table, held, slots, i * SLOT_WIDE, &mut near);
    }
    held
}

// The slots are taken into the rows; the new count. Rows leave before rows come, so that no byte behind the final rows is touched.
// kept: (a) `table` is a lent area that may be longer than its rows: the C calls lend it with its count beside.
pub fn settle(table: &mut [u8], count: usize, slots: &[u8], named: usize) -> usize
    requires row_wide_in_bounds { (count * row_wide ≤ length table.old) × (named * slot_wide ≤ length slots.now) × (length (settled (slots_of named slots.now) (rows count table.old)) * row_wide ≤ length table.old) }
    requires table_value { sorted_rows (rows count table.old) ≡ true }
    ensures value { result ≡ length (settled (slots_of named slots.now) (rows count table.old)) }
    ensures table_after { table.new ≡ store row_wide count (settled (slots_of named slots.now) (rows count table.old)) table.old }
{
    let left = remove_all(table, count, slots, named);
    put_all(table, left, slots, named)
}
