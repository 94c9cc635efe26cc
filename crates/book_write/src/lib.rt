// What is written into a book: entries into its free tail, those of a plan or of a message with the next number, and the kind of a withdrawn message's.
#![tactic(auto)]

ghost use Rattle.std.specs.Prelude.{◌≡◌, true, map, ◌+◌, ◌*◌, ◌≤◌, length, drop};
ghost use Rattle.lists.specs.Part.{part, over};
ghost use Rattle.lists.specs.Rows.{rows_of, flat};
ghost use Rattle.passage.specs.Layout.{body_wide};
ghost use Rattle.book.specs.Entries.{plan_wide, plan_entry, entry_wide, entry_of, entries_of, updates_in};
ghost use Rattle.book.specs.Rules.{book_sound, next_number, marked_withdrawn};

// The number of the next message.
pub fn next_number(book: &[u8], used: usize) -> u32
    requires { book_sound used book.now ≡ true }
    ensures { result ≡ next_number (updates_in used book.now) }
{
    let from = book::count_plans(book, used) * book::PLAN_WIDE;
    if used == from {
        return 1;
    }
    let last = lists::get_number(
        book,
        used - book::ENTRY_WIDE + book::NUMBER_AT,
        book::NUMBER_WIDE,
    );
    last + 1
}

// The body from `from` on becomes a plan entry from `at` on.
pub fn write_plan_entry(tail: &mut [u8], at: usize, bodies: &[u8], from: usize)
    requires { (at + plan_wide ≤ length tail.old) × (from + body_wide ≤ length bodies.now) }
    ensures { tail.new ≡ over at (plan_entry (part from body_wide bodies.now)) tail.old }
{
    tail[at] = 1;
    lists::copy_to(
        tail,
        at + book::KIND_WIDE,
        &bodies[from..from + passage::BODY_WIDE],
    );
}

// The body from `from` on becomes a standing entry from `at` on.
pub fn write_entry(tail: &mut [u8], at: usize, number: u32, sender: u8, bodies: &[u8], from: usize)
    requires { (at + entry_wide ≤ length tail.old) × (from + body_wide ≤ length bodies.now) }
    ensures { tail.new ≡ over at (entry_of number sender (part from body_wide bodies.now)) tail.old }
{
    tail[at] = 2;
    lists::put_number(tail, at + book::NUMBER_AT, book::NUMBER_WIDE, number);
    tail[at + book::SENDER_AT] = sender;
    lists::copy_to(
        tail,
        at + book::BODY_AT,
        &bodies[from..from + passage::BODY_WIDE],
    );
}

// So many bodies become standing entries, from the start of the book's free tail.
pub fn write_entries(tail: &mut [u8], number: u32, sender: u8, bodies: &[u8], entries: usize)
    requires { (entries * entry_wide ≤ length tail.old) × (entries * body_wide ≤ length bodies.now) }
    ensures { tail.new ≡ over 0 (flat (entries_of number sender (rows_of body_wide entries bodies.now))) tail.old }
{
    for i in 0..entries {
        write_entry(
            tail,
            i * book::ENTRY_WIDE,
            number,
            sender,
            bodies,
            i * passage::BODY_WIDE,
        );
    }
}

// So many entries from `at` on become withdrawn.
pub fn mark_withdrawn(book: &mut [u8], at: usize, entries: usize)
    requires { at + entries * entry_wide ≤ length book.old }
    ensures { book.new ≡ over at (flat (map marked_withdrawn (rows_of entry_wide entries (drop at book.old)))) book.old }
{
    for i in 0..entries {
        book[at + i * book::ENTRY_WIDE] = 3;
    }
}
