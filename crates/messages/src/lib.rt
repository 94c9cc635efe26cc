// Message: a dossier from a sender, taken whole into book and table or refused whole.
#![tactic(auto)]

ghost use Rattle.std.specs.Prelude.{◌≡◌, true, Ok, ◌+◌, ◌*◌, ◌≤◌, length};
ghost use Rattle.lists.specs.Rows.{rows_of};
ghost use Rattle.passage.specs.Layout.{body_wide};
ghost use Rattle.columns.specs.Tables.{is_form};
ghost use Rattle.table.specs.Rules.{table_sound};
ghost use Rattle.book.specs.Entries.{entry_wide, updates_in};
ghost use Rattle.book.specs.Rules.{book_sound, book_room, next_number};
ghost use Rattle.calls.specs.Answers.{numbers};
ghost use Rattle.calls.specs.Leaves.{counts_of, outcome_of, leaves};
ghost use Rattle.calls.specs.Message.{next_in, message_sound, book_taking, message_leaves};
ghost use Rattle.calls.specs.Numbers.{message_numbers};
ghost use Rattle.messages_take.specs.inner.Fitting.{most_updates};
ghost use Rattle.messages.specs.inner.Steps.{HoldsRows, taken_leaves};

use calls::{Counts, Outcome, Refusal};

// Room for the rows of any dossier.
const STAGED: usize = messages_take::MOST_UPDATES * passage::BODY_WIDE;

// A dossier of at most so many bytes is short, and has few rows: clearing room for the most would take longer than reading it.
const SHORT: usize = 8192;

const FEW_UPDATES: usize = 303;

// Room for the rows of a short dossier.
const SHORT_STAGED: usize = FEW_UPDATES * passage::BODY_WIDE;

// Whether what a message is lent is sound: register, book and table.
pub fn is_sound(register: &[u8], book: &[u8], table: &[u8], counts: Counts) -> bool
    ensures { result ≡ message_sound register.now book.now table.now counts }
{
    let used = counts.used;
    let rows = counts.rows;
    if register::register_is_sound(register) {
        if book::book_is_sound(book, used) {
            return table::table_is_sound(table, rows);
        }
        return false;
    }
    false
}

// The dossier is read into the staging area first: nothing lent is written before it is certain that all rows are taken.
fn read_and_take(
    dossier: &[u8],
    sender: u8,
    form: u32,
    register: &[u8],
    staging: &mut [u8],
    book: &mut [u8],
    table: &mut [u8],
    counts: Counts,
) -> Outcome
    requires counts_value { (message_sound register.now book.old table.old counts ≡ true) × (is_form form ≡ true) }
    requires holds_rows { HoldsRows dossier.now (length staging.old) }
    ensures { leaves result book.new table.new
        ≡ message_leaves dossier.now sender form register.now book.old table.old counts }
{
    let reading = reader::read_message(columns::form_of(form), dossier, register, sender, staging);
    match calls::passed(reading, 0) {
        Ok(count) => take_rows(staging, count, sender, book, table, counts),
        Err(refusal) => calls::unchanged(Err(refusal), counts),
    }
}

// A message in a known form on a sound state, with a staging area of its dossier's size.
fn take_sound(
    dossier: &[u8],
    sender: u8,
    form: u32,
    register: &[u8],
    book: &mut [u8],
    table: &mut [u8],
    counts: Counts,
) -> Outcome
    requires { (message_sound register.now book.old table.old counts ≡ true) × (is_form form ≡ true) }
    ensures { leaves result book.new table.new
        ≡ message_leaves dossier.now sender form register.now book.old table.old counts }
{
    if dossier.len() <= SHORT {
        let mut staging = [0u8; SHORT_STAGED];
        return read_and_take(
            dossier,
            sender,
            form,
            register,
            &mut staging,
            book,
            table,
            counts,
        );
    }
    let mut staging = [0u8; STAGED];
    read_and_take(
        dossier,
        sender,
        form,
        register,
        &mut staging,
        book,
        table,
        counts,
    )
}

// A message: refusals 1, 18, 2, 3, 15 and 4 to 8, or its number and the new counts.
pub fn message(
    dossier: &[u8],
    sender: u8,
    form: u32,
    register: &[u8],
    book: &mut [u8],
    table: &mut [u8],
    counts: Counts,
) -> Outcome
    ensures lent { leaves result book.new table.new
        ≡ message_leaves dossier.now sender form register.now book.old table.old counts }
    ensures numbers { numbers result.answer
        ≡ message_numbers dossier.now sender form register.now book.old table.old counts }
{
    if is_sound(register, book, table, counts) {
        if columns::is_form(form) {
            return take_sound(dossier, sender, form, register, book, table, counts);
        }
        return calls::unchanged(Err(Refusal::UnknownForm), counts);
    }
    calls::unchanged(Err(Refusal::Unsound), counts)
}

// ---- The staged rows of a message: taken into book and table, or refused for want of room.

// The staged bodies go to the book as entries; there is room. The table has the rows already.
fn write_rows(
    staging: &[u8],
    count: usize,
    sender: u8,
    book: &mut [u8],
    used: usize,
    rows: usize,
) -> Outcome
    requires count_le_most_updates { (count ≤ most_updates) × (count * body_wide ≤ length staging.now) }
    requires book_value { book_sound used book.old ≡ true }
    requires entry_wide_bound { used + count * entry_wide ≤ book_room book.old }
    ensures outcome { result
        ≡ outcome_of (Ok (next_number (updates_in used book.old))) (counts_of (used + count * entry_wide) rows) }
    ensures entries { book.new ≡ book_taking (next_in used book.old) (rows_of body_wide count staging.now) sender book.old used }
{
    let number = book_write::next_number(book, used);
    book_write::write_entries(&mut book[used..], number, sender, staging, count);
    calls::accepted(number, used + count * book::ENTRY_WIDE, rows)
}

// The staged bodies: 7, 8, or acceptance. Without rows nothing changes, and the number is 0.
pub fn take_rows(
    staging: &[u8],
    count: usize,
    sender: u8,
    book: &mut [u8],
    table: &mut [u8],
    counts: Counts,
) -> Outcome
    requires count_le_most_updates { (count ≤ most_updates) × (count * body_wide ≤ length staging.now) }
    requires book_value { (book_sound counts.used book.old ≡ true) × (table_sound counts.rows table.old ≡ true) }
    ensures { leaves result book.new table.new
        ≡ taken_leaves (rows_of body_wide count staging.now) sender book.old table.old counts }
{
    let used = counts.used;
    let held = counts.rows;
    if count == 0 {
        return calls::unchanged(Ok(0), counts);
    }
    if book::book_room(book) < used + count * book::ENTRY_WIDE {
        return calls::unchanged(Err(Refusal::BookShort), counts);
    }
    let most = table::rows_room(table);
    match messages_take::take_fitting(table, held, staging, count, most) {
        Some(rows) => write_rows(staging, count, sender, book, used, rows),
        None => calls::unchanged(Err(Refusal::TableShort), counts),
    }
}
