// A message at the desk: whole, or fed in parts of so many bytes. What is left is the same.
#![tactic(auto)]

ghost use Rattle.std.specs.Prelude.{◌≡◌, ◌*◌, ◌≤◌, ◌<◌, length};
ghost use Rattle.passage.specs.Layout.{body_wide};
ghost use Rattle.calls.specs.Leaves.{leaves};
ghost use Rattle.calls.specs.Message.{message_leaves};
ghost use Rattle.calls.specs.End.{most_rows};
ghost use Rattle.feeds_whole.specs.Parts.{lent, fed_parts};
ghost use Rattle.boards_messages.specs.inner.Cut.{cut};

use calls::{Counts, Outcome};

// The dossier in parts of `size` bytes, the last of what is left.
fn feed_all(
    dossier: &[u8],
    size: usize,
    register: &[u8],
    staging: &mut [u8],
    line: &mut [u8; 4096],
    kept: &mut [u64; 48],
)
    requires { 0 < size }
    ensures { lent kept.new line.new staging.new
        ≡ fed_parts register.now (lent kept.old line.old staging.old) (cut size dossier.now) }
{
    let mut rest = dossier;
    while 0 < rest.len() {
        let bytes = script_text::front(rest, size);
        feeds_part::feed(bytes, register, staging, line, kept);
        let next = script_text::after(rest, size - 1);
        rest = next;
    }
}

// From the beginning to the end. The staging area has room for the rows of any dossier, so nothing is refused for want of it.
fn feed_through(
    dossier: &[u8],
    size: usize,
    sender: u8,
    form: u32,
    register: &[u8],
    staging: &mut [u8],
    line: &mut [u8; 4096],
    kept: &mut [u64; 48],
    book: &mut [u8],
    table: &mut [u8],
    counts: Counts,
) -> Outcome
    requires { (0 < size) × (most_rows * body_wide ≤ length staging.old) }
    ensures { leaves result book.new table.new
        ≡ message_leaves dossier.now sender form register.now book.old table.old counts }
{
    feeds::begin(kept, sender, form);
    feed_all(dossier, size, register, staging, line, kept);
    feeds_end::end(register, staging, book, table, counts, kept)
}

// So many rows has a message at most.
const STAGING: usize = 2427 * passage::BODY_WIDE;

fn in_parts(
    dossier: &[u8],
    size: usize,
    sender: u8,
    form: u32,
    register: &[u8],
    book: &mut [u8],
    table: &mut [u8],
    counts: Counts,
) -> Outcome
    requires { 0 < size }
    ensures { leaves result book.new table.new
        ≡ message_leaves dossier.now sender form register.now book.old table.old counts }
{
    let mut staging = [0u8; STAGING];
    let mut line = [0u8; 4096];
    let mut kept = [0u64; 48];
    feed_through(
        dossier,
        size,
        sender,
        form,
        register,
        &mut staging,
        &mut line,
        &mut kept,
        book,
        table,
        counts,
    )
}

// A message in the form that is stated, by one call where `size` is 0, else fed in parts of `size` bytes: whichever it is, the rule of the one call.
pub fn take(
    dossier: &[u8],
    size: usize,
    sender: u8,
    form: u32,
    register: &[u8],
    book: &mut [u8],
    table: &mut [u8],
    counts: Counts,
) -> Outcome
    ensures { leaves result book.new table.new
        ≡ message_leaves dossier.now sender form register.now book.old table.old counts }
{
    if size == 0 {
        return messages::message(dossier, sender, form, register, book, table, counts);
    }
    in_parts(dossier, size, sender, form, register, book, table, counts)
}
