// The cell that a field gives, written into a row: the bytes that are kept of it. First a number, a text and a time, then any cell by its column's kind.
#![tactic(auto)]

ghost use Rattle.std.specs.Prelude.{◌≡◌, ◌+◌, ◌≤◌, ◌<◌, length};
ghost use Rattle.lists.specs.Part.{over, some};
ghost use Rattle.turbo_labels.specs.Columns.{field_under};
ghost use Rattle.columns.specs.Cell.{width, cell, null, number_cell, text_cell, time_at};
ghost use Rattle.columns.specs.inner.Blank.{blank_row};
ghost use Rattle.lists.specs.Text.{same};
ghost use Rattle.texts.specs.Texts as Texts;

use columns::{Kind, Table};

// Whether a field has no content.
pub fn is_null(field: &[u8]) -> bool
    ensures { result ≡ same field.now null }
{
    lists::same_bytes(field, b"\\0")
}

// A number in so many bytes.
// kept: here and below the flag is the whole answer, with no value beside it: the bytes go straight into the row, and an Option<()> would say the same.
pub fn write_number(number: Option<u32>, size: usize, row: &mut [u8], at: usize) -> bool
    requires { (0 < size) × (at + size ≤ length row.old) }
    ensures some { result ≡ some (number_cell size number) }
    ensures written { row.new ≡ over at (number_cell size number) row.old }
{
    match number {
        Some(v) => {
            lists::put_number(row, at, size, v);
            true
        }
        None => false,
    }
}

// A text in ten bytes, decoded.
fn write_decoded(field: &[u8], row: &mut [u8], at: usize) -> bool
    requires { at + 10 ≤ length row.old }
    ensures some { result ≡ some (text_cell (Texts.text field.now)) }
    ensures written { row.new ≡ over at (text_cell (Texts.text field.now)) row.old }
{
    match texts::read_text(field) {
        Some(kept) => {
            lists::copy_to(row, at, &kept);
            true
        }
        None => false,
    }
}

// A text in ten bytes. Most fields have no escape and are copied as they stand.
pub fn write_text(field: &[u8], row: &mut [u8], at: usize) -> bool
    requires { at + 10 ≤ length row.old }
    ensures some { result ≡ some (text_cell (Texts.text field.now)) }
    ensures written { row.new ≡ over at (text_cell (Texts.text field.now)) row.old }
{
    if texts::is_plain(field) {
        texts::write_plain(field, row, at);
        return true;
    }
    write_decoded(field, row, at)
}

// A time in three bytes, or a missing one where the row's own stop type is `word`. The stop type is looked up only where the time has no content.
pub fn write_time(
    word: &[u8],
    line: &[u8],
    stop: usize,
    columns: usize,
    field: &[u8],
    row: &mut [u8],
    at: usize,
) -> bool
    requires { at + 3 ≤ length row.old }
    ensures some { result ≡ some (time_at word.now (field_under stop columns line.now) field.now) }
    ensures written { row.new ≡ over at (time_at word.now (field_under stop columns line.now) field.now) row.old }
{
    if is_null(field) {
        let here = turbo_labels::lookup(line, stop, columns);
        if lists::same_bytes(here, word) {
            lists::put_number(row, at, 3, 16777215);
            return true;
        }
        return false;
    }
    match field_types::read_time(field) {
        Some(s) => {
            lists::put_number(row, at, 3, s.0);
            true
        }
        None => false,
    }
}

// The cell of a field, of a column of this kind, is written from `at` on; nothing where the field is outside its type. `stop` is the column of the row's stop type, of so many columns.
pub fn write_cell(
    kind: Kind,
    line: &[u8],
    stop: usize,
    columns: usize,
    field: &[u8],
    row: &mut [u8],
    at: usize,
) -> bool
    requires { at + width kind ≤ length row.old }
    ensures some { result ≡ some (cell kind (field_under stop columns line.now) field.now) }
    ensures written { row.new ≡ over at (cell kind (field_under stop columns line.now) field.now) row.old }
{
    match kind {
        Kind::Text => write_text(field, row, at),
        Kind::Date => write_number(field_types::read_date(field), 4, row, at),
        Kind::Journey => write_number(field_types::read_number(field, 6), 4, row, at),
        Kind::Fortify => write_number(field_types::read_number(field, 2), 1, row, at),
        Kind::Order => write_number(field_types::read_number(field, 3), 2, row, at),
        Kind::Stamp => write_number(field_types::read_stamp(field), 4, row, at),
        Kind::Status => write_number(field_types::read_status(field), 1, row, at),
        Kind::Arrival => write_time(b"FIRST", line, stop, columns, field, row, at),
        Kind::Departure => write_time(b"LAST", line, stop, columns, field, row, at),
        Kind::StopType => write_number(field_types::read_stop_type(field), 1, row, at),
        Kind::Bit => write_number(field_types::read_bit(field), 1, row, at),
        Kind::Flexible => write_number(field_types::read_flexible(field), 1, row, at),
        Kind::Truth => write_number(field_types::read_truth(field), 1, row, at),
        Kind::Shown => write_number(field_types::read_shown(field), 1, row, at),
    }
}

// A row before its cells are written: what is kept of absent columns, and zero bytes.
pub fn blank(table: Table) -> [u8; 80]
    ensures { result ≡ blank_row table }
{
    let mut row = [0u8; 80];
    match table {
        Table::Message(_) => {
            row[passage::SHOW_CANCELLED_AT] = passage::KEPT;
            row[passage::FLEXIBLE_AT] = passage::KEPT;
            row[passage::MONITORED_AT] = passage::KEPT;
            row
        }
        Table::Planning => row,
        Table::Calendar => row,
    }
}
