// Updates taken into the table, one after another, and only where their rows fit. Where there could be too many, the keys that are missing are counted, and only if those
// are too many is it tried on a copy.
#![tactic(auto)]

ghost use Rattle.std.specs.Prelude.{◌≡◌, true, [], ◌+◌, ◌*◌, ◌≤◌, leb, length};
ghost use Rattle.lists.specs.Part.{part};
ghost use Rattle.lists.specs.Rows.{rows_of, insert_at, store};
ghost use Rattle.passage.specs.Layout.{key_wide, body_wide, row_wide};
ghost use Rattle.keys.specs.Sorted.{sorted_rows, lookup};
ghost use Rattle.keys.specs.Replay.{taken, taken_all};
ghost use Rattle.update.specs.Rule.{row_rule};
ghost use Rattle.table.specs.Rules.{most_rows};
ghost use Rattle.messages_take.specs.inner.Fitting.{most_updates, absent, fitting, fitting_in};

// The row of a passage that is missing, as the update makes it whose body stands from `from` on, is put in at a place among `count` rows.
// kept: (a) `table` is a lent area that may be longer than its rows: the C calls lend it with its count beside.
fn insert_new(table: &mut [u8], count: usize, place: usize, bodies: &[u8], from: usize)
    requires { (place ≤ count) × ((count + 1) * row_wide ≤ length table.old) × (from + body_wide ≤ length bodies.now) }
    ensures { table.new ≡ store row_wide count (insert_at place (row_rule [] (part from body_wide bodies.now)) (rows_of row_wide count table.old)) table.old }
{
    let mut row = [0u8; passage::ROW_WIDE];
    update::begin_row(&mut row, 0);
    update::apply_row(&mut row, 0, bodies, from);
    table::insert_row(table, count, place, &row);
}

// The update whose body stands from `from` on is taken into the rows, its key found as `found` says; the new count.
// kept: (a) `table` is a lent area that may be longer than its rows: the C calls lend it with its count beside.
fn take_found(
    table: &mut [u8],
    count: usize,
    bodies: &[u8],
    from: usize,
    found: Result<usize, usize>,
) -> usize
    requires row_wide_in_bounds { (count * row_wide ≤ length table.old) × (from + body_wide ≤ length bodies.now) }
    requires found_value { found ≡ lookup (part from key_wide bodies.now) (rows_of row_wide count table.old) }
    requires row_wide_in_bounds_2 { length (taken row_rule (part from body_wide bodies.now) (rows_of row_wide count table.old)) * row_wide ≤ length table.old }
    ensures value { result ≡ length (taken row_rule (part from body_wide bodies.now) (rows_of row_wide count table.old)) }
    ensures table_after { table.new ≡ store row_wide count (taken row_rule (part from body_wide bodies.now) (rows_of row_wide count table.old)) table.old }
{
    match found {
        Ok(i) => {
            update::apply_row(table, i * passage::ROW_WIDE, bodies, from);
            count
        }
        Err(i) => {
            insert_new(table, count, i, bodies, from);
            count + 1
        }
    }
}

// Where the key from `from` on in `bodies` stands or, as `Err`, would be put, looked for at the place `hint` first, where there is one.
// kept: (a) `table` is a lent area that may be longer than its rows: the C calls lend it with its count beside.
fn find_from(
    table: &[u8],
    count: usize,
    bodies: &[u8],
    from: usize,
    hint: Option<usize>,
) -> Result<usize, usize>
    requires row_wide_in_bounds { (count * row_wide ≤ length table.now) × (from + key_wide ≤ length bodies.now) }
    requires table_value { sorted_rows (rows_of row_wide count table.now) ≡ true }
    ensures { result ≡ lookup (part from key_wide bodies.now) (rows_of row_wide count table.now) }
{
    match hint {
        Some(place) => table::find_near(table, count, bodies, from, place),
        None => table::find(table, count, bodies, from),
    }
}

// The update whose body stands from `from` on is taken into the rows, its key looked for at the place `hint` first, where there is one; the new count.
// kept: (a) `table` is a lent area that may be longer than its rows: the C calls lend it with its count beside.
fn take_near(
    table: &mut [u8],
    count: usize,
    bodies: &[u8],
    from: usize,
    hint: Option<usize>,
) -> usize
    requires row_wide_in_bounds { (count * row_wide ≤ length table.old) × (from + body_wide ≤ length bodies.now) }
    requires table_value { sorted_rows (rows_of row_wide count table.old) ≡ true }
    requires row_wide_in_bounds_2 { length (taken row_rule (part from body_wide bodies.now) (rows_of row_wide count table.old)) * row_wide ≤ length table.old }
    ensures value { result ≡ length (taken row_rule (part from body_wide bodies.now) (rows_of row_wide count table.old)) }
    ensures table_after { table.new ≡ store row_wide count (taken row_rule (part from body_wide bodies.now) (rows_of row_wide count table.old)) table.old }
{
    let found = find_from(table, count, bodies, from, hint);
    take_found(table, count, bodies, from, found)
}

// The update whose body stands from `from` on is taken into the rows; the new count.
// kept: (a) `table` is a lent area that may be longer than its rows: the C calls lend it with its count beside.
pub fn take_row(table: &mut [u8], count: usize, bodies: &[u8], from: usize) -> usize
    requires row_wide_in_bounds { (count * row_wide ≤ length table.old) × (from + body_wide ≤ length bodies.now) }
    requires table_value { sorted_rows (rows_of row_wide count table.old) ≡ true }
    requires row_wide_in_bounds_2 { length (taken row_rule (part from body_wide bodies.now) (rows_of row_wide count table.old)) * row_wide ≤ length table.old }
    ensures value { result ≡ length (taken row_rule (part from body_wide bodies.now) (rows_of row_wide count table.old)) }
    ensures table_after { table.new ≡ store row_wide count (taken row_rule (part from body_wide bodies.now) (rows_of row_wide count table.old)) table.old }
{
    take_near(table, count, bodies, from, None)
}

// The updates whose bodies stand in `bodies` are taken into the rows, one after another, the key of each looked for at its place first, where it has one; the new count.
// kept: (a) `table` is a lent area that may be longer than its rows: the C calls lend it with its count beside.
pub fn take_placed(
    table: &mut [u8],
    count: usize,
    bodies: &[u8],
    updates: usize,
    places: &[usize],
) -> usize
    requires row_wide_in_bounds { (count * row_wide ≤ length table.old) × (updates * body_wide ≤ length bodies.now) }
    requires table_value { sorted_rows (rows_of row_wide count table.old) ≡ true }
    requires row_wide_in_bounds_2 { length (taken_all row_rule (rows_of body_wide updates bodies.now) (rows_of row_wide count table.old)) * row_wide ≤ length table.old }
    ensures value { result ≡ length (taken_all row_rule (rows_of body_wide updates bodies.now) (rows_of row_wide count table.old)) }
    ensures table_after { table.new ≡ store row_wide count (taken_all row_rule (rows_of body_wide updates bodies.now) (rows_of row_wide count table.old)) table.old }
{
    let mut held = count;
    for taken in 0..updates {
        let hint = places.get(taken).copied();
        held = take_near(table, held, bodies, taken * passage::BODY_WIDE, hint);
    }
    held
}

// The updates whose bodies stand in `bodies` are taken into the rows, one after another; the new count.
// kept: (a) `table` is a lent area that may be longer than its rows: the C calls lend it with its count beside.
pub fn take_all(table: &mut [u8], count: usize, bodies: &[u8], updates: usize) -> usize
    requires row_wide_in_bounds { (count * row_wide ≤ length table.old) × (updates * body_wide ≤ length bodies.now) }
    requires table_value { sorted_rows (rows_of row_wide count table.old) ≡ true }
    requires row_wide_in_bounds_2 { length (taken_all row_rule (rows_of body_wide updates bodies.now) (rows_of row_wide count table.old)) * row_wide ≤ length table.old }
    ensures value { result ≡ length (taken_all row_rule (rows_of body_wide updates bodies.now) (rows_of row_wide count table.old)) }
    ensures table_after { table.new ≡ store row_wide count (taken_all row_rule (rows_of body_wide updates bodies.now) (rows_of row_wide count table.old)) table.old }
{
    take_placed(table, count, bodies, updates, &[])
}

// ---- only where their rows fit

// At most so many updates are taken at once: the rows of the longest dossier.
pub const MOST_UPDATES: usize = 2427;

// The bytes of a trial: a row more than a table can have.
const TRIAL: usize = (table::MOST_ROWS + 1) * passage::ROW_WIDE;

// Whether a trial on a copy of the rows, made in the bytes `trial`, ends with at most `most` of them.
// kept: (a) `table` is a lent area that may be longer than its rows: the C calls lend it with its count beside.
// kept: (a) no heap: the copy is made in lent room, and only whether the rows fit is answered.
fn trial_fits(
    trial: &mut [u8],
    table: &[u8],
    count: usize,
    bodies: &[u8],
    updates: usize,
    most: usize,
) -> bool
    requires row_wide_in_bounds { (count * row_wide ≤ length table.now) × (updates * body_wide ≤ length bodies.now) × (count ≤ most) × ((most + 1) * row_wide ≤ length trial.old) }
    requires table_value { sorted_rows (rows_of row_wide count table.now) ≡ true }
    ensures { result ≡ leb (length (taken_all row_rule (rows_of body_wide updates bodies.now) (rows_of row_wide count table.now))) most }
{
    lists::copy_to(trial, 0, &table[0..count * passage::ROW_WIDE]);
    let mut held = count;
    for tried in 0..updates {
        held = take_row(trial, held, bodies, tried * passage::BODY_WIDE);
        if most < held {
            return false;
        }
    }
    true
}

// Whether there are at most `most` rows once the updates are taken; tried only where there could be more.
// kept: (a) `table` is a lent area that may be longer than its rows: the C calls lend it with its count beside.
fn fits_after(table: &[u8], count: usize, bodies: &[u8], updates: usize, most: usize) -> bool
    requires row_wide_in_bounds { (count * row_wide ≤ length table.now) × (updates * body_wide ≤ length bodies.now) × (count ≤ most) × (most ≤ most_rows) × (updates ≤ most_updates) }
    requires table_value { sorted_rows (rows_of row_wide count table.now) ≡ true }
    ensures { result ≡ leb (length (taken_all row_rule (rows_of body_wide updates bodies.now) (rows_of row_wide count table.now))) most }
{
    if count + updates <= most {
        return true;
    }
    let mut trial = [0u8; TRIAL];
    trial_fits(&mut trial, table, count, bodies, updates, most)
}

// How many of the updates have a key that the rows lack; `places` then begins with the places where the keys stand or would be put.
// kept: (a) `table` is a lent area that may be longer than its rows: the C calls lend it with its count beside.
fn locate_all(
    table: &[u8],
    count: usize,
    bodies: &[u8],
    updates: usize,
    places: &mut [usize],
) -> usize
    requires row_wide_in_bounds { (count * row_wide ≤ length table.now) × (updates * body_wide ≤ length bodies.now) × (updates ≤ length places.old) }
    requires table_value { sorted_rows (rows_of row_wide count table.now) ≡ true }
    ensures { result ≡ absent (rows_of body_wide updates bodies.now) (rows_of row_wide count table.now) }
{
    let mut missing = 0;
    for k in 0..updates {
        match table::find(table, count, bodies, k * passage::BODY_WIDE) {
            Ok(place) => places[k] = place,
            Err(place) => {
                places[k] = place;
                missing += 1;
            }
        }
    }
    missing
}

// Whether there are at most `most` rows once the updates are taken, of which so many keys are missing.
// kept: (a) `table` is a lent area that may be longer than its rows: the C calls lend it with its count beside.
fn fits_with(
    table: &[u8],
    count: usize,
    bodies: &[u8],
    updates: usize,
    most: usize,
    missing: usize,
) -> bool
    requires row_wide_in_bounds { (count * row_wide ≤ length table.now) × (updates * body_wide ≤ length bodies.now) × (count ≤ most) × (most ≤ most_rows) × (updates ≤ most_updates) }
    requires table_value { sorted_rows (rows_of row_wide count table.now) ≡ true }
    requires missing_value { missing ≡ absent (rows_of body_wide updates bodies.now) (rows_of row_wide count table.now) }
    ensures { result ≡ leb (length (taken_all row_rule (rows_of body_wide updates bodies.now) (rows_of row_wide count table.now))) most }
{
    missing <= most - count || fits_after(table, count, bodies, updates, most)
}

// `take_fitting` where there could be too many rows, with room for a place of each update.
// kept: (a) `table` is a lent area that may be longer than its rows: the C calls lend it with its count beside.
fn take_tight(
    table: &mut [u8],
    count: usize,
    bodies: &[u8],
    updates: usize,
    most: usize,
    places: &mut [usize],
) -> Option<usize>
    requires row_wide_in_bounds { (count * row_wide ≤ length table.old) × (updates * body_wide ≤ length bodies.now) × (count ≤ most) × (most ≤ most_rows) × (updates ≤ most_updates) }
    requires table_value { sorted_rows (rows_of row_wide count table.old) ≡ true }
    requires row_wide_in_bounds_2 { (most * row_wide ≤ length table.old) × (updates ≤ length places.old) }
    ensures value { result ≡ fitting most (taken_all row_rule (rows_of body_wide updates bodies.now) (rows_of row_wide count table.old)) }
    ensures table_after { table.new ≡ fitting_in count most (taken_all row_rule (rows_of body_wide updates bodies.now) (rows_of row_wide count table.old)) table.old }
{
    let missing = locate_all(table, count, bodies, updates, places);
    if fits_with(table, count, bodies, updates, most, missing) {
        return Some(take_placed(table, count, bodies, updates, places));
    }
    None
}

// The updates are taken into the rows, if there are then at most `most`, and the new count is answered; else nothing is, for there would be too many.
// kept: (a) `table` is a lent area that may be longer than its rows: the C calls lend it with its count beside.
pub fn take_fitting(
    table: &mut [u8],
    count: usize,
    bodies: &[u8],
    updates: usize,
    most: usize,
) -> Option<usize>
    requires row_wide_in_bounds { (count * row_wide ≤ length table.old) × (updates * body_wide ≤ length bodies.now) × (count ≤ most) × (most ≤ most_rows) × (updates ≤ most_updates) }
    requires table_value { sorted_rows (rows_of row_wide count table.old) ≡ true }
    requires row_wide_in_bounds_2 { most * row_wide ≤ length table.old }
    ensures value { result ≡ fitting most (taken_all row_rule (rows_of body_wide updates bodies.now) (rows_of row_wide count table.old)) }
    ensures table_after { table.new ≡ fitting_in count most (taken_all row_rule (rows_of body_wide updates bodies.now) (rows_of row_wide count table.old)) table.old }
{
    if count + updates <= most {
        return Some(take_all(table, count, bodies, updates));
    }
    let mut places = [0usize; MOST_UPDATES];
    take_tight(table, count, bodies, updates, most, &mut places)
}
