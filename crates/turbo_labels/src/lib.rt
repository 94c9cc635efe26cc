// The search for column names in a label line: one name, or all that a table's reader wants. It stands above the walk over lines and fields, which it calls.
#![tactic(auto)]

ghost use Rattle.std.specs.Prelude.{◌≡◌, ◌≤◌, ◌<◌, length, get_or};
ghost use Rattle.turbo.specs.Split.{until, fields};
ghost use Rattle.turbo_labels.specs.Columns.{column_of, field_under, place_of, columns_of, most};
ghost use Rattle.turbo_labels.specs.inner.Search.{seen_after, Measured};

// The first column with the name, or the number of columns.
pub fn column_of(labels: &[u8], name: &[u8]) -> usize
    ensures { result ≡ column_of name.now (fields labels.now) }
{
    let mut rest = labels;
    // a line has at most one label more than bytes, and ends at the first that no bar follows
    for column in 0..labels.len() + 1 {
        let (label, behind) = turbo::read_field(rest);
        if lists::same_bytes(label, name) {
            return column;
        }
        let is_last = label.len() == rest.len();
        if is_last {
            return column + 1;
        }
        rest = behind;
    }
    labels.len() + 1
}

// The named column's field, a part of the lent line. The column is as `column_of` gives it, among so many columns; a name that is missing has no field, and gets no bytes.
pub fn lookup<'a>(line: &'a [u8], column: usize, columns: usize) -> &'a [u8]
    ensures { result.now ≡ field_under column columns line.now }
{
    if column < columns {
        return turbo::field_of(line, column);
    }
    &line[..0]
}

// That a wanted name stands twice among the labels.
#[derive(Clone, Copy)]
pub struct Repeated;

// One column more in the search for a name, which was found before at `found`.
fn noted(found: Option<usize>, column: usize, hit: bool) -> Result<Option<usize>, Repeated>
    ensures { result ≡ seen_after found column hit }
{
    if !hit {
        return Ok(found);
    }
    match found {
        None => Ok(Some(column)),
        Some(_) => Err(Repeated),
    }
}

// How many bytes the first labels have, as many as there is room for.
fn measure(labels: &[u8], sizes: &mut [usize])
    ensures { Measured labels.now sizes.new }
{
    let mut rest = labels;
    for k in 0..sizes.len() {
        let (label, behind) = turbo::read_field(rest);
        sizes[k] = label.len();
        rest = behind;
    }
}

// How many bytes label k has, l being the labels from it on.
fn size_at(sizes: &[usize], k: usize, l: &[u8]) -> usize
    requires { k < length sizes.now → get_or sizes.now k 0 ≡ length (until 124 l.now) }
    ensures is { result ≡ length (until 124 l.now) }
    ensures within { result ≤ length l.now }
{
    if k < sizes.len() {
        return sizes[k];
    }
    turbo::find(l, b'|')
}

// Where the name stands among so many labels, or their number.
fn place_of(labels: &[u8], sizes: &[usize], columns: usize, name: &[u8]) -> Result<usize, Repeated>
    requires { (columns ≡ length (fields labels.now)) × Measured labels.now sizes.now }
    ensures { result ≡ place_of name.now (fields labels.now) }
{
    let mut found = None;
    let mut rest = labels;
    for column in 0..columns {
        let (label, behind) = turbo::cut(rest, size_at(sizes, column, rest), 1);
        found = noted(found, column, lists::same_bytes(label, name))?;
        rest = behind;
    }
    Ok(found.unwrap_or(columns))
}

// The places of the wanted names among the columns of a label line; both are names parted by bars. The search ends at the second find.
fn search_columns(wanted: &[u8], labels: &[u8], sizes: &[usize]) -> Result<[usize; 20], Repeated>
    requires { (length (fields wanted.now) ≤ most) × Measured labels.now sizes.now }
    ensures { result ≡ columns_of (fields wanted.now) (fields labels.now) }
{
    let columns = turbo::count_fields(labels);
    let mut places = [0usize; 20];
    let mut rest = wanted;
    for i in 0..turbo::count_fields(wanted) {
        let (name, behind) = turbo::read_field(rest);
        places[i] = place_of(labels, sizes, columns, name)?;
        rest = behind;
    }
    Ok(places)
}

// The same, the labels measured first: they are walked over for each name, and a table of 000 has at most 65.
pub fn find_columns(wanted: &[u8], labels: &[u8]) -> Result<[usize; 20], Repeated>
    requires { length (fields wanted.now) ≤ most }
    ensures { result ≡ columns_of (fields wanted.now) (fields labels.now) }
{
    let mut sizes = [0usize; 72];
    measure(labels, &mut sizes);
    search_columns(wanted, labels, &sizes)
}
