// Texts that are kept of a dossier's fields, decoded and padded. A reader is lent the field and gives a copy, or, where there is no escape, writes it where it is kept.
#![tactic(auto)]

ghost use Rattle.std.specs.Prelude.{◌≡◌, ◌+◌, ◌≤◌, length};
ghost use Rattle.lists.specs.Part.{over};
ghost use Rattle.texts.specs.Texts.{padded, text};
ghost use Rattle.texts.specs.inner.Steps.{kept_step, step_of, plain};

// What one more byte of a text does: it begins an escape, or gives a byte.
// kept: a step that gives no byte is not a missing one, and `step_at` answers None for a byte that is refused.
#[derive(Clone, Copy)]
enum Step {
    Mark,
    Byte(u8),
}

// The byte is kept if it is 32 to 126.
fn kept_step(b: u8) -> Option<Step>
    ensures { result ≡ kept_step b }
{
    if b < 32 {
        return None;
    }
    if 126 < b {
        return None;
    }
    Some(Step::Byte(b))
}

// The step of byte `b`, none where no text holds it; `after` says that it stands after a backslash.
// kept: a flag of one place of a field, read byte by byte, chooses no step to be handed in.
fn step_at(after: bool, b: u8) -> Option<Step>
    ensures { result ≡ step_of after b }
{
    if after {
        return kept_step(turbo::escaped(b)?);
    }
    if b == b'\\' {
        return Some(Step::Mark);
    }
    kept_step(b)
}

// A text that is kept: 1 to 10 bytes, each 32 to 126, after decoding; padded with zero bytes to ten.
pub fn read_text(field: &[u8]) -> Option<[u8; 10]>
    ensures { result ≡ text field.now }
{
    let mut out = [0u8; 10];
    let mut n: usize = 0;
    let mut after = false;
    for b in field {
        match step_at(after, *b)? {
            Step::Mark => {
                after = true;
            }
            Step::Byte(v) => {
                if n == 10 {
                    return None;
                }
                out[n] = v;
                n += 1;
                after = false;
            }
        }
    }
    if after {
        return None;
    }
    if n == 0 {
        return None;
    }
    Some(out)
}

// Whether the field is 1 to 10 bytes, each 32 to 126 and no backslash. It is then a text that stands for itself.
pub fn is_plain(field: &[u8]) -> bool
    ensures { result ≡ plain field.now }
{
    if field.len() < 1 {
        return false;
    }
    if 10 < field.len() {
        return false;
    }
    for b in field {
        let c = *b;
        if c < 32 {
            return false;
        }
        if 126 < c {
            return false;
        }
        if c == b'\\' {
            return false;
        }
    }
    true
}

// The field as it stands, padded with zero bytes to ten. It goes straight into the row: bytes stored in an array one by one and then read as one word would stall.
pub fn write_plain(field: &[u8], row: &mut [u8], at: usize)
    requires { (at + 10 ≤ length row.old) × (length field.now ≤ 10) }
    ensures { row.new ≡ over at (padded field.now) row.old }
{
    let zeros = [0u8; 10];
    lists::copy_to(row, at, &zeros);
    lists::copy_to(row, at, field);
}
