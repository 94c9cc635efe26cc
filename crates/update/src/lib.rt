// The row rule: what an update does to a passage. All but the key becomes the update's, the status moves by the BISON table, an optional that is absent keeps what is held,
// and heard becomes 1. The only room that knows which field does what.
#![tactic(auto)]

ghost use Rattle.std.specs.Prelude.{◌≡◌, ◌+◌, ◌≤◌, length};
ghost use Rattle.lists.specs.Part.{part, over};
ghost use Rattle.passage.specs.Layout.{body_wide, row_wide};
ghost use Rattle.update.specs.Rule.{apply_row, beginning};
ghost use Rattle.update.specs.Moves.{may_move, status_after, keeps};

// Table 17: from each status a line, to each status a letter, J where the status moves.
const MOVES: [[u8; 6]; 6] = [
    *b"NJJJJJ", *b"JJNJJJ", *b"NJJJJJ", *b"NJJJJJ", *b"NJJNJJ", *b"NNNNJJ",
];

// Whether the status moves.
fn may_move(held: u8, said: u8) -> bool
    ensures { result ≡ may_move held said }
{
    if held <= 5 && said <= 5 {
        MOVES[held as usize][said as usize] == b'J'
    } else {
        false
    }
}

// The status after an update.
pub fn status_after(held: u8, said: u8) -> u8
    ensures { result ≡ status_after held said }
{
    if may_move(held, said) { said } else { held }
}

// An optional: 255 keeps what is held.
pub fn kept_or(held: u8, said: u8) -> u8
    ensures { result ≡ keeps held said }
{
    if said == passage::KEPT { held } else { said }
}

// The row from `at` on becomes what the update makes of it whose body stands from `from` on.
pub fn apply_row(row: &mut [u8], at: usize, bodies: &[u8], from: usize)
    requires { (at + row_wide ≤ length row.old) × (from + body_wide ≤ length bodies.now) }
    ensures { row.new ≡ over at (apply_row (part at row_wide row.old) (part from body_wide bodies.now)) row.old }
{
    let said = bodies[from + passage::STATUS_AT];
    let status = status_after(row[at + passage::STATUS_AT], said);
    let show = kept_or(
        row[at + passage::SHOW_CANCELLED_AT],
        bodies[from + passage::SHOW_CANCELLED_AT],
    );
    let flexible = kept_or(
        row[at + passage::FLEXIBLE_AT],
        bodies[from + passage::FLEXIBLE_AT],
    );
    let monitored = kept_or(
        row[at + passage::MONITORED_AT],
        bodies[from + passage::MONITORED_AT],
    );
    lists::copy_to(row, at, &bodies[from..from + passage::BODY_WIDE]);
    row[at + passage::HEARD_AT] = 1;
    row[at + passage::STATUS_AT] = status;
    row[at + passage::SHOW_CANCELLED_AT] = show;
    row[at + passage::FLEXIBLE_AT] = flexible;
    row[at + passage::MONITORED_AT] = monitored;
}

// What a missing passage begins as, from `at` on: PLANNED, show cancelled 1, flexible 0, monitored 0.
pub fn begin_row(row: &mut [u8], at: usize)
    requires { at + row_wide ≤ length row.old }
    ensures { row.new ≡ over at beginning row.old }
{
    lists::clear(row, at, passage::ROW_WIDE);
    row[at + passage::SHOW_CANCELLED_AT] = 1;
}
