// The register: pairs of a sender and an owner whose passages it may send. Every message asks it, and it needs no more of a passage than how wide an owner is.
#![tactic(auto)]

ghost use Rattle.std.specs.Prelude.{◌≡◌, ◌∷◌, ◌+◌, ◌≤◌, length};
ghost use Rattle.lists.specs.Text.{same};
ghost use Rattle.lists.specs.Part.{part};
ghost use Rattle.passage.specs.Layout.{text_wide};
ghost use Rattle.register.specs.Register.{pair_wide, grants, register_sound, may_send};

use columns::Table;
use passage::{OWNER_AT, TEXT_WIDE};

// A pair: one byte of sender, then the owner.
pub const PAIR_WIDE: usize = 1 + TEXT_WIDE;

// A register has at most so many.
const MOST_PAIRS: usize = 64;

pub const MOST_BYTES: usize = MOST_PAIRS * PAIR_WIDE;

// Whether a pair is of this sender and this owner.
fn pair_is(pair: &[u8], sender: u8, owner: &[u8]) -> bool
    requires { length pair.now ≡ pair_wide }
    ensures { result ≡ same pair.now (sender ∷ owner.now) }
{
    pair[0] == sender && lists::same_bytes(&pair[1..], owner)
}

// Whether the sender is registered for the owner whose bytes stand from `at` on in a row.
pub fn registered(register: &[u8], sender: u8, row: &[u8], at: usize) -> bool
    requires { at + text_wide ≤ length row.now }
    ensures { result ≡ grants register.now sender (part at text_wide row.now) }
{
    if sender == 0 {
        return false;
    }
    let owner = &row[at..at + TEXT_WIDE];
    register
        .chunks_exact(PAIR_WIDE)
        .any(|pair| pair_is(pair, sender, owner))
}

// Whether the register has whole pairs, and not too many.
pub fn register_is_sound(register: &[u8]) -> bool
    ensures { result ≡ register_sound register.now }
{
    (register.len() % PAIR_WIDE == 0) & (register.len() <= MOST_BYTES)
}

// Whether the sender may send this row of a table. Only messages have a sender.
pub fn may_send(table: Table, register: &[u8], sender: u8, row: &[u8]) -> bool
    requires { text_wide ≤ length row.now }
    ensures { result ≡ may_send table register.now sender row.now }
{
    match table {
        Table::Message(_) => registered(register, sender, row, OWNER_AT),
        Table::Planning => true,
        Table::Calendar => true,
    }
}
