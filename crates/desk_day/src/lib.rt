// The calls of a day, open, message and withdraw, over plain numbers and lent memory, as `desk` exports them for C. An answer is six numbers; include/desk.h says which.
#![tactic(auto)]

ghost use Rattle.std.specs.Prelude.{◌≡◌, take};
ghost use Rattle.calls.specs.Leaves.{counts_of};
ghost use Rattle.calls.specs.Open.{open_leaves};
ghost use Rattle.calls.specs.Message.{message_leaves};
ghost use Rattle.calls.specs.Withdraw.{withdraw_leaves};
ghost use Rattle.calls.specs.Numbers.{open_numbers, message_numbers, withdraw_numbers};
ghost use Rattle.desk_answers.specs.Answered.{four, told, told_of};

use calls::Counts;

// A planning and a calendar become the plan. The counts are only given back on a refusal.
pub fn desk_open(
    planning: &[u8],
    calendar: &[u8],
    book: &mut [u8],
    table: &mut [u8],
    used: u64,
    rows: u64,
    answer: &mut [u64; 6],
) -> u32
    ensures told { told result answer.new book.new table.new
        ≡ told_of (open_leaves planning.now calendar.now book.old table.old (counts_of used rows)) }
    ensures numbers { take 4 answer.new
        ≡ four (open_numbers planning.now calendar.now book.old table.old) }
{
    let counts = Counts {
        used: used as usize,
        rows: rows as usize,
    };
    let outcome = opening::open(planning, calendar, book, table, counts);
    desk_answers::set_answer(answer, outcome)
}

// A message from a sender, in the form that is stated, is taken whole or refused whole.
pub fn desk_message(
    dossier: &[u8],
    sender: u8,
    form: u32,
    register: &[u8],
    book: &mut [u8],
    table: &mut [u8],
    used: u64,
    rows: u64,
    answer: &mut [u64; 6],
) -> u32
    ensures told { told result answer.new book.new table.new
        ≡ told_of (message_leaves dossier.now sender form register.now book.old table.old (counts_of used rows)) }
    ensures numbers { take 4 answer.new
        ≡ four (message_numbers dossier.now sender form register.now book.old table.old (counts_of used rows)) }
{
    let counts = Counts {
        used: used as usize,
        rows: rows as usize,
    };
    let outcome = messages::message(dossier, sender, form, register, book, table, counts);
    desk_answers::set_answer(answer, outcome)
}

// A message is withdrawn: as if it had never been.
pub fn desk_withdraw(
    number: u32,
    sender: u8,
    book: &mut [u8],
    table: &mut [u8],
    used: u64,
    rows: u64,
    answer: &mut [u64; 6],
) -> u32
    ensures told { told result answer.new book.new table.new
        ≡ told_of (withdraw_leaves number sender book.old table.old (counts_of used rows)) }
    ensures numbers { take 4 answer.new
        ≡ four (withdraw_numbers number sender book.old table.old (counts_of used rows)) }
{
    let counts = Counts {
        used: used as usize,
        rows: rows as usize,
    };
    let outcome = withdrawals::withdraw(number, sender, book, table, counts);
    desk_answers::set_answer(answer, outcome)
}
