// The board of a stop over plain numbers and lent memory, as `desk` exports it for C. A board's answer is three numbers; include/desk.h says which.
#![tactic(auto)]

ghost use Rattle.std.specs.Prelude.{◌≡◌, [], ◌∷◌};
ghost use Rattle.board_show.specs.Ask.{asked};
ghost use Rattle.board.specs.Rules.{board_leaves};
ghost use Rattle.desk_boards.specs.Answered.{board_number, board_answered};

use board::{Listed, Refusal};

// The board of a stop from a second of a date on: places of rows by departure moment, then key, as many as fit.
pub fn desk_board(
    owner: &[u8],
    stop: &[u8],
    date: u32,
    second: u32,
    horizon: u32,
    table: &[u8],
    rows: u64,
    places: &mut [u32],
    answer: &mut [u64; 3],
) -> u32
    ensures number { result
        ≡ board_number (board_leaves (asked owner.now stop.now date second horizon) table.now rows places.old).answer }
    ensures answer { answer.new
        ≡ board_answered (board_leaves (asked owner.now stop.now date second horizon) table.now rows places.old).answer }
    ensures places { places.new
        ≡ (board_leaves (asked owner.now stop.now date second horizon) table.now rows places.old).places }
{
    let n = rows as usize;
    let a = board::board(owner, stop, date, second, horizon, table, n, places);
    set_board(answer, a)
}

// The three numbers of a question's answer are written, and the first given back.
fn write_three(answer: &mut [u64; 3], number: u32, value: u64, second: u64) -> u32
    ensures value { result ≡ number }
    ensures answer_after { answer.new ≡ number ∷ value ∷ second ∷ [] }
{
    *answer = [number as u64, value, second];
    number
}

// What a board came to. It has no counts, so that none can be taken for the day's.
#[tactic(auto, unfolding(crate::specs::Answered::board_number, crate::specs::Answered::board_answered))]
pub fn set_board(answer: &mut [u64; 3], listing: Result<Listed, Refusal>) -> u32
    ensures value { result ≡ board_number listing }
    ensures answer_after { answer.new ≡ board_answered listing }
{
    match listing {
        Ok(listed) => write_three(answer, 0, listed.written as u64, listed.shown as u64),
        Err(Refusal::Unsound) => write_three(answer, 1, 0, 0),
        Err(Refusal::OutOfRange) => write_three(answer, 13, 0, 0),
    }
}
