// An answer of a call on the day as the six numbers that the C face gives: which stands where says include/desk.h.
#![tactic(auto)]

ghost use Rattle.std.specs.Prelude.{◌≡◌, [], ◌∷◌};
ghost use Rattle.desk_answers.specs.Answered.{outcome_number, answered};

use calls::Outcome;

// The six numbers are written, and the first given back.
fn write_answer(
    answer: &mut [u64; 6],
    number: u32,
    value: u64,
    second: u64,
    dossier: u64,
    used: u64,
    rows: u64,
) -> u32
    ensures value { result ≡ number }
    ensures answer_after { answer.new ≡ number ∷ value ∷ second ∷ dossier ∷ used ∷ rows ∷ [] }
{
    *answer = [number as u64, value, second, dossier, used, rows];
    number
}

// What a call of the day came to.
pub fn set_answer(answer: &mut [u64; 6], outcome: Outcome) -> u32
    ensures value { result ≡ outcome_number outcome }
    ensures answer_after { answer.new ≡ answered outcome }
{
    let told = outcome.answer;
    let n = calls::numbers(told);
    let number = n.number;
    let value = n.value as u64;
    let second = n.second as u64;
    let dossier = n.dossier as u64;
    let used = outcome.counts.used as u64;
    let rows = outcome.counts.rows as u64;
    write_answer(answer, number, value, second, dossier, used, rows)
}
