// What is refused, before anything is written.
ghost use Rattle.std.specs.Prelude.{◌≡◌, MatchResult};
ghost use Rattle.analysis.specs.Outcome.{refusal, refusal_place, code_of, place_with};

use crate::strip::ANSWER;
use table::judge::{first_above, in_limits};

// Why nothing is analysed, in the order in which it is looked for.
#[derive(Clone, Copy, PartialEq, Eq)]
pub enum Refusal {
    // E or U is 0 or above 32.
    OutOfLimits,
    // The table's length is not E×U.
    TableLength,
    // The answer buffer is below 160 bytes.
    ShortAnswer,
    // A code above 4; the first such offset.
    CodeAbove(usize),
}

impl Refusal {
    // The number that document 01 gives it.
    // Kept (point 4): no `From<Refusal> for u8`, which would be the same `match`.
    pub fn number(self) -> u8
        ensures { result ≡ code_of self }
    {
        match self {
            Refusal::OutOfLimits => 1,
            Refusal::TableLength => 2,
            Refusal::ShortAnswer => 3,
            Refusal::CodeAbove(_) => 4,
        }
    }

    // The place that goes with it.
    // Kept (point 1): 0 with the refusals that have none, for document 01 hands out 0 there.
    pub fn place(self) -> usize
        ensures { result ≡ place_with self }
    {
        match self {
            Refusal::CodeAbove(at) => at,
            _ => 0,
        }
    }
}

// The first refusal that applies.
pub fn first_refusal(
    equations: usize,
    unknowns: usize,
    table: &[u8],
    room: usize,
) -> Result<(), Refusal>
    ensures { MatchResult result (λ _. refusal equations unknowns table.now room ≡ 0)
        (λ refused. (code_of refused ≡ refusal equations unknowns table.now room)
        × (place_with refused ≡ refusal_place (code_of refused) table.now)) }
{
    if !in_limits(equations, unknowns) {
        return Err(Refusal::OutOfLimits);
    }
    if table.len() != equations * unknowns {
        return Err(Refusal::TableLength);
    }
    if room < ANSWER {
        return Err(Refusal::ShortAnswer);
    }
    let at = first_above(table);
    if at < table.len() {
        return Err(Refusal::CodeAbove(at));
    }
    Ok(())
}
