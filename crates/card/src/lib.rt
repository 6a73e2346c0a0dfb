// The card: read, written, and asked for its name.
#![tactic(auto)]

mod entry;
mod head;
mod judge;
mod lay;
mod list;
pub mod put;
mod refusal;
mod text;

ghost use Rattle.std.specs.Prelude.{◌≤◌, length};
ghost use Rattle.card.specs.Promise.{WriteGood, ReadDone, NamePart, WriteDone};
ghost use Rattle.card.specs.Steps.{RestRead};

use crate::entry::good_name;
use crate::head::Limits;
use crate::judge::read_head;
use crate::lay::put_card;
use crate::list::read_list;
pub use crate::refusal::{Refusal, Refused};
use table::judge::{first_above, in_limits, well_sized};

// E and U of a good card.
#[derive(Clone, Copy, PartialEq, Eq)]
pub struct Size {
    pub equations: usize,
    pub unknowns: usize,
}

// The lines behind the unknowns line, and the table written only when nothing is refused.
fn read_rest(card: &[u8], from: usize, limits: Limits, table: &mut [u8]) -> Result<Size, Refused>
    requires { from ≤ length card.now }
    ensures { RestRead card.now limits.equations limits.unknowns from table.old result table.new }
{
    let codes = read_list(card, from, limits)?;
    let size = limits.equations * limits.unknowns;
    if table.len() < size {
        return Err(Refusal::TableRoom.at(0));
    }
    table[..size].copy_from_slice(&codes[..size]);
    Ok(Size {
        equations: limits.equations,
        unknowns: limits.unknowns,
    })
}

// A card's E and U, or its refusal; of a good card the first E × U table bytes are written, else none.
pub fn read(card: &[u8], table: &mut [u8]) -> Result<Size, Refused>
    ensures { ReadDone card.now table.old result table.new }
{
    let head = read_head(card)?;
    read_rest(card, head.next, head.limits, table)
}

// The part of the card that holds the name; where the card is refused, the part of length 0 at its start.
// Kept (point 1): an empty part in place of `None`, for document 01 asks for a part of the caller's card, of length 0 on a refusal.
pub fn name_of(card: &[u8]) -> &[u8]
    ensures { NamePart card.entry result }
{
    let Ok(head) = read_head(card) else {
        return &card[..0];
    };
    if read_list(card, head.next, head.limits).is_err() {
        return &card[..0];
    }
    &card[4..head.name_end]
}

// The card of a name and a table, written over the first bytes of the card buffer: its length; where it is refused, nothing is written.
// Kept (point 5): name, E, U and table are what the C entry is handed, each judged in its turn. `write_good` and `put_card` get the same four; a struct would be
// made for these two calls, and `WriteDone` and `card_of` speak of each.
pub fn write(
    name: &[u8],
    equations: usize,
    unknowns: usize,
    table: &[u8],
    card: &mut [u8],
) -> Result<usize, Refused>
    ensures { WriteDone name.now equations unknowns table.now card.old result card.new }
{
    if !good_name(name) {
        return Err(Refusal::Name.at(0));
    }
    if !in_limits(equations, unknowns) {
        return Err(Refusal::Limits.at(0));
    }
    if !well_sized(equations, unknowns, table) {
        return Err(Refusal::TableLength.at(0));
    }
    let above = first_above(table);
    if above != table.len() {
        return Err(Refusal::Code.at(above));
    }
    write_good(name, equations, unknowns, table, card)
}

// The same where only the room is left to judge: the card is measured first, by laying it into a part of length 0.
fn write_good(
    name: &[u8],
    equations: usize,
    unknowns: usize,
    table: &[u8],
    card: &mut [u8],
) -> Result<usize, Refused>
    requires { WriteGood name.now equations unknowns table.now }
    ensures { WriteDone name.now equations unknowns table.now card.old result card.new }
{
    let length = put_card(&mut card[..0], name, equations, unknowns, table);
    if card.len() < length {
        return Err(Refusal::CardRoom.at(0));
    }
    put_card(card, name, equations, unknowns, table);
    Ok(length)
}
