// The library that the screen links: the entries in the C calling form, where each slice is a pointer and a length. None asks anything of its caller,
// and each always returns. Several numbers come back as one.
#![tactic(auto)]

ghost use Rattle.std.specs.Prelude.{◌≡◌, ◌≤◌};
ghost use Rattle.analysis.specs.Outcome.{Reply};
ghost use Rattle.card.specs.Refusal.{refusal_number};
ghost use Rattle.report.specs.Printed.{Reported};
ghost use Rattle.screen.specs.Packed.{packed_card, ReadPacked, WritePacked, NamePacked};

use card::{Refused, name_of, read, write};
use report::report;

// Numbers as one, from the lowest byte: a byte, two bytes, low first, and what stands in the fourth and from the fifth byte on.
fn pack(first: usize, second: usize, fourth: usize, fifth: usize) -> u64
    requires { (first ≤ 255) × (second ≤ 65535) × (fourth ≤ 65535) × (fifth ≤ 255) }
    ensures { result ≡ packed_card first second fourth fifth }
{
    // Kept (point 4): `u64::from` takes no usize, and the fourth may take two bytes, so no array of bytes is the number.
    (first as u64)
        + (second as u64) * 256
        + (fourth as u64) * 16777216
        + (fifth as u64) * 4294967296
}

fn pack_refused(refused: Refused) -> u64
    requires { refused.place ≤ 65535 }
    ensures { result ≡ packed_card (refusal_number refused.refusal) refused.place 0 0 }
{
    pack(usize::from(refused.refusal.number()), refused.place, 0, 0)
}

// The reader: from the lowest byte number, place (two bytes, low first), E, U, then 0.
#[unsafe(no_mangle)]
pub extern "C" fn mudorder_read(card: &[u8], table: &mut [u8]) -> u64
    ensures { ReadPacked card.now table.old result table.new }
{
    match read(card, table) {
        Ok(size) => pack(0, 0, size.equations, size.unknowns),
        Err(refused) => pack_refused(refused),
    }
}

// The writer: from the lowest byte number, place (two bytes), length (two bytes), then 0.
#[unsafe(no_mangle)]
pub extern "C" fn mudorder_write(
    name: &[u8],
    equations: usize,
    unknowns: usize,
    table: &[u8],
    card: &mut [u8],
) -> u64
    ensures { WritePacked name.now equations unknowns table.now card.old result card.new }
{
    match write(name, equations, unknowns, table, card) {
        Ok(length) => pack(0, 0, length, 0),
        Err(refused) => pack_refused(refused),
    }
}

// The name question: from the lowest byte the length of the part that holds the name, its offset in the card (two bytes), then 0.
#[unsafe(no_mangle)]
pub extern "C" fn mudorder_name(card: &[u8]) -> u64
    ensures { NamePacked card.now result }
{
    let part = name_of(card);
    if part.is_empty() {
        return 0;
    }
    pack(part.len(), 4, 0, 0)
}

// The printed result: its length, and its bytes where there is room for all of them.
#[unsafe(no_mangle)]
pub extern "C" fn mudorder_report(card: &[u8], out: &mut [u8]) -> u64
    ensures { Reported card.now out.old result out.new }
{
    // Kept (point 4): `u64::from` takes no usize, and `try_from` would hand back an error that cannot come.
    report(card, out) as u64
}

// The analysis.
// Kept (point 2): an archive exports the functions of its own crate alone, so the entry of `analysis` is handed on under its own name.
#[unsafe(no_mangle)]
pub extern "C" fn mudorder_analyse(
    equations: usize,
    unknowns: usize,
    table: &[u8],
    answer: &mut [u8],
) -> u64
    ensures { Reply equations unknowns table.now answer.old result answer.new }
{
    analysis::mudorder_analyse(equations, unknowns, table, answer)
}
