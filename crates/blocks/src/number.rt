// The blocks get their numbers one by one: of those that are ready, the one with the lowest equation number in it.
ghost use Rattle.std.specs.Prelude.{◌≡◌, ◌<◌};
ghost use Rattle.std.specs.List.{list_any, range_with_len};
ghost use Rattle.laws.specs.Tab.{tab, number_at};
ghost use Rattle.table.specs.Model.{limit, occurs_at};
ghost use Rattle.blocks.specs.Handed.{Closed};
ghost use Rattle.blocks.specs.Steps.{both, keeps_at, waits_at, Lowest, renumbered, AllNumbered};

use crate::relation::Relation;
use laws::array::tabulated;
use table::{LIMIT, Row};

// For each equation the number of its block, and how many blocks there are.
// Kept (point 1): a block that does not stand yet has number 0. As `Option<NonZeroU8>` the numbers would be turned back one by one for
// `Placing.block`, the strip of bytes with 0 for none of which `PlacingIs` and `one_block` speak.
#[derive(Clone, Copy)]
pub struct BlockNumbers {
    pub number: Row,
    pub blocks: u8,
}

// The blocks as far as they stand: each equation's block number, or 0, beside what each equation reaches.
#[derive(Clone, Copy)]
struct StandingBlocks<'a> {
    reach: &'a Relation,
    number: Row,
}

impl StandingBlocks<'_> {
    // Two equations share a block.
    fn share(&self, e: usize, f: usize) -> bool
        requires { (e < limit) × (f < limit) }
        ensures { result ≡ both (occurs_at self.now.reach.now.rows) e f }
    {
        self.reach.rows[e][f] != 0 && self.reach.rows[f][e] != 0
    }

    // The equation at place g keeps that at place e waiting: it stands in another block, which e's block needs and which does not stand yet.
    fn keeps(&self, e: usize, g: usize) -> bool
        requires { (e < limit) × (g < limit) }
        ensures { result ≡ keeps_at (occurs_at self.now.reach.now.rows) (number_at self.now.number) e g }
    {
        self.reach.rows[e][g] != 0 && self.reach.rows[g][e] == 0 && self.number[g] == 0
    }

    // Some equation keeps that at place e waiting.
    fn kept(&self, e: usize) -> bool
        requires { e < limit }
        ensures { result ≡ list_any (keeps_at (occurs_at self.now.reach.now.rows) (number_at self.now.number) e) (range_with_len 0 self.now.reach.now.equations) }
    {
        (0..self.reach.equations).any(|g| self.keeps(e, g))
    }

    // The block of the equation at place e does not stand yet and is ready.
    #[tactic(auto, using(crate::proofs::Ranges::any_range))]
    fn waits(&self, e: usize) -> bool
        requires { e < limit }
        ensures { result ≡ waits_at self.now.reach.now.equations (occurs_at self.now.reach.now.rows) (number_at self.now.number) e }
    {
        self.number[e] == 0 && !self.kept(e)
    }

    // The place of the lowest equation whose block is ready.
    fn lowest(&self) -> Option<usize>
        ensures { Lowest self.now.reach.now.equations (occurs_at self.now.reach.now.rows) (number_at self.now.number) result }
    {
        (0..self.reach.equations).find(|&e| self.waits(e))
    }

    // The number that the equation at place f has when the block of that at place e gets number k.
    fn numbered(&self, e: usize, k: u8, f: usize) -> u8
        requires { (e < limit) × (f < limit) }
        ensures { result ≡ renumbered (occurs_at self.now.reach.now.rows) (number_at self.now.number) e k f }
    {
        if self.share(e, f) { k } else { self.number[f] }
    }

    // The same when the block of the equation at place e gets number k.
    fn renumber(&self, e: usize, k: u8) -> Self
        requires { e < limit }
        ensures { (result.reach.now ≡ self.now.reach.now)
            × (result.number ≡ tab limit (renumbered (occurs_at self.now.reach.now.rows) (number_at self.now.number) e k)) }
    {
        let number = tabulated(
            LIMIT,
            0,
            |f| -> u8
                requires { (e < limit) × (f < limit) }
                ensures { result ≡ renumbered (occurs_at self.entry.now.reach.now.rows) (number_at self.entry.now.number) e k f }
            { self.numbered(e, k, f) },
        );
        StandingBlocks { number, ..*self }
    }
}

// All blocks get their numbers, from 1.
#[tactic(auto, using(crate::proofs::Numbering::counting_end))]
pub fn numbers(reach: &Relation) -> BlockNumbers
    requires { Closed reach.now.equations (occurs_at reach.now.rows) }
    ensures { AllNumbered reach.now.equations (occurs_at reach.now.rows) (number_at result.number) result.blocks }
{
    let mut standing = StandingBlocks {
        reach,
        number: [0; LIMIT],
    };
    let mut blocks = 0;
    while let Some(e) = standing.lowest() {
        standing = standing.renumber(e, blocks + 1);
        blocks += 1;
    }
    let number = standing.number;
    BlockNumbers { number, blocks }
}
