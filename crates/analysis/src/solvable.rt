// The answer to a solvable model: its least counts, their tops, the first partners over the leading occurrences, and the solving order.
ghost use Rattle.std.specs.Prelude.{◌≡◌, ◌++◌, map, ◌≤◌, length, take, drop};
ghost use Rattle.table.specs.Model.{limit, occurs_at, order_at};
ghost use Rattle.table.specs.Number.{equation_number, unknown_number, or_zero};
ghost use Rattle.counts.specs.Work.{PairableTable};
ghost use Rattle.analysis.specs.Outcome.{strips, answer_bytes, Solved};
ghost use Rattle.analysis.specs.Written.{SolutionIs};

use crate::number::pack;
use crate::strip::numbers;
use blocks::place::{Placing, solve_order};
use counts::figures::{freedom, index};
use counts::lead::leading;
use counts::raise::{Choice, least};
use pairing::first::first;
use table::number::{Equation, Unknown};
use table::rows::Table;
use table::{LIMIT, Row};

// Counts by equation, tops by unknown, partners by equation, the equations in solving order with the block number of each place, and three figures.
// Kept (point 6): parallel arrays; each is one of the answer's five strips, by equation, by unknown or by place (document 01), and memory is fixed.
#[derive(Clone, Copy)]
pub struct Solution {
    pub counts: Row,
    pub tops: Row,
    pub partners: [Option<Unknown>; LIMIT],
    pub order: [Option<Equation>; LIMIT],
    pub block: Row,
    pub index: u8,
    pub freedom: u8,
    pub blocks: u8,
}

// What is to be said of a square model whose equations can all be paired.
#[tactic(auto, using(counts::proofs::Chosen::chosen_small, counts::proofs::Chosen::chosen_full, counts::proofs::Chosen::freedom_asks, blocks::proofs::FirstPartners::first_partnered))]
fn solve(table: &Table) -> Solution
    requires { PairableTable table.now }
    ensures { SolutionIs table.now.equations table.now.rows result }
{
    let Choice {
        counts,
        tops,
        holders,
    } = least(table);
    let leading = leading(table, &counts, &tops);
    let partners = first(&leading, holders);
    let Placing {
        order,
        block,
        blocks,
    } = solve_order(&leading, partners);
    Solution {
        counts,
        tops,
        partners,
        order,
        block,
        index: index(table.equations, &counts),
        freedom: freedom(table.equations, &counts, &tops),
        blocks,
    }
}

// Each of the five strips, through its own stretch.
// Kept (point 5): `answer_bytes ≤ length answer` stands in four contracts, for the buffer is the caller's, and one of 160 bytes would ask more.
fn write(answer: &mut [u8], n: usize, solution: &Solution)
    requires { (answer_bytes ≤ length answer.old) × (n ≤ limit) }
    ensures { answer.new ≡ strips (take n solution.now.counts) (take n solution.now.tops)
        (take n (map (or_zero unknown_number) solution.now.partners)) (take n (map (or_zero equation_number) solution.now.order)) (take n solution.now.block)
        ++ drop answer_bytes answer.old }
{
    let partners = table::number::numbers(solution.partners);
    let order = table::number::numbers(solution.order);
    numbers(&mut answer[0..LIMIT], &solution.counts[..n]);
    numbers(&mut answer[LIMIT..2 * LIMIT], &solution.tops[..n]);
    numbers(&mut answer[2 * LIMIT..3 * LIMIT], &partners[..n]);
    numbers(&mut answer[3 * LIMIT..4 * LIMIT], &order[..n]);
    numbers(&mut answer[4 * LIMIT..5 * LIMIT], &solution.block[..n]);
}

// The number and the strips of a solvable model.
pub fn solvable(table: &Table, answer: &mut [u8]) -> u64
    requires { PairableTable table.now × (answer_bytes ≤ length answer.old) }
    ensures { Solved table.now.equations (occurs_at table.now.rows) (order_at table.now.rows) table.now.equations answer.old result answer.new }
{
    let solution = solve(table);
    write(answer, table.equations, &solution);
    // Kept (point 4): `as` is proved to lose nothing; `try_from` would hand back an error that cannot come.
    pack(
        0,
        0,
        table.equations as u8,
        solution.index,
        solution.freedom,
        solution.blocks,
    )
}
