// The table: which unknown occurs in which equation, at which derivative.
// Equation and unknown numbers, the judging of what a caller lends, and the table held as rows of codes.
#![tactic(auto)]

pub mod judge;
pub mod number;
pub mod rows;

// The most equations, and the most unknowns, that a model may have; `limit` in specs/Model is the same number.
pub const LIMIT: usize = 32;

// The most codes that a table may have.
pub const CELLS: usize = LIMIT * LIMIT;

// What one equation has at each unknown, and the rows of all equations.
// Kept (point 6): arrays of the limit's length, and how much of them is used stands beside them (`rows::Table`): there is no heap, and document 01 holds the
// table as an array of arrays by value.
pub type Row = [u8; LIMIT];

pub type Rows = [Row; LIMIT];
