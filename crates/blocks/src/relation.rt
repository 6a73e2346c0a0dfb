// A relation between equations, as rows of codes: 0 where the row's equation does not stand in it to the column's.
ghost use Rattle.std.specs.Prelude.{◌≤◌};
ghost use Rattle.table.specs.Model.{limit};

use table::Rows;

#[derive(Clone, Copy)]
pub struct Relation {
    pub equations: usize,
    pub rows: Rows,
    pub ghost few: { equations ≤ limit },
}
