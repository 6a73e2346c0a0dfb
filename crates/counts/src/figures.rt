// Two figures of the answer: index and freedom.
ghost use Rattle.std.specs.Prelude.{◌≡◌, ◌-◌, ◌≤◌, length, max};
ghost use Rattle.std.specs.List.{fold, sum_by};
ghost use Rattle.laws.specs.Count.{sum};
ghost use Rattle.table.specs.Model.{limit};
ghost use Rattle.counts.specs.Fit.{index_of, freedom_of};
ghost use Rattle.laws.specs.Tab.{number_at};

use table::Row;

// The largest of the numbers, and 0 where there is none.
fn most(numbers: &[u8]) -> u8
    ensures { result ≡ fold max 0 numbers.now }
{
    numbers.iter().fold(0, |most, &number| most.max(number))
}

// Index: the largest count.
// Kept (point 5): `n ≤ limit` stays a clause, since `index` and `freedom` take n as a bare number (docs/PROMISES.md); a type for n would be built by each caller to hold
// this one comparison.
#[tactic(auto, using(crate::proofs::Places::largest_first))]
pub fn index(n: usize, counts: &Row) -> u8
    requires { n ≤ limit }
    ensures { result ≡ index_of n (number_at counts.now) }
{
    most(&counts[..n])
}

// The sum of the numbers.
// Kept (point 5): the bound is on a slice's length, which the caller's n gives; no value has it beside it.
fn total(numbers: &[u8]) -> usize
    requires { length numbers.now ≤ limit }
    ensures { result ≡ sum_by (λ x. x) numbers.now }
{
    numbers.iter().map(|&x| usize::from(x)).sum()
}

// Freedom: sum of tops less sum of counts. Of a fit choice it is at most 3 for each equation, so it fits.
// Kept (point 4): the check proves that the number fits `as u8`; `try_from` would hand back an error that cannot come.
#[tactic(auto, using(crate::proofs::Places::sum_first))]
pub fn freedom(n: usize, counts: &Row, tops: &Row) -> u8
    requires { (n ≤ limit) × (sum n (number_at counts.now) ≤ sum n (number_at tops.now))
        × (freedom_of n n (number_at counts.now) (number_at tops.now) ≤ 255) }
    ensures { result ≡ freedom_of n n (number_at counts.now) (number_at tops.now) }
{
    (total(&tops[..n]) - total(&counts[..n])) as u8
}
