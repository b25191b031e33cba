//! An expectation whose names are resolved, and whether an end meets it.

ghost use Rattle.std.specs.Prelude.{◌≡◌, ◌==◌, ◌^◌, pos, neg_ℤ, ◌≤ℤ◌, position};
ghost use Rattle.report_runs.specs.Sums.{place_of, told_number, value_of_addend, sum_of, relation_holds, holds};

use crate::expectation::{Relation, Sign};
use core_lang::value::Value;
use outcomes::outcome::Cells;

/// A quantity that is added or subtracted.
#[derive(Clone, Copy, Debug, PartialEq, Eq)]
pub enum Quantity {
    /// A number, from 0 to 9223372036854775807.
    Number(i64),
    /// The content of the cell with this number, an index into [`core_lang::typed::Typed::cells`].
    Cell(usize),
}

/// A quantity with its sign.
#[derive(Clone, Copy, Debug, PartialEq, Eq)]
pub struct Addend {
    /// Whether the quantity is added or subtracted.
    pub sign: Sign,
    /// The quantity.
    pub quantity: Quantity,
}

/// A comparison of two sums of numbers and cells.
#[derive(Drop)]
pub struct Comparison {
    /// The sum before the relation.
    pub left: Vec<Addend>,
    /// The relation that has to hold between the sums.
    pub relation: Relation,
    /// The sum after the relation.
    pub right: Vec<Addend>,
}

impl Relation {
    /// Whether the relation holds between two sums.
    fn holds(self, left: i128, right: i128) -> bool
        ensures { result ≡ relation_holds self left right }
    {
        match self {
            Relation::Equal => left == right,
            Relation::NotEqual => left != right,
            Relation::Less => left < right,
            Relation::LessOrEqual => left <= right,
            Relation::Greater => left > right,
            Relation::GreaterOrEqual => left >= right,
        }
    }
}

/// The position of `number` in `numbers`.
fn position(numbers: &[usize], number: usize) -> Option<usize>
    ensures { result ≡ position (λ other. other == number) numbers.now }
{
    numbers.iter().position(|other| *other == number)
}

/// The position of the cell with the number `number` among `cells`.
fn place_of(cells: &Cells, number: usize) -> Option<usize>
    ensures { result ≡ place_of cells.now number }
{
    match cells {
        Cells::Every => Some(number),
        Cells::These(numbers) => position(numbers, number),
    }
}

/// The values of the reported cells.
#[derive(Clone, Copy)]
struct Told<'a> {
    cells: &'a Cells,
    values: &'a [Value],
}

impl Told<'_> {
    /// The number that the cell with the number `number` holds.
    fn number(self, number: usize) -> i64
        ensures { result ≡ told_number self.entry.cells.now self.entry.values.now number }
    {
        let Some(place) = place_of(self.cells, number) else {
            return 0;
        };
        match self.values.get(place) {
            Some(Value::Int(number)) => *number,
            _ => 0,
        }
    }

    /// The signed value of `addend`.
    fn value_of(self, addend: Addend) -> i128
        ensures value { result ≡ value_of_addend self.entry.cells.now self.entry.values.now addend }
        ensures low { neg_ℤ (pos (2 ^ 63)) ≤ℤ result }
        ensures high { result ≤ℤ pos (2 ^ 63) }
    {
        let amount = match addend.quantity {
            Quantity::Number(number) => number,
            Quantity::Cell(number) => self.number(number),
        };
        match addend.sign {
            Sign::Plus => i128::from(amount),
            Sign::Minus => -i128::from(amount),
        }
    }

    /// The sum of `addends`. It is exact: each addend is at most 2^63 away from 0, and a `Vec` has fewer than 2^64 of
    /// them.
    fn sum_of(self, addends: &[Addend]) -> i128
        ensures { result ≡ sum_of self.entry.cells.now self.entry.values.now addends.now }
    {
        let mut sum: i128 = 0;
        for addend in addends {
            sum += self.value_of(*addend);
        }
        sum
    }
}

impl Comparison {
    /// Whether the comparison holds where `cells` have the values `values`.
    pub fn holds(&self, cells: &Cells, values: &[Value]) -> bool
        ensures { result ≡ holds cells.now values.now self.now }
    {
        let told = Told { cells, values };
        let left = told.sum_of(&self.left);
        let right = told.sum_of(&self.right);
        self.relation.holds(left, right)
    }
}
