//! Which row of the table fits the tokens at a place.

ghost use Rattle.std.specs.Prelude.{◌≡◌, ◌≤◌, IfOk, find, length};
ghost use Rattle.std.specs.Option.{option_map};
ghost use Rattle.source.specs.Tokens.{seen};
ghost use Rattle.explanation_tokens.specs.Advice.{fits_shape, rows, there};
ghost use Rattle.explanation_tokens.specs.Around.{behind_all};
ghost use Rattle.explanation_tokens.specs.Working.Seen.{IsView, around_of, fitting, token_seen};

use crate::area::{Around, fits_area, fits_inner};
use crate::foreign_rows::FOREIGN_ROWS;
use crate::rows::{Row, Shape, USUAL_ROWS};
use crate::view::View;
use source::memory::NoMemory;
use source::token::Token;
use std::alloc::Global;

/// The number of tokens of a shape before the unexpected one.
const BEFORE: usize = 5;

/// The context after these tokens.
fn around(alloc: Global, tokens: &[Token]) -> Result<Around, NoMemory>
    ensures { IfOk result (λ found. around_of found ≡ behind_all (seen tokens.now)) }
{
    let mut around = Around::new(alloc);
    for token in tokens {
        around.step(token)?;
    }
    Ok(around)
}

impl<'a> View<'a> {
    /// The view after the given number of tokens.
    ///
    /// # Errors
    ///
    /// Out of memory.
    pub fn of(alloc: Global, tokens: &'a [Token], number: usize) -> Result<View<'a>, NoMemory>
        requires { number ≤ length tokens.now }
        ensures { IfOk result (λ view. IsView view (seen tokens.entry.now) number) }
    {
        let around = around(alloc, &tokens[..number])?;
        Ok(View {
            tokens,
            number,
            area: around.area(),
            inner: around.inner(),
        })
    }

    /// The token at a column of a shape, from 0 on.
    pub fn there(&self, column: usize) -> Option<&'a Token>
        requires { column ≤ 6 }
        ensures { option_map token_seen result ≡ there (seen self.now.tokens.now) self.now.number column }
    {
        if BEFORE <= self.number + column {
            return self.tokens.get(self.number + column - BEFORE);
        }
        None
    }

    fn fits_shape(&self, shape: Shape) -> bool
        ensures { result ≡ fits_shape (seen self.now.tokens.now) self.now.number shape }
    {
        shape.5.fits_there(self.there(5))
            && shape.4.fits_there(self.there(4))
            && shape.6.fits_there(self.there(6))
            && shape.3.fits_there(self.there(3))
            && shape.2.fits_there(self.there(2))
            && shape.1.fits_there(self.there(1))
            && shape.0.fits_there(self.there(0))
    }

    fn fits(&self, row: Row) -> bool
        ensures { result ≡ fitting self.now row }
    {
        fits_area(self.area, row.0) && fits_inner(self.inner, row.1) && self.fits_shape(row.2)
    }

    /// The first of these rows that fits.
    fn first_of(&self, rows: &[Row]) -> Option<Row>
        ensures { result ≡ find (fitting self.now) rows.now }
    {
        for row in rows {
            if self.fits(*row) {
                return Some(*row);
            }
        }
        None
    }

    /// The first row of the table that fits.
    pub fn first_row(&self) -> Option<Row>
        ensures { result ≡ find (fitting self.now) rows }
    {
        match self.first_of(&FOREIGN_ROWS) {
            Some(row) => Some(row),
            None => self.first_of(&USUAL_ROWS),
        }
    }
}
