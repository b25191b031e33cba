//! A place among tokens.

ghost use Rattle.std.specs.Prelude.{◌≤◌, length};

use crate::area::{Area, Opened};
use source::token::Token;

/// A place among tokens, with its context.
#[derive(Drop)]
pub struct View<'a> {
    /// The tokens.
    pub tokens: &'a [Token],
    /// The number of tokens before the place.
    pub number: usize,
    /// The part of a declaration.
    pub area: Area,
    /// The innermost open sign at the place.
    pub inner: Option<Opened>,
    ghost within: { number ≤ length tokens.now },
}
