//! The first rows of the table of advice, on syntax of other languages.

use crate::advice::Advice;
use crate::area::Area::{Anywhere, Body, Head, Top};
use crate::area::Inner::{Either, Paren};
use crate::pattern::Foreign::{Do, Switch, Void};
use crate::pattern::Pattern::{Any, Mark, Name, Number, Spelt, Starts, Word};
use crate::rows::{Row, Shape};
use source::token::Keyword::{Lock, Pool};
use source::token::Sign::{CloseBrace, Dot, Equals, OpenBrace, OpenParen, Semicolon};

/// The rows on syntax of other languages.
pub const FOREIGN_ROWS: [Row; 10] = [
    Row(
        Body,
        Either,
        Shape(Any, Any, Any, Starts, Spelt(Do), Mark(OpenBrace), Any),
        Advice::Do,
    ),
    Row(
        Body,
        Either,
        Shape(Any, Any, Any, Starts, Spelt(Switch), Mark(OpenParen), Any),
        Advice::Switch,
    ),
    Row(
        Top,
        Either,
        Shape(Any, Any, Any, Any, Any, Spelt(Void), Name),
        Advice::Void,
    ),
    Row(
        Body,
        Paren,
        Shape(Any, Any, Any, Any, Any, Mark(Equals), Any),
        Advice::Equality,
    ),
    Row(
        Top,
        Either,
        Shape(Any, Any, Any, Any, Any, Mark(CloseBrace), Any),
        Advice::Unopened,
    ),
    Row(
        Anywhere,
        Either,
        Shape(Any, Any, Any, Any, Number, Mark(Dot), Number),
        Advice::Whole,
    ),
    Row(
        Anywhere,
        Either,
        Shape(Any, Any, Any, Any, Number, Name, Mark(Semicolon)),
        Advice::Decimal,
    ),
    Row(
        Top,
        Either,
        Shape(Any, Any, Word(Pool), Name, Name, Mark(Semicolon), Any),
        Advice::PoolSize,
    ),
    Row(
        Body,
        Either,
        Shape(Any, Any, Any, Any, Any, Word(Lock), Any),
        Advice::NoLocking,
    ),
    Row(
        Head,
        Either,
        Shape(Any, Any, Any, Any, Any, Word(Lock), Mark(OpenParen)),
        Advice::ListedClasses,
    ),
];
