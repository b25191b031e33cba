//! What an editor asks of a text by its tokens alone: positions, declarations, references, edits, names of the top
//! level, the layout. The answers exist for texts with syntax faults too.
//!
//! - [`Position`]: a line and UTF-16 units within it, both from 0. [`Walker`]: a text, with the position of a byte of it.
//!   [`PositionMarks`]: walkers in a text, for bytes in any order. [`offset_of`]: the byte at a position. [`place_value`],
//!   [`range_value`]: a place and a range, as JSON.
//! - [`declarations`]: for each token the one that declares its name. [`declaration_text`]: the declaration of a name, on
//!   one line. [`lock_class`]: the class of the lock that belongs to it.
//! - [`document_symbols`]: the names of the top level, with their places. [`range_at`]: the range of a name.
//! - [`DocumentPosition`]: a requested position. [`definition`]: the place where the name at it is declared. [`references`]:
//!   the places of the names that mean the same. [`rename`]: the edits that rename it. [`tokens_of`]: the tokens of a text.
//!   [`name_number`]: the one that is the name at a position.
//! - [`formatting_edits`]: no edit of a text that is its own layout, otherwise one of the whole text.
//!
//! A name is given by its number among the tokens, and a text is taken as UTF-8, whose lines end at LF, CR LF or a lone CR
//! (`specs/Positions`, `specs/Ranges`). `specs/Names`, `specs/Declarations` and `specs/Taken` define what each name declares
//! or means, and which names are taken. `specs/Extents`, `specs/Lines` and `specs/Classes` define what a declaration says.
//! `specs/DocumentSymbols`, `specs/Links`, `specs/Renames` and `specs/Edits` define the answers, and `specs/Told` the answers
//! for a text with a lexical fault.
#![tactic(auto)]

mod answers;
mod classes;
mod edits;
mod extents;
mod lines;
mod linked;
mod listing;
mod marks;
mod meaning;
mod names;
mod offsets;
mod ranges;
mod renaming;
mod scopes;
mod tables;
mod taken;
mod texts;
mod walking;

pub use answers::{DocumentPosition, definition, references};
pub use classes::lock_class;
pub use edits::formatting_edits;
pub use lines::declaration_text;
pub use linked::name_number;
pub use listing::{document_symbols, range_at};
pub use marks::PositionMarks;
pub use meaning::declarations;
pub use offsets::offset_of;
pub use ranges::{place_value, range_value};
pub use renaming::rename;
pub use texts::tokens_of;
pub use walking::{Position, Walker};
