//! Why no token can be read.

ghost use Rattle.std.specs.Prelude.{◌≡◌};
ghost use Rattle.lexer.specs.declared.token_error.TokenError.TheVariants.{NoMemory};
ghost use Rattle.lexer.specs.Working.Reading.{Refuses};

use source::fault::{Code, Fault, Refusal};
use std::alloc::{AllocError, Global};

/// The reason why no token can be read. The fault is at the first byte of the token, which the caller knows.
#[derive(Debug, Drop)]
pub enum TokenError {
    /// No token begins here, or one that exceeds a limit.
    Bad(Code),
    /// An allocation failed.
    NoMemory,
}

impl From<AllocError> for TokenError {
    ghost from_gives = { λ _ e. e ≡ NoMemory };

    fn from(_e: AllocError) -> TokenError {
        TokenError::NoMemory
    }
}

impl TokenError {
    /// The refusal for a token that begins at `start`.
    pub fn at(self, alloc: Global, start: usize) -> Refusal
        ensures { Refuses self start result }
    {
        match self {
            TokenError::Bad(code) => Refusal::Fault(Fault::at(alloc, code, start)),
            TokenError::NoMemory => Refusal::NoMemory,
        }
    }
}
