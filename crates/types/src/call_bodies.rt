//! Sections and helpers.

ghost use Rattle.std.specs.Prelude.{◌≡◌, IfOk};
ghost use Rattle.syntax.specs.Views.{section_of};
ghost use Rattle.core_lang_helpers.specs.Graphs.{body_of};
ghost use Rattle.resolution.specs.Scopes.{result_of};
ghost use Rattle.types_symbols.specs.{decls_of};
ghost use Rattle.types.specs.Working.Bodies.{body_within};

use crate::call_walk::{Reader, Walk};
use core_lang::value::ValueType;
use core_lang_helpers::graph::CallerBody;
use resolution::body_limits::BodyLimits;
use std::alloc::AllocError;
use syntax::tree::Section;
use types_symbols::scope::{Locals, type_outside};

impl Reader<'_> {
    // The type of the result, if it has one without a fault.
    fn result_type(&self, s: &Section) -> Option<ValueType>
        ensures { result ≡ result_of (decls_of self.now.symbols.now) (section_of s.now) }
    {
        match &s.result {
            Some(t) => type_outside(self.symbols, t),
            None => None,
        }
    }

    /// The calls and counts of a section or a helper with these limits. The only error is a failed allocation.
    pub fn body(&self, s: &Section, limits: BodyLimits) -> Result<CallerBody, AllocError>
        ensures { IfOk result
            (λ body. body_of body ≡ body_within (decls_of self.now.symbols.now) limits (section_of s.now)) }
    {
        let mut walk = Walk {
            locals: Locals::new(self.symbols.maker(), self.result_type(s), limits),
            calls: Vec::new(self.alloc),
            points: 0,
        };
        self.params(&s.params, &mut walk.locals)?;
        self.stmts(&s.body.stmts, &mut walk)?;
        Ok(CallerBody {
            start: s.name.start as usize,
            parameters: s.params.len(),
            locals: walk.locals.len(),
            points: walk.points,
            has_result: s.result.is_some(),
            calls: walk.calls,
        })
    }
}
