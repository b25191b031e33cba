//! Writes the loops over a struct's members in which a section acquires or releases a whole class. The only error is a
//! failed allocation.

ghost use Rattle.std.specs.Prelude.{OnOk};
ghost use Rattle.locks.specs.Texts.{AddsText};

use core_lang::shape::Pool;
use core_lang::typed::Typed;
use locks::text::push_last;
use std::alloc::AllocError;

/// A lock path that is a whole class.
#[derive(Clone, Copy)]
pub struct ClassLoops<'a> {
    /// The program.
    pub program: &'a Typed,
    /// The class, an index into [`Typed::classes`].
    pub class: usize,
    /// The struct whose members have the locks, an index into [`Typed::structs`].
    pub structure: usize,
    /// The number of the path among those of its section.
    pub number: usize,
}

impl ClassLoops<'_> {
    ghost use Rattle.c_statements.specs.Working.Loops.{pool_of, pool_if, loops_of};

    // Appends the loop over a pool's members that calls this macro with each lock.
    fn push_pool(&self, out: &mut String, pool: &Pool, called: &str) -> Result<(), AllocError>
        ensures { OnOk result (AddsText (pool_of self.now called.now pool.now) out.old out.new) }
    {
        let number = self.number;
        write!(out, " for (int64_t i = 0; i < {}; i++) {{ ", pool.length)?;
        write!(out, "h[{number}] = &s->p_{}[i].l_", pool.name)?;
        push_last(out, self.program, self.class)?;
        write!(out, "; {called}(h[{number}]); }}")
    }

    // Appends that loop, if the members have the locks.
    fn push_pool_if(&self, out: &mut String, pool: &Pool, called: &str) -> Result<(), AllocError>
        ensures { OnOk result (AddsText (pool_if self.now called.now pool.now) out.old out.new) }
    {
        if pool.structure == self.structure {
            return self.push_pool(out, pool, called);
        }
        Ok(())
    }

    /// Appends the loops that call the macro `called` with each lock of the class, pool after pool.
    pub fn push(&self, out: &mut String, called: &str) -> Result<(), AllocError>
        ensures { OnOk result (AddsText (loops_of self.now called.now) out.old out.new) }
    {
        for pool in &self.program.shape.pools {
            self.push_pool_if(out, pool, called)?;
        }
        Ok(())
    }
}
