//! A tree of orders, which share their prefixes.

ghost use Rattle.std.specs.Prelude.{◌≡◌, ◌<◌, [], ◌∷◌, ◌++◌, length, slice_index_or, IfOk, OnOk, OnErr};
ghost use Rattle.outcomes.specs.Working.Trails.{longer, IsBegun, IsLonger};

use std::alloc::{AllocError, Global};
use std::marker::Model;

/// An order that is another one followed by a thread.
#[derive(Drop)]
pub(crate) struct TrailEdge {
    /// The number of the other order.
    pub(crate) before: usize,
    /// The thread.
    pub(crate) thread: usize,
}

/// Numbered orders. The first is empty, and each later one is an earlier one followed by a thread. Its value is the
/// list of the orders.
#[derive(Drop)]
pub struct Trail {
    steps: Vec<TrailEdge>,
}

impl Model for Trail {
    ghost use Rattle.std.specs.Prelude.{ℕ, List};
    ghost use Rattle.outcomes.specs.Working.Trails.{orders_of, AreBackward};

    ghost Value = { List (List ℕ) };

    ghost view = { λ t. orders_of t.steps.items };

    ghost invariant = { λ t. AreBackward t.steps.items };
}

impl Trail {
    /// The trail with only the empty order.
    pub fn new(alloc: Global) -> Trail
        ensures { result ≡ [] ∷ [] }
    {
        Trail {
            steps: Vec::new(alloc),
        }
    }

    /// The number of orders.
    pub fn len(&self) -> usize
        ensures { result ≡ length self.now }
    {
        self.steps.len() + 1
    }

    /// Adds the order `order` followed by `thread`, and returns its number.
    ///
    /// # Errors
    ///
    /// Out of memory. The trail is then unchanged.
    pub fn extend(&mut self, order: usize, thread: usize) -> Result<usize, AllocError>
        requires { order < length self.old }
        ensures ok { IfOk result (λ _. self.new ≡ self.old ++ longer self.old order thread ∷ []) }
        ensures number { IfOk result (λ number. number ≡ length self.old) }
        ensures err { OnErr result (self.new ≡ self.old) }
    {
        self.steps.push(TrailEdge {
            before: order,
            thread,
        })?;
        Ok(self.steps.len())
    }

    /// Adds `order` with its prefixes, and returns its number.
    ///
    /// # Errors
    ///
    /// Out of memory. Some prefixes of `order` may have been added.
    pub fn add(&mut self, order: &[usize]) -> Result<usize, AllocError>
        requires { IsBegun self.old }
        ensures longer { OnOk result (IsLonger self.old self.new) }
        ensures within { IfOk result (λ number. number < length self.new) }
        ensures order { IfOk result (λ number. slice_index_or self.new number [] ≡ order.now) }
    {
        let mut number = 0;
        for thread in order {
            number = self.extend(number, *thread)?;
        }
        Ok(number)
    }

    /// The order `number`.
    ///
    /// # Errors
    ///
    /// Out of memory.
    pub fn order(&self, alloc: Global, number: usize) -> Result<Vec<usize>, AllocError>
        requires { number < length self.now }
        ensures { IfOk result (λ order. order.items ≡ slice_index_or self.now number []) }
    {
        let mut order = Vec::new(alloc);
        let mut at = number;
        while at > 0 {
            let step = &self.steps[at - 1];
            order.push(step.thread)?;
            at = step.before;
        }
        order.reverse();
        Ok(order)
    }
}
