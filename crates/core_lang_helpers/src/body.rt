//! What is expanded: a section or a helper, among the helpers of its program.

ghost use Rattle.std.specs.Prelude.{◌≡◌};

use crate::idle::Idle;
use core_lang::shape::Shape;
use core_lang::tree::Section;
use std::alloc::Global;

/// A section or a helper that is expanded.
#[derive(Drop)]
pub struct BodyWriter<'a> {
    /// The allocator.
    pub alloc: Global,
    /// The shape that has the helpers.
    pub shape: &'a Shape,
    /// The helpers that do nothing.
    pub(crate) idle: &'a Idle<'a>,
    /// The section or the helper.
    pub section: &'a Section,
    /// The greatest depth of its calls.
    pub depth: u32,
    ghost idle_there: { idle.now.helpers.now ≡ shape.now.helpers.items },
}
