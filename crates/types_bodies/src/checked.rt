//! Results that may be missing because of a fault.

ghost use Rattle.std.specs.Prelude.{◌≡◌, [], ◌∷◌, None};
ghost use Rattle.resolution.specs.Working.Findings.{found_in};
ghost use Rattle.resolution.specs.Working.FaultLists.{one};

use resolution::finding::{Finding, Firsts, report, report_found};
use source::fault::Code;
use std::alloc::AllocError;

/// A value, `None` if it has a fault, or the error of a failed allocation.
pub type Checked<T> = Result<Option<T>, AllocError>;

/// Notes a fault with its reason, and returns no value.
pub fn faulty_for<T>(found: Finding, firsts: &mut Firsts) -> Option<T>
    ensures none { result ≡ None }
    ensures faults { firsts.new ≡ found_in firsts.old (found ∷ []) }
{
    report_found(found, firsts);
    None
}

/// Notes a fault whose code says all, and returns no value.
pub fn faulty<T>(code: Code, start: usize, firsts: &mut Firsts) -> Option<T>
    ensures none { result ≡ None }
    ensures faults { firsts.new ≡ found_in firsts.old (one code start) }
{
    report(code, start, firsts);
    None
}
