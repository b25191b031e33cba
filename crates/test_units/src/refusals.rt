//! Tests of the crate `source` of what no clause says: the display of refusals.

use source::fault::{Code, Fault, Refusal};
use std::alloc::Global;
use std::test::Fail;
use test_support::judging::compare;

fn judge_shown(alloc: Global, refusal: &Refusal, want: &str) -> Result<(), Fail> {
    let shown = format!(in alloc; "{refusal}")?;
    compare(alloc, shown.as_str(), want)
}

#[test]
fn shows_refusals(rt: HostRuntime) -> Result<(), Fail> {
    let alloc = rt.alloc();
    let fault = Refusal::Fault(Fault::at(alloc, Code::RecursiveHelper, 7));
    judge_shown(alloc, &fault, "E20 recursive helper at byte 7")?;
    judge_shown(alloc, &Refusal::NoMemory, "no memory")
}
