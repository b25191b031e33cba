//! Tests of the crate `layout`: a program is laid out.

use std::test::Fail;
use test_support::judging::compare;
use test_support::texts::laid_out;

/// Two objects whose field is under the lock of a third one.
const SHARED_OWNER: &str = "struct B { lock l; int n protected_by(l); }
struct N { final ref B owner; int v protected_by(owner.l); }
pool B b[1];
pool N q[2];
init q[0].owner = b[0];
init q[1].owner = b[0];
";

#[test]
fn lays_out(rt: HostRuntime) -> Result<(), Fail> {
    let alloc = rt.alloc();
    let said = laid_out(alloc, SHARED_OWNER)?;
    compare(
        alloc,
        said.as_str(),
        "lock 0 of 0
Int(0) at 0 of 3 under lock 0 of 0
Int(0) at 1 of 3 under lock 0 of 0
Int(0) at 2 of 3 under lock 0 of 0
",
    )
}
