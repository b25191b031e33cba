//! A test of the crate `core_lang`: which calls a program accepts.

use core_lang::value::Value;
use std::test::Fail;
use test_support::judging::compare;
use test_support::texts::taken;

/// A section with a parameter of each kind, and an object of another struct.
const TWO_STRUCTS: &str = "struct S { lock l; } struct T { lock l; }
pool S p[1]; pool T q[1];
atomic f(ref S s, int k) { }
";

#[test]
fn takes_and_refuses_calls(rt: HostRuntime) -> Result<(), Fail> {
    let alloc = rt.alloc();
    let said = taken(
        alloc,
        TWO_STRUCTS,
        &[
            (0, &[Value::Ref(None), Value::Int(7)]),
            (0, &[Value::Ref(Some(0)), Value::Int(7)]),
            // An object of the other struct, one that does not exist, a number for a reference, and a reference for a
            // number.
            (0, &[Value::Ref(Some(1)), Value::Int(7)]),
            (0, &[Value::Ref(Some(2)), Value::Int(7)]),
            (0, &[Value::Int(0), Value::Int(7)]),
            (0, &[Value::Ref(None), Value::Ref(None)]),
            // An unknown section, and too few arguments.
            (1, &[Value::Ref(None), Value::Int(7)]),
            (0, &[Value::Ref(None)]),
        ],
    )?;
    compare(
        alloc,
        said.as_str(),
        "true true false false false false false false ",
    )
}
