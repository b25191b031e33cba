//! The texts of each code's page, in lines.

ghost use Rattle.std.specs.Prelude.{◌≡◌};
ghost use Rattle.explanation.specs.CodePages.{places, program, ways_out};

use source::fault::Code;

/// The places of faults of a code, in lines.
#[tactic(auto, unfolding(crate::specs::CodePages::places))]
pub fn places(code: Code) -> &'static str
    ensures { result.now ≡ places code }
{
    match code {
        Code::BadCharacter => {
            r#"At a byte outside comments that begins no token and is neither white space nor
a digit: `#`, `"`, `&` or `|` alone, any byte over 127. A byte order mark,
which editors hide, is one at 1:1.
"#
        }
        Code::NumberTooLarge => "At a number over 9223372036854775807, also after a `-`.\n",
        Code::UnexpectedToken => {
            r#"At the first token with which no program goes on. The end of the text counts
as a token, at the byte after the last one.
"#
        }
        Code::NestedTooDeep => {
            r#"At the first `(`, `[` or `{` inside 64 open ones. At one token `E03` goes
first.
"#
        }
        Code::DeclaredTwice => {
            r#"At the later of two names of the top level, members of one struct, locals of
one section or helper. At the later of two equal classes of a section's list.
At a local with a name of the top level, even a later one.
"#
        }
        Code::UnknownName => {
            r#"At a name that is not declared, not in scope, or no member of the struct, also
in an annotation, an `init`, a type, a call or the list of a section's head.
"#
        }
        Code::WrongType => {
            r#"- At the start of an expression or constant not of the expected type: an int for
  a condition, a truth value for `print`, a reference for `+` or to another
  struct.
- Of `==` and `!=` at the right side where both are unlike, at the left where
  both are truth values.
- After `where`: at the first name, where the bound local is not a reference
  or the member is a field that is not final; at the second, where that is not
  a local, or is of another type than the final reference.
- At the helper's name in a `let`, where it has no result or one of another
  type.
- In the list of a section's head: at the first name, where it is not a struct;
  at the second, where the member is not a lock.
- At a name of the wrong kind: an array or pool without index, or a section,
  helper, struct or thread, as a value; an index after anything else; a field
  after a top-level name, an int or a lock (at the first name); a declared
  name that is not a struct in a type, a pool in an `init` or a constant, a
  section in a thread's call, or a helper after `call`.
"#
        }
        Code::WrongArgumentCount => {
            r#"At the section's or helper's name in the call, whose arguments are not judged
then.
"#
        }
        Code::NotAssignable => {
            r#"At the start of a left side that is a parameter, a `let`, a final reference, a
whole array, a pool or its member, a section, a helper, a struct or a thread.
"#
        }
        Code::NeitherFinalNorProtected =>
            "At the name of a global, an array or a field without `protected_by`.\n",
        Code::ProtectedByNoLock => {
            r#"At the annotation's first name: where its last is a field or final reference;
where that of a global or array, or a field's that begins with no own member,
is not a global lock alone. An undeclared name is `E06`.
"#
        }
        Code::ProtectedByPassesNonFinal => {
            r#"At the first name in an annotation, but the last, that is a member and no
final reference.
"#
        }
        Code::UnstableBase => {
            r#"At the first name of an access to a field under an object's lock, where what
comes before it is not a stable path. At the second name after `where`, where
that is a `var`.
"#
        }
        Code::LockOrderCycle => {
            r#"At a statement that makes the first step of a cycle of lock classes. Two
sections could each hold a lock of the cycle, and wait for the next one for
ever.
"#
        }
        Code::LimitExceeded =>
            "At what is too much, too large or too deep. Limits has the places.\n",
        Code::FinalWithoutOpeningValue => {
            r#"At the pool's name, once, where no `init` gives some member a final reference.
At the `null` of an `init` of one, which counts as given.
"#
        }
        Code::InitOutOfRangeOrRepeated => {
            r#"At the index of an `init`, or of a constant that names a pool's member, out of
the pool's range (in an expression trap 2). At the word `init` of a second one
for a member's field, however its index is written.
"#
        }
        Code::MisplacedReturn => {
            r#"At a `return` that is not the last statement of a body with a result type. At
the closing brace of such a body without that `return`.
"#
        }
        Code::LockAsValue => {
            r#"At the first name of a lock read or assigned to, `G` or `a.l`; in an `init`,
at the field's name; after `where`, at the first name.
"#
        }
        Code::RecursiveHelper => {
            r#"In a helper, at the called name of each call by which it comes back to itself,
be it through others, even where no section calls it.
"#
        }
    }
}

/// A program with a fault of the code, in lines.
#[tactic(auto, unfolding(crate::specs::CodePages::program))]
pub fn program(code: Code) -> &'static str
    ensures { result.now ≡ program code }
{
    match code {
        Code::BadCharacter => {
            r#"    lock G;
    global int n protected_by(G);
    atomic f() { n = n & 1; }
"#
        }
        Code::NumberTooLarge => {
            r#"    lock G;
    global int n protected_by(G) = -9223372036854775808;
"#
        }
        Code::UnexpectedToken => {
            r#"    lock G;
    global int n protected_by(G);
    atomic f() {
      if (n == 0) { n = 1; } else if (n == 1) { n = 2; }
    }
"#
        }
        Code::NestedTooDeep =>
            "    atomic f() : int { return ((((((((((((((((((((((((((((((((((((((((((((((((((((((((((((((((1)))))))))))))))))))))))))))))))))))))))))))))))))))))))))))))))); }\n",
        Code::DeclaredTwice => {
            r#"    lock G;
    global int n protected_by(G);
    atomic f(int k) {
      if (k > 0) { let a: int = 1; n = a; } else { let a: int = 2; n = a; }
    }
"#
        }
        Code::UnknownName => {
            r#"    struct Account { lock l; int balance protected_by(l); }
    atomic f(ref Account a) { a.balance = a.balnce + 1; }
"#
        }
        Code::WrongType => {
            r#"    lock G;
    global int n protected_by(G);
    atomic f() { while (n) { n = n - 1; } }
"#
        }
        Code::WrongArgumentCount => {
            r#"    atomic f(int k) { print k; }
    thread t { f(1, nowhere[2]); }
"#
        }
        Code::NotAssignable => "    atomic f(int k) { k = k + 1; }\n",
        Code::NeitherFinalNorProtected => {
            r#"    lock G;
    global int n;
"#
        }
        Code::ProtectedByNoLock =>
            "    struct S { lock l; int x protected_by(l); int y protected_by(x); }\n",
        Code::ProtectedByPassesNonFinal =>
            "    struct S { lock l; ref S next protected_by(l); int x protected_by(next.l); }\n",
        Code::UnstableBase => {
            r#"    struct S { lock l; int x protected_by(l); ref S next protected_by(l); }
    pool S p[2];
    atomic f(ref S a) { print a.next.x; }
"#
        }
        Code::LockOrderCycle => {
            r#"    struct A { lock l; ref B b protected_by(l); int x protected_by(l); }
    struct B { lock m; ref A a protected_by(m); int y protected_by(m); }
    atomic f(ref A r) {
      let s: ref B = r.b;
      s.y = 1;
    }
    atomic g(ref B r) {
      let s: ref A = r.a;
      s.x = 1;
    }
"#
        }
        Code::LimitExceeded =>
            "    atomic f(int a, int b, int c, int d, int e, int g, int h, int i, int j) { }\n",
        Code::FinalWithoutOpeningValue => {
            r#"    struct B { lock l; }
    struct N { final ref B owner; int v protected_by(owner.l); }
    pool B b[1];
    pool N n[2];
    init n[0].owner = b[0];
"#
        }
        Code::InitOutOfRangeOrRepeated => {
            r#"    struct S { lock l; int x protected_by(l); }
    pool S p[2];
    init p[2].x = 1;
"#
        }
        Code::MisplacedReturn => {
            r#"    atomic f(int k) : int {
      if (k > 0) { return 1; }
      return 0;
    }
"#
        }
        Code::LockAsValue => {
            r#"    lock G;
    struct S { lock l; int x protected_by(l); }
    atomic f(ref S a) { print a.x; print a.l; }
"#
        }
        Code::RecursiveHelper => {
            r#"    lock G;
    global int n protected_by(G);
    call down(int k) {
      if (k > 0) { n = n + k; call down(k - 1); }
    }
    atomic f() { call down(3); }
    thread t { f(); }
"#
        }
    }
}

/// Remedies beside the code's own one, in lines. Empty if it has no other.
#[tactic(auto, unfolding(crate::specs::CodePages::ways_out))]
pub fn ways_out(code: Code) -> &'static str
    ensures { result.now ≡ ways_out code }
{
    match code {
        Code::UnexpectedToken => "See the list under Grammar.\n",
        Code::WrongType => {
            r#"`n != 0` or `r != null`; for a comparison's value `var ok: int = 0; if (n > 3)
{ ok = 1; }`.
"#
        }
        Code::NotAssignable =>
            "For a final reference give another value by `init`, or make it a field.\n",
        Code::NeitherFinalNorProtected => "Only a member can be final: `final ref S f;`.\n",
        Code::UnstableBase => {
            r#"With `let n: ref S = a.next;` the first is E14, since the locks of `a` and `n`
are of one class, unless `next` is under a global lock. For a walk by a `var`
put the fields under a global lock, whose fields any reference may reach, or
under that of a common owner: Shared owners. Or list the class in the
section's head: Taking a whole class. A `var` after `where` becomes a `let` by
`let o: ref S = v;` before it.
"#
        }
        Code::LockOrderCycle => {
            r#"Ways out has six: all `let`s before all uses, a parameter, a global lock for
the reference, one for all fields, a final reference, the whole class. For
objects with a common owner there is `where`. The `let` that needs a lock of
the second class later is the statement that the line names or comes after it:
if it uses no lock of the first class itself, it may go before that statement;
else it needs another way.
"#
        }
        Code::LimitExceeded => {
            r#"Split a section, or a struct into two that a final reference joins, or use
fewer objects.
"#
        }
        Code::FinalWithoutOpeningValue => "For null take a field `ref B owner protected_by(..)`.\n",
        Code::RecursiveHelper => {
            r#"Here `var i: int = k; while (i > 0) { n = n + i; i = i - 1; }`.
examples/tree.al keeps a stack.
"#
        }
        _ => "",
    }
}
