//! The trees of programs.

use source::keyed::KeyedState;
use source::span::Span;
use source::token::Number;
use std::rc::RcStr;

/// A program: its declarations, in the order of the text.
#[derive(Drop)]
pub struct Tree {
    pub decls: Vec<Decl>,
    /// The hash builder for tables of the tree's names, keyed by all names of the text. It is not a part of the tree's
    /// meaning.
    pub hashing: KeyedState,
}

/// A name, and its first byte. It ends where its text ends. Equal names of one program share their bytes.
#[derive(Drop)]
pub struct Name {
    pub text: RcStr,
    pub start: u32,
}

/// The type of a global, a parameter, a local or a result.
#[derive(Drop)]
pub enum ValueType {
    /// `int`
    Int,
    /// `ref S`: null, or a member of a pool of the struct.
    Ref(Name),
}

/// A constant.
#[derive(Drop)]
pub enum Const {
    /// `7`
    Int(Number),
    /// `-7`: the position of the sign, and the number after it.
    Negative(Span, Number),
    /// `null`, and its position.
    Null(Span),
    /// `p[3]`: a member of a pool.
    Member(Name, Number),
}

/// An operator between the operands of a chain.
#[derive(Clone, Copy, PartialEq, Eq)]
pub enum Operator {
    /// `+`
    Add,
    /// `-`
    Sub,
    /// `*`
    Mul,
    /// `/`
    Div,
    /// `%`
    Rem,
    /// `&&`
    And,
    /// `||`
    Or,
}

/// The precedence level of the operators of a chain.
#[derive(Clone, Copy)]
pub enum Level {
    /// `*`, `/` and `%`
    Term,
    /// `+` and `-`
    Sum,
    /// `&&`
    Conjunction,
    /// `||`
    Disjunction,
}

impl Operator {
    ghost use Rattle.std.specs.Prelude.{◌≡◌};
    ghost use Rattle.syntax.specs.Grammar.{level_of};

    /// The precedence level of the operator.
    pub fn level(self) -> Level
        ensures { result ≡ level_of self }
    {
        match self {
            Operator::Mul | Operator::Div | Operator::Rem => Level::Term,
            Operator::Add | Operator::Sub => Level::Sum,
            Operator::And => Level::Conjunction,
            Operator::Or => Level::Disjunction,
        }
    }
}

/// A comparison between two sums.
#[derive(Clone, Copy)]
pub enum Comparison {
    /// `==`
    Equal,
    /// `!=`
    NotEqual,
    /// `<`
    Less,
    /// `<=`
    LessOrEqual,
    /// `>`
    Greater,
    /// `>=`
    GreaterOrEqual,
}

/// An operator before its operand.
#[derive(Clone, Copy)]
pub enum Prefix {
    /// `-`
    Negate,
    /// `!`
    Not,
}

/// `a.b.c`: a name, and one or more fields after dots.
#[derive(Drop)]
pub struct Path {
    pub first: Name,
    pub fields: Vec<Name>,
}

/// The target of an assignment.
#[derive(Drop)]
pub enum Place {
    /// `x`
    Name(Name),
    /// `x[e]`
    Element(Box<Element>),
    /// `x.a.b`
    Path(Box<Path>),
}

/// An expression.
///
/// A program may have one for every other byte, so an expression takes 24 bytes: larger parts are boxed, and small ones
/// come first.
#[derive(Drop)]
#[cycle(expr)]
pub enum Expr {
    /// `7`
    Int(Number),
    /// `null`, and its position.
    Null(Span),
    /// `x`
    Name(Name),
    /// `x[e]`
    Element(Box<Element>),
    /// `x.a.b`
    Path(Box<Path>),
    /// `(e)`, and the position of the opening parenthesis.
    Paren(Span, Box<Expr>),
    /// `-e`, and the position of the operator.
    Prefix(Prefix, Span, Box<Expr>),
    /// `a + b - c` or `a == b`
    Joined(Box<Joined>),
}

/// `x[e]`: an element of an array.
#[derive(Drop)]
#[cycle(expr)]
pub struct Element {
    pub name: Name,
    pub index: Expr,
}

/// Operands, with operators between them.
#[derive(Drop)]
#[cycle(expr)]
pub enum Joined {
    /// `a + b`: a chain of two operands. Most chains have two, and a list of one link would take a block of memory of
    /// its own.
    Pair(Operator, Expr, Expr),
    /// `a + b - c`: an operand, and operators of one level with an operand each.
    Chain(Level, Expr, Vec<Link>),
    /// `a == b`
    Compare(Comparison, Expr, Expr),
}

/// An operator of a chain, and the operand after it.
#[derive(Drop)]
#[cycle(expr)]
pub struct Link {
    pub op: Operator,
    pub operand: Expr,
}

/// `let x: int = e;` or `var x: int = e;`
#[derive(Drop)]
pub struct Local {
    /// The position of the statement's first word.
    pub start: Span,
    pub name: Name,
    pub value_type: ValueType,
    pub value: Expr,
}

/// `where owner == b`: the final reference of a local's value that is tested, and the local it has to refer to.
#[derive(Drop)]
pub struct OwnerClause {
    /// The final reference.
    pub field: Name,
    /// The local that the final reference has to equal.
    pub local: Name,
}

/// `let n: ref S = e where owner == b;`
#[derive(Drop)]
pub struct OwnedLocal {
    pub local: Local,
    pub owner: OwnerClause,
}

/// `f(a + 1, b)`: a call of a helper.
#[derive(Drop)]
pub struct HelperCall {
    pub helper: Name,
    pub arguments: Vec<Expr>,
}

/// `let x: int = call f(e);`
#[derive(Drop)]
pub struct CalledLocal {
    /// The position of the statement's first word.
    pub start: Span,
    pub name: Name,
    pub value_type: ValueType,
    pub call: HelperCall,
}

/// A statement.
///
/// A program may have one for every four bytes, so a statement takes 56 bytes: larger parts are boxed.
#[derive(Drop)]
#[cycle(stmt)]
pub enum Stmt {
    /// `let x: int = e;`
    Let(Box<Local>),
    /// `let n: ref S = e where owner == b;`
    LetOwned(Box<OwnedLocal>),
    /// `let x: int = call f(e);`
    LetCall(Box<CalledLocal>),
    /// `var x: int = e;`
    Var(Box<Local>),
    /// `x = e;`
    Assign(Place, Expr),
    /// `if (e) { .. }` or `if (e) { .. } else { .. }`
    If(Box<If>),
    /// `while (e) { .. }`
    While(Box<While>),
    /// `print e;`, and the position of its first word.
    Print(Span, Expr),
    /// `return e;`, and the position of its first word.
    Return(Span, Expr),
    /// `call f(e);`, and the position of its first word.
    Call(Span, Box<HelperCall>),
}

/// `if (e) { .. }` or `if (e) { .. } else { .. }`
#[derive(Drop)]
#[cycle(stmt)]
pub struct If {
    /// The position of the statement's first word.
    pub start: Span,
    pub condition: Expr,
    pub block: Block,
    /// The block after `else`, if it has one.
    pub otherwise: Option<Block>,
}

/// `while (e) { .. }`
#[derive(Drop)]
#[cycle(stmt)]
pub struct While {
    /// The position of the statement's first word.
    pub start: Span,
    pub condition: Expr,
    pub block: Block,
}

/// Statements in braces, and the position of the closing brace.
#[derive(Drop)]
#[cycle(stmt)]
pub struct Block {
    pub stmts: Vec<Stmt>,
    pub close: Span,
}

/// `protected_by(a.b.c)`: the first name, and those after the dots.
#[derive(Drop)]
pub struct Protection {
    pub first: Name,
    pub rest: Vec<Name>,
}

/// `global int x protected_by(G) = 7;`: a global that is not an array.
#[derive(Drop)]
pub struct Variable {
    pub name: Name,
    pub value_type: ValueType,
    pub protection: Option<Protection>,
    /// The initial value, if one is given.
    pub value: Option<Const>,
}

/// `global int a[4] protected_by(G);`: a global that is an array.
#[derive(Drop)]
pub struct Array {
    pub name: Name,
    /// The type of an element.
    pub value_type: ValueType,
    pub length: Number,
    pub protection: Option<Protection>,
}

/// `final ref S next;`: a reference that never changes.
#[derive(Drop)]
pub struct Final {
    pub name: Name,
    /// The struct that it refers to.
    pub target: Name,
}

/// `int x protected_by(l);`: a field that can change.
#[derive(Drop)]
pub struct Field {
    pub name: Name,
    pub value_type: ValueType,
    pub protection: Option<Protection>,
}

/// A member of a struct.
#[derive(Drop)]
pub enum Member {
    /// `lock l;`
    Lock(Name),
    /// `final ref S next;`
    Final(Final),
    /// `int x protected_by(l);`
    Field(Field),
}

/// `struct S { .. }`
#[derive(Drop)]
pub struct Struct {
    pub name: Name,
    pub members: Vec<Member>,
}

/// `pool S p[3];`
#[derive(Drop)]
pub struct Pool {
    pub name: Name,
    /// The struct of its members.
    pub target: Name,
    pub length: Number,
}

/// `init p[2].x = 7;`: the initial value of a field of a pool member.
#[derive(Drop)]
pub struct Init {
    /// The position of the declaration's first word.
    pub start: Span,
    pub pool: Name,
    pub index: Number,
    pub field: Name,
    pub value: Const,
}

/// A parameter of a section or a helper.
#[derive(Drop)]
pub struct Param {
    pub name: Name,
    pub value_type: ValueType,
}

/// `S.l`: a lock class, by the names of its struct and of the struct's lock.
#[derive(Drop)]
pub struct ClassName {
    pub structure: Name,
    pub lock: Name,
}

/// `atomic f(int a, int b): int lock(S.l) { .. }`: an atomic section, or `call f(int a, int b): int { .. }`: a helper,
/// which has the same parts.
#[derive(Drop)]
pub struct Section {
    pub name: Name,
    pub params: Vec<Param>,
    /// The result type, if it returns a value.
    pub result: Option<ValueType>,
    /// The lock classes that it takes whole, in the order of the text. In a text, a helper has none.
    pub listed: Vec<ClassName>,
    pub body: Block,
}

/// `f(1, -2);`: a call of a section.
#[derive(Drop)]
pub struct Call {
    pub section: Name,
    pub arguments: Vec<Const>,
}

/// An item of a thread.
#[derive(Drop)]
pub enum Item {
    /// `f(1, -2);`
    Call(Call),
    /// `repeat 3 { .. }`
    Repeat(Number, Vec<Item>),
}

/// `thread t { .. }`: a thread and its items, in order.
#[derive(Drop)]
pub struct Thread {
    pub name: Name,
    pub items: Vec<Item>,
}

/// A declaration.
#[derive(Drop)]
pub enum Decl {
    /// `lock G;`
    Lock(Name),
    /// `struct S { .. }`
    Struct(Struct),
    /// `global int x;`
    Global(Variable),
    /// `global int a[4];`
    Array(Array),
    /// `pool S p[3];`
    Pool(Pool),
    /// `init p[2].x = 7;`
    Init(Init),
    /// `atomic f() { .. }`
    Atomic(Section),
    /// `call f(int a): int { .. }`: a helper.
    Helper(Section),
    /// `thread t { .. }`
    Thread(Thread),
}
