//! The statements and expressions of a section, with numbers instead of names.
//!
//! Chains of operators and of fields are lists, so that only parentheses, indexes, prefix signs and blocks nest. A
//! `start` is a byte of the source text, from 0; the meaning of a section does not depend on it. Which numbers are
//! valid, the order of locals and the limits are properties of well-formed programs (`specs/WellFormed.antt`).

use crate::value::ValueType;

/// An operator between two numbers.
#[derive(Clone, Copy, PartialEq, Eq, Debug)]
pub enum Operator {
    /// `+`
    Add,
    /// `-`
    Sub,
    /// `*`
    Mul,
    /// `/`, which truncates toward zero.
    Div,
    /// `%`, which has the sign of its left side.
    Rem,
}

/// A comparison of two numbers. `==` and `!=` also compare two references.
#[derive(Clone, Copy, PartialEq, Eq, Debug)]
pub enum Comparison {
    /// `==`
    Equal,
    /// `!=`
    NotEqual,
    /// `<`
    Less,
    /// `<=`
    LessOrEqual,
    /// `>`
    Greater,
    /// `>=`
    GreaterOrEqual,
}

/// A field of the struct that has been reached.
#[derive(Clone, Copy, PartialEq, Eq, Debug)]
pub enum FieldStep {
    /// A final reference.
    Final {
        /// The struct, an index into [`crate::typed::Typed::structs`].
        structure: usize,
        /// The final reference, by its number among the struct's final references.
        number: u32,
    },
    /// A field that sections write.
    Field {
        /// The struct, an index into [`crate::typed::Typed::structs`].
        structure: usize,
        /// The field, by its number among the struct's fields.
        number: u32,
    },
}

/// A local and a path of fields from it, as `a.owner.next`. Each field on the path that is not final is an access.
#[derive(Drop)]
pub struct Path {
    /// The first byte of the local's name.
    pub start: usize,
    /// The local, an index into [`Section::locals`].
    pub local: usize,
    /// The fields, in the order in which they are followed, or none.
    pub fields: Vec<FieldStep>,
    /// Whether it is in parentheses, as `(a)`, which is not a stable path. The value is the same.
    pub in_parentheses: bool,
}

/// An expression, whose value is a number or a reference.
#[derive(Drop)]
#[cycle(expr)]
pub enum Expr {
    /// A number.
    Number(i64),
    /// `null`
    Null,
    /// A local, or a field at the end of a path.
    Place(Path),
    /// A global that is not an array.
    Global {
        /// The first byte of its name.
        start: usize,
        /// Its cell, an index into [`crate::typed::Typed::cells`].
        cell: u32,
    },
    /// An element of an array.
    Element {
        /// The first byte of the array's name.
        start: usize,
        /// The array, an index into [`crate::shape::Shape::arrays`].
        array: usize,
        /// The index of the element, from 0.
        index: Box<Expr>,
    },
    /// The reference to a member of a pool, which is not an access.
    Member {
        /// The pool, an index into [`crate::shape::Shape::pools`].
        pool: usize,
        /// The index of the member, from 0.
        index: Box<Expr>,
    },
    /// The negated number.
    Negate(Box<Expr>),
    /// A reference whose final reference has to equal a local, as in `e where owner == b`. Null is accepted; any other
    /// reference traps.
    Owned {
        /// The expression that is tested, and whose value this is.
        value: Box<Expr>,
        /// Its struct, an index into [`crate::typed::Typed::structs`].
        structure: u32,
        /// The final reference, by its number among the struct's final references.
        number: u32,
        /// The first byte of the local's name.
        start: usize,
        /// The local, an index into [`Section::locals`].
        owner: u32,
    },
    /// Operands of `+` and `-`, or of `*`, `/` and `%`, from left to right.
    Chain {
        /// The first operand.
        first: Box<Expr>,
        /// The further operands.
        rest: Vec<Operation>,
    },
}

/// An operator and its right side.
#[derive(Drop)]
#[cycle(expr)]
pub struct Operation {
    /// The operator.
    pub operator: Operator,
    /// Its right side.
    pub operand: Expr,
}

/// A condition, which is true or false.
#[derive(Drop)]
pub enum Condition {
    /// A comparison of two expressions.
    Compare(Comparison, Expr, Expr),
    /// `!`
    Not(Box<Condition>),
    /// Operands of `&&`: all but the last, and the last.
    And(Vec<Condition>, Box<Condition>),
    /// Operands of `||`: all but the last, and the last.
    Or(Vec<Condition>, Box<Condition>),
}

/// A statement.
#[derive(Drop)]
#[cycle(stmt)]
pub struct Stmt {
    /// The first byte of its first word, or of the first name of an assignment's target.
    pub start: usize,
    /// What it does.
    pub action: Action,
}

/// What a statement does. The left side of an assignment starts where the statement does.
#[derive(Drop)]
#[cycle(stmt)]
pub enum Action {
    /// A `let` or a `var`, as the local's kind says.
    Bind {
        /// The local, an index into [`Section::locals`]. Each is bound by one statement of the section.
        local: usize,
        /// The value that it is bound to.
        value: Expr,
    },
    /// An assignment to a `var`.
    SetLocal {
        /// The local, an index into [`Section::locals`].
        local: usize,
        /// The assigned value.
        value: Expr,
    },
    /// An assignment to a global that is not an array.
    SetGlobal {
        /// Its cell, an index into [`crate::typed::Typed::cells`].
        cell: u32,
        /// The assigned value.
        value: Expr,
    },
    /// An assignment to an element of an array.
    SetElement {
        /// The array, an index into [`crate::shape::Shape::arrays`].
        array: usize,
        /// The index of the element, from 0.
        index: Expr,
        /// The assigned value.
        value: Expr,
    },
    /// An assignment to a field that is not final.
    SetField {
        /// The path to the object.
        base: Path,
        /// The object's struct, an index into [`crate::typed::Typed::structs`].
        structure: usize,
        /// The field, by its number among the struct's fields.
        field: u32,
        /// The assigned value.
        value: Expr,
    },
    /// A call of a helper.
    Call {
        /// The helper, an index into [`crate::shape::Shape::helpers`].
        helper: usize,
        /// A value for each of its parameters.
        arguments: Vec<Expr>,
        /// The `let` that the value is bound to, an index into [`Section::locals`]; without one, the value is dropped.
        result: Option<usize>,
    },
    /// `print`
    Print(Expr),
    /// An `if` without an `else`.
    If {
        /// Whether the block is run.
        condition: Condition,
        /// The block.
        block: Vec<Stmt>,
    },
    /// An `if` with an `else`.
    IfElse {
        /// Which of the blocks is run.
        condition: Condition,
        /// The block that is run if the condition is true.
        block: Vec<Stmt>,
        /// The block that is run if it is false.
        otherwise: Vec<Stmt>,
    },
    /// A `while`.
    While {
        /// Whether another turn is made.
        condition: Condition,
        /// The body of a turn.
        body: Vec<Stmt>,
    },
}

/// The `return` at the end of a section's body.
#[derive(Drop)]
pub struct Return {
    /// The first byte of the word `return`.
    pub start: usize,
    /// The result.
    pub value: Expr,
}

/// The kind of a local: where its value comes from.
#[derive(Clone, Copy, PartialEq, Eq, Debug)]
pub enum LocalKind {
    /// The call.
    Parameter,
    /// One `let`, which is never assigned to.
    Let,
    /// A `var`, and assignments.
    Var,
}

/// A parameter, a `let` or a `var`.
#[derive(Drop)]
pub struct Local {
    /// Its name.
    pub name: String,
    /// Where its value comes from.
    pub kind: LocalKind,
    /// Its type.
    pub value_type: ValueType,
}

/// An atomic section.
#[derive(Drop)]
pub struct Section {
    /// Its name.
    pub name: String,
    /// The number of parameters, 0 to 8. They are the first locals, in order.
    pub parameters: usize,
    /// Its locals by number, parameters first, then each `let` and `var` in the order of the text; at most 64.
    pub locals: Vec<Local>,
    /// The type of its result, if it has one.
    pub result_type: Option<ValueType>,
    /// The lock classes that it takes whole, each an index into [`crate::typed::Typed::classes`], in the order of the
    /// head. A helper has none.
    pub listed: Vec<usize>,
    /// Its statements, without the `return`.
    pub body: Vec<Stmt>,
    /// The `return` at the end of its body, if it has a result.
    pub result: Option<Return>,
}
