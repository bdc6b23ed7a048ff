// The tree of a source as it is parsed: every name as it is written, and the line and column of each token that a
// fault may name. Parentheses leave no trace but in the place of a target or an argument. Contracts see it without
// pointers, by specs/SyntaxView.antt.

use crate::tree::{BinaryOperator, Gives, Takes, UnaryOperator};
use vx_base::listed::{Bytes, Listed};

/// A place in a source: its line and its column, both from 1, the column counted in bytes.
#[derive(Clone, Copy)]
pub struct Place {
    /// The line.
    pub line: u32,
    /// The column.
    pub column: u32,
}

/// A name where it stands.
#[derive(Drop)]
pub struct Name {
    /// Its bytes.
    pub bytes: Bytes,
    /// Where it stands.
    pub place: Place,
}

/// An expression.
#[cycle(syntax_expression)]
#[derive(Drop)]
pub enum Expression {
    /// A number.
    Number(i32),
    /// A name, used as a number.
    Name(Name),
    /// A name with an index.
    Element(Name, Box<Expression>),
    /// A name with arguments.
    Call(Name, Vec<Argument>),
    /// An operator with one operand.
    Unary(UnaryOperator, Box<Expression>),
    /// An operator with two operands that are both evaluated.
    Binary(BinaryOperator, Box<Expression>, Box<Expression>),
    /// `&&`
    Both(Box<Expression>, Box<Expression>),
    /// `||`
    Either(Box<Expression>, Box<Expression>),
    /// `?:`: the test, then the operand where it holds and the one where it does not.
    Choice(Box<Expression>, Box<Expression>, Box<Expression>),
}

/// An argument of a call or of a `printf`: any expression.
#[cycle(syntax_expression)]
#[derive(Drop)]
pub struct Argument {
    /// Where its first token stands, which may be a parenthesis.
    pub place: Place,
    /// The expression.
    pub expression: Expression,
}

/// What stands where an assignment, `++` or `--` wants a target: any expression.
#[derive(Drop)]
pub struct Target {
    /// Where its first token stands, which may be a parenthesis.
    pub place: Place,
    /// The expression.
    pub expression: Expression,
}

/// A statement that may stand in the head of a `for`.
#[derive(Drop)]
pub enum Simple {
    /// An expression.
    Evaluate(Expression),
    /// `target = value`
    Assign(Target, Expression),
    /// `target op= value`
    Compound(Target, BinaryOperator, Expression),
    /// `target++` and `++target`
    Increase(Target),
    /// `target--` and `--target`
    Decrease(Target),
}

/// The number of words of an array, where it stands.
#[derive(Clone, Copy)]
pub struct Size {
    /// The number of words, from 0 to 2147483647.
    pub words: u32,
    /// Where the number stands.
    pub place: Place,
}

/// An item of a declaration inside a function.
#[derive(Drop)]
pub enum Item {
    /// `NAME`
    Scalar(Name),
    /// `NAME = value`
    ScalarWith(Name, Expression),
    /// `NAME[size]`
    Array(Name, Size),
}

/// The first part of the head of a `for`.
#[derive(Drop)]
pub enum First {
    /// Nothing.
    Nothing,
    /// A simple statement.
    Simple(Simple),
    /// A declaration.
    Items(Vec<Item>),
}

/// A statement.
#[cycle(syntax_statement)]
#[derive(Drop)]
pub enum Statement {
    /// `;`
    Empty,
    /// `{ .. }`
    Block(Vec<Statement>),
    /// A declaration among the statements of a block.
    Declaration(Vec<Item>),
    /// A simple statement.
    Simple(Simple),
    /// `printf`, with its place, its format, escapes read, with its place, and its arguments.
    Print(Place, Place, Bytes, Vec<Argument>),
    /// `if` without `else`.
    If(Expression, Box<Statement>),
    /// `if` with `else`.
    IfElse(Expression, Box<Statement>, Box<Statement>),
    /// `while`
    While(Expression, Box<Statement>),
    /// `do` .. `while`
    DoWhile(Box<Statement>, Expression),
    /// `for`: its first part, its condition, its step, its body.
    For(First, Option<Expression>, Option<Simple>, Box<Statement>),
    /// `break`, where it stands.
    Break(Place),
    /// `continue`, where it stands.
    Continue(Place),
    /// `return` without a value, where it stands.
    Return(Place),
    /// `return` with a value, where it stands.
    ReturnValue(Place, Expression),
}

/// A parameter of a function.
#[derive(Drop)]
pub struct Parameter {
    /// Its name.
    pub name: Name,
    /// What it takes: an array where `[]` stands behind its name.
    pub takes: Takes,
}

/// A function.
#[derive(Drop)]
pub struct Function {
    /// What it gives back.
    pub gives: Gives,
    /// Its name.
    pub name: Name,
    /// Its parameters.
    pub parameters: Listed<Parameter>,
    /// The statements of its body.
    pub body: Vec<Statement>,
}

/// What stands outside of functions.
#[derive(Drop)]
pub enum Definition {
    /// A global scalar, with the number at which it starts, 0 where none is written.
    Scalar(Name, i32),
    /// A global array.
    Array(Name, Size),
    /// A function.
    Function(Function),
}

/// A source that the grammar has.
#[derive(Drop)]
pub struct Program {
    /// The global variables and the functions, in the order of the source.
    pub definitions: Vec<Definition>,
    /// The end of the source.
    pub end: Place,
}
