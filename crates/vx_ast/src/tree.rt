// The tree of a program in which every name stands with its declaration. Contracts see it without pointers,
// by specs/View.antt; what it does is specs/Meaning.antt.
//
// Scalars of a function are numbered from 0: its parameters that are numbers first, then the others in the order of
// the source. Arrays are numbered as a function sees them: the globals in the order of the source, a global scalar
// being an array of one word, then its array parameters, then its own arrays, each in the order of the source.
// Functions are numbered from 0 in the order of the source.

use vx_base::listed::Listed;

/// An operator with one operand.
#[derive(Clone, Copy)]
pub enum UnaryOperator {
    /// `-`
    Minus,
    /// `+`
    Plus,
    /// `!`
    Not,
    /// `~`
    Complement,
}

/// An operator with two operands, both of which are always evaluated, the left one first.
#[derive(Clone, Copy)]
pub enum BinaryOperator {
    /// `*`
    Multiply,
    /// `/`
    Divide,
    /// `%`
    Remainder,
    /// `+`
    Add,
    /// `-`
    Subtract,
    /// `<<`
    ShiftLeft,
    /// `>>`
    ShiftRight,
    /// `<`
    Less,
    /// `<=`
    LessEqual,
    /// `>`
    Greater,
    /// `>=`
    GreaterEqual,
    /// `==`
    Equal,
    /// `!=`
    NotEqual,
    /// `&`
    BitAnd,
    /// `^`
    BitXor,
    /// `|`
    BitOr,
}

/// An expression. Each is an `int`.
#[cycle(expression)]
#[derive(Drop)]
pub enum Expression {
    /// A number of the source.
    Number(i32),
    /// A scalar of the function.
    Scalar(u32),
    /// A global scalar, by the number of its array of one word.
    Global(u32),
    /// An element of an array, with its index.
    Element(u32, Box<Expression>),
    /// An operator with one operand.
    Unary(UnaryOperator, Box<Expression>),
    /// An operator with two operands that are both evaluated.
    Binary(BinaryOperator, Box<Expression>, Box<Expression>),
    /// `&&`: the right operand is evaluated only where the left one is not 0.
    Both(Box<Expression>, Box<Expression>),
    /// `||`: the right operand is evaluated only where the left one is 0.
    Either(Box<Expression>, Box<Expression>),
    /// `?:`: a test, and the operand that is evaluated where it is not 0, and where it is 0.
    Choice(Box<Expression>, Box<Expression>, Box<Expression>),
    /// A call of a function of the program, with its arguments.
    Call(u32, Vec<Argument>),
    /// `read_int()`: the next number of the input.
    ReadInt,
    /// `more_input()`: 1 where the input has a number left, else 0.
    MoreInput,
}

/// An argument of a call.
#[cycle(expression)]
#[derive(Drop)]
pub enum Argument {
    /// The value of an expression.
    Number(Expression),
    /// An array, by its number.
    Array(u32),
}

/// What an assignment changes.
#[derive(Drop)]
pub enum Target {
    /// A scalar of the function.
    Scalar(u32),
    /// A global scalar, by the number of its array.
    Global(u32),
    /// An element of an array, with its index.
    Element(u32, Expression),
}

/// A statement that may stand in the head of a `for`.
#[derive(Drop)]
pub enum Simple {
    /// An expression, evaluated for what it does; also the call of a void function.
    Evaluate(Expression),
    /// `target = value`
    Assign(Target, Expression),
    /// `target op= value`: the place of the target is found once, and read before the value is evaluated.
    Compound(Target, BinaryOperator, Expression),
    /// `target++` and `++target`
    Increase(Target),
    /// `target--` and `--target`
    Decrease(Target),
}

/// An item of a declaration inside a function.
#[derive(Drop)]
pub enum Item {
    /// A scalar that is set to 0.
    Scalar(u32),
    /// A scalar that is set to a value.
    ScalarWith(u32, Expression),
    /// An array of which every element is set to 0.
    Array(u32),
}

/// The first part of the head of a `for`.
#[derive(Drop)]
pub enum First {
    /// Nothing.
    Nothing,
    /// A simple statement.
    Simple(Simple),
    /// A declaration, whose names are known in the `for` alone.
    Items(Vec<Item>),
}

/// A statement.
#[cycle(statement)]
#[derive(Drop)]
pub enum Statement {
    /// `;`
    Empty,
    /// `{ .. }`
    Block(Vec<Statement>),
    /// A declaration among the statements of a block.
    Declaration(Vec<Item>),
    /// A simple statement.
    Simple(Simple),
    /// `printf`: the format, its escapes read, and one argument for each `%d`.
    Print(Listed<u8>, Vec<Expression>),
    /// `if` without `else`.
    If(Expression, Box<Statement>),
    /// `if` with `else`.
    IfElse(Expression, Box<Statement>, Box<Statement>),
    /// `while`
    While(Expression, Box<Statement>),
    /// `do` .. `while`
    DoWhile(Box<Statement>, Expression),
    /// `for`: its first part, its condition (always true where there is none), its step, its body.
    For(First, Option<Expression>, Option<Simple>, Box<Statement>),
    /// `break`
    Break,
    /// `continue`
    Continue,
    /// `return` without a value.
    Return,
    /// `return` with a value.
    ReturnValue(Expression),
}

/// What a function gives back.
#[derive(Clone, Copy)]
pub enum Gives {
    /// An `int` function. Where it ends without a return it gives 0.
    Int,
    /// A `void` function.
    Nothing,
}

/// What a parameter takes.
#[derive(Clone, Copy)]
pub enum Takes {
    /// A number.
    Number,
    /// An array, whose size goes with it.
    Array,
}

/// A function.
#[derive(Drop)]
pub struct Function {
    /// Its name.
    pub name: Listed<u8>,
    /// What it gives back.
    pub gives: Gives,
    /// How many of its parameters are numbers. They are its first scalars.
    pub parameters: u32,
    /// What each of its parameters takes, in the order of the source. Those that take an array are its first arrays.
    pub takes: Listed<Takes>,
    /// How many scalars it has, its parameters that are numbers included.
    pub scalars: u32,
    /// The words of each of its own arrays.
    pub arrays: Listed<u32>,
    /// The statements of its body.
    pub body: Vec<Statement>,
}

/// A global variable.
#[derive(Clone, Copy)]
pub enum GlobalVariable {
    /// A scalar, with the number at which it starts.
    Scalar(i32),
    /// An array of so many words, each of which starts as 0.
    Array(u32),
}

/// A program.
#[derive(Drop)]
pub struct Program {
    /// The global variables, in the order of the source.
    pub globals: Listed<GlobalVariable>,
    /// The functions, in the order of the source.
    pub functions: Vec<Function>,
    /// The number of the function `main`.
    pub main: u32,
}
