// What a token begins or joins.

ghost use Rattle.std.specs.Prelude.{◌≡◌, ◌∷◌, [], Some, IfSome, IfNone, true, false};
ghost use Rattle.vx_ast.specs.SyntaxView.{phrase_of};
ghost use Rattle.vx_ast.specs.Phrases as phrases;
ghost use Rattle.vx_ast.specs.Phrases.{parts_of, strength, Level, Primary, SimpleRest, The, A};
ghost use Rattle.vx_ast.specs.Derivations.{unary_of, operator_of, binary_by, joined};
ghost use Rattle.vx_parse.specs.Choices.{FollowedBy, begins_simple};

use vx_ast::syntax::Expression;
use vx_ast::token::{Mark, TokenKind};
use vx_ast::tree::{BinaryOperator, UnaryOperator};

/// The operator with one operand that a token is.
#[tactic(auto, unfolding(vx_ast::specs::Phrases::parts_of))]
pub fn unary_operator(kind: &TokenKind) -> Option<UnaryOperator>
    ensures operator { IfSome result (λ operator. (operator ≡ unary_of kind.now) × (parts_of (Level 0) kind.now ≡ Some (The kind.now ∷ A (Level 0) ∷ []))) }
    ensures primary { IfNone result (parts_of (Level 0) kind.now ≡ Some (A Primary ∷ [])) }
{
    match kind {
        TokenKind::Mark(Mark::Minus) => Some(UnaryOperator::Minus),
        TokenKind::Mark(Mark::Plus) => Some(UnaryOperator::Plus),
        TokenKind::Mark(Mark::Exclamation) => Some(UnaryOperator::Not),
        TokenKind::Mark(Mark::Tilde) => Some(UnaryOperator::Complement),
        _ => None,
    }
}

/// How strong the operator with two operands is that a token is, from 0, the strongest, to 9; 10 where it is none.
pub fn strength(kind: &TokenKind) -> u32
    ensures { result ≡ strength kind.now }
{
    match kind {
        TokenKind::Mark(Mark::Star | Mark::Slash | Mark::Percent) => 0,
        TokenKind::Mark(Mark::Plus | Mark::Minus) => 1,
        TokenKind::Mark(Mark::ShiftLeft | Mark::ShiftRight) => 2,
        TokenKind::Mark(Mark::Less | Mark::LessEqual | Mark::Greater | Mark::GreaterEqual) => 3,
        TokenKind::Mark(Mark::EqualEqual | Mark::ExclamationEqual) => 4,
        TokenKind::Mark(Mark::Ampersand) => 5,
        TokenKind::Mark(Mark::Caret) => 6,
        TokenKind::Mark(Mark::Bar) => 7,
        TokenKind::Mark(Mark::AmpersandAmpersand) => 8,
        TokenKind::Mark(Mark::BarBar) => 9,
        _ => 10,
    }
}

/// The operator that a token is, alone or before `=`, if it evaluates both of its operands.
pub fn binary_operator(kind: &TokenKind) -> Option<BinaryOperator>
    ensures { result ≡ operator_of kind.now }
{
    let operator = match kind {
        TokenKind::Mark(Mark::Star | Mark::StarEqual) => BinaryOperator::Multiply,
        TokenKind::Mark(Mark::Slash | Mark::SlashEqual) => BinaryOperator::Divide,
        TokenKind::Mark(Mark::Percent | Mark::PercentEqual) => BinaryOperator::Remainder,
        TokenKind::Mark(Mark::Plus | Mark::PlusEqual) => BinaryOperator::Add,
        TokenKind::Mark(Mark::Minus | Mark::MinusEqual) => BinaryOperator::Subtract,
        TokenKind::Mark(Mark::ShiftLeft | Mark::ShiftLeftEqual) => BinaryOperator::ShiftLeft,
        TokenKind::Mark(Mark::ShiftRight | Mark::ShiftRightEqual) => BinaryOperator::ShiftRight,
        TokenKind::Mark(Mark::Less) => BinaryOperator::Less,
        TokenKind::Mark(Mark::LessEqual) => BinaryOperator::LessEqual,
        TokenKind::Mark(Mark::Greater) => BinaryOperator::Greater,
        TokenKind::Mark(Mark::GreaterEqual) => BinaryOperator::GreaterEqual,
        TokenKind::Mark(Mark::EqualEqual) => BinaryOperator::Equal,
        TokenKind::Mark(Mark::ExclamationEqual) => BinaryOperator::NotEqual,
        TokenKind::Mark(Mark::Ampersand | Mark::AmpersandEqual) => BinaryOperator::BitAnd,
        TokenKind::Mark(Mark::Caret | Mark::CaretEqual) => BinaryOperator::BitXor,
        TokenKind::Mark(Mark::Bar | Mark::BarEqual) => BinaryOperator::BitOr,
        _ => return None,
    };
    Some(operator)
}

/// Two operands, each in a box.
fn binary(
    operator: Option<BinaryOperator>,
    left: Box<Expression>,
    right: Box<Expression>,
) -> Expression
    ensures { phrase_of result ≡ binary_by operator (phrase_of left.value) (phrase_of right.value) }
{
    match operator {
        Some(operator) => Expression::Binary(operator, left, right),
        None => Box::into_inner(left),
    }
}

/// The expression of an operator between two others.
pub fn join(kind: &TokenKind, left: Box<Expression>, right: Box<Expression>) -> Expression
    ensures { phrase_of result ≡ joined kind.now (phrase_of left.value) (phrase_of right.value) }
{
    match kind {
        TokenKind::Mark(Mark::AmpersandAmpersand) => Expression::Both(left, right),
        TokenKind::Mark(Mark::BarBar) => Expression::Either(left, right),
        _ => binary(binary_operator(kind), left, right),
    }
}

/// Whether a token is `++` or `--`.
#[tactic(auto, unfolding(vx_ast::specs::Phrases::parts_of))]
pub fn is_step(kind: &TokenKind) -> bool
    ensures yes { result ≡ true → parts_of phrases.Simple kind.now ≡ Some (The kind.now ∷ A (Level 0) ∷ []) }
    ensures no { result ≡ false → parts_of phrases.Simple kind.now ≡ Some (A phrases.Expression ∷ A SimpleRest ∷ []) }
{
    match kind {
        TokenKind::Mark(Mark::PlusPlus | Mark::MinusMinus) => true,
        _ => false,
    }
}

/// What a simple statement has behind its first expression.
pub enum Following {
    /// `++` or `--`.
    Step,
    /// `=` or an operator with `=`, and a value.
    Value,
    /// Nothing.
    Nothing,
}

/// What stands behind the first expression of a simple statement, by the next token.
pub fn what_follows(kind: &TokenKind) -> Following
    ensures { FollowedBy result kind.now }
{
    match kind {
        TokenKind::Mark(Mark::PlusPlus | Mark::MinusMinus) => Following::Step,
        TokenKind::Mark(
            Mark::Equal
            | Mark::PlusEqual
            | Mark::MinusEqual
            | Mark::StarEqual
            | Mark::SlashEqual
            | Mark::PercentEqual
            | Mark::AmpersandEqual
            | Mark::BarEqual
            | Mark::CaretEqual
            | Mark::ShiftLeftEqual
            | Mark::ShiftRightEqual,
        ) => Following::Value,
        _ => Following::Nothing,
    }
}

/// Whether some simple statement begins with a token.
pub fn begins_simple(kind: &TokenKind) -> bool
    ensures { result ≡ begins_simple kind.now }
{
    match kind {
        TokenKind::Mark(
            Mark::PlusPlus
            | Mark::MinusMinus
            | Mark::Plus
            | Mark::Minus
            | Mark::Exclamation
            | Mark::Tilde
            | Mark::OpenParenthesis,
        ) => true,
        TokenKind::Name(_) | TokenKind::Number(_) => true,
        _ => false,
    }
}
