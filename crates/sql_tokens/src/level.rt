//! The levels of operators, from the weakest to the strongest.

ghost use Rattle.std.specs.Prelude.{◌≡◌, ◌<◌};
ghost use Rattle.sql_tokens.specs.Levels.{rank, sign_at, sign_of};

use crate::token::Kind;
use sql_tree::tree::Operator;

/// A level of operators. Those of SQLite that the grammar has, in SQLite's order.
#[derive(Clone, Copy)]
pub enum Level {
    Or,
    And,
    Equal,
    Less,
    Sum,
    Product,
    Joined,
}

/// How a step of a chain begins.
#[derive(Clone, Copy)]
pub enum Sign {
    Binary(Operator),
    Is,
    Not,
    In,
    Between,
}

fn rank_of(level: Level) -> u32
    ensures { result ≡ rank level }
{
    match level {
        Level::Or => 6,
        Level::And => 5,
        Level::Equal => 4,
        Level::Less => 3,
        Level::Sum => 2,
        Level::Product => 1,
        Level::Joined => 0,
    }
}

/// The level at which a token is an operator.
fn sign_of_kind(kind: Kind) -> Option<(Level, Sign)>
    ensures { result ≡ sign_of kind }
{
    let sign = match kind {
        Kind::Or => (Level::Or, Sign::Binary(Operator::Or)),
        Kind::And => (Level::And, Sign::Binary(Operator::And)),
        Kind::Equal => (Level::Equal, Sign::Binary(Operator::Equal)),
        Kind::NotEqual => (Level::Equal, Sign::Binary(Operator::NotEqual)),
        Kind::Like => (Level::Equal, Sign::Binary(Operator::Like)),
        Kind::Is => (Level::Equal, Sign::Is),
        Kind::Not => (Level::Equal, Sign::Not),
        Kind::In => (Level::Equal, Sign::In),
        Kind::Between => (Level::Equal, Sign::Between),
        Kind::Less => (Level::Less, Sign::Binary(Operator::Less)),
        Kind::LessEqual => (Level::Less, Sign::Binary(Operator::LessEqual)),
        Kind::Greater => (Level::Less, Sign::Binary(Operator::Greater)),
        Kind::GreaterEqual => (Level::Less, Sign::Binary(Operator::GreaterEqual)),
        Kind::Plus => (Level::Sum, Sign::Binary(Operator::Add)),
        Kind::Minus => (Level::Sum, Sign::Binary(Operator::Subtract)),
        Kind::Star => (Level::Product, Sign::Binary(Operator::Multiply)),
        Kind::Slash => (Level::Product, Sign::Binary(Operator::Divide)),
        Kind::Percent => (Level::Product, Sign::Binary(Operator::Remainder)),
        Kind::Concat => (Level::Joined, Sign::Binary(Operator::Concat)),
        _ => return None,
    };
    Some(sign)
}

/// What operator of this level a token begins.
pub fn sign_at_level(level: Level, kind: Kind) -> Option<Sign>
    ensures { result ≡ sign_at level kind }
{
    match sign_of_kind(kind) {
        Some((found, sign)) if rank_of(found) == rank_of(level) => Some(sign),
        _ => None,
    }
}
