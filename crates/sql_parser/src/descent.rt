//! The descent, with one token of look-ahead.

ghost use Rattle.std.specs.Prelude.{◌≡◌, ◌≤◌};
ghost use Rattle.sql_tokens.specs.Tokens.{next};
ghost use Rattle.sql_tree.specs.View.{tree_of, trees_of};
ghost use Rattle.sql_faults.specs.Calls.{IsNamed, name_of as token_name};
ghost use Rattle.sql_parser.specs.Grammar.{chain as chain_class, negated as negated_class, signed as signed_class, atom as atom_class, operand as operand_class};
ghost use Rattle.sql_faults.specs.Reading.{operand_rule};
ghost use Rattle.sql_parser.specs.Descent.{Descends, StepDescends, ListDescends, NegatedDescends, BetweenDescends, IsIs, NumberRead, MemberRead, CallDescends, CountedDescends, CloseDescends, CallAllowed, CastDescends, TypeDescends, TypeNamed};

use crate::making;
use crate::stop::Stop;
use sql_faults::arguments::{
    Shape, folds_shape, is_function, one_more_argument, takes_call, type_of_word,
};
use sql_faults::part::Rule;
use sql_tokens::level::{Level, Sign, sign_at_level};
use sql_tokens::reader::Reader;
use sql_tokens::token::{Kind, MAX_DEPTH, MAX_OPERATORS, Token, Word};
use sql_tree::nodes;
use sql_tree::tree::{Name, Node, Operator, Step};
use std::alloc::Global;

/// A chain of one level: an operand, and as many operators as follow.
#[cycle(descent)]
pub(crate) fn chain(
    alloc: Global,
    reader: &mut Reader<'_>,
    level: Level,
    depth: usize,
) -> Result<Node, Stop>
    requires { depth ≤ 64 }
    ensures { Descends (chain_class level) (Rule.Chain level depth) reader.old result reader.new }
{
    let first = operand(alloc, reader, level, depth)?;
    let mut steps = Vec::new(alloc);
    for _count in 0..MAX_OPERATORS {
        match step(alloc, reader, level, depth)? {
            None => return Ok(making::chain(alloc, first, steps)?),
            Some(step) => making::push_step(&mut steps, step)?,
        }
    }
    if sign_at_level(level, reader.peek().kind).is_some() {
        return Err(Stop::Refused);
    }
    Ok(making::chain(alloc, first, steps)?)
}

/// What stands between the operators of a level.
#[cycle(descent)]
fn operand(alloc: Global, reader: &mut Reader<'_>, level: Level, depth: usize) -> Result<Node, Stop>
    requires { depth ≤ 64 }
    ensures { Descends (operand_class level) (operand_rule level depth) reader.old result reader.new }
{
    match level {
        Level::Or => chain(alloc, reader, Level::And, depth),
        Level::And => negated(alloc, reader, depth),
        Level::Equal => chain(alloc, reader, Level::Less, depth),
        Level::Less => chain(alloc, reader, Level::Sum, depth),
        Level::Sum => chain(alloc, reader, Level::Product, depth),
        Level::Product => chain(alloc, reader, Level::Joined, depth),
        Level::Joined => signed(alloc, reader, depth),
    }
}

#[cycle(descent)]
fn negated(alloc: Global, reader: &mut Reader<'_>, depth: usize) -> Result<Node, Stop>
    requires { depth ≤ 64 }
    ensures { Descends negated_class (Rule.Negated depth) reader.old result reader.new }
{
    match reader.peek().kind {
        Kind::Not => {
            if depth == MAX_DEPTH {
                return Err(Stop::Refused);
            }
            reader.advance();
            let inner = negated(alloc, reader, depth + 1)?;
            Ok(nodes::negation(alloc, inner)?)
        }
        _ => chain(alloc, reader, Level::Equal, depth),
    }
}

#[cycle(descent)]
fn signed(alloc: Global, reader: &mut Reader<'_>, depth: usize) -> Result<Node, Stop>
    requires { depth ≤ 64 }
    ensures { Descends signed_class (Rule.Signed depth) reader.old result reader.new }
{
    match reader.peek().kind {
        Kind::Minus => {
            if depth == MAX_DEPTH {
                return Err(Stop::Refused);
            }
            reader.advance();
            let inner = signed(alloc, reader, depth + 1)?;
            Ok(nodes::minus(alloc, inner)?)
        }
        Kind::Plus => {
            if depth == MAX_DEPTH {
                return Err(Stop::Refused);
            }
            reader.advance();
            let inner = signed(alloc, reader, depth + 1)?;
            Ok(nodes::plus(alloc, inner)?)
        }
        _ => atom(alloc, reader, depth),
    }
}

#[cycle(descent)]
fn atom(alloc: Global, reader: &mut Reader<'_>, depth: usize) -> Result<Node, Stop>
    requires { depth ≤ 64 }
    ensures { Descends atom_class (Rule.Atom depth) reader.old result reader.new }
{
    let token = reader.peek();
    match token.kind {
        Kind::Number(value) => number(reader, token.span.start, value),
        Kind::Text => {
            reader.advance();
            Ok(Node::Text { span: token.span })
        }
        Kind::Null => {
            reader.advance();
            Ok(Node::Null)
        }
        Kind::Name(word) => named(alloc, reader, depth, word),
        Kind::QuotedName(word) => named(alloc, reader, depth, word),
        Kind::Cast => {
            reader.advance();
            cast(alloc, reader, depth)
        }
        Kind::Open => {
            if depth == MAX_DEPTH {
                return Err(Stop::Refused);
            }
            reader.advance();
            let inner = chain(alloc, reader, Level::Or, depth + 1)?;
            let Kind::Close = reader.peek().kind else {
                return Err(Stop::Refused);
            };
            reader.advance();
            Ok(inner)
        }
        _ => Err(Stop::Refused),
    }
}

fn number(reader: &mut Reader<'_>, place: usize, value: Option<i64>) -> Result<Node, Stop>
    ensures { NumberRead place value reader.old result reader.new }
{
    match value {
        Some(value) => {
            reader.advance();
            Ok(Node::Number { place, value })
        }
        None => Err(Stop::Refused),
    }
}

/// One operator of a level with its right side, or nothing where none follows.
#[cycle(descent)]
fn step(
    alloc: Global,
    reader: &mut Reader<'_>,
    level: Level,
    depth: usize,
) -> Result<Option<Step>, Stop>
    requires { depth ≤ 64 }
    ensures { StepDescends level depth reader.old result reader.new }
{
    match sign_at_level(level, reader.peek().kind) {
        None => Ok(None),
        Some(Sign::Binary(op)) => {
            reader.advance();
            let right = operand(alloc, reader, level, depth)?;
            Ok(Some(Step::Binary { op, right }))
        }
        Some(Sign::Is) => {
            reader.advance();
            let op = is_operator(reader);
            let right = operand(alloc, reader, level, depth)?;
            Ok(Some(Step::Binary { op, right }))
        }
        Some(Sign::In) => {
            reader.advance();
            let items = list(alloc, reader, depth)?;
            Ok(Some(Step::In {
                is_negated: false,
                items,
            }))
        }
        Some(Sign::Between) => {
            reader.advance();
            Ok(Some(between(alloc, reader, level, depth, false)?))
        }
        Some(Sign::Not) => {
            reader.advance();
            Ok(Some(negated_step(alloc, reader, level, depth)?))
        }
    }
}

/// The operator that begins with IS, behind that word.
fn is_operator(reader: &mut Reader<'_>) -> Operator
    ensures { IsIs reader.old result reader.new }
{
    match reader.peek().kind {
        Kind::Not => {
            reader.advance();
            Operator::IsNot
        }
        _ => Operator::Is,
    }
}

/// What follows NOT behind an operand.
#[cycle(descent)]
fn negated_step(
    alloc: Global,
    reader: &mut Reader<'_>,
    level: Level,
    depth: usize,
) -> Result<Step, Stop>
    requires { depth ≤ 64 }
    ensures { NegatedDescends level depth reader.old result reader.new }
{
    match reader.peek().kind {
        Kind::Like => {
            reader.advance();
            let right = operand(alloc, reader, level, depth)?;
            Ok(Step::Binary {
                op: Operator::NotLike,
                right,
            })
        }
        Kind::In => {
            reader.advance();
            let items = list(alloc, reader, depth)?;
            Ok(Step::In {
                is_negated: true,
                items,
            })
        }
        Kind::Between => {
            reader.advance();
            between(alloc, reader, level, depth, true)
        }
        _ => Err(Stop::Refused),
    }
}

/// Two operands with AND between them.
#[cycle(descent)]
fn between(
    alloc: Global,
    reader: &mut Reader<'_>,
    level: Level,
    depth: usize,
    is_negated: bool,
) -> Result<Step, Stop>
    requires { depth ≤ 64 }
    ensures { BetweenDescends level depth is_negated reader.old result reader.new }
{
    let low = operand(alloc, reader, level, depth)?;
    let Kind::And = reader.peek().kind else {
        return Err(Stop::Refused);
    };
    reader.advance();
    let high = operand(alloc, reader, level, depth)?;
    Ok(Step::Between {
        is_negated,
        low,
        high,
    })
}

/// Expressions in parentheses, with commas between them.
#[cycle(descent)]
fn list(alloc: Global, reader: &mut Reader<'_>, depth: usize) -> Result<Vec<Node>, Stop>
    requires { depth ≤ 64 }
    ensures { ListDescends depth reader.old result reader.new }
{
    let Kind::Open = reader.peek().kind else {
        return Err(Stop::Refused);
    };
    if depth == MAX_DEPTH {
        return Err(Stop::Refused);
    }
    reader.advance();
    let mut items = Vec::new(alloc);
    if let Kind::Close = reader.peek().kind {
        reader.advance();
        return Ok(items);
    }
    let first = chain(alloc, reader, Level::Or, depth + 1)?;
    making::push_node(&mut items, first)?;
    while let Kind::Comma = reader.peek().kind {
        reader.advance();
        let item = chain(alloc, reader, Level::Or, depth + 1)?;
        making::push_node(&mut items, item)?;
    }
    let Kind::Close = reader.peek().kind else {
        return Err(Stop::Refused);
    };
    reader.advance();
    Ok(items)
}

/// The name that a token is.
pub(crate) fn name_of(token: Token) -> Name
    ensures { result ≡ token_name token }
{
    Name {
        span: token.span,
        is_quoted: matches!(token.kind, Kind::QuotedName(_)),
    }
}

/// A column, or a call.
#[cycle(descent)]
fn named(alloc: Global, reader: &mut Reader<'_>, depth: usize, word: Word) -> Result<Node, Stop>
    requires depth_in { depth ≤ 64 }
    requires named { IsNamed (next reader.old).kind word }
    ensures { Descends atom_class (Rule.Atom depth) reader.old result reader.new }
{
    let token = reader.peek();
    reader.advance();
    match reader.peek().kind {
        Kind::Dot => {
            reader.advance();
            member(reader, name_of(token))
        }
        Kind::Open => call(alloc, reader, depth, token.span.start, word),
        _ => Ok(Node::Column {
            table: None,
            column: name_of(token),
        }),
    }
}

/// The column behind a table's name and a dot.
fn member(reader: &mut Reader<'_>, table: Name) -> Result<Node, Stop>
    ensures { MemberRead table reader.old result reader.new }
{
    let token = reader.peek();
    match token.kind {
        Kind::Name(_) | Kind::QuotedName(_) => {
            reader.advance();
            Ok(Node::Column {
                table: Some(table),
                column: name_of(token),
            })
        }
        _ => Err(Stop::Refused),
    }
}

/// The call of a function, from its parenthesis on.
#[cycle(descent)]
fn call(
    alloc: Global,
    reader: &mut Reader<'_>,
    depth: usize,
    place: usize,
    word: Word,
) -> Result<Node, Stop>
    requires depth_in { depth ≤ 64 }
    requires opened { (next reader.old).kind ≡ Kind.Open }
    ensures { CallDescends depth place word reader.old result reader.new }
{
    if !is_function(word) {
        return Err(Stop::Refused);
    }
    if depth == MAX_DEPTH {
        return Err(Stop::Refused);
    }
    reader.advance();
    match reader.peek().kind {
        // No function is called without an argument.
        Kind::Close => Err(Stop::Refused),
        Kind::Star => {
            reader.advance();
            let none = Vec::new(alloc);
            close_call(alloc, reader, place, word, Shape::All, none)
        }
        Kind::Distinct => {
            reader.advance();
            counted(alloc, reader, depth + 1, place, word, Shape::Distinct(1))
        }
        _ => counted(alloc, reader, depth + 1, place, word, Shape::Plain(1)),
    }
}

/// The arguments of a call from the first on, which has made a shape, and their parenthesis.
#[cycle(descent)]
fn counted(
    alloc: Global,
    reader: &mut Reader<'_>,
    depth: usize,
    place: usize,
    word: Word,
    one: Shape,
) -> Result<Node, Stop>
    requires { depth ≤ 64 }
    ensures { CountedDescends depth place word one reader.old result reader.new }
{
    let mut arguments = Vec::new(alloc);
    let first = chain(alloc, reader, Level::Or, depth)?;
    making::push_node(&mut arguments, first)?;
    let mut shape = one;
    while let Kind::Comma = reader.peek().kind {
        reader.advance();
        let argument = chain(alloc, reader, Level::Or, depth)?;
        making::push_node(&mut arguments, argument)?;
        shape = one_more_argument(shape);
    }
    close_call(alloc, reader, place, word, shape, arguments)
}

/// The parenthesis that closes a call with these arguments.
fn close_call(
    alloc: Global,
    reader: &mut Reader<'_>,
    place: usize,
    word: Word,
    shape: Shape,
    arguments: Vec<Node>,
) -> Result<Node, Stop>
    ensures { CloseDescends place word shape (trees_of arguments.items) reader.old result reader.new }
{
    let Kind::Close = reader.peek().kind else {
        return Err(Stop::Refused);
    };
    let node = allowed_call(alloc, place, word, shape, arguments)?;
    reader.advance();
    Ok(node)
}

/// The node of a call that may have such arguments.
fn allowed_call(
    alloc: Global,
    place: usize,
    word: Word,
    shape: Shape,
    arguments: Vec<Node>,
) -> Result<Node, Stop>
    ensures { CallAllowed place word shape (trees_of arguments.items) result }
{
    match word {
        Word::Scalar(function) => {
            if takes_call(function, shape) {
                Ok(making::call(function, arguments))
            } else {
                Err(Stop::Refused)
            }
        }
        Word::Aggregate(fold) => {
            if folds_shape(fold, shape) {
                Ok(making::folded(alloc, place, fold, shape, arguments)?)
            } else {
                Err(Stop::Refused)
            }
        }
        Word::Plain | Word::IntegerType | Word::TextType => Err(Stop::Refused),
    }
}

/// A cast, behind the word CAST.
#[cycle(descent)]
fn cast(alloc: Global, reader: &mut Reader<'_>, depth: usize) -> Result<Node, Stop>
    requires { depth ≤ 64 }
    ensures { CastDescends depth reader.old result reader.new }
{
    let Kind::Open = reader.peek().kind else {
        return Err(Stop::Refused);
    };
    if depth == MAX_DEPTH {
        return Err(Stop::Refused);
    }
    reader.advance();
    let inner = chain(alloc, reader, Level::Or, depth + 1)?;
    let is_text = cast_type(reader)?;
    Ok(nodes::cast(alloc, inner, is_text)?)
}

/// AS, a type's name and the parenthesis that closes a cast.
fn cast_type(reader: &mut Reader<'_>) -> Result<bool, Stop>
    ensures { TypeDescends reader.old result reader.new }
{
    let Kind::As = reader.peek().kind else {
        return Err(Stop::Refused);
    };
    reader.advance();
    let is_text = named_type(reader.peek().kind)?;
    reader.advance();
    let Kind::Close = reader.peek().kind else {
        return Err(Stop::Refused);
    };
    reader.advance();
    Ok(is_text)
}

/// The type that a token names.
fn named_type(kind: Kind) -> Result<bool, Stop>
    ensures { TypeNamed kind result }
{
    match kind {
        Kind::Name(word) | Kind::QuotedName(word) => match type_of_word(word) {
            Some(is_text) => Ok(is_text),
            None => Err(Stop::Refused),
        },
        _ => Err(Stop::Refused),
    }
}
