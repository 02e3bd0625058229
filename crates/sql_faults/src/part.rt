//! What a reading of the tokens still expects.

use crate::arguments::Shape;
use sql_tokens::level::Level;
use sql_tokens::token::Word;

/// What one token must be, and what is to be looked at when it comes.
#[derive(Clone, Copy)]
pub enum Expected {
    /// The token that has chosen this alternative.
    Chosen,
    Number,
    /// The token that has chosen this alternative and opens a nesting inside so many.
    Nesting(usize),
    /// The token that has chosen this alternative and is an operator after so many of its chain.
    Operator(usize),
    /// An opening parenthesis inside so many nestings.
    Parenthesis(usize),
    Close,
    And,
    As,
    Name,
    Dot,
    Star,
    /// The parenthesis of USING.
    Open,
    Select,
    By,
    Join,
    /// The name of a type.
    Type,
    /// The parenthesis that opens a call of the name at a place, inside so many nestings.
    Call(usize, usize, Word),
    /// The parenthesis that closes a call with such arguments.
    EndOfCall(usize, Word, Shape),
    End,
    /// No token.
    Nothing,
}

/// A rule of the grammar, inside so many nestings.
#[derive(Clone, Copy)]
pub enum Rule {
    Chain(Level, usize),
    Negated(usize),
    Signed(usize),
    Atom(usize),
    /// What follows NOT behind an operand.
    Negatable(Level, usize),
    /// A list in parentheses, behind the first one.
    Items(usize),
    /// The arguments of a call of the name at a place.
    Arguments(usize, usize, Word),
    /// What follows such arguments.
    AfterArgument(usize, usize, Word, Shape),
    /// What stands between the commas of a select.
    SelectItem,
    /// A number with or without a sign.
    Integer,
    /// What follows LEFT.
    LeftJoin,
}

/// A part that may be missing or come again.
#[derive(Clone, Copy)]
pub enum Optional {
    /// A further operator of a chain, after so many.
    Step(Level, usize, usize),
    /// NOT behind IS.
    Not,
    /// A comma and an item.
    Item(usize),
    /// A dot or a parenthesis behind the name at a place.
    AfterName(usize, usize, Word),
    Distinct,
    /// A comma and an item of a select.
    SelectItems,
    Alias,
    From,
    /// A further table.
    Sources,
    /// ON or USING.
    Condition,
    /// A comma and a name.
    Names,
    Where,
    Group,
    Having,
    Order,
    /// A comma and a term.
    Terms,
    /// ASC or DESC.
    Direction,
    Limit,
    Offset,
    Semicolon,
}

/// A part of the grammar that stands next.
#[derive(Clone, Copy)]
pub enum Part {
    One(Expected),
    Must(Rule),
    May(Optional),
}
