//! What a rule of the grammar expects where the next token is known.

ghost use Rattle.std.specs.Prelude.{◌≡◌, ◌++◌, OnOk};
ghost use Rattle.sql_tokens.specs.Levels.{rank};
ghost use Rattle.sql_faults.specs.Reading.{operand_rule, deeper, alternative, chain_by, negated_by, signed_by, atom_by, negatable_by, items_by, arguments_by, after_argument_by, select_item_by, other_item_by, integer_by, left_join_by};
ghost use Rattle.sql_faults.specs.Stack.{expects};

use crate::arguments::{Shape, one_more_argument};
use crate::expecting::{expect, expect_all};
use crate::part::{Expected, Optional, Part, Rule};
use sql_tokens::level::Level;
use sql_tokens::token::{Clause, Kind, MAX_DEPTH, Token, Word};
use std::alloc::AllocError;

/// One more nesting, as far as the limit.
pub(crate) fn deeper_by_one(depth: usize) -> usize
    ensures { result ≡ deeper depth }
{
    if depth < MAX_DEPTH { depth + 1 } else { depth }
}

/// What stands between the operators of a level.
pub(crate) fn operand_of(level: Level, depth: usize) -> Rule
    ensures { result ≡ operand_rule level depth }
{
    match level {
        Level::Or => Rule::Chain(Level::And, depth),
        Level::And => Rule::Negated(depth),
        Level::Equal => Rule::Chain(Level::Less, depth),
        Level::Less => Rule::Chain(Level::Sum, depth),
        Level::Sum => Rule::Chain(Level::Product, depth),
        Level::Product => Rule::Chain(Level::Joined, depth),
        Level::Joined => Rule::Signed(depth),
    }
}

/// Replaces a rule by its alternative.
pub(crate) fn open(
    parts: &mut Vec<Part>,
    rule: Rule,
    token: Token,
    is_all_of: bool,
) -> Result<(), AllocError>
    ensures { OnOk result (expects parts.new.items ≡ alternative rule token is_all_of ++ expects parts.old.items) }
{
    match rule {
        Rule::Chain(level, depth) => open_chain(parts, level, depth, token),
        Rule::Negated(depth) => open_negated(parts, depth, token),
        Rule::Signed(depth) => open_signed(parts, depth, token),
        Rule::Atom(depth) => open_atom(parts, depth, token),
        Rule::Negatable(level, depth) => open_negatable(parts, level, depth, token.kind),
        Rule::Items(depth) => open_items(parts, depth, token),
        Rule::Arguments(depth, place, word) => open_arguments(parts, depth, place, word, token),
        Rule::AfterArgument(depth, place, word, shape) => open_after_argument(
            parts, depth, place, word, shape, token.kind,
        ),
        Rule::SelectItem => open_select_item(parts, token, is_all_of),
        Rule::Integer => open_integer(parts, token.kind),
        Rule::LeftJoin => open_left_join(parts, token.kind),
    }
}

#[cycle(opening)]
#[tactic(auto, unfolding(crate::specs::Reading::or_by, crate::specs::Reading::and_by, crate::specs::Reading::equal_by, crate::specs::Reading::less_by, crate::specs::Reading::sum_by, crate::specs::Reading::product_by, crate::specs::Reading::joined_by))]
fn open_chain(
    parts: &mut Vec<Part>,
    level: Level,
    depth: usize,
    token: Token,
) -> Result<(), AllocError>
    ensures { OnOk result (expects parts.new.items ≡ chain_by level depth token token.kind ++ expects parts.old.items) }
{
    expect(parts, Part::May(Optional::Step(level, depth, 0)))?;
    match level {
        Level::Or => open_chain(parts, Level::And, depth, token),
        Level::And => open_negated(parts, depth, token),
        Level::Equal => open_chain(parts, Level::Less, depth, token),
        Level::Less => open_chain(parts, Level::Sum, depth, token),
        Level::Sum => open_chain(parts, Level::Product, depth, token),
        Level::Product => open_chain(parts, Level::Joined, depth, token),
        Level::Joined => open_signed(parts, depth, token),
    }
}

#[cycle(opening)]
#[tactic(auto, unfolding(crate::specs::Reading::negated_by))]
fn open_negated(parts: &mut Vec<Part>, depth: usize, token: Token) -> Result<(), AllocError>
    ensures { OnOk result (expects parts.new.items ≡ negated_by depth token token.kind ++ expects parts.old.items) }
{
    match token.kind {
        Kind::Not => {
            let inner = Rule::Negated(deeper_by_one(depth));
            expect_all(
                parts,
                &[Part::One(Expected::Nesting(depth)), Part::Must(inner)],
            )
        }
        _ => open_chain(parts, Level::Equal, depth, token),
    }
}

#[tactic(auto, unfolding(crate::specs::Reading::signed_by))]
fn open_signed(parts: &mut Vec<Part>, depth: usize, token: Token) -> Result<(), AllocError>
    ensures { OnOk result (expects parts.new.items ≡ signed_by depth token token.kind ++ expects parts.old.items) }
{
    match token.kind {
        Kind::Plus | Kind::Minus => {
            let inner = Rule::Signed(deeper_by_one(depth));
            expect_all(
                parts,
                &[Part::One(Expected::Nesting(depth)), Part::Must(inner)],
            )
        }
        _ => open_atom(parts, depth, token),
    }
}

#[tactic(auto, unfolding(crate::specs::Reading::atom_by))]
fn open_atom(parts: &mut Vec<Part>, depth: usize, token: Token) -> Result<(), AllocError>
    ensures { OnOk result (expects parts.new.items ≡ atom_by depth token token.kind ++ expects parts.old.items) }
{
    match token.kind {
        Kind::Number(_) => expect(parts, Part::One(Expected::Number)),
        Kind::Text | Kind::Null => expect(parts, Part::One(Expected::Chosen)),
        Kind::Name(word) | Kind::QuotedName(word) => {
            let after = Optional::AfterName(depth, token.span.start, word);
            expect_all(parts, &[Part::One(Expected::Chosen), Part::May(after)])
        }
        Kind::Open => {
            let inner = Rule::Chain(Level::Or, deeper_by_one(depth));
            expect_all(
                parts,
                &[
                    Part::One(Expected::Nesting(depth)),
                    Part::Must(inner),
                    Part::One(Expected::Close),
                ],
            )
        }
        Kind::Cast => {
            let inner = Rule::Chain(Level::Or, deeper_by_one(depth));
            expect_all(
                parts,
                &[
                    Part::One(Expected::Chosen),
                    Part::One(Expected::Parenthesis(depth)),
                    Part::Must(inner),
                    Part::One(Expected::As),
                    Part::One(Expected::Type),
                    Part::One(Expected::Close),
                ],
            )
        }
        _ => expect(parts, Part::One(Expected::Nothing)),
    }
}

/// What follows NOT behind an operand.
#[tactic(auto, unfolding(crate::specs::Reading::negatable_by))]
fn open_negatable(
    parts: &mut Vec<Part>,
    level: Level,
    depth: usize,
    kind: Kind,
) -> Result<(), AllocError>
    ensures { OnOk result (expects parts.new.items ≡ negatable_by level depth kind ++ expects parts.old.items) }
{
    let operand = Part::Must(operand_of(level, depth));
    match kind {
        Kind::Like => expect_all(parts, &[Part::One(Expected::Chosen), operand]),
        Kind::In => {
            let items = Rule::Items(deeper_by_one(depth));
            expect_all(
                parts,
                &[
                    Part::One(Expected::Chosen),
                    Part::One(Expected::Parenthesis(depth)),
                    Part::Must(items),
                ],
            )
        }
        Kind::Between => expect_all(
            parts,
            &[
                Part::One(Expected::Chosen),
                operand,
                Part::One(Expected::And),
                operand,
            ],
        ),
        _ => expect(parts, Part::One(Expected::Nothing)),
    }
}

/// A list in parentheses, behind the first one.
#[tactic(auto, unfolding(crate::specs::Reading::items_by))]
fn open_items(parts: &mut Vec<Part>, depth: usize, token: Token) -> Result<(), AllocError>
    ensures { OnOk result (expects parts.new.items ≡ items_by depth token token.kind ++ expects parts.old.items) }
{
    match token.kind {
        Kind::Close => expect(parts, Part::One(Expected::Close)),
        _ => {
            expect_all(
                parts,
                &[Part::May(Optional::Item(depth)), Part::One(Expected::Close)],
            )?;
            open_chain(parts, Level::Or, depth, token)
        }
    }
}

/// The arguments of a call of the name at a place.
#[tactic(auto, unfolding(crate::specs::Reading::arguments_by))]
fn open_arguments(
    parts: &mut Vec<Part>,
    depth: usize,
    place: usize,
    word: Word,
    token: Token,
) -> Result<(), AllocError>
    ensures { OnOk result (expects parts.new.items ≡ arguments_by depth place word token token.kind ++ expects parts.old.items) }
{
    match token.kind {
        Kind::Close => {
            let end = Expected::EndOfCall(place, word, Shape::Plain(0));
            expect(parts, Part::One(end))
        }
        Kind::Star => {
            let end = Expected::EndOfCall(place, word, Shape::All);
            expect_all(parts, &[Part::One(Expected::Chosen), Part::One(end)])
        }
        Kind::Distinct => {
            let after = Rule::AfterArgument(depth, place, word, Shape::Distinct(1));
            expect_all(
                parts,
                &[
                    Part::One(Expected::Chosen),
                    Part::Must(Rule::Chain(Level::Or, depth)),
                    Part::Must(after),
                ],
            )
        }
        _ => {
            let after = Rule::AfterArgument(depth, place, word, Shape::Plain(1));
            expect(parts, Part::Must(after))?;
            open_chain(parts, Level::Or, depth, token)
        }
    }
}

/// What follows the arguments of a call.
#[tactic(auto, unfolding(crate::specs::Reading::after_argument_by))]
fn open_after_argument(
    parts: &mut Vec<Part>,
    depth: usize,
    place: usize,
    word: Word,
    shape: Shape,
    kind: Kind,
) -> Result<(), AllocError>
    ensures { OnOk result (expects parts.new.items ≡ after_argument_by depth place word shape kind ++ expects parts.old.items) }
{
    match kind {
        Kind::Comma => {
            let after = Rule::AfterArgument(depth, place, word, one_more_argument(shape));
            expect_all(
                parts,
                &[
                    Part::One(Expected::Chosen),
                    Part::Must(Rule::Chain(Level::Or, depth)),
                    Part::Must(after),
                ],
            )
        }
        _ => expect(parts, Part::One(Expected::EndOfCall(place, word, shape))),
    }
}

/// What stands between the commas of a select.
#[tactic(auto, unfolding(crate::specs::Reading::select_item_by, crate::specs::Reading::other_item_by))]
fn open_select_item(parts: &mut Vec<Part>, token: Token, is_all_of: bool) -> Result<(), AllocError>
    ensures { OnOk result (expects parts.new.items ≡ select_item_by is_all_of token token.kind ++ expects parts.old.items) }
{
    if is_all_of {
        return expect_all(
            parts,
            &[
                Part::One(Expected::Name),
                Part::One(Expected::Dot),
                Part::One(Expected::Star),
            ],
        );
    }
    match token.kind {
        Kind::Star => expect(parts, Part::One(Expected::Chosen)),
        _ => {
            expect(parts, Part::May(Optional::Alias))?;
            open_chain(parts, Level::Or, 0, token)
        }
    }
}

/// A number with or without a sign.
#[tactic(auto, unfolding(crate::specs::Reading::integer_by))]
fn open_integer(parts: &mut Vec<Part>, kind: Kind) -> Result<(), AllocError>
    ensures { OnOk result (expects parts.new.items ≡ integer_by kind ++ expects parts.old.items) }
{
    match kind {
        Kind::Plus | Kind::Minus => expect_all(
            parts,
            &[Part::One(Expected::Chosen), Part::One(Expected::Number)],
        ),
        _ => expect(parts, Part::One(Expected::Number)),
    }
}

/// What follows LEFT.
#[tactic(auto, unfolding(crate::specs::Reading::left_join_by))]
fn open_left_join(parts: &mut Vec<Part>, kind: Kind) -> Result<(), AllocError>
    ensures { OnOk result (expects parts.new.items ≡ left_join_by kind ++ expects parts.old.items) }
{
    match kind {
        Kind::Clause(Clause::Outer) => expect_all(
            parts,
            &[Part::One(Expected::Chosen), Part::One(Expected::Join)],
        ),
        _ => expect(parts, Part::One(Expected::Join)),
    }
}
