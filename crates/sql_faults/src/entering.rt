//! What an optional part expects where the next token can begin it.

ghost use Rattle.std.specs.Prelude.{◌≡◌, ◌++◌, OnOk, IfOk};
ghost use Rattle.sql_faults.specs.Reading.{later, entered, behind, list_parts, between_parts, step_by, not_by, item_by, name_by};
ghost use Rattle.sql_tokens.specs.Levels.{sign_at};
ghost use Rattle.sql_faults.specs.Stack.{expects, Enters};

use crate::arguments::one_more_of;
use crate::entering_select::{
    enter_alias, enter_condition, enter_direction, enter_distinct, enter_from, enter_group,
    enter_having, enter_limit, enter_names, enter_offset, enter_order, enter_select_items,
    enter_semicolon, enter_sources, enter_terms, enter_where,
};
use crate::expecting::{enter_with, expect, expect_all};
use crate::opening::{deeper_by_one, operand_of};
use crate::part::{Expected, Optional, Part, Rule};
use sql_tokens::level::{Level, Sign, sign_at_level};
use sql_tokens::token::{Kind, Word};
use std::alloc::AllocError;

/// Enters an optional part where the token can begin it, and passes it over otherwise.
pub(crate) fn enter(
    parts: &mut Vec<Part>,
    optional: Optional,
    kind: Kind,
) -> Result<bool, AllocError>
    ensures { IfOk result (λ is_entered. Enters (entered optional kind) is_entered parts.old.items parts.new.items) }
{
    match optional {
        Optional::Step(level, depth, count) => enter_step(parts, level, depth, count, kind),
        Optional::Not => enter_not(parts, kind),
        Optional::Item(depth) => enter_item(parts, depth, kind),
        Optional::AfterName(depth, place, word) => enter_after_name(
            parts, depth, place, word, kind,
        ),
        Optional::Distinct => enter_distinct(parts, kind),
        Optional::SelectItems => enter_select_items(parts, kind),
        Optional::Alias => enter_alias(parts, kind),
        Optional::From => enter_from(parts, kind),
        Optional::Sources => enter_sources(parts, kind),
        Optional::Condition => enter_condition(parts, kind),
        Optional::Names => enter_names(parts, kind),
        Optional::Where => enter_where(parts, kind),
        Optional::Group => enter_group(parts, kind),
        Optional::Having => enter_having(parts, kind),
        Optional::Order => enter_order(parts, kind),
        Optional::Terms => enter_terms(parts, kind),
        Optional::Direction => enter_direction(parts, kind),
        Optional::Limit => enter_limit(parts, kind),
        Optional::Offset => enter_offset(parts, kind),
        Optional::Semicolon => enter_semicolon(parts, kind),
    }
}

/// A further operator of a chain, after so many.
fn enter_step(
    parts: &mut Vec<Part>,
    level: Level,
    depth: usize,
    count: usize,
    kind: Kind,
) -> Result<bool, AllocError>
    ensures { IfOk result (λ is_entered. Enters (step_by level depth count (sign_at level kind)) is_entered parts.old.items parts.new.items) }
{
    let Some(sign) = sign_at_level(level, kind) else {
        return Ok(false);
    };
    let further = Optional::Step(level, depth, one_more_of(count));
    expect(parts, Part::May(further))?;
    expect_behind(parts, sign, level, depth)?;
    expect(parts, Part::One(Expected::Operator(count)))?;
    Ok(true)
}

/// What stands behind the operator of a step.
fn expect_behind(
    parts: &mut Vec<Part>,
    sign: Sign,
    level: Level,
    depth: usize,
) -> Result<(), AllocError>
    ensures { OnOk result (expects parts.new.items ≡ behind sign level depth ++ expects parts.old.items) }
{
    let operand = Part::Must(operand_of(level, depth));
    match sign {
        Sign::Binary(_) => expect(parts, operand),
        Sign::Is => expect_all(parts, &[Part::May(Optional::Not), operand]),
        Sign::Not => expect(parts, Part::Must(Rule::Negatable(level, depth))),
        Sign::In => {
            let items = Rule::Items(deeper_by_one(depth));
            expect_all(
                parts,
                &[Part::One(Expected::Parenthesis(depth)), Part::Must(items)],
            )
        }
        Sign::Between => expect_all(parts, &[operand, Part::One(Expected::And), operand]),
    }
}

/// NOT behind IS.
#[tactic(auto, unfolding(crate::specs::Reading::not_by))]
fn enter_not(parts: &mut Vec<Part>, kind: Kind) -> Result<bool, AllocError>
    ensures { IfOk result (λ is_entered. Enters (not_by kind) is_entered parts.old.items parts.new.items) }
{
    match kind {
        Kind::Not => enter_with(parts, &[Part::One(Expected::Chosen)]),
        _ => Ok(false),
    }
}

/// A comma and an item.
#[tactic(auto, unfolding(crate::specs::Reading::item_by))]
fn enter_item(parts: &mut Vec<Part>, depth: usize, kind: Kind) -> Result<bool, AllocError>
    ensures { IfOk result (λ is_entered. Enters (item_by depth kind) is_entered parts.old.items parts.new.items) }
{
    match kind {
        Kind::Comma => enter_with(
            parts,
            &[
                Part::One(Expected::Chosen),
                Part::Must(Rule::Chain(Level::Or, depth)),
                Part::May(Optional::Item(depth)),
            ],
        ),
        _ => Ok(false),
    }
}

/// A dot or a parenthesis behind the name at a place.
#[tactic(auto, unfolding(crate::specs::Reading::name_by))]
fn enter_after_name(
    parts: &mut Vec<Part>,
    depth: usize,
    place: usize,
    word: Word,
    kind: Kind,
) -> Result<bool, AllocError>
    ensures { IfOk result (λ is_entered. Enters (name_by depth place word kind) is_entered parts.old.items parts.new.items) }
{
    match kind {
        Kind::Dot => enter_with(
            parts,
            &[Part::One(Expected::Chosen), Part::One(Expected::Name)],
        ),
        Kind::Open => {
            let arguments = Rule::Arguments(deeper_by_one(depth), place, word);
            enter_with(
                parts,
                &[
                    Part::One(Expected::Call(depth, place, word)),
                    Part::Must(arguments),
                ],
            )
        }
        _ => Ok(false),
    }
}
