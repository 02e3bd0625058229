//! What the optional parts between the clauses of a select expect.

ghost use Rattle.std.specs.Prelude.{◌≡◌, IfOk};
ghost use Rattle.sql_faults.specs.Reading.{distinct_by, select_items_by, alias_by, from_by, sources_by, condition_by, names_by, where_by, group_by, having_by, order_by, terms_by, direction_by, limit_by, offset_by, semicolon_by};
ghost use Rattle.sql_faults.specs.Stack.{Enters};

use crate::expecting::enter_with;
use crate::part::{Expected, Optional, Part, Rule};
use sql_tokens::level::Level;
use sql_tokens::token::{Clause, Kind};
use std::alloc::AllocError;

/// The token that has chosen the part.
const CHOSEN: Part = Part::One(Expected::Chosen);

const NAME: Part = Part::One(Expected::Name);

const BY: Part = Part::One(Expected::By);

const JOIN: Part = Part::One(Expected::Join);

/// An expression that no parenthesis surrounds.
const EXPRESSION: Part = Part::Must(Rule::Chain(Level::Or, 0));

const ALIAS: Part = Part::May(Optional::Alias);

/// ON or USING.
const CONDITION: Part = Part::May(Optional::Condition);

/// A further table.
const SOURCES: Part = Part::May(Optional::Sources);

/// A comma and a name.
const NAMES: Part = Part::May(Optional::Names);

/// ASC or DESC.
const DIRECTION: Part = Part::May(Optional::Direction);

/// A comma and a term.
const TERMS: Part = Part::May(Optional::Terms);

/// DISTINCT behind SELECT.
#[tactic(auto, unfolding(crate::specs::Reading::distinct_by))]
pub(crate) fn enter_distinct(parts: &mut Vec<Part>, kind: Kind) -> Result<bool, AllocError>
    ensures { IfOk result (λ is_entered. Enters (distinct_by kind) is_entered parts.old.items parts.new.items) }
{
    match kind {
        Kind::Distinct => enter_with(parts, &[CHOSEN]),
        _ => Ok(false),
    }
}

/// A comma and an item.
#[tactic(auto, unfolding(crate::specs::Reading::select_items_by))]
pub(crate) fn enter_select_items(parts: &mut Vec<Part>, kind: Kind) -> Result<bool, AllocError>
    ensures { IfOk result (λ is_entered. Enters (select_items_by kind) is_entered parts.old.items parts.new.items) }
{
    match kind {
        Kind::Comma => enter_with(
            parts,
            &[
                CHOSEN,
                Part::Must(Rule::SelectItem),
                Part::May(Optional::SelectItems),
            ],
        ),
        _ => Ok(false),
    }
}

/// A name behind AS, or a name alone.
#[tactic(auto, unfolding(crate::specs::Reading::alias_by))]
pub(crate) fn enter_alias(parts: &mut Vec<Part>, kind: Kind) -> Result<bool, AllocError>
    ensures { IfOk result (λ is_entered. Enters (alias_by kind) is_entered parts.old.items parts.new.items) }
{
    match kind {
        Kind::As => enter_with(parts, &[CHOSEN, NAME]),
        Kind::Name(_) | Kind::QuotedName(_) => enter_with(parts, &[CHOSEN]),
        _ => Ok(false),
    }
}

/// FROM and its first table.
#[tactic(auto, unfolding(crate::specs::Reading::from_by))]
pub(crate) fn enter_from(parts: &mut Vec<Part>, kind: Kind) -> Result<bool, AllocError>
    ensures { IfOk result (λ is_entered. Enters (from_by kind) is_entered parts.old.items parts.new.items) }
{
    match kind {
        Kind::Clause(Clause::From) => enter_with(parts, &[CHOSEN, NAME, ALIAS, SOURCES]),
        _ => Ok(false),
    }
}

/// A further table, by a comma or a join.
#[tactic(auto, unfolding(crate::specs::Reading::sources_by))]
pub(crate) fn enter_sources(parts: &mut Vec<Part>, kind: Kind) -> Result<bool, AllocError>
    ensures { IfOk result (λ is_entered. Enters (sources_by kind) is_entered parts.old.items parts.new.items) }
{
    match kind {
        Kind::Comma => enter_with(parts, &[CHOSEN, NAME, ALIAS, SOURCES]),
        Kind::Clause(Clause::Cross) => enter_with(parts, &[CHOSEN, JOIN, NAME, ALIAS, SOURCES]),
        Kind::Clause(Clause::Join) => enter_with(parts, &[CHOSEN, NAME, ALIAS, CONDITION, SOURCES]),
        Kind::Clause(Clause::Inner) => enter_with(
            parts,
            &[CHOSEN, JOIN, NAME, ALIAS, CONDITION, SOURCES],
        ),
        Kind::Clause(Clause::Left) => enter_with(
            parts,
            &[
                CHOSEN,
                Part::Must(Rule::LeftJoin),
                NAME,
                ALIAS,
                CONDITION,
                SOURCES,
            ],
        ),
        _ => Ok(false),
    }
}

/// ON or USING.
#[tactic(auto, unfolding(crate::specs::Reading::condition_by))]
pub(crate) fn enter_condition(parts: &mut Vec<Part>, kind: Kind) -> Result<bool, AllocError>
    ensures { IfOk result (λ is_entered. Enters (condition_by kind) is_entered parts.old.items parts.new.items) }
{
    match kind {
        Kind::Clause(Clause::On) => enter_with(parts, &[CHOSEN, EXPRESSION]),
        Kind::Clause(Clause::Using) => enter_with(
            parts,
            &[
                CHOSEN,
                Part::One(Expected::Open),
                NAME,
                NAMES,
                Part::One(Expected::Close),
            ],
        ),
        _ => Ok(false),
    }
}

/// A comma and a name.
#[tactic(auto, unfolding(crate::specs::Reading::names_by))]
pub(crate) fn enter_names(parts: &mut Vec<Part>, kind: Kind) -> Result<bool, AllocError>
    ensures { IfOk result (λ is_entered. Enters (names_by kind) is_entered parts.old.items parts.new.items) }
{
    match kind {
        Kind::Comma => enter_with(parts, &[CHOSEN, NAME, NAMES]),
        _ => Ok(false),
    }
}

/// WHERE and its condition.
#[tactic(auto, unfolding(crate::specs::Reading::where_by))]
pub(crate) fn enter_where(parts: &mut Vec<Part>, kind: Kind) -> Result<bool, AllocError>
    ensures { IfOk result (λ is_entered. Enters (where_by kind) is_entered parts.old.items parts.new.items) }
{
    match kind {
        Kind::Clause(Clause::Where) => enter_with(parts, &[CHOSEN, EXPRESSION]),
        _ => Ok(false),
    }
}

/// GROUP BY and its expressions.
#[tactic(auto, unfolding(crate::specs::Reading::group_by))]
pub(crate) fn enter_group(parts: &mut Vec<Part>, kind: Kind) -> Result<bool, AllocError>
    ensures { IfOk result (λ is_entered. Enters (group_by kind) is_entered parts.old.items parts.new.items) }
{
    match kind {
        Kind::Clause(Clause::Group) => enter_with(
            parts,
            &[CHOSEN, BY, EXPRESSION, Part::May(Optional::Item(0))],
        ),
        _ => Ok(false),
    }
}

/// HAVING and its condition.
#[tactic(auto, unfolding(crate::specs::Reading::having_by))]
pub(crate) fn enter_having(parts: &mut Vec<Part>, kind: Kind) -> Result<bool, AllocError>
    ensures { IfOk result (λ is_entered. Enters (having_by kind) is_entered parts.old.items parts.new.items) }
{
    match kind {
        Kind::Clause(Clause::Having) => enter_with(parts, &[CHOSEN, EXPRESSION]),
        _ => Ok(false),
    }
}

/// ORDER BY and its terms.
#[tactic(auto, unfolding(crate::specs::Reading::order_by))]
pub(crate) fn enter_order(parts: &mut Vec<Part>, kind: Kind) -> Result<bool, AllocError>
    ensures { IfOk result (λ is_entered. Enters (order_by kind) is_entered parts.old.items parts.new.items) }
{
    match kind {
        Kind::Clause(Clause::Order) => enter_with(
            parts,
            &[CHOSEN, BY, EXPRESSION, DIRECTION, TERMS],
        ),
        _ => Ok(false),
    }
}

/// A comma and a term.
#[tactic(auto, unfolding(crate::specs::Reading::terms_by))]
pub(crate) fn enter_terms(parts: &mut Vec<Part>, kind: Kind) -> Result<bool, AllocError>
    ensures { IfOk result (λ is_entered. Enters (terms_by kind) is_entered parts.old.items parts.new.items) }
{
    match kind {
        Kind::Comma => enter_with(parts, &[CHOSEN, EXPRESSION, DIRECTION, TERMS]),
        _ => Ok(false),
    }
}

/// ASC or DESC.
#[tactic(auto, unfolding(crate::specs::Reading::direction_by))]
pub(crate) fn enter_direction(parts: &mut Vec<Part>, kind: Kind) -> Result<bool, AllocError>
    ensures { IfOk result (λ is_entered. Enters (direction_by kind) is_entered parts.old.items parts.new.items) }
{
    match kind {
        Kind::Clause(Clause::Asc) | Kind::Clause(Clause::Desc) => enter_with(parts, &[CHOSEN]),
        _ => Ok(false),
    }
}

/// LIMIT and its number.
#[tactic(auto, unfolding(crate::specs::Reading::limit_by))]
pub(crate) fn enter_limit(parts: &mut Vec<Part>, kind: Kind) -> Result<bool, AllocError>
    ensures { IfOk result (λ is_entered. Enters (limit_by kind) is_entered parts.old.items parts.new.items) }
{
    match kind {
        Kind::Clause(Clause::Limit) => enter_with(
            parts,
            &[
                CHOSEN,
                Part::Must(Rule::Integer),
                Part::May(Optional::Offset),
            ],
        ),
        _ => Ok(false),
    }
}

/// OFFSET and its number.
#[tactic(auto, unfolding(crate::specs::Reading::offset_by))]
pub(crate) fn enter_offset(parts: &mut Vec<Part>, kind: Kind) -> Result<bool, AllocError>
    ensures { IfOk result (λ is_entered. Enters (offset_by kind) is_entered parts.old.items parts.new.items) }
{
    match kind {
        Kind::Clause(Clause::Offset) => enter_with(parts, &[CHOSEN, Part::Must(Rule::Integer)]),
        _ => Ok(false),
    }
}

/// The semicolon at the end.
#[tactic(auto, unfolding(crate::specs::Reading::semicolon_by))]
pub(crate) fn enter_semicolon(parts: &mut Vec<Part>, kind: Kind) -> Result<bool, AllocError>
    ensures { IfOk result (λ is_entered. Enters (semicolon_by kind) is_entered parts.old.items parts.new.items) }
{
    match kind {
        Kind::Semicolon => enter_with(parts, &[CHOSEN]),
        _ => Ok(false),
    }
}
