//! The text that shows a plan.
ghost use Rattle.std.specs.Prelude.{◌≡◌, ◌++◌, IfOk, OnOk, flat_map, map};
ghost use Rattle.sql_query.specs.Resolved.{query_of, source_of};
ghost use Rattle.sql_planner.specs.Explained.{behind_and, column_name, constraint_text, doubled, explained, filter_line, form_text, heading, line, lines, literal_text, on_text, place_text, sign_of, step_line, steps_text, where_text};
ghost use Rattle.sql_planner.specs.Plans.{plan_tree};

use crate::plan::{JoinForm, Plan, Scan};
use osq_value::{Bytes, NoMemory, Value};
use sql_query::query::{Query, QuerySource};
use std::alloc::Global;
use virtual_tables::{Constraint, ConstraintOp};

/// A line for each FROM table, which tells its scan, the form of its join and what its scan tests; then how many conjuncts of WHERE
/// are left, and whether rows are grouped, made distinct, ordered and limited.
pub fn explain(alloc: Global, plan: &Plan) -> Result<Bytes, NoMemory>
    ensures { IfOk result (λ text. text ≡ explained (plan_tree plan.now)) }
{
    let sources = plan.query.sources.as_slice();
    let mut text = Bytes::new(alloc);
    push_lines(alloc, &mut text, sources, sources, plan.scans.as_slice())?;
    push_filter(alloc, &mut text, plan.rest.parts.len())?;
    push_steps(&mut text, &plan.query)?;
    Ok(text)
}

/// Adds the lines of the steps behind WHERE that a query has.
fn push_steps(text: &mut Bytes, query: &Query) -> Result<(), NoMemory>
    ensures { OnOk result (text.new ≡ text.old ++ steps_text (query_of query.now)) }
{
    push_step(text, query.is_grouped, "group\n")?;
    push_step(text, query.is_distinct, "distinct\n")?;
    push_step(text, query.terms.len() != 0, "order\n")?;
    push_step(text, query.limit.is_some(), "limit\n")
}

/// Adds the lines of tables with their scans.
fn push_lines(
    alloc: Global,
    text: &mut Bytes,
    all: &[QuerySource],
    sources: &[QuerySource],
    scans: &[Scan],
) -> Result<(), NoMemory>
    ensures { OnOk result (text.new ≡ text.old ++ lines (map source_of all.now) (map source_of sources.now) scans.now) }
{
    let mut rest = sources;
    let mut behind = scans;
    while let [source, others @ ..] = rest {
        let [scan, more @ ..] = behind else {
            return Ok(());
        };
        push_line(alloc, text, all, source, scan)?;
        rest = others;
        behind = more;
    }
    Ok(())
}

/// Adds the line of a table.
fn push_line(
    alloc: Global,
    text: &mut Bytes,
    all: &[QuerySource],
    source: &QuerySource,
    scan: &Scan,
) -> Result<(), NoMemory>
    ensures { OnOk result (text.new ≡ text.old ++ line (map source_of all.now) (source_of source.now) scan.now) }
{
    push_heading(text, source, scan.join)?;
    push_on(text, all, source, scan.join)?;
    push_where(alloc, text, source, scan.constraints.as_slice())?;
    text.extend(b"\n")?;
    Ok(())
}

/// Adds the form of a table's join, its name and its alias.
fn push_heading(text: &mut Bytes, source: &QuerySource, form: JoinForm) -> Result<(), NoMemory>
    ensures { OnOk result (text.new ≡ text.old ++ heading (source_of source.now) form) }
{
    text.extend(form_text(source.is_outer, form).as_bytes())?;
    text.extend(source.name.as_str().as_bytes())?;
    text.extend(b" as ")?;
    text.extend(source.alias.as_str().as_bytes())
}

/// The words for a form of join.
fn form_text(is_outer: bool, form: JoinForm) -> &'static str
    ensures { result.now ≡ form_text is_outer form }
{
    match form {
        JoinForm::First => "scan ",
        JoinForm::Nested => {
            if is_outer {
                "left nested join "
            } else {
                "nested join "
            }
        }
        JoinForm::Hashed { .. } => {
            if is_outer {
                "left hash join "
            } else {
                "hash join "
            }
        }
    }
}

/// Adds the columns by which rows are found.
fn push_on(
    text: &mut Bytes,
    all: &[QuerySource],
    source: &QuerySource,
    form: JoinForm,
) -> Result<(), NoMemory>
    ensures { OnOk result (text.new ≡ text.old ++ on_text (map source_of all.now) (source_of source.now) form) }
{
    match form {
        JoinForm::First => Ok(()),
        JoinForm::Nested => Ok(()),
        JoinForm::Hashed { left, right } => {
            text.extend(b" on ")?;
            text.extend(column_name(source, right as usize).as_bytes())?;
            text.extend(b" = ")?;
            push_place(text, all, left as usize)
        }
    }
}

/// The name of a column of a table, which is empty where there is none.
fn column_name(source: &QuerySource, column: usize) -> &str
    ensures { result.now ≡ column_name (source_of source.now) column }
{
    match source.columns.get(column) {
        Some(found) => found.name.as_str(),
        None => "",
    }
}

/// Adds the column at a place of a row of these tables, behind its table's alias.
fn push_place(text: &mut Bytes, sources: &[QuerySource], place: usize) -> Result<(), NoMemory>
    ensures { OnOk result (text.new ≡ text.old ++ place_text (map source_of sources.now) place) }
{
    let mut rest = sources;
    let mut at = place;
    while let [source, others @ ..] = rest {
        if at < source.columns.len() {
            text.extend(source.alias.as_str().as_bytes())?;
            text.extend(b".")?;
            return text.extend(column_name(source, at).as_bytes());
        }
        at -= source.columns.len();
        rest = others;
    }
    Ok(())
}

/// Adds what a scan tests.
fn push_where(
    alloc: Global,
    text: &mut Bytes,
    source: &QuerySource,
    constraints: &[Constraint],
) -> Result<(), NoMemory>
    ensures { OnOk result (text.new ≡ text.old ++ where_text (source_of source.now) constraints.now) }
{
    let [first, others @ ..] = constraints else {
        return Ok(());
    };
    text.extend(b" where ")?;
    push_constraint(alloc, text, source, first)?;
    push_others(alloc, text, source, others)
}

fn push_others(
    alloc: Global,
    text: &mut Bytes,
    source: &QuerySource,
    constraints: &[Constraint],
) -> Result<(), NoMemory>
    ensures { OnOk result (text.new ≡ text.old ++ flat_map (behind_and (source_of source.now)) constraints.now) }
{
    let mut rest = constraints;
    while let [constraint, others @ ..] = rest {
        text.extend(b" and ")?;
        push_constraint(alloc, text, source, constraint)?;
        rest = others;
    }
    Ok(())
}

fn push_constraint(
    alloc: Global,
    text: &mut Bytes,
    source: &QuerySource,
    constraint: &Constraint,
) -> Result<(), NoMemory>
    ensures { OnOk result (text.new ≡ text.old ++ constraint_text (source_of source.now) constraint.now) }
{
    text.extend(column_name(source, constraint.column as usize).as_bytes())?;
    text.extend(sign_of(constraint.op).as_bytes())?;
    push_literal(alloc, text, &constraint.value)
}

fn sign_of(op: ConstraintOp) -> &'static str
    ensures { result.now ≡ sign_of op }
{
    match op {
        ConstraintOp::Eq => " = ",
        ConstraintOp::Lt => " < ",
        ConstraintOp::Le => " <= ",
        ConstraintOp::Gt => " > ",
        ConstraintOp::Ge => " >= ",
    }
}

fn push_literal(alloc: Global, text: &mut Bytes, value: &Value) -> Result<(), NoMemory>
    ensures { OnOk result (text.new ≡ text.old ++ literal_text value.now) }
{
    match value {
        Value::Null => text.extend(b"NULL"),
        Value::Int(number) => text.extend(number.to_string(alloc)?.as_bytes()),
        Value::Text(inside) => {
            text.extend(b"'")?;
            push_doubled(text, inside.as_str().as_bytes())?;
            text.extend(b"'")
        }
    }
}

/// Adds bytes of which a single quote is written twice.
fn push_doubled(text: &mut Bytes, bytes: &[u8]) -> Result<(), NoMemory>
    ensures { OnOk result (text.new ≡ text.old ++ flat_map doubled bytes.now) }
{
    let mut rest = bytes;
    while let Some((byte, behind)) = rest.split_first() {
        push_byte(text, *byte)?;
        rest = behind;
    }
    Ok(())
}

fn push_byte(text: &mut Bytes, byte: u8) -> Result<(), NoMemory>
    ensures { OnOk result (text.new ≡ text.old ++ doubled byte) }
{
    if byte == b'\'' {
        text.extend(b"''")
    } else {
        text.extend(&[byte])
    }
}

/// Adds the line of so many conjuncts that are left.
fn push_filter(alloc: Global, text: &mut Bytes, count: usize) -> Result<(), NoMemory>
    ensures { OnOk result (text.new ≡ text.old ++ filter_line count) }
{
    if count == 0 {
        return Ok(());
    }
    text.extend(b"filter ")?;
    text.extend(count.to_string(alloc)?.as_bytes())?;
    text.extend(b"\n")
}

/// Adds the line of a step that there is.
fn push_step(text: &mut Bytes, is_there: bool, line: &str) -> Result<(), NoMemory>
    ensures { OnOk result (text.new ≡ text.old ++ step_line is_there line.now) }
{
    if is_there {
        text.extend(line.as_bytes())
    } else {
        Ok(())
    }
}
