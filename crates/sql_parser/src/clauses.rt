//! The descent over the clauses of a select, with one token of look-ahead.

ghost use Rattle.std.specs.Prelude.{◌≡◌, [], ◌∷◌, ◌++◌, map, option_map};
ghost use Rattle.sql_faults.specs.declared.part.Part.TheVariants.{One, Must, May};
ghost use Rattle.sql_faults.specs.declared.part.Expected.TheVariants as expected;
ghost use Rattle.sql_faults.specs.declared.part.Rule.TheVariants as rule;
ghost use Rattle.sql_faults.specs.declared.part.Optional.TheVariants as optional;
ghost use Rattle.sql_tokens.specs.declared.token.Kind.TheVariants as kind;
ghost use Rattle.sql_tokens.specs.declared.level.Level.TheVariants as level;
ghost use Rattle.sql_tree.specs.View.{tree_of};
ghost use Rattle.sql_faults.specs.Reading.{names_parts, source_parts, term_parts};
ghost use Rattle.sql_tokens.specs.Tokens.{next, is_end};
ghost use Rattle.sql_tree.specs.Select.{item_of, ref_of, having_of, term_of, select_of};
ghost use Rattle.sql_parser.specs.SelectGrammar as grammar;
ghost use Rattle.sql_parser.specs.SelectDescent.{Took, IsFound, Finds, FormFound, form_parts, condition_parts, condition_tree, select_parts, EndTold};

use crate::descent::{self, name_of};
use crate::stop::Stop;
use sql_tokens::level::Level;
use sql_tokens::reader::{Reader, is_name_kind};
use sql_tokens::token::{Clause, Kind};
use sql_tree::select::{
    Having, Item, ItemList, NameList, NodeList, Select, TableRef, TableRefList, Term, TermList,
};
use sql_tree::span::Span;
use sql_tree::tree::{Name, Node};
use std::alloc::Global;

/// How a further table is brought in.
#[derive(Clone, Copy)]
pub enum Form {
    /// By FROM, a comma or CROSS JOIN: without a condition.
    Plain,
    /// By JOIN.
    Inner,
    /// By LEFT JOIN.
    Outer,
}

/// Takes the next token where it is this word.
fn take(reader: &mut Reader<'_>, word: Clause) -> bool
    ensures { Took (kind.Clause word) reader.old result reader.new }
{
    match reader.peek().kind {
        Kind::Clause(found) if found == word => {
            reader.advance();
            true
        }
        _ => false,
    }
}

/// The name that stands next.
fn name(reader: &mut Reader<'_>) -> Result<Name, Stop>
    ensures { Finds (λ n. n) grammar.SpellsName (One expected.Name ∷ []) reader.old result reader.new }
{
    let token = reader.peek();
    if !is_name_kind(token.kind) {
        return Err(Stop::Refused);
    }
    reader.advance();
    Ok(name_of(token))
}

/// What AS or a name alone calls an item or a table.
fn alias(reader: &mut Reader<'_>) -> Result<Option<Name>, Stop>
    ensures { Finds (λ n. n) grammar.SpellsAlias (May optional.Alias ∷ []) reader.old result reader.new }
{
    let token = reader.peek();
    if is_name_kind(token.kind) {
        reader.advance();
        return Ok(Some(name_of(token)));
    }
    let Kind::As = token.kind else {
        return Ok(None);
    };
    reader.advance();
    let alias = name(reader)?;
    Ok(Some(alias))
}

/// An expression outside every parenthesis.
fn expression(alloc: Global, reader: &mut Reader<'_>) -> Result<Node, Stop>
    ensures { Finds tree_of grammar.SpellsExpression (Must (rule.Chain level.Or 0) ∷ []) reader.old result reader.new }
{
    descent::chain(alloc, reader, Level::Or, 0)
}

/// SELECT, and whether DISTINCT follows.
fn opening(reader: &mut Reader<'_>) -> Result<bool, Stop>
    ensures { Finds (λ b. b) grammar.SpellsOpening (One expected.Select ∷ May optional.Distinct ∷ []) reader.old result reader.new }
{
    if !take(reader, Clause::Select) {
        return Err(Stop::Refused);
    }
    match reader.peek().kind {
        Kind::Distinct => {
            reader.advance();
            Ok(true)
        }
        _ => Ok(false),
    }
}

/// An item that is an expression.
fn expression_item(alloc: Global, reader: &mut Reader<'_>) -> Result<Item, Stop>
    ensures { Finds item_of grammar.SpellsExpressionItem (Must (rule.Chain level.Or 0) ∷ May optional.Alias ∷ []) reader.old result reader.new }
{
    let start = reader.peek().span.start;
    let node = expression(alloc, reader)?;
    let end = reader.peek().previous_end;
    let alias = alias(reader)?;
    Ok(Item::One {
        node,
        span: Span { start, end },
        alias,
    })
}

fn item(alloc: Global, reader: &mut Reader<'_>) -> Result<Item, Stop>
    ensures { Finds item_of grammar.SpellsItem (Must rule.SelectItem ∷ []) reader.old result reader.new }
{
    let token = reader.peek();
    if reader.is_at_all_of() {
        reader.advance();
        reader.advance();
        reader.advance();
        return Ok(Item::AllOf {
            table: name_of(token),
        });
    }
    match token.kind {
        Kind::Star => {
            reader.advance();
            Ok(Item::All {
                place: token.span.start,
            })
        }
        _ => expression_item(alloc, reader),
    }
}

fn items(alloc: Global, reader: &mut Reader<'_>) -> Result<ItemList, Stop>
    ensures { Finds (map item_of) (grammar.WithCommas grammar.SpellsItem) (Must rule.SelectItem ∷ May optional.SelectItems ∷ []) reader.old result reader.new }
{
    let mut items = ItemList::new(alloc);
    let first = item(alloc, reader)?;
    items.push(first)?;
    while let Kind::Comma = reader.peek().kind {
        reader.advance();
        let further = item(alloc, reader)?;
        items.push(further)?;
    }
    Ok(items)
}

/// JOIN, by which a table is brought in so.
fn join(reader: &mut Reader<'_>, form: Form) -> Result<Option<Form>, Stop>
    ensures { Finds (λ f. f) (grammar.SpellsJoin form) (One expected.Join ∷ []) reader.old result reader.new }
{
    if take(reader, Clause::Join) {
        Ok(Some(form))
    } else {
        Err(Stop::Refused)
    }
}

/// What follows LEFT.
fn outer(reader: &mut Reader<'_>) -> Result<Option<Form>, Stop>
    ensures { Finds (λ f. f) grammar.SpellsOuterJoin (Must rule.LeftJoin ∷ []) reader.old result reader.new }
{
    take(reader, Clause::Outer);
    join(reader, Form::Outer)
}

/// How the word that stands next brings a further table in.
fn form_of_word(reader: &mut Reader<'_>, word: Clause) -> Result<Option<Form>, Stop>
    requires { (next reader.old).kind ≡ kind.Clause word }
    ensures { FormFound reader.old result reader.new }
{
    match word {
        Clause::Cross => {
            reader.advance();
            join(reader, Form::Plain)
        }
        Clause::Join => {
            reader.advance();
            Ok(Some(Form::Inner))
        }
        Clause::Inner => {
            reader.advance();
            join(reader, Form::Inner)
        }
        Clause::Left => {
            reader.advance();
            outer(reader)
        }
        _ => Ok(None),
    }
}

/// How a further table is brought in, where there is one.
fn join_form(reader: &mut Reader<'_>) -> Result<Option<Form>, Stop>
    ensures { FormFound reader.old result reader.new }
{
    match reader.peek().kind {
        Kind::Comma => {
            reader.advance();
            Ok(Some(Form::Plain))
        }
        Kind::Clause(word) => form_of_word(reader, word),
        _ => Ok(None),
    }
}

fn name_list(alloc: Global, reader: &mut Reader<'_>) -> Result<NameList, Stop>
    ensures { Finds (λ n. n) (grammar.WithCommas grammar.SpellsName) (One expected.Name ∷ May optional.Names ∷ []) reader.old result reader.new }
{
    let mut names = NameList::new(alloc);
    let first = name(reader)?;
    names.push(first)?;
    while let Kind::Comma = reader.peek().kind {
        reader.advance();
        let further = name(reader)?;
        names.push(further)?;
    }
    Ok(names)
}

/// The names of USING in their parentheses.
fn names(alloc: Global, reader: &mut Reader<'_>) -> Result<NameList, Stop>
    ensures { Finds (λ n. n) grammar.SpellsNames names_parts reader.old result reader.new }
{
    let Kind::Open = reader.peek().kind else {
        return Err(Stop::Refused);
    };
    reader.advance();
    let names = name_list(alloc, reader)?;
    let Kind::Close = reader.peek().kind else {
        return Err(Stop::Refused);
    };
    reader.advance();
    Ok(names)
}

/// ON or USING.
fn condition(alloc: Global, reader: &mut Reader<'_>) -> Result<(Option<Node>, NameList), Stop>
    ensures { Finds condition_tree grammar.SpellsCondition (May optional.Condition ∷ []) reader.old result reader.new }
{
    if take(reader, Clause::On) {
        let node = expression(alloc, reader)?;
        return Ok((Some(node), NameList::new(alloc)));
    }
    if take(reader, Clause::Using) {
        let names = names(alloc, reader)?;
        return Ok((None, names));
    }
    Ok((None, NameList::new(alloc)))
}

/// The condition of a table that is brought in so.
fn condition_of(
    alloc: Global,
    reader: &mut Reader<'_>,
    form: Form,
) -> Result<(Option<Node>, NameList), Stop>
    ensures { Finds condition_tree (grammar.SpellsConditionOf form) (condition_parts form) reader.old result reader.new }
{
    match form {
        Form::Plain => Ok((None, NameList::new(alloc))),
        Form::Inner | Form::Outer => condition(alloc, reader),
    }
}

fn is_outer(form: Form) -> bool
    ensures { result ≡ grammar.is_outer form }
{
    matches!(form, Form::Outer)
}

/// A table that is brought in so.
fn source(alloc: Global, reader: &mut Reader<'_>, form: Form) -> Result<TableRef, Stop>
    ensures { Finds ref_of (grammar.SpellsTable form) (form_parts form) reader.old result reader.new }
{
    let table = name(reader)?;
    let alias = alias(reader)?;
    let (on, using) = condition_of(alloc, reader, form)?;
    Ok(TableRef {
        table,
        alias,
        is_outer: is_outer(form),
        on,
        using,
    })
}

fn source_list(alloc: Global, reader: &mut Reader<'_>) -> Result<TableRefList, Stop>
    ensures { Finds (map ref_of) grammar.SpellsTables (source_parts ++ May optional.Sources ∷ []) reader.old result reader.new }
{
    let mut sources = TableRefList::new(alloc);
    let first = source(alloc, reader, Form::Plain)?;
    sources.push(first)?;
    while let Some(form) = join_form(reader)? {
        let further = source(alloc, reader, form)?;
        sources.push(further)?;
    }
    Ok(sources)
}

/// The tables of FROM.
fn sources(alloc: Global, reader: &mut Reader<'_>) -> Result<TableRefList, Stop>
    ensures { Finds (map ref_of) grammar.SpellsFrom (May optional.From ∷ []) reader.old result reader.new }
{
    if take(reader, Clause::From) {
        source_list(alloc, reader)
    } else {
        Ok(TableRefList::new(alloc))
    }
}

/// The condition of WHERE.
fn filter(alloc: Global, reader: &mut Reader<'_>) -> Result<Option<Node>, Stop>
    ensures { Finds (option_map tree_of) grammar.SpellsWhere (May optional.Where ∷ []) reader.old result reader.new }
{
    if !take(reader, Clause::Where) {
        return Ok(None);
    }
    let node = expression(alloc, reader)?;
    Ok(Some(node))
}

fn expression_list(alloc: Global, reader: &mut Reader<'_>) -> Result<NodeList, Stop>
    ensures { Finds (map tree_of) (grammar.WithCommas grammar.SpellsExpression) (Must (rule.Chain level.Or 0) ∷ May (optional.Item 0) ∷ []) reader.old result reader.new }
{
    let mut nodes = NodeList::new(alloc);
    let first = expression(alloc, reader)?;
    nodes.push(first)?;
    while let Kind::Comma = reader.peek().kind {
        reader.advance();
        let further = expression(alloc, reader)?;
        nodes.push(further)?;
    }
    Ok(nodes)
}

/// The expressions of GROUP BY.
fn keys(alloc: Global, reader: &mut Reader<'_>) -> Result<NodeList, Stop>
    ensures { Finds (map tree_of) grammar.SpellsGroup (May optional.Group ∷ []) reader.old result reader.new }
{
    if !take(reader, Clause::Group) {
        return Ok(NodeList::new(alloc));
    }
    if !take(reader, Clause::By) {
        return Err(Stop::Refused);
    }
    expression_list(alloc, reader)
}

/// The condition of HAVING.
fn having(alloc: Global, reader: &mut Reader<'_>) -> Result<Option<Having>, Stop>
    ensures { Finds (option_map having_of) grammar.SpellsHaving (May optional.Having ∷ []) reader.old result reader.new }
{
    let place = reader.peek().span.start;
    if !take(reader, Clause::Having) {
        return Ok(None);
    }
    let node = expression(alloc, reader)?;
    Ok(Some(Having { place, node }))
}

/// Whether a term is descending.
fn direction(reader: &mut Reader<'_>) -> bool
    ensures { IsFound grammar.SpellsDirection (May optional.Direction ∷ []) [] reader.old result reader.new }
{
    if take(reader, Clause::Asc) {
        return false;
    }
    take(reader, Clause::Desc)
}

fn term(alloc: Global, reader: &mut Reader<'_>) -> Result<Term, Stop>
    ensures { Finds term_of grammar.SpellsTerm term_parts reader.old result reader.new }
{
    let node = expression(alloc, reader)?;
    let is_descending = direction(reader);
    Ok(Term {
        node,
        is_descending,
    })
}

fn term_list(alloc: Global, reader: &mut Reader<'_>) -> Result<TermList, Stop>
    ensures { Finds (map term_of) (grammar.WithCommas grammar.SpellsTerm) (term_parts ++ May optional.Terms ∷ []) reader.old result reader.new }
{
    let mut terms = TermList::new(alloc);
    let first = term(alloc, reader)?;
    terms.push(first)?;
    while let Kind::Comma = reader.peek().kind {
        reader.advance();
        let further = term(alloc, reader)?;
        terms.push(further)?;
    }
    Ok(terms)
}

/// The terms of ORDER BY.
fn terms(alloc: Global, reader: &mut Reader<'_>) -> Result<TermList, Stop>
    ensures { Finds (map term_of) grammar.SpellsOrder (May optional.Order ∷ []) reader.old result reader.new }
{
    if !take(reader, Clause::Order) {
        return Ok(TermList::new(alloc));
    }
    if !take(reader, Clause::By) {
        return Err(Stop::Refused);
    }
    term_list(alloc, reader)
}

/// A number without a sign.
fn number(reader: &mut Reader<'_>) -> Result<i64, Stop>
    ensures { Finds (λ n. n) grammar.SpellsNumber (One expected.Number ∷ []) reader.old result reader.new }
{
    let Kind::Number(value) = reader.peek().kind else {
        return Err(Stop::Refused);
    };
    match value {
        Some(number) => {
            reader.advance();
            Ok(number)
        }
        None => Err(Stop::Refused),
    }
}

/// Minus the size of a number. A token's number has no sign, so that this is its negative.
fn minus(number: i64) -> i64
    ensures { result ≡ grammar.minus number }
{
    if number > 0 { -number } else { number }
}

/// A number with or without a sign.
fn integer(reader: &mut Reader<'_>) -> Result<i64, Stop>
    ensures { Finds (λ n. n) grammar.SpellsInteger (Must rule.Integer ∷ []) reader.old result reader.new }
{
    match reader.peek().kind {
        Kind::Plus => {
            reader.advance();
            number(reader)
        }
        Kind::Minus => {
            reader.advance();
            let size = number(reader)?;
            Ok(minus(size))
        }
        _ => number(reader),
    }
}

/// The number of OFFSET.
fn offset(reader: &mut Reader<'_>) -> Result<Option<i64>, Stop>
    ensures { Finds (λ n. n) grammar.SpellsOffset (May optional.Offset ∷ []) reader.old result reader.new }
{
    if !take(reader, Clause::Offset) {
        return Ok(None);
    }
    let skip = integer(reader)?;
    Ok(Some(skip))
}

/// The numbers of LIMIT and OFFSET.
fn limits(reader: &mut Reader<'_>) -> Result<(Option<i64>, Option<i64>), Stop>
    ensures { Finds (λ n. n) grammar.SpellsLimit (May optional.Limit ∷ []) reader.old result reader.new }
{
    if !take(reader, Clause::Limit) {
        return Ok((None, None));
    }
    let limit = integer(reader)?;
    let skip = offset(reader)?;
    Ok((Some(limit), skip))
}

/// A whole select, before what may end its text.
pub(crate) fn select(alloc: Global, reader: &mut Reader<'_>) -> Result<Select, Stop>
    ensures { Finds select_of grammar.SpellsSelect select_parts reader.old result reader.new }
{
    let is_distinct = opening(reader)?;
    let items = items(alloc, reader)?;
    let sources = sources(alloc, reader)?;
    let filter = filter(alloc, reader)?;
    let keys = keys(alloc, reader)?;
    let having = having(alloc, reader)?;
    let terms = terms(alloc, reader)?;
    let (limit, skip) = limits(reader)?;
    Ok(Select {
        is_distinct,
        items,
        sources,
        filter,
        keys,
        having,
        terms,
        limit,
        skip,
    })
}

fn is_end_kind(kind: Kind) -> bool
    ensures { result ≡ is_end kind }
{
    matches!(kind, Kind::End)
}

/// Whether the text ends here, with or without a semicolon.
pub(crate) fn is_ended(reader: &mut Reader<'_>) -> bool
    ensures { EndTold reader.old result }
{
    let kind = reader.peek().kind;
    match kind {
        Kind::Semicolon => {
            reader.advance();
            is_end_kind(reader.peek().kind)
        }
        _ => is_end_kind(kind),
    }
}
