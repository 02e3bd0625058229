//! What the calls of a text ask for.

ghost use Rattle.std.specs.Prelude.{◌≡◌, List, ℕ, map, Some, IfOk};
ghost use Rattle.osq_value.specs.declared.value.Value.TheVariants.{Text};
ghost use Rattle.sql_query.specs.Exprs as expr;
ghost use Rattle.sql_query.specs.View.{expr_of};
ghost use Rattle.sql_scope.specs.Spelling.{literal_text};
ghost use Rattle.custom_tables.specs.Asked.{asked_in};

use crate::call::Call;
use osq_value::{NoMemory, Sequence, Str, Value};
use sql_query::tree::Expr;
use sql_scope::expression::resolve_node;
use sql_scope::naming::{Names, Rule};
use sql_scope::spelling::name_text;
use sql_tree::span::Span;
use sql_tree::tree::Node;
use std::alloc::Global;

/// A call by its texts.
#[derive(Drop)]
pub struct Asked {
    /// The column's name.
    pub column: Str,
    /// The pattern's text, without its quotes.
    pub pattern: Str,
    /// Where the pattern's quote stands in the text.
    pub quote: usize,
    /// The group, from 0 to 99.
    pub group: usize,
}

/// Calls in the order of their numbers.
pub type AskedList = Sequence<Asked>;

/// The text of a value.
fn text_in(value: Value) -> Option<Str>
    ensures { (text : List ℕ) → value ≡ Text text → result ≡ Some text }
{
    match value {
        Value::Null => None,
        Value::Int(_) => None,
        Value::Text(text) => Some(text),
    }
}

/// The text of a literal.
fn literal_in(made: Expr) -> Option<Str>
    ensures { (text : List ℕ) → expr_of made ≡ expr.literal (Text text) → result ≡ Some text }
{
    match made {
        Expr::Literal { value } => text_in(value),
        Expr::Column { .. } => None,
        Expr::Chain { .. } => None,
        Expr::Negation { .. } => None,
        Expr::Minus { .. } => None,
        Expr::Plus { .. } => None,
        Expr::Cast { .. } => None,
        Expr::Call { .. } => None,
        Expr::Folded { .. } => None,
    }
}

/// The text between the quotes of a literal.
fn pattern_text(alloc: Global, text: &str, span: Span) -> Result<Str, NoMemory>
    ensures { IfOk result (λ made. made ≡ literal_text text.now span) }
{
    let names = Names {
        derived: &[],
        text,
        scope: &[],
        shown: &[],
        rule: Rule::Columns,
    };
    match literal_in(resolve_node(alloc, &names, &Node::Text { span })?) {
        Some(pattern) => Ok(pattern),
        None => unreachable!(),
    }
}

/// The texts of calls, in their order.
pub fn asked_of(alloc: Global, text: &str, calls: &[Call]) -> Result<AskedList, NoMemory>
    ensures { IfOk result (λ asked. asked ≡ map (asked_in text.now) calls.now) }
{
    let mut asked = Sequence::new(alloc);
    for call in calls {
        asked.push(Asked {
            column: name_text(alloc, text, call.column)?,
            pattern: pattern_text(alloc, text, call.pattern)?,
            quote: call.pattern.start,
            group: call.group,
        })?;
    }
    Ok(asked)
}
