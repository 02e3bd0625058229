//! What a seal changes, as statements with their parameters.

ghost use Rattle.std.specs.Prelude.{◌≡◌, [], ◌∷◌, ◌++◌, map, pos, IfOk, OnOk};
ghost use Rattle.kept_tables.specs.declared.changes.Parameter.TheVariants as given;
ghost use Rattle.kept_tables.specs.Edits.{change, number};
ghost use Rattle.kept_tables.specs.Statements.{text_of};

use crate::layout;
use osq_value::{Bytes, NoMemory, Sequence, Str};
use std::alloc::Global;

/// What stands for a parameter of a statement.
#[derive(Drop)]
pub enum Parameter {
    /// A number below 2^63.
    Number(i64),
    /// A text.
    Text(Str),
    /// The text of a list.
    List(Bytes),
}

/// A statement that shows no rows.
#[derive(Clone, Copy)]
pub enum Statement {
    /// Writes the counts.
    WriteCounts,
    /// Adds the place of a Configured entry.
    AddConfigured,
    /// Notes the offset of a source.
    NoteTaken,
    /// Adds a part of live events.
    AddEvents,
    /// Removes the parts of a table whose events are all gone.
    Expire,
    /// Removes the parts of a recorded table.
    Unset,
    /// Adds a part of a recorded table.
    AddSetPart,
    /// Notes the last batch of a query.
    NoteRun,
    /// Adds a batch without its rows.
    AddBatch,
    /// Adds some rows of a batch.
    AddBatchPart,
    /// Removes the rows of the batches up to a number.
    Acknowledge,
}

impl Statement {
    /// Its text.
    pub fn text(self) -> &'static str
        ensures { result.now ≡ text_of self }
    {
        match self {
            Statement::WriteCounts => layout::WRITE_COUNTS,
            Statement::AddConfigured => layout::ADD_CONFIGURED,
            Statement::NoteTaken => layout::NOTE_TAKEN,
            Statement::AddEvents => layout::ADD_EVENTS,
            Statement::Expire => layout::EXPIRE,
            Statement::Unset => layout::UNSET,
            Statement::AddSetPart => layout::ADD_SET_PART,
            Statement::NoteRun => layout::NOTE_RUN,
            Statement::AddBatch => layout::ADD_BATCH,
            Statement::AddBatchPart => layout::ADD_BATCH_PART,
            Statement::Acknowledge => layout::ACKNOWLEDGE,
        }
    }
}

/// A statement with its parameters.
#[derive(Drop)]
pub struct Change {
    /// The statement.
    pub statement: Statement,
    /// What its parameters stand for, in their order.
    pub parameters: Sequence<Parameter>,
}

/// Changes, in the order in which they are made.
pub type ChangeList = Sequence<Change>;

impl Change {
    /// The statement with these numbers as its first parameters. One of 2^63 or more has no room.
    pub(crate) fn of(
        alloc: Global,
        statement: Statement,
        numbers: &[u64],
    ) -> Result<Change, NoMemory>
        ensures { IfOk result (λ made. made ≡ change statement (map number numbers.now)) }
    {
        let parameters = parameters_of(alloc, numbers)?;
        Ok(Change {
            statement,
            parameters,
        })
    }

    /// The same with a text as the next parameter.
    pub(crate) fn with_text(self, alloc: Global, text: &str) -> Result<Change, NoMemory>
        ensures { IfOk result (λ made. made ≡ change self.statement (self.parameters ++ given.Text text.now ∷ [])) }
    {
        let Change {
            statement,
            mut parameters,
        } = self;
        parameters.push(Parameter::Text(Str::of(alloc, text)?))?;
        Ok(Change {
            statement,
            parameters,
        })
    }

    /// The same with a list as the next parameter.
    pub(crate) fn with_list(self, text: Bytes) -> Result<Change, NoMemory>
        ensures { IfOk result (λ made. made ≡ change self.statement (self.parameters ++ given.List text ∷ [])) }
    {
        let Change {
            statement,
            mut parameters,
        } = self;
        parameters.push(Parameter::List(text))?;
        Ok(Change {
            statement,
            parameters,
        })
    }
}

fn parameters_of(alloc: Global, numbers: &[u64]) -> Result<Sequence<Parameter>, NoMemory>
    ensures { IfOk result (λ made. made ≡ map number numbers.now) }
{
    let mut parameters = Sequence::new(alloc);
    for number in numbers {
        parameters.push(number_of(*number)?)?;
    }
    Ok(parameters)
}

fn number_of(number: u64) -> Result<Parameter, NoMemory>
    ensures { IfOk result (λ made. made ≡ given.Number (pos number)) }
{
    match i64::try_from(number) {
        Ok(number) => Ok(Parameter::Number(number)),
        Err(_) => Err(NoMemory),
    }
}
