//! The names of options, and what each takes.

ghost use Rattle.std.specs.Prelude.{◌≡◌};
ghost use Rattle.program_words.specs.Given.{fits_value, number_taken, takes_word};
ghost use Rattle.program_words.specs.Names.{is_source, takes};
ghost use Rattle.program_words.specs.Rules.{spelling};

use crate::number::{is_text, number_in};

/// The name of an option.
#[derive(Clone, Copy)]
pub(crate) enum Name {
    Config,
    Host,
    Platform,
    Agent,
    Text,
    Audit,
    Changes,
    Tables,
    Start,
    Step,
    Ticks,
    Records,
    Explain,
    Frames,
    Ledger,
    Store,
    From,
    Count,
    Workers,
    FramesOut,
    AnswersIn,
    /// The name of no option.
    Other,
}

/// What stands behind a name.
#[derive(Clone, Copy)]
pub(crate) enum Takes {
    /// Nothing: the option is a flag.
    Nothing,
    /// A text of at least one byte that doesn't begin with a dash.
    AnyText,
    /// Such a text of at most 255 bytes.
    ShortText,
    /// A number between these two, in 1 to 19 decimal digits.
    Number(u64, u64),
    /// No option has such a name.
    Unknown,
}

impl Name {
    /// How the name is spelled behind its dashes.
    #[tactic(auto, unfolding(crate::specs::Rules::spelling, crate::specs::Names::names, crate::specs::Names::place))]
    pub(crate) fn text(self) -> &'static str
        ensures { result.now ≡ spelling self }
    {
        match self {
            Name::Config => "config",
            Name::Host => "host",
            Name::Platform => "platform",
            Name::Agent => "agent",
            Name::Text => "text",
            Name::Audit => "audit",
            Name::Changes => "changes",
            Name::Tables => "tables",
            Name::Start => "start",
            Name::Step => "step",
            Name::Ticks => "ticks",
            Name::Records => "records",
            Name::Explain => "explain",
            Name::Frames => "frames",
            Name::Ledger => "ledger",
            Name::Store => "store",
            Name::From => "from",
            Name::Count => "count",
            Name::Workers => "workers",
            Name::FramesOut => "frames-out",
            Name::AnswersIn => "answers-in",
            Name::Other => "",
        }
    }

    #[tactic(auto, unfolding(crate::specs::Names::takes))]
    pub(crate) fn takes(self) -> Takes
        ensures { result ≡ takes self }
    {
        match self {
            Name::Config
            | Name::Platform
            | Name::Agent
            | Name::Text
            | Name::Audit
            | Name::Changes
            | Name::Tables
            | Name::Frames
            | Name::Ledger
            | Name::Store
            | Name::FramesOut
            | Name::AnswersIn => Takes::AnyText,
            Name::Host => Takes::ShortText,
            Name::Start | Name::From => Takes::Number(0, i64::MAX as u64),
            Name::Step => Takes::Number(0, 604800),
            Name::Ticks | Name::Records | Name::Count => Takes::Number(1, 1000000),
            Name::Workers => Takes::Number(1, 16),
            Name::Explain => Takes::Nothing,
            Name::Other => Takes::Unknown,
        }
    }

    /// An option of this name names a source.
    #[tactic(auto, unfolding(crate::specs::Names::is_source))]
    pub(crate) fn is_source(self) -> bool
        ensures { result ≡ is_source self }
    {
        matches!(self, Name::Audit | Name::Changes | Name::Tables)
    }
}

impl Takes {
    /// A value stands behind the name.
    pub(crate) fn takes_word(self) -> bool
        ensures { result ≡ takes_word self }
    {
        match self {
            Takes::AnyText | Takes::ShortText | Takes::Number(_, _) => true,
            Takes::Nothing | Takes::Unknown => false,
        }
    }

    /// The value is one that the name takes.
    pub(crate) fn fits_value(self, text: &str) -> bool
        ensures { result ≡ fits_value self text.now }
    {
        match self {
            Takes::AnyText => is_text(text),
            Takes::ShortText => is_text(text) && text.len() <= 255,
            Takes::Number(least, most) => number_in(least, most, text).is_some(),
            Takes::Nothing | Takes::Unknown => false,
        }
    }

    pub(crate) fn number(self, text: &str) -> Option<u64>
        ensures { result ≡ number_taken self text.now }
    {
        match self {
            Takes::Number(least, most) => number_in(least, most, text),
            Takes::Nothing | Takes::AnyText | Takes::ShortText | Takes::Unknown => None,
        }
    }
}
