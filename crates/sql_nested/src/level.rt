//! The levels of a nested text: the text itself, and what each open parenthesis encloses.

ghost use Rattle.std.specs.Prelude.{◌≡◌, ◌==◌, length, OnOk};
ghost use Rattle.sql_nested.specs.Levels.{is_chain, one_more, inside, begins_list as begins_list_of, seen, moved, may_name_table as may_name_table_at, start};

use crate::role::{Role, cuts, is_all, is_union, opens_part, role_of};
use crate::stack::Stack;
use osq_value::NoMemory;
use sql_tokens::token::Token;
use std::alloc::Global;

/// How many parts may stand inside one another.
pub const MAX_PARTS: usize = 8;

/// What encloses a level.
#[derive(Clone, Copy)]
pub enum Enclosure {
    /// The level is the text itself.
    Text,
    /// Parentheses with SELECT behind the first.
    Part,
    /// Other parentheses.
    Plain,
}

/// A level, and what of it stands before a place.
#[derive(Clone, Copy)]
pub struct Level {
    /// What encloses it.
    pub enclosure: Enclosure,
    /// How many parts are open, where they are no more than may be.
    pub depth: usize,
    /// Of the words on the level behind which a list stands, FROM is the last.
    pub is_from: bool,
    /// UNION ALL stands on it.
    pub is_cut: bool,
}

/// Where a token stands.
#[derive(Drop)]
pub struct Standing {
    /// The level.
    pub(crate) level: Level,
    /// The levels around it, the innermost first.
    around: Stack<Level>,
    /// The token before.
    before: Option<Token>,
}

/// The level is the text or the inside of a part, where a chain of selects stands.
pub(crate) fn is_chain_level(enclosure: Enclosure) -> bool
    ensures { result ≡ is_chain enclosure }
{
    match enclosure {
        Enclosure::Text | Enclosure::Part => true,
        Enclosure::Plain => false,
    }
}

fn one_more(depth: usize) -> usize
    ensures { result ≡ one_more depth }
{
    if depth < MAX_PARTS { depth + 1 } else { depth }
}

/// The level that a parenthesis opens, which opens a part or not.
fn inside(outer: Level, is_part: bool) -> Level
    ensures { result ≡ inside outer is_part }
{
    if is_part {
        Level {
            enclosure: Enclosure::Part,
            depth: one_more(outer.depth),
            is_from: false,
            is_cut: false,
        }
    } else {
        Level {
            enclosure: Enclosure::Plain,
            depth: outer.depth,
            is_from: false,
            is_cut: false,
        }
    }
}

/// Whether a list of FROM stands behind the token, or another; none where neither does.
#[tactic(auto, unfolding(crate::specs::Levels::begins_list))]
fn begins_list(text: &[u8], token: Token) -> Option<bool>
    ensures { result ≡ begins_list_of text.now token }
{
    match role_of(token.kind) {
        Role::From => Some(true),
        Role::Select | Role::Limit | Role::Word => Some(false),
        Role::Name => {
            if is_union(text, token) || is_all(text, token) {
                Some(false)
            } else {
                None
            }
        }
        _ => None,
    }
}

/// The level behind a token that is no parenthesis.
#[tactic(auto, unfolding(crate::specs::Levels::seen))]
fn seen(text: &[u8], token: Token, rest: &[Token], level: Level) -> Level
    ensures { result ≡ seen text.now token rest.now level }
{
    Level {
        enclosure: level.enclosure,
        depth: level.depth,
        is_from: begins_list(text, token).unwrap_or(level.is_from),
        is_cut: level.is_cut || cuts(text, token, rest),
    }
}

impl Standing {
    /// Before the first token.
    pub(crate) fn start(alloc: Global) -> Standing
        ensures { result ≡ start }
    {
        Standing {
            level: Level {
                enclosure: Enclosure::Text,
                depth: 0,
                is_from: false,
                is_cut: false,
            },
            around: Stack::new(alloc),
            before: None,
        }
    }

    /// The token before.
    pub(crate) fn before(&self) -> Option<Token>
        ensures { result ≡ self.now.before }
    {
        self.before
    }

    /// The level is the text itself, as far as parentheses closed one another.
    pub(crate) fn is_outermost(&self) -> bool
        ensures { result ≡ (length self.now.around == 0) }
    {
        self.around.is_empty()
    }

    /// Behind FROM, JOIN, or a comma of FROM the name of a table may stand.
    pub(crate) fn may_name_table(&self) -> bool
        ensures { result ≡ may_name_table_at self.now }
    {
        match self.before {
            None => false,
            Some(token) => match role_of(token.kind) {
                Role::From | Role::Join => true,
                Role::Comma => self.level.is_from,
                _ => false,
            },
        }
    }

    /// Goes past a token, with these behind it. A parenthesis that closes none changes no level.
    #[tactic(auto, unfolding(crate::specs::Levels::moved))]
    pub(crate) fn pass(&mut self, text: &[u8], token: Token, rest: &[Token]) -> Result<(), NoMemory>
        ensures { OnOk result (self.new ≡ moved text.now token rest.now self.old) }
    {
        match role_of(token.kind) {
            Role::Open => {
                self.around.push(self.level)?;
                self.level = inside(self.level, opens_part(rest));
            }
            Role::Close => self.level = self.around.pop().unwrap_or(self.level),
            _ => self.level = seen(text, token, rest, self.level),
        }
        self.before = Some(token);
        Ok(())
    }
}
