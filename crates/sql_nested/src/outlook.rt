//! What stands behind each token of a nested text: whether its level is closed, and whether UNION ALL follows on it.

ghost use Rattle.std.specs.Prelude.{◌≡◌, ◌≤◌, drop, length, IfOk, OnOk};
ghost use Rattle.sql_nested.specs.Outlook.{behind, passed, look_of, looks as looks_at};

use crate::role::{Role, cuts, role_of};
use crate::stack::Stack;
use osq_value::NoMemory;
use sql_tokens::token::Token;
use std::alloc::Global;

/// What tokens say of the level before them, and of those around it.
#[derive(Drop)]
pub(crate) struct Outlook {
    /// UNION ALL follows on this level.
    is_cut: bool,
    /// The same of each level around it that is closed, the innermost first.
    around: Stack<bool>,
}

/// What is asked of an outlook.
#[derive(Clone, Copy)]
pub struct Look {
    /// A parenthesis that closes the level follows.
    pub is_closed: bool,
    /// UNION ALL follows on the level.
    pub is_cut: bool,
}

impl Outlook {
    /// Before a token of that role, which cuts or not.
    fn pass(&mut self, role: Role, is_cut: bool) -> Result<(), NoMemory>
        ensures { OnOk result (self.new ≡ passed role is_cut self.old) }
    {
        match role {
            Role::Close => {
                self.around.push(self.is_cut)?;
                self.is_cut = false;
            }
            Role::Open => self.is_cut = self.around.pop().unwrap_or(false),
            _ => self.is_cut = self.is_cut || is_cut,
        }
        Ok(())
    }

    fn look(&self) -> Look
        ensures { result ≡ look_of self.now }
    {
        Look {
            is_closed: !self.around.is_empty(),
            is_cut: self.is_cut,
        }
    }
}

/// The tokens behind so many.
fn rest_behind(tokens: &[Token], count: usize) -> &[Token]
    requires { count ≤ length tokens.now }
    ensures { result.now ≡ drop count tokens.now }
{
    &tokens[count..]
}

/// What stands behind each of the tokens, the first in front.
pub(crate) fn looks(alloc: Global, text: &[u8], tokens: &[Token]) -> Result<Stack<Look>, NoMemory>
    ensures { IfOk result (λ looks. looks ≡ looks_at text.now tokens.now) }
{
    let mut looks = Stack::new(alloc);
    let mut outlook = Outlook {
        is_cut: false,
        around: Stack::new(alloc),
    };
    let mut at = tokens.len();
    while at > 0 {
        let rest = rest_behind(tokens, at);
        at -= 1;
        let token = tokens[at];
        looks.push(outlook.look())?;
        outlook.pass(role_of(token.kind), cuts(text, token, rest))?;
    }
    Ok(looks)
}
