//! The parts of a nested text and its chains of selects: their byte places.

ghost use Rattle.std.specs.Prelude.{◌≡◌, IfOk, OnOk};
ghost use Rattle.sql_nested.specs.Chains.{opened_at as opened_there, begun, ended as ended_at, cut_at, part_of, closed_by, opened_by, traced, outline_of as outline_in};

use crate::role::{Role, cuts, next_of, opens_part, role_of};
use crate::stack::Stack;
use osq_value::{NoMemory, Sequence};
use sql_tokens::token::Token;
use sql_tree::span::Span;
use std::alloc::Global;
use std::mem;

/// Byte places in their order.
pub type SpanList = Sequence<Span>;

/// A part of a nested text.
#[derive(Drop)]
pub struct Part {
    /// Its byte places, with its parentheses.
    pub span: Span,
    /// Those of its selects.
    pub selects: SpanList,
}

/// Parts in the order of the parentheses that close them.
pub type PartList = Sequence<Part>;

/// What a nested text consists of.
#[derive(Drop)]
pub struct Outline {
    /// Its parts.
    pub parts: PartList,
    /// The byte places of the selects of the text itself.
    pub selects: SpanList,
}

/// What is open at a place, and what of it stands before.
#[derive(Drop)]
pub struct Chain {
    /// The byte place of the parenthesis that opened it.
    opened: usize,
    /// That parenthesis opened a part.
    is_part: bool,
    /// Where the select begins that stands there.
    from: usize,
    /// The selects before.
    selects: SpanList,
}

/// What is known of a nested text before a place.
#[derive(Drop)]
pub struct Trace {
    /// What is open there.
    chain: Chain,
    /// What is open around that, the innermost first.
    around: Stack<Chain>,
    /// The parts that are closed before.
    parts: PartList,
}

impl Chain {
    /// Behind a parenthesis that opens, with these tokens behind it.
    fn opened_at(alloc: Global, token: Token, rest: &[Token]) -> Chain
        ensures { result ≡ opened_there token rest.now }
    {
        Chain {
            opened: token.span.start,
            is_part: opens_part(rest),
            from: token.span.end,
            selects: Sequence::new(alloc),
        }
    }

    /// UNION ALL stands from one place to the other.
    fn cut(&mut self, to: usize, from: usize) -> Result<(), NoMemory>
        ensures { OnOk result (self.new ≡ cut_at to from self.old) }
    {
        self.selects.push(Span {
            start: self.from,
            end: to,
        })?;
        self.from = from;
        Ok(())
    }

    /// The selects, of which the last ends there.
    fn ended(self, to: usize) -> Result<SpanList, NoMemory>
        ensures { IfOk result (λ selects. selects ≡ ended_at to self) }
    {
        let mut selects = self.selects;
        selects.push(Span {
            start: self.from,
            end: to,
        })?;
        Ok(selects)
    }

    /// The part that this token closes.
    fn part(self, token: Token) -> Result<Part, NoMemory>
        ensures { IfOk result (λ part. part ≡ part_of token self) }
    {
        let span = Span {
            start: self.opened,
            end: token.span.end,
        };
        let selects = self.ended(token.span.start)?;
        Ok(Part { span, selects })
    }
}

impl Trace {
    /// Before the first token.
    fn begun(alloc: Global) -> Trace
        ensures { result ≡ begun }
    {
        Trace {
            chain: Chain {
                opened: 0,
                is_part: false,
                from: 0,
                selects: Sequence::new(alloc),
            },
            around: Stack::new(alloc),
            parts: Sequence::new(alloc),
        }
    }

    /// Goes past a parenthesis that closes.
    fn close(&mut self, token: Token) -> Result<(), NoMemory>
        ensures { OnOk result (self.new ≡ closed_by token self.old.around self.old) }
    {
        let Some(outer) = self.around.pop() else {
            return Ok(());
        };
        let closed = mem::replace(&mut self.chain, outer);
        if closed.is_part {
            self.parts.push(closed.part(token)?)?;
        }
        Ok(())
    }

    /// Goes past a parenthesis that opens.
    fn open(&mut self, alloc: Global, token: Token, rest: &[Token]) -> Result<(), NoMemory>
        ensures { OnOk result (self.new ≡ opened_by token rest.now self.old) }
    {
        let outer = mem::replace(&mut self.chain, Chain::opened_at(alloc, token, rest));
        self.around.push(outer)
    }

    /// Goes past a token, with these behind it.
    #[tactic(auto, unfolding(crate::specs::Chains::traced))]
    fn pass(
        &mut self,
        alloc: Global,
        text: &[u8],
        token: Token,
        rest: &[Token],
    ) -> Result<(), NoMemory>
        ensures { OnOk result (self.new ≡ traced text.now token rest.now self.old) }
    {
        match role_of(token.kind) {
            Role::Open => self.open(alloc, token, rest),
            Role::Close => self.close(token),
            _ => {
                if cuts(text, token, rest) {
                    self.chain.cut(token.span.start, next_of(rest).span.end)
                } else {
                    Ok(())
                }
            }
        }
    }
}

/// The parts of a nested text with these tokens, in the order of the parentheses that close them, and the
/// byte places of all selects. UNION ALL stands between the selects of a chain.
#[tactic(auto, unfolding(crate::specs::Chains::outline_of))]
pub fn outline_of(alloc: Global, text: &[u8], tokens: &[Token]) -> Result<Outline, NoMemory>
    ensures { IfOk result (λ outline. outline ≡ outline_in text.now tokens.now) }
{
    let mut trace = Trace::begun(alloc);
    let mut rest = tokens;
    while let [token, tail @ ..] = rest {
        trace.pass(alloc, text, *token, tail)?;
        rest = tail;
    }
    Ok(Outline {
        parts: trace.parts,
        selects: trace.chain.ended(text.len())?,
    })
}
