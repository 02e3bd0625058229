//! What each step on the table tells.
ghost use Rattle.turn_lock.specs.Turns.{drew, looked, passed, learned, left_of, right_of, both_of, spent_view};

use crate::board::{Stands, View};
use atomic_table::{Join, Play, Split};
use std::marker::{Brand, PhantomData};

/// The entries that a turn adds.
pub trait Adds<E> {
    ghost use Rattle.std.specs.Prelude.{List};

    /// The entries.
    ghost added: { List E };
}

impl<E> Adds<E> for Brand {
    ghost use Rattle.std.specs.Prelude.{[]};

    ghost added = { [] };
}

/// A value that says which entries a turn adds, where contracts alone read it.
pub trait Says<E> {
    ghost use Rattle.std.specs.Prelude.{List};

    /// The entries that the value says.
    ghost says: { Self → List E };
}

/// A turn may add nothing.
impl<E> Says<E> for () {
    ghost use Rattle.std.specs.Prelude.{[]};

    ghost says = { λ _. [] };
}

pub(crate) struct Draw;

impl<T, A, E> Play<Option<T>, View<A, E>> for Draw {
    ghost then = { drew };
}

pub(crate) struct Look<T> {
    value: PhantomData<T>,
}

impl<T: Stands> Play<Option<T>, View<T::Start, T::Entry>> for Look<T> {
    ghost then = { looked T.stands };
}

pub(crate) struct Pass<B> {
    entries: PhantomData<B>,
}

impl<T, A, E, B: Adds<E>> Play<Option<T>, View<A, E>> for Pass<B> {
    ghost then = { passed B.added };
}

pub(crate) struct Learn;

impl<T, A, E> Play<Option<T>, View<A, E>> for Learn {
    ghost then = { learned };
}

pub(crate) struct Cut;

impl<A, E> Split<View<A, E>> for Cut {
    ghost left = { left_of };

    ghost right = { right_of };
}

pub(crate) struct Glue;

impl<A, E> Join<View<A, E>> for Glue {
    ghost both = { both_of };

    ghost spent = { spent_view };
}
