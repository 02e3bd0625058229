//! The laws of frames that are received one after another, which speak of the definitions alone.

ghost use Rattle.collector_core.specs.Laws.{InOrder, Isolation, Once, Recorded, Stays};

/// What is recorded of a host hangs on what was recorded of it before and on its own frames, in their order: no frame of another host
/// changes it.
pub fn isolation()
    ensures { Isolation }
{}

/// A frame that is received twice in a row is recorded once at most.
pub fn once()
    ensures { Once }
{}

/// What is recorded of a host stays, whatever frames are received: later digests are added behind it. So a frame that is recorded is
/// never recorded again.
pub fn stays()
    ensures { Stays }
{}

/// Where the frames of a host come in the order of their numbers, from 1 on, the digests of all of them are recorded, in that order.
pub fn in_order()
    ensures { InOrder }
{}

/// Which frames of a host are recorded needs no digest: those that have the next number each time they come. The digests that are kept of
/// the host are theirs, in that order.
pub fn recorded()
    ensures { Recorded }
{}
