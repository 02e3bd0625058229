//! Which batch's frame is sent next.

ghost use Rattle.std.specs.Prelude.{◌≡◌};
ghost use Rattle.batch_forwarder.specs.Windows.{acked_of, after_answer, after_next, fresh, mark_by, moves, next_of, restarted, sealed_of};

/// The most batches that are sent and not acknowledged.
pub(crate) const IN_FLIGHT: u64 = 64;

/// Up to which number the batches of a host are acknowledged, how many are sealed, and which was given last to be sent. It takes no memory.
#[derive(Drop)]
pub struct Forwarder {
    acked: u64,
    sealed: u64,
    last: u64,
}

impl Forwarder {
    /// The batches up to this number are acknowledged, so many are sealed, and none was given yet.
    pub fn new(acked: u64, sealed: u64) -> Forwarder
        ensures { result ≡ fresh acked sealed }
    {
        Forwarder {
            acked,
            sealed,
            last: acked,
        }
    }

    /// The batches up to this number are acknowledged.
    pub fn acked(&self) -> u64
        ensures { result ≡ acked_of self.now }
    {
        self.acked
    }

    /// The number after the last one given since the last restart. None exactly where that number is above the count of sealed batches, or
    /// more than 64 above the acknowledged mark.
    ///
    /// ```
    /// let mut forwarder = Forwarder::new(2, 4);
    /// forwarder.next()   // Some(3)
    /// forwarder.next()   // Some(4)
    /// forwarder.next()   // None
    /// ```
    pub fn next(&mut self) -> Option<u64>
        ensures number { result ≡ next_of self.old }
        ensures after { self.new ≡ after_next self.old }
    {
        if self.last < self.sealed && self.last < self.acked.saturating_add(IN_FLIGHT) {
            self.last += 1;
            Some(self.last)
        } else {
            None
        }
    }

    /// So many batches are sealed now.
    pub fn sealed(&mut self, count: u64)
        ensures { self.new ≡ record self.old { sealed = count } }
    {
        self.sealed = count;
    }

    /// The number after the acknowledged mark is given next.
    pub fn restart(&mut self)
        ensures { self.new ≡ restarted self.old }
    {
        self.last = self.acked;
    }

    /// An answer that tells of so many recorded frames moves the mark: it is above the mark, and no more than are sealed.
    pub fn moves(&self, recorded: u64) -> bool
        ensures { result ≡ moves self.now recorded }
    {
        self.acked < recorded && recorded <= self.sealed
    }

    /// Takes an answer that tells of so many recorded frames: the new acknowledged mark, exactly where it is above the mark before and no
    /// more than are sealed.
    ///
    /// ```
    /// let mut forwarder = Forwarder::new(2, 4);
    /// forwarder.on_answer(2)   // None
    /// forwarder.on_answer(5)   // None
    /// forwarder.on_answer(4)   // Some(4)
    /// ```
    pub fn on_answer(&mut self, recorded: u64) -> Option<u64>
        ensures mark { result ≡ mark_by self.old recorded }
        ensures after { self.new ≡ after_answer self.old recorded }
    {
        if self.moves(recorded) {
            self.acked = recorded;
            Some(recorded)
        } else {
            None
        }
    }
}
