//! The digests of the recorded frames, host by host.

ghost use Rattle.std.specs.Prelude.{◌≡◌, ◌≢◌, ◌+◌, ◌≤◌, [], ℕ, List, true, length, OnOk, OnErr, IfOk, IfErr};
ghost use Rattle.batch_frames.specs.Texts.{digest_of};
ghost use Rattle.batch_frames.specs.Valid.{is_valid};
ghost use Rattle.collector_core.specs.Ledgers.{digests_of};
ghost use Rattle.collector_core.specs.Received.{received};
ghost use Rattle.collector_core.specs.Receipts.{kept_after, receipt_of};

use crate::receipt::{Digest, Receipt, receipt_of};
use batch_frames::Frame;
use osq_value::{NoMemory, Sequence, Str};
use std::alloc::Global;
use std::collections::BTreeMap;

/// The digests of a host's frames, from number 1 on.
type Digests = Sequence<Digest>;

/// The digests of the recorded frames, host by host. Strangers name the hosts, so they are looked up by the order of their names: a hash whose seed is
/// known would let them choose names that share one.
#[derive(Drop)]
pub struct Ledger {
    hosts: BTreeMap<String, Digests>,
}

/// Takes a frame of a host of which these are recorded.
fn take_next(digests: &mut Digests, number: u64, digest: Digest) -> Result<Receipt, NoMemory>
    requires { 1 ≤ number }
    ensures receipt { IfOk result (λ receipt. receipt ≡ receipt_of digests.old number digest) }
    ensures kept { OnOk result (digests.new ≡ kept_after digests.old number digest) }
    ensures unchanged { OnErr result (digests.new ≡ digests.old) }
    ensures memory { IfErr result (λ _. number ≡ length digests.old + 1) }
{
    let receipt = receipt_of(digests.as_slice(), number, digest);
    if let Receipt::Recorded = receipt {
        digests.push(digest)?;
    }
    Ok(receipt)
}

impl Ledger {
    /// The ledger without frames. It takes no memory until a frame is recorded.
    #[tactic(auto, unfolding(crate::specs::Ledgers::digests_of))]
    pub fn empty(alloc: Global) -> Ledger
        ensures { (host : List ℕ) → digests_of result host ≡ [] }
    {
        Ledger {
            hosts: BTreeMap::new(alloc),
        }
    }

    #[tactic(auto, unfolding(crate::specs::Ledgers::digests_of))]
    fn kept(&self, host: &Str) -> &[Digest]
        ensures { result.now ≡ digests_of self.now host.now }
    {
        match self.hosts.get(host.as_str()) {
            Some(digests) => digests.as_slice(),
            None => &[],
        }
    }

    /// How many frames of a host are recorded: those numbered from 1 up to this number.
    pub fn recorded(&self, host: &Str) -> u64
        ensures { result ≡ length (digests_of self.now host.now) }
    {
        self.kept(host).len() as u64
    }

    /// Takes a frame of a host of which none is recorded.
    #[tactic(auto, unfolding(crate::specs::Ledgers::digests_of))]
    fn take_first(
        &mut self,
        alloc: Global,
        host: &Str,
        number: u64,
        digest: Digest,
    ) -> Result<Receipt, NoMemory>
        requires number { 1 ≤ number }
        requires none { digests_of self.old host.now ≡ [] }
        ensures receipt { IfOk result (λ receipt. receipt ≡ receipt_of [] number digest) }
        ensures own { OnOk result (digests_of self.new host.now ≡ kept_after [] number digest) }
        ensures others { (other : List ℕ) → other ≢ host.now → digests_of self.new other ≡ digests_of self.old other }
        ensures unchanged { OnErr result (digests_of self.new host.now ≡ digests_of self.old host.now) }
        ensures memory { IfErr result (λ _. number ≡ 1) }
    {
        let mut digests = Digests::new(alloc);
        let receipt = take_next(&mut digests, number, digest)?;
        if let Receipt::Recorded = receipt {
            self.hosts
                .insert(String::from_str(alloc, host.as_str())?, digests)?;
        }
        Ok(receipt)
    }

    /// Takes a frame of a host, which is looked up once.
    #[tactic(auto, unfolding(crate::specs::Ledgers::digests_of))]
    fn take(
        &mut self,
        alloc: Global,
        host: &Str,
        number: u64,
        digest: Digest,
    ) -> Result<Receipt, NoMemory>
        requires { 1 ≤ number }
        ensures receipt { IfOk result (λ receipt. receipt ≡ receipt_of (digests_of self.old host.now) number digest) }
        ensures own { OnOk result (digests_of self.new host.now ≡ kept_after (digests_of self.old host.now) number digest) }
        ensures others { (other : List ℕ) → other ≢ host.now → digests_of self.new other ≡ digests_of self.old other }
        ensures unchanged { OnErr result (digests_of self.new host.now ≡ digests_of self.old host.now) }
        ensures memory { IfErr result (λ _. number ≡ length (digests_of self.old host.now) + 1) }
    {
        match self.hosts.get_mut(host.as_str()) {
            Some(digests) => take_next(digests, number, digest),
            None => self.take_first(alloc, host, number, digest),
        }
    }

    /// Takes a valid frame with its digest. With `n` the number of recorded frames of its host, the frame numbered `n + 1` is
    /// recorded, and one with a greater number is a Gap. One with a smaller number is a Repeat where the digest that is kept of that
    /// number is this one, and else a Conflict. Only a Recorded frame changes the ledger, by one digest of its host, and only it
    /// takes memory; where that is wanting, the ledger is as before.
    pub fn receive(
        &mut self,
        alloc: Global,
        frame: &Frame,
        digest: Digest,
    ) -> Result<Receipt, NoMemory>
        requires valid { is_valid frame.now ≡ true }
        requires digest { digest ≡ digest_of frame.now }
        ensures receipt { IfOk result (λ receipt. receipt ≡ receipt_of (digests_of self.old frame.now.host) frame.now.batch.number digest) }
        ensures step { OnOk result ((host : List ℕ) → digests_of self.new host ≡ received (digests_of self.old) frame.now host) }
        ensures others { (other : List ℕ) → other ≢ frame.now.host → digests_of self.new other ≡ digests_of self.old other }
        ensures unchanged { OnErr result ((host : List ℕ) → digests_of self.new host ≡ digests_of self.old host) }
        ensures memory { IfErr result (λ _. frame.now.batch.number ≡ length (digests_of self.old frame.now.host) + 1) }
    {
        self.take(alloc, &frame.host, frame.batch.number, digest)
    }
}
