//! The frames of several hosts.

ghost use Rattle.std.specs.Prelude.{◌≡◌, ◌≢◌, ◌+◌, ◌++◌, ◌∷◌, [], ℕ, List, IfOk, OnErr, OnOk, length, string_bytes, true};
ghost use Rattle.batch_frames.specs.Valid.{is_valid};
ghost use Rattle.fleet_query.specs.Filled.{rows_in};
ghost use Rattle.fleet_query.specs.Fleets.{frames_in};
ghost use Rattle.fleet_query.specs.Tables.{fleet_derived, fleet_view};

use crate::filling::all_filled;
use crate::view::FleetTables;
use batch_frames::Frame;
use osq_value::{NoMemory, Sequence};
use std::alloc::Global;
use std::collections::BTreeMap;

/// The frames of a host, in the order of their numbers.
type FrameList = Sequence<Frame>;

/// The recorded frames of several hosts. Strangers name the hosts, so they are looked up by the order of their names and not by a hash.
#[derive(Drop)]
pub struct Fleet {
    hosts: BTreeMap<String, FrameList>,
    alloc: Global,
}

impl Fleet {
    /// The fleet without frames. It takes no memory until a frame is added.
    #[tactic(auto, unfolding(crate::specs::Fleets::frames_in))]
    pub fn empty(alloc: Global) -> Fleet
        ensures { (host : List ℕ) → frames_in result host ≡ [] }
    {
        Fleet {
            hosts: BTreeMap::new(alloc),
            alloc,
        }
    }

    /// The frames of a host, in the order of their numbers; none where the host is missing.
    #[tactic(auto, unfolding(crate::specs::Fleets::frames_in))]
    pub fn frames(&self, host: &str) -> &[Frame]
        ensures { result.now ≡ frames_in self.now host.now }
    {
        match self.hosts.get(host) {
            Some(frames) => frames.as_slice(),
            None => &[],
        }
    }

    /// Adds the first frame of a host, under its name.
    #[tactic(auto, unfolding(crate::specs::Fleets::frames_in))]
    fn add_first(&mut self, host: String, frame: Frame) -> Result<(), NoMemory>
        requires { frames_in self.old (string_bytes host) ≡ [] }
        ensures own { OnOk result (frames_in self.new (string_bytes host) ≡ frame ∷ []) }
        ensures others { (other : List ℕ) → other ≢ string_bytes host → frames_in self.new other ≡ frames_in self.old other }
        ensures unchanged { OnErr result (frames_in self.new (string_bytes host) ≡ frames_in self.old (string_bytes host)) }
    {
        let mut frames = FrameList::with_capacity(self.alloc, 1)?;
        frames.push(frame)?;
        self.hosts.insert(host, frames)?;
        Ok(())
    }

    /// Adds a valid frame, which is the next of its host. Where memory is wanting the frame is dropped and the fleet is as before.
    #[tactic(auto, unfolding(crate::specs::Fleets::frames_in))]
    pub fn add(&mut self, frame: Frame) -> Result<(), NoMemory>
        requires valid { is_valid frame ≡ true }
        requires next { frame.batch.number ≡ length (frames_in self.old frame.host) + 1 }
        ensures own { OnOk result (frames_in self.new frame.host ≡ frames_in self.old frame.host ++ frame ∷ []) }
        ensures others { (other : List ℕ) → other ≢ frame.host → frames_in self.new other ≡ frames_in self.old other }
        ensures unchanged { OnErr result (frames_in self.new frame.host ≡ frames_in self.old frame.host) }
    {
        match self.hosts.get_mut(frame.host.as_str()) {
            Some(frames) => frames.push(frame),
            None => {
                let host = String::from_str(self.alloc, frame.host.as_str())?;
                self.add_first(host, frame)
            }
        }
    }

    /// All tables of a host, with their rows.
    pub fn tables(&self, host: &str) -> Result<FleetTables, NoMemory>
        ensures derived { IfOk result (λ tables. tables.derived ≡ fleet_derived (frames_in self.now host.now)) }
        ensures rows { IfOk result (λ tables. (table : ℕ) → rows_in tables table ≡ fleet_view (frames_in self.now host.now) table) }
    {
        all_filled(self.alloc, self.frames(host))
    }
}
