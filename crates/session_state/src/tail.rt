//! Entries that are not sealed yet, with room for more, so that what is promised room needs no memory.

ghost use Rattle.std.specs.Prelude.{◌≡◌, ◌+◌, ◌-◌, ◌<◌, ◌≤◌, [], ◌∷◌, ◌++◌, All, length, take, OnOk, OnErr, IfOk, max};
ghost use Rattle.session_state.specs.Sealing.{IsSealable};

use entry_model::entry::{Entry, EntryList};
use osq_value::{NoMemory, Sequence};
use std::alloc::Global;
use std::marker::Model;

/// Entries, and for how many more there is room.
#[derive(Drop)]
pub struct Tail {
    entries: Vec<Entry>,
    room: u64,
    ghost sealable: { All IsSealable entries.items },
}

impl Model for Tail {
    ghost use Rattle.std.specs.Prelude.{◌+◌, ◌≤◌, vec_len, vec_capacity};
    ghost use Rattle.session_state.specs.Tails.{EntriesAndRoom};

    ghost Value = { EntriesAndRoom };

    ghost view = { λ t. record { entries = t.entries.items; room = t.room } };

    ghost invariant = { λ t. vec_len t.entries + t.room ≤ vec_capacity t.entries };
}

impl Tail {
    /// No entries, and no room.
    pub fn new(alloc: Global) -> Self
        ensures { result ≡ record { entries = []; room = 0 } }
    {
        Tail {
            entries: Vec::new(alloc),
            room: 0,
        }
    }

    /// For how many more entries there is room.
    pub fn room(&self) -> u64
        ensures { result ≡ self.now.room }
    {
        self.room
    }

    /// Makes room for at least so many more entries.
    pub fn reserve(&mut self, room: u64) -> Result<(), NoMemory>
        ensures ok { OnOk result (self.new ≡ record self.old { room = max self.old.room room }) }
        ensures err { OnErr result (self.new ≡ self.old) }
    {
        if room <= self.room {
            return Ok(());
        }
        self.entries.reserve(room as usize)?;
        self.room = room;
        Ok(())
    }

    /// Makes room for so many entries more than there is room for.
    pub fn reserve_more(&mut self, more: u32) -> Result<(), NoMemory>
        ensures ok { OnOk result (self.new ≡ record self.old { room = self.old.room + more }) }
        ensures err { OnErr result (self.new ≡ self.old) }
    {
        let room = self.room + u64::from(more);
        self.entries.reserve(room as usize)?;
        self.room = room;
        Ok(())
    }

    /// Keeps room for so many entries fewer.
    pub fn give_back(&mut self, fewer: u64)
        requires { fewer ≤ self.old.room }
        ensures entries { self.new.entries ≡ self.old.entries }
        ensures room { self.new.room + fewer ≡ self.old.room }
    {
        self.room -= fewer;
    }

    /// Adds an entry beside the room. A refused entry is dropped.
    pub fn push(&mut self, entry: Entry) -> Result<(), NoMemory>
        requires { IsSealable entry }
        ensures ok { OnOk result (self.new ≡ record self.old { entries = self.old.entries ++ entry ∷ [] }) }
        ensures err { OnErr result (self.new ≡ self.old) }
    {
        self.entries.reserve(self.room as usize + 1)?;
        self.entries.push_reserved(entry);
        Ok(())
    }

    /// Puts an entry where there is room for it. It takes no memory.
    pub fn put(&mut self, entry: Entry)
        requires room { 0 < self.old.room }
        requires sealable { IsSealable entry }
        ensures entries { self.new.entries ≡ self.old.entries ++ entry ∷ [] }
        ensures room { self.new.room + 1 ≡ self.old.room }
    {
        self.entries.push_reserved(entry);
        self.room -= 1;
    }

    /// Takes the entries off. The room stays.
    pub fn take(&mut self, alloc: Global) -> Result<EntryList, NoMemory>
        ensures taken { IfOk result (λ taken. taken ≡ self.old.entries) }
        ensures sealable { IfOk result (All IsSealable) }
        ensures ok { OnOk result (self.new ≡ record self.old { entries = [] }) }
        ensures err { OnErr result (self.new ≡ self.old) }
    {
        let empty = Vec::with_capacity(alloc, self.room as usize)?;
        let entries = std::mem::replace(&mut self.entries, empty);
        Ok(Sequence::from_vec(entries))
    }

    /// Takes the last entry off.
    pub fn pop(&mut self)
        ensures { self.new ≡ record self.old { entries = take (length self.old.entries - 1) self.old.entries } }
    {
        self.entries.pop();
    }
}
