ghost use Rattle.std.specs.Prelude.{◌≡◌, ◌∷◌, ◌++◌, ◌+◌, ◌<◌, [], max, OnOk, OnErr};

use crate::command::Command;
use crate::reply::Reply;
use h2_num::NoMemory;
use std::alloc::Global;
use std::marker::Model;

/// One command with its reply.
#[derive(Drop, Debug)]
pub struct Entry {
    /// The phase of the script, from 0.
    pub phase: u32,
    /// The client, 0 to 7.
    pub client: u32,
    /// Which command of its client it is, from 0 over the whole script.
    pub index: u32,
    pub command: Command,
    pub reply: Reply,
}

/// What the volume did beside its replies. A number is a header's, a moment is the disk's.
#[derive(Clone, Copy, Debug, PartialEq, Eq)]
pub enum Mark {
    /// All that is dirty was frozen, for this header.
    Freeze {
        number: u64,
        moment: u64,
    },
    /// A write of the header began, at this moment; it may have failed.
    HeaderOut {
        number: u64,
        moment: u64,
    },
    /// The header is durable: its sync succeeded, and reached this moment.
    HeaderDone {
        number: u64,
        moment: u64,
    },
    /// A pass begins to scan what was frozen for this header.
    ScanBegin {
        number: u64,
    },
    /// The pass applied what it saw to a segment: so many chunks were staged, and so many freed.
    Applied {
        segment: u32,
        staged: u32,
        freed: u32,
    },
}

/// One thing that happened.
#[derive(Drop, Debug)]
pub enum Item {
    Call(Entry),
    Mark(Mark),
}

/// What happened in a run, in order. Places for items can be reserved, so that a later one is appended
/// without memory.
#[derive(Drop, Debug)]
pub struct History {
    list: Vec<Item>,
    spare: u32,
}

impl Model for History {
    ghost use Rattle.std.specs.Prelude.{◌≤◌, ◌+◌};
    ghost use Rattle.std.specs.Vec.{vec_len, vec_capacity};
    ghost use Rattle.h2_command.specs.History.{Recorded};

    ghost Value = { Recorded };

    ghost view = { λ h. record { items = h.list.items; spare = h.spare } };

    ghost invariant = { λ h. vec_len h.list + h.spare ≤ vec_capacity h.list };
}

impl History {
    /// Nothing happened, and no place is reserved. It takes no memory.
    pub fn new(alloc: Global) -> History
        ensures empty { result.items ≡ [] }
        ensures none_spare { result.spare ≡ 0 }
    {
        History {
            list: Vec::new(alloc),
            spare: 0,
        }
    }

    /// Appends an item beside the reserved places. Want of memory changes nothing.
    pub fn push(&mut self, item: Item) -> Result<(), NoMemory>
        ensures appended { OnOk result (self.new.items ≡ self.old.items ++ item ∷ []) }
        ensures spare_kept { self.new.spare ≡ self.old.spare }
        ensures err { OnErr result (self.new ≡ self.old) }
    {
        self.list.reserve(self.spare as usize + 1)?;
        self.list.push(item)?;
        Ok(())
    }

    /// Reserves so many places, where fewer are reserved. Want of memory changes nothing.
    pub fn reserve(&mut self, n: u32) -> Result<(), NoMemory>
        ensures items_kept { self.new.items ≡ self.old.items }
        ensures reserved { OnOk result (self.new.spare ≡ max self.old.spare n) }
        ensures err { OnErr result (self.new ≡ self.old) }
    {
        if n <= self.spare {
            return Ok(());
        }
        self.list.reserve(n as usize)?;
        self.spare = n;
        Ok(())
    }

    /// Appends an item in a reserved place. It takes no memory.
    pub fn push_spare(&mut self, item: Item)
        requires { 0 < self.old.spare }
        ensures appended { self.new.items ≡ self.old.items ++ item ∷ [] }
        ensures one_less { self.new.spare + 1 ≡ self.old.spare }
    {
        let Ok(()) = self.list.push(item) else {
            unreachable!()
        };
        self.spare -= 1;
    }

    /// The items in order.
    pub fn items(&self) -> &[Item]
        ensures { result.now ≡ self.now.items }
    {
        &self.list
    }
}
