//! The buffers that stand, by name.
ghost use Rattle.std.specs.Prelude.{◌≡◌, OnOk, OnErr, MatchOption, [], None, Some, is_some, length, min};
ghost use Rattle.std.specs.BTreeMap.{is_at, insert_entry};
ghost use Rattle.std.specs.Map.{set_value};
ghost use Rattle.std.specs.Cmp.Lexicographic.{slice_cmp};
ghost use Rattle.std.specs.Ordering.{nat_cmp};
ghost use Rattle.dt_names.specs.Names.{under, bytes_in};

use crate::buffer::Buffer;
use dt_kinds::NoMemory;
use dt_script::Name;
use std::alloc::Global;
use std::collections::BTreeMap;
use std::marker::Model;
use std::mem::replace;

/// The buffers that stand, each under a name.
#[derive(Drop)]
pub struct Buffers {
    names: BTreeMap<Name, Buffer>,
}

impl Model for Buffers {
    ghost use Rattle.std.specs.Prelude.{ℕ, List};

    ghost Value = { List (List ℕ × List ℕ) };

    ghost view = { λ b. b.names.entries };
}

impl Buffers {
    /// No buffers. It takes no memory.
    pub fn new(alloc: Global) -> Buffers
        ensures { result ≡ [] }
    {
        Buffers {
            names: BTreeMap::new(alloc),
        }
    }

    /// How many buffers stand.
    pub fn len(&self) -> usize
        ensures { result ≡ length self.now }
    {
        self.names.len()
    }

    /// Whether a buffer of this name stands.
    pub fn contains(&self, name: &Name) -> bool
        ensures { result ≡ is_some (under name.now self.now) }
    {
        self.names.contains_key(name)
    }

    /// The bytes of a buffer, where it stands.
    pub fn get(&self, name: &Name) -> Option<&[u8]>
        ensures { MatchOption result (under name.now self.now ≡ None) (λ bytes. under name.now self.now ≡ Some bytes.now) }
    {
        match self.names.get(name) {
            Some(buffer) => Some(buffer.as_slice()),
            None => None,
        }
    }

    /// The bytes of all buffers together, as far as 64 bits hold them.
    pub fn bytes_held(&self) -> u64
        ensures { result ≡ min (bytes_in self.now) 18446744073709551615 }
    {
        let mut held: u64 = 0;
        for (_name, buffer) in &self.names {
            held = held.saturating_add(buffer.len() as u64);
        }
        held
    }

    /// Lets a name stand for a buffer. Where memory runs out nothing is changed.
    pub fn add(&mut self, name: Name, buffer: Buffer) -> Result<(), NoMemory>
        ensures ok { OnOk result (self.new ≡ insert_entry (slice_cmp nat_cmp) self.old name buffer) }
        ensures err { OnErr result (self.new ≡ self.old) }
    {
        self.names.insert(name, buffer)?;
        Ok(())
    }

    /// Puts a buffer in the place of one that stands, and answers the old one. It takes no memory.
    pub fn swap(&mut self, name: &Name, buffer: Buffer) -> Buffer
        requires { ¬ (under name.now self.old ≡ None) }
        ensures was { under name.now self.old ≡ Some result }
        ensures swapped { self.new ≡ set_value (is_at (slice_cmp nat_cmp name.now)) self.old buffer }
    {
        let Some(old) = self.names.get_mut(name) else {
            unreachable!()
        };
        replace(old, buffer)
    }
}
