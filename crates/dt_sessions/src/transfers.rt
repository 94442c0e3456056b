//! The buffers that stand, and the sessions that are open, by name.
ghost use Rattle.std.specs.Prelude.{◌≡◌, ◌≢◌, ℕ, List, OnOk, OnErr, MatchOption, None, Some, is_some, length, min};
ghost use Rattle.std.specs.Option.{IsSomeAnd};
ghost use Rattle.dt_copy.specs.Copied.{copied};
ghost use Rattle.dt_names.specs.Names.{under, bytes_in};
ghost use Rattle.dt_reduce.specs.declared.fault.AllFault.TheVariants as AllFault;
ghost use Rattle.dt_reduce.specs.Folded.{folded};
ghost use Rattle.dt_reduce.specs.Ranks.{elements_at, CanReduceAll};
ghost use Rattle.dt_reduce.specs.Reduced.{reduced};
ghost use Rattle.dt_sessions.specs.Open.{nothing_stands, packed_in, next_in, opened_at, receipt_in, CanGive, CanSeek, CanTake, StandsWith, with_buffer, with_bytes, with_given, with_opened, with_moved, without_session, IsOver, IsSmall};
ghost use Rattle.dt_sessions.specs.declared.session.Opened.{Opened as OpenedValue};

use crate::session::{Opened, Session};
use dt_copy::CopyPlan;
use dt_kinds::NoMemory;
use dt_names::{Buffer, Buffers};
use dt_ops::{Call, Law, StoredOp};
use dt_reduce::{AllFault, Ranks, ReducePlan, reduce_all};
use dt_reply::Receipt;
use dt_script::Name;
use std::alloc::Global;
use std::collections::BTreeMap;
use std::marker::Model;

/// The buffers that stand, and the sessions that are open over them, each under a name.
#[derive(Drop)]
pub struct Transfers {
    buffers: Buffers,
    sessions: BTreeMap<Name, Opened>,
}

impl Model for Transfers {
    ghost use Rattle.dt_sessions.specs.Open.{Standing, HoldsOpen};

    ghost Value = { Standing };

    ghost view = { λ t. record { buffers = t.buffers; sessions = t.sessions.entries } };

    ghost invariant = { λ t. HoldsOpen t.buffers t.sessions.entries };
}

/// The fault that is want of memory.
fn only_memory(fault: AllFault) -> NoMemory
    requires { fault ≡ AllFault.NoMemory }
{
    match fault {
        AllFault::NoMemory => NoMemory,
        _ => unreachable!(),
    }
}

impl Transfers {
    /// No buffers, and no session. It takes no memory.
    pub fn new(alloc: Global) -> Transfers
        ensures { result ≡ nothing_stands }
    {
        Transfers {
            buffers: Buffers::new(alloc),
            sessions: BTreeMap::new(alloc),
        }
    }

    /// How many buffers stand.
    pub fn count_of_buffers(&self) -> usize
        ensures { result ≡ length self.now.buffers }
    {
        self.buffers.len()
    }

    /// Whether a buffer of this name stands.
    pub fn has_buffer(&self, name: &Name) -> bool
        ensures { result ≡ is_some (under name.now self.now.buffers) }
    {
        self.buffers.contains(name)
    }

    /// The bytes of a buffer, where it stands.
    pub fn buffer(&self, name: &Name) -> Option<&[u8]>
        ensures { MatchOption result (under name.now self.now.buffers ≡ None) (λ bytes. (under name.now self.now.buffers ≡ Some bytes.now) × IsSmall bytes.now) }
    {
        let bytes = self.buffers.get(name)?;
        Some(bytes)
    }

    /// The bytes of all buffers together, as far as 64 bits hold them.
    pub fn bytes_held(&self) -> u64
        ensures { result ≡ min (bytes_in self.now.buffers) 18446744073709551615 }
    {
        self.buffers.bytes_held()
    }

    /// Lets a new name stand for a buffer. Where memory runs out nothing is changed.
    pub fn add_buffer(&mut self, name: Name, buffer: Buffer) -> Result<(), NoMemory>
        requires new { under name self.old.buffers ≡ None }
        requires small { IsSmall buffer }
        ensures ok { OnOk result (self.new ≡ with_buffer self.old name buffer) }
        ensures err { OnErr result (self.new ≡ self.old) }
    {
        self.buffers.add(name, buffer)?;
        Ok(())
    }

    /// How many sessions are open.
    pub fn count_of_sessions(&self) -> usize
        ensures { result ≡ length self.now.sessions }
    {
        self.sessions.len()
    }

    /// Whether a session of this name is open.
    pub fn is_open(&self, name: &Name) -> bool
        ensures { result ≡ is_some (under name.now self.now.sessions) }
    {
        self.sessions.contains_key(name)
    }

    /// The session of a name.
    pub fn session(&self, name: &Name) -> Option<&Session>
        ensures { MatchOption result (under name.now self.now.sessions ≡ None) (λ s. IsSomeAnd (under name.now self.now.sessions) (λ opened. opened.session ≡ s.now)) }
    {
        match self.sessions.get(name) {
            Some(opened) => Some(&opened.session),
            None => None,
        }
    }

    /// The packed bytes of all open sessions together, as far as 64 bits hold them.
    pub fn packed_bytes(&self) -> u64
        ensures { result ≡ min (packed_in self.now.sessions) 18446744073709551615 }
    {
        let mut all: u64 = 0;
        'sessions: for (_name, opened) in &self.sessions {
            all = all.saturating_add(opened.session.total());
        }
        all
    }

    /// Lets a name stand for a session over a buffer, in place of one that it stood for. Where memory runs out nothing is changed.
    pub fn open(&mut self, name: Name, opened: Opened) -> Result<(), NoMemory>
        requires { IsOver self.old.buffers opened }
        ensures ok { OnOk result (self.new ≡ with_opened self.old name opened) }
        ensures err { OnErr result (self.new ≡ self.old) }
    {
        self.sessions.insert(name, opened)?;
        Ok(())
    }

    /// Goes to a packed byte of a session. It takes no memory.
    pub fn seek(&mut self, name: &Name, byte: u64)
        requires { IsSomeAnd (under name.now self.old.sessions) (λ opened. CanSeek opened.session byte) }
        ensures { (opened : OpenedValue) → under name.now self.old.sessions ≡ Some opened → self.new ≡ with_moved self.old name.now (opened_at opened byte) }
    {
        let Some(opened) = self.sessions.get_mut(name) else {
            unreachable!()
        };
        opened.session.seek(byte);
    }

    /// Fills `out` with the next packed bytes of a session, of its buffer as it is now; the session stays where it is. It takes no
    /// memory.
    pub fn peek(&mut self, name: &Name, out: &mut [u8])
        requires { IsSomeAnd (under name.now self.old.sessions) (λ opened. CanTake opened.session (length out.old)) }
        ensures same { self.new ≡ self.old }
        ensures bytes { (opened : OpenedValue) → under name.now self.old.sessions ≡ Some opened → (bytes : List ℕ) × (under opened.buffer self.old.buffers ≡ Some bytes) × (out.new ≡ next_in opened.session bytes (length out.old)) }
    {
        let Some(opened) = self.sessions.get_mut(name) else {
            unreachable!()
        };
        let Some(buffer) = self.buffers.get(&opened.buffer) else {
            unreachable!()
        };
        opened.session.peek(buffer, out);
    }

    /// Gives a session the next packed bytes, and sets the elements of its buffer, as it is now, that they complete. Answers what they
    /// came to. It takes no memory.
    pub fn give(&mut self, alloc: Global, name: &Name, piece: &[u8]) -> Receipt
        requires { IsSomeAnd (under name.now self.old.sessions) (λ opened. CanGive opened.session piece.now) }
        ensures { (opened : OpenedValue) → under name.now self.old.sessions ≡ Some opened → (bytes : List ℕ) × (under opened.buffer self.old.buffers ≡ Some bytes) × (self.new ≡ with_given self.old name.now opened bytes piece.now) × (result ≡ receipt_in opened.session piece.now) }
    {
        let Some(opened) = self.sessions.get_mut(name) else {
            unreachable!()
        };
        let nothing = Buffer::from_vec(Vec::new(alloc));
        let mut bytes = self.buffers.swap(&opened.buffer, nothing).into_vec();
        let receipt = opened.session.give(&mut bytes, piece);
        self.buffers.swap(&opened.buffer, Buffer::from_vec(bytes));
        receipt
    }

    /// Copies the elements of a plan from one buffer to another: those of the source, as it is now, to the places of the target's.
    /// Nothing else that stands changes, and the plan stays as it was. Answers how many elements these are. It takes no memory.
    pub fn copy(&mut self, alloc: Global, plan: &mut CopyPlan, source: &Name, target: &Name) -> u64
        requires apart { source.now ≢ target.now }
        requires source { StandsWith self.old source.now plan.old.source_len }
        requires target { StandsWith self.old target.now plan.old.target_len }
        ensures bytes { (from to : List ℕ) → under source.now self.old.buffers ≡ Some from → under target.now self.old.buffers ≡ Some to → self.new ≡ with_bytes self.old target.now (copied plan.old.source plan.old.target from to) }
        ensures elements { result ≡ length plan.old.source }
        ensures again { plan.new ≡ plan.old }
    {
        let nothing = Buffer::from_vec(Vec::new(alloc));
        let mut bytes = self.buffers.swap(target, nothing).into_vec();
        let Some(from) = self.buffers.get(source) else {
            unreachable!()
        };
        let elements = plan.run(from, &mut bytes);
        self.buffers.swap(target, Buffer::from_vec(bytes));
        elements
    }

    /// Reduces the elements of one buffer by those of another: each word of the target becomes what the source's word of the same number
    /// and it are joined to, as both are now. Nothing else that stands changes, and the plan stays as it was. Answers how many elements
    /// these are. It takes no memory.
    pub fn reduce<L: Law, F: Call>(
        &mut self,
        alloc: Global,
        plan: &mut ReducePlan,
        op: &StoredOp<L, F>,
        source: &Name,
        target: &Name,
    ) -> u64
        requires apart { source.now ≢ target.now }
        requires source { StandsWith self.old source.now plan.old.source_len }
        requires target { StandsWith self.old target.now plan.old.target_len }
        ensures bytes { (from to : List ℕ) → under source.now self.old.buffers ≡ Some from → under target.now self.old.buffers ≡ Some to → self.new ≡ with_bytes self.old target.now (reduced L.join plan.old.source plan.old.target from to) }
        ensures elements { result ≡ length plan.old.target }
        ensures again { plan.new ≡ plan.old }
    {
        let nothing = Buffer::from_vec(Vec::new(alloc));
        let mut bytes = self.buffers.swap(target, nothing).into_vec();
        let Some(from) = self.buffers.get(source) else {
            unreachable!()
        };
        let elements = plan.run(op, from, &mut bytes);
        self.buffers.swap(target, Buffer::from_vec(bytes));
        elements
    }

    /// Reduces ranks into the elements of a buffer, where the operation begins at an origin: each word becomes what the ranks' words of the
    /// same number are joined to. Nothing else that stands changes. Where memory runs out nothing is changed.
    pub fn reduce_all<L: Law, F: Call>(
        &mut self,
        alloc: Global,
        op: &StoredOp<L, F>,
        ranks: &mut Ranks,
        merges: &[u32],
        origin: i64,
        target: &Name,
    ) -> Result<(), NoMemory>
        requires { IsSomeAnd (under target.now self.old.buffers) (λ into. CanReduceAll ranks.old merges.now origin (length into)) }
        ensures ok { (into : List ℕ) → under target.now self.old.buffers ≡ Some into → OnOk result (self.new ≡ with_bytes self.old target.now (folded L.join (elements_at ranks.old origin) ranks.old.rows into)) }
        ensures err { OnErr result (self.new ≡ self.old) }
    {
        let nothing = Buffer::from_vec(Vec::new(alloc));
        let mut bytes = self.buffers.swap(target, nothing).into_vec();
        let answer = reduce_all(alloc, op, ranks, merges, origin, &mut bytes);
        self.buffers.swap(target, Buffer::from_vec(bytes));
        match answer {
            Ok(_) => Ok(()),
            Err(fault) => Err(only_memory(fault)),
        }
    }

    /// Takes a session away.
    pub fn close(&mut self, name: &Name)
        ensures { self.new ≡ without_session self.old name.now }
    {
        self.sessions.remove(name);
    }
}
