ghost use Rattle.std.specs.Prelude.{◌≡◌, ◌↔◌, ◌++◌, ℕ, List, IsTrue, true, false, IfOk, OnOk, OnErr, MatchOption, MatchResult, None, Some, min, length};
ghost use Rattle.std.specs.Option.{option_map_or, IsSomeAnd};
ghost use Rattle.dt_machine.specs.Outcome.{CanChange, ComesTo, IsGift, changed};
ghost use Rattle.dt_names.specs.Missing.{IsMissing};
ghost use Rattle.dt_machine.specs.State.{first_state, type_of, buffer_of, is_unknown, is_basic_word, is_type_taken, is_buffer_taken, bytes_held, session_of, is_session_taken, packed_open, with_count};
ghost use Rattle.dt_sessions.specs.declared.session.Opened.{Opened as OpenedValue};
ghost use Rattle.dt_script.specs.Command.{HasRanks};
ghost use Rattle.dt_script.specs.declared.command.Command.TheVariants.{Give};
ghost use Rattle.dt_sessions.specs.Open.{next_in, receipt_in, CanGive, CanTake, IsSmall};
ghost use Rattle.dt_names.specs.Names.{under};
ghost use Rattle.dt_machine.specs.Refusal.{NoMoreTypes};
ghost use Rattle.dt_names.specs.Found.{IsFoundType};
ghost use Rattle.dt_machine.specs.Step.{Step, Obeys, with_piece};
ghost use Rattle.dt_reply.specs.Reply.{Gives, Responds, text_of};
ghost use Rattle.dt_reply.specs.declared.reply.Reply.TheVariants.{Refused};

use crate::combining::{copy_buffers, fold_buffers, reduce_buffers};
use crate::limits::{MOST_MADE, MOST_TYPES};
use crate::outcome::{Change, Outcome};
use crate::state::Totals;
use dt_kinds::NoMemory;
use dt_names::{Found, Kept, Stop, Types};
use dt_reply::{Receipt, Refusal, Reply};
use dt_script::{Bytes, Command, LineFault, Name, parse_line};
use dt_sessions::{Session, Transfers};
use dt_tree::Weights;
use std::alloc::Global;
use std::marker::Model;

/// The types, buffers and sessions of a script and the weights of its trees, changed by its lines.
#[derive(Drop)]
pub struct Machine {
    pub(crate) alloc: Global,
    types: Types,
    transfers: Transfers,
    weights: Weights,
    totals: Totals,
}

impl Model for Machine {
    ghost use Rattle.dt_machine.specs.State.{State};

    ghost Value = { State };

    ghost use Rattle.std.specs.Coded.{codes};
    ghost use Rattle.dt_type.specs.contracts.datatype.Datatype as datatype;

    ghost coded = { Prim.hlevel (codes, datatype.the_row.coded) };

    ghost view = { λ m. record { types = m.types.entries; made = m.types.made; buffers = m.transfers.buffers; sessions = m.transfers.sessions; weights = m.weights; totals = m.totals } };
}

/// The session and the piece of a command that gives one.
fn gift(command: &Command) -> Option<(&Name, &[u8])>
    ensures { MatchOption result (¬ IsGift command.now) (λ gift. command.now ≡ Give gift.0.now gift.1.now) }
{
    match command {
        Command::Give { session, bytes } => Some((session, bytes.as_slice())),
        _ => None,
    }
}

impl Machine {
    /// A machine that remembers nothing, with the default weights. It takes no memory.
    pub fn new(alloc: Global) -> Machine
        ensures { result ≡ first_state }
    {
        let totals = Totals {
            commands: 0,
            taken: 0,
            given: 0,
            elements: 0,
            cost: 0,
        };
        Machine {
            alloc,
            types: Types::new(alloc),
            transfers: Transfers::new(alloc),
            weights: Weights::default(),
            totals,
        }
    }

    /// What the parts of trees cost.
    pub fn weights(&self) -> Weights
        ensures { result ≡ self.now.weights }
    {
        self.weights
    }

    /// What was counted so far.
    pub fn totals(&self) -> Totals
        ensures { result ≡ self.now.totals }
    {
        self.totals
    }

    /// Whether no new type may have this name.
    pub(crate) fn is_type_taken(&self, name: &Name) -> bool
        ensures { result ≡ is_type_taken self.now name.now }
    {
        self.types.is_taken(name)
    }

    /// Whether no new buffer may have this name.
    pub(crate) fn is_buffer_taken(&self, name: &Name) -> bool
        ensures { result ≡ is_buffer_taken self.now name.now }
    {
        self.transfers.has_buffer(name)
    }

    /// Whether a type word stands for nothing.
    pub(crate) fn is_unknown(&self, word: &Name) -> bool
        ensures { result ≡ is_unknown self.now word.now }
    {
        self.types.is_unknown(word)
    }

    /// What a type word stands for: one more owner of the datatype.
    pub fn kept(&self, word: &Name) -> Result<Kept, Stop>
        ensures { MatchResult result (λ kept. type_of self.now word.now ≡ Some kept) (IsMissing self.now.types word.now) }
    {
        self.types.kept(self.alloc, word)
    }

    /// Whether a type word stands for a type that is committed.
    pub(crate) fn is_committed(&self, word: &Name) -> bool
        ensures { result ≡ option_map_or (λ kept. kept.committed) (type_of self.now word.now) false }
    {
        self.types.is_committed(word)
    }

    /// Whether a type word stands for a basic type.
    pub(crate) fn is_basic(&self, word: &Name) -> bool
        ensures { result ≡ is_basic_word self.now word.now }
    {
        self.types.is_basic(word)
    }

    /// What a type word stands for, or the number of the refusal of a command that uses it: that of an unknown name where it is unknown
    /// or no name at all, that of an unsupported kind where it is the name of a datatype that is left out. It takes no memory.
    pub fn find_type(&self, word: &[u8]) -> Result<Found<'_>, u8>
        ensures { IsFoundType self.now.types word.now result }
    {
        self.types.find(word)
    }

    /// The bytes of a buffer, where it stands.
    pub(crate) fn buffer(&self, name: &Name) -> Option<&[u8]>
        ensures { MatchOption result (buffer_of self.now name.now ≡ None) (λ bytes. (buffer_of self.now name.now ≡ Some bytes.now) × IsSmall bytes.now) }
    {
        let bytes = self.transfers.buffer(name)?;
        Some(bytes)
    }

    /// Whether no more types may stand, or be made.
    pub(crate) fn is_full(&self) -> bool
        ensures { IsTrue result ↔ NoMoreTypes self.now }
    {
        self.types.len() >= MOST_TYPES || self.types.made() == MOST_MADE
    }

    /// How many buffers stand.
    pub(crate) fn count_of_buffers(&self) -> usize
        ensures { result ≡ length self.now.buffers }
    {
        self.transfers.count_of_buffers()
    }

    /// The bytes of all buffers together, as far as 64 bits hold them.
    pub(crate) fn bytes_held(&self) -> u64
        ensures { result ≡ min (bytes_held self.now) 18446744073709551615 }
    {
        self.transfers.bytes_held()
    }

    /// How many bytes a buffer has, where it stands.
    pub(crate) fn buffer_len(&self, name: &Name) -> Option<usize>
        ensures { MatchOption result (buffer_of self.now name.now ≡ None) (λ len. (bytes : List ℕ) × (buffer_of self.now name.now ≡ Some bytes) × (len ≡ length bytes) × IsSmall bytes) }
    {
        let bytes = self.transfers.buffer(name)?;
        Some(bytes.len())
    }

    /// How many sessions are open.
    pub(crate) fn count_of_sessions(&self) -> usize
        ensures { result ≡ length self.now.sessions }
    {
        self.transfers.count_of_sessions()
    }

    /// Whether no new session may have this name.
    pub(crate) fn is_session_taken(&self, name: &Name) -> bool
        ensures { result ≡ is_session_taken self.now name.now }
    {
        self.transfers.is_open(name)
    }

    /// The session of a name.
    pub(crate) fn session(&self, name: &Name) -> Option<&Session>
        ensures { MatchOption result (session_of self.now name.now ≡ None) (λ session. IsSomeAnd (session_of self.now name.now) (λ opened. opened.session ≡ session.now)) }
    {
        self.transfers.session(name)
    }

    /// The packed bytes of all open sessions together, as far as 64 bits hold them.
    pub(crate) fn packed_open(&self) -> u64
        ensures { result ≡ min (packed_open self.now) 18446744073709551615 }
    {
        self.transfers.packed_bytes()
    }

    /// The next packed bytes of a session, of its buffer as it is now. Nothing is changed.
    pub(crate) fn next_bytes(&mut self, name: &Name, count: usize) -> Result<Bytes, NoMemory>
        requires { IsSomeAnd (session_of self.old name.now) (λ opened. CanTake opened.session count) }
        ensures same { self.new ≡ self.old }
        ensures bytes { (opened : OpenedValue) → session_of self.old name.now ≡ Some opened → IfOk result (λ next. (bytes : List ℕ) × (buffer_of self.old opened.buffer ≡ Some bytes) × (next ≡ next_in opened.session bytes count)) }
    {
        let mut bytes = Vec::new(self.alloc);
        bytes.resize(count, 0)?;
        self.transfers.peek(name, &mut bytes);
        Ok(Bytes::from_vec(bytes))
    }

    /// Gives a session the next packed bytes, and counts them and the command. Answers what they came to. It takes no memory.
    pub(crate) fn receive(&mut self, name: &Name, piece: &[u8]) -> Receipt
        requires { IsSomeAnd (session_of self.old name.now) (λ opened. CanGive opened.session piece.now) }
        ensures { (opened : OpenedValue) → session_of self.old name.now ≡ Some opened → (bytes : List ℕ) × (buffer_of self.old opened.buffer ≡ Some bytes) × (self.new ≡ with_count (with_piece self.old name.now opened bytes piece.now)) × (result ≡ receipt_in opened.session piece.now) }
    {
        let receipt = self.transfers.give(self.alloc, name, piece);
        self.totals.given = self.totals.given.saturating_add(piece.len() as u64);
        self.totals.elements = self.totals.elements.saturating_add(receipt.completed);
        self.totals.commands = self.totals.commands.saturating_add(1);
        receipt
    }

    /// Makes a change, and counts the command.
    fn change(&mut self, change: Change) -> Result<(), NoMemory>
        requires { CanChange change self.old }
        ensures ok { OnOk result (self.new ≡ with_count (changed change self.old)) }
        ensures err { OnErr result (self.new ≡ self.old) }
    {
        match change {
            Change::Nothing => {}
            Change::AddType { name, kept } => self.types.add(name, kept)?,
            Change::Commit { name } => self.types.commit(&name),
            Change::Free { name } => self.types.free(&name),
            Change::AddBuffer { name, buffer } => self.transfers.add_buffer(name, buffer)?,
            Change::SetWeights { weights } => self.weights = weights,
            Change::AddCost { cost } => self.totals.cost = self.totals.cost.saturating_add(cost),
            Change::OpenSession { name, opened } => self.transfers.open(name, opened)?,
            Change::SeekSession { name, byte } => self.transfers.seek(&name, byte),
            Change::TakeBytes { name, byte, count } => {
                self.transfers.seek(&name, byte);
                self.totals.taken = self.totals.taken.saturating_add(count);
            }
            Change::CloseSession { name } => self.transfers.close(&name),
            Change::CopyBytes {
                mut plan,
                source,
                target,
            } => {
                copy_buffers(&mut self.transfers, self.alloc, &mut plan, &source, &target);
            }
            Change::ReduceBytes {
                op,
                mut plan,
                source,
                target,
            } => reduce_buffers(
                &mut self.transfers,
                self.alloc,
                op,
                &mut plan,
                &source,
                &target,
            ),
            Change::ReduceRanks {
                op,
                mut ranks,
                merges,
                origin,
                target,
            } => fold_buffers(
                &mut self.transfers,
                self.alloc,
                op,
                &mut ranks,
                merges.as_slice(),
                origin,
                &target,
            )?,
        }
        self.totals.commands = self.totals.commands.saturating_add(1);
        Ok(())
    }

    /// Replies to a command that is allowed, and makes its change. The line is written before anything changes.
    fn perform(&mut self, outcome: Outcome, out: &mut Vec<u8>) -> Result<bool, NoMemory>
        requires { CanChange outcome.change self.old }
        ensures ok { IfOk result (λ accepted. (accepted ≡ true) × (self.new ≡ with_count (changed outcome.change self.old)) × (out.new.items ≡ out.old.items ++ text_of outcome.reply)) }
        ensures err { OnErr result ((self.new ≡ self.old) × (out.new.items ≡ out.old.items)) }
    {
        let Outcome { reply, change } = outcome;
        let before = out.len();
        reply.write(self.alloc, out)?;
        let Ok(()) = self.change(change) else {
            out.truncate(before);
            return Err(NoMemory);
        };
        Ok(true)
    }

    /// Replies a refusal.
    pub(crate) fn refuse(&self, refusal: Refusal, out: &mut Vec<u8>) -> Result<bool, NoMemory>
        ensures ok { IfOk result (λ accepted. Gives (Refused refusal) accepted out.old.items out.new.items) }
        ensures err { OnErr result (out.new.items ≡ out.old.items) }
    {
        Reply::Refused(refusal).write(self.alloc, out)?;
        Ok(false)
    }

    /// What a command comes to that gives no piece. It changes nothing.
    fn outcome(&mut self, command: &Command) -> Result<Outcome, Stop>
        requires gift { ¬ IsGift command.now }
        requires ranks { HasRanks command.now }
        ensures same { self.new ≡ self.old }
        ensures outcome { ComesTo self.old command.now result }
    {
        match command {
            Command::Define { name, ctor } => self.define(name, ctor),
            Command::Child { name, ty, k } => self.child(name, ty, *k),
            Command::Commit { ty } => self.commit(ty),
            Command::Free { ty } => self.free(ty),
            Command::Info { ty } => self.info(ty),
            Command::Map { ty } => self.map(ty),
            Command::Envelope { ty } => self.envelope(ty),
            Command::Contents { ty } => self.contents(ty),
            Command::Buffer { name, fill } => self.fill(name, fill),
            Command::Show { buffer } => self.show(buffer),
            Command::Bytes {
                rep,
                count,
                ty,
                buffer,
                origin,
            } => self.bytes(*rep, *count, ty, buffer, *origin),
            Command::Elements { rep, bytes, ty } => self.counts(*rep, *bytes, ty),
            Command::Pack {
                name,
                rep,
                count,
                ty,
                buffer,
                origin,
            } => self.pack(name, *rep, *count, ty, buffer, *origin),
            Command::Take { session, len } => self.take(session, *len),
            Command::Seek { session, byte } => self.seek(session, *byte),
            Command::Close { session } => self.close(session),
            Command::Unpack {
                name,
                rep,
                count,
                ty,
                buffer,
                origin,
            } => self.unpack(name, *rep, *count, ty, buffer, *origin),
            Command::Give { .. } => unreachable!(),
            Command::Copy {
                source_count,
                source_type,
                source,
                source_origin,
                target_count,
                target_type,
                target,
                target_origin,
            } => self.copy(
                *source_count,
                source_type,
                source,
                *source_origin,
                *target_count,
                target_type,
                target,
                *target_origin,
            ),
            Command::Export { ty } => self.export(ty),
            Command::Import { name, wire } => self.import(name, wire.as_slice()),
            Command::Reduce {
                op,
                count,
                ty,
                source,
                source_origin,
                target,
                target_origin,
            } => self.reduce(
                *op,
                *count,
                ty,
                source,
                *source_origin,
                target,
                *target_origin,
            ),
            Command::Reduceall {
                op,
                how,
                count,
                ty,
                origin,
                target,
                ranks,
            } => self.reduce_all(*op, *how, *count, ty, *origin, target, ranks.as_slice()),
            Command::Weights {
                leaf,
                vector,
                index,
                place,
                group,
                part,
            } => self.weigh(*leaf, *vector, *index, *place, *group, *part),
            Command::Normalise { ty } => self.normalise(ty),
            Command::Rebuild { name, ty } => self.rebuild(name, ty),
        }
    }

    /// Obeys a command: one reply line is appended. It answers whether the reply is no refusal. A refused command leaves the
    /// machine as it was. Where memory runs out the machine and `out` are as before. A reduction of ranks has one.
    pub fn step(&mut self, command: &Command, out: &mut Vec<u8>) -> Result<bool, NoMemory>
        requires { HasRanks command.now }
        ensures ok { IfOk result (λ accepted. Responds
            (λ reply. Obeys command.now self.old reply self.new) accepted out.old.items out.new.items) }
        ensures err { OnErr result ((self.new ≡ self.old) × (out.new.items ≡ out.old.items)) }
    {
        if let Some((session, piece)) = gift(command) {
            return self.give(session, piece, out);
        }
        match self.outcome(command) {
            Ok(outcome) => self.perform(outcome, out),
            Err(Stop::Refused(refusal)) => self.refuse(refusal, out),
            Err(Stop::NoMemory) => Err(NoMemory),
        }
    }

    /// Takes one line of a script, without its end, and appends the reply to it: nothing for a blank or comment line.
    /// It answers whether the reply is no refusal. Where memory runs out the machine and `out` are as before.
    pub fn line(&mut self, line: &[u8], out: &mut Vec<u8>) -> Result<bool, NoMemory>
        ensures step { IfOk result (λ accepted. Responds (λ reply. Step self.old line.now reply self.new) accepted out.old.items out.new.items) }
        ensures err { OnErr result ((self.new ≡ self.old) × (out.new.items ≡ out.old.items)) }
    {
        match parse_line(self.alloc, line) {
            Ok(None) => Ok(true),
            Ok(Some(command)) => self.step(&command, out),
            Err(LineFault::Syntax) => self.refuse(Refusal::Syntax, out),
            Err(LineFault::NoMemory) => Err(NoMemory),
        }
    }
}
