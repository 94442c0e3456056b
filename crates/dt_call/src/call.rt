//! The top call.
ghost use Rattle.std.specs.Prelude.{◌≡◌, ◌≢◌, ◌+◌, ◌≤◌, ◌↔◌, [], map, IfSome, Some, IsTrue, IsFalse, string_bytes};
ghost use Rattle.dt_base.specs.Counter.{Rose};
ghost use Rattle.dt_call.specs.declared.words.Asked.TheVariants.{Run as AskedRun};
ghost use Rattle.dt_call.specs.Progress.{Wrote, WroteSaid};
ghost use Rattle.dt_call.specs.Result.{IsAnswer, IsCutShort, IsAnswerOrNoMemory, IsResult, IsShort, WhereTold, IsUnwritten, Gained, TookTooMany, EndsWithinLimit, input_of};
ghost use Rattle.dt_call.specs.Words.{Ask, AreOther, reads, reads_for};

use crate::status::Status;
use crate::words::{Asked, read_words};
use dt_base::{READ_MAX, ReadEnd, Sink, Source, read_all, write_all};
use dt_kinds::NoMemory;
use dt_machine::Machine;
use dt_script::first_line;
use dt_words::{Said, certify, check, generated, migrate};
use std::alloc::Global;

/// Runs the lines of an input, and writes the reply to each before the next one is taken.
fn run<K: Sink>(alloc: Global, input: &[u8], sink: &mut K) -> Status
    ensures wrote { Wrote AskedRun input.now result (K.held sink.old) (K.held sink.new) }
    ensures faults { K.faults sink.old ≤ K.faults sink.new }
    ensures write_fault { result ≡ Status.WriteFault → Rose (K.faults sink.old) (K.faults sink.new) }
{
    let mut machine = Machine::new(alloc);
    let mut out = Vec::new(alloc);
    let mut rest = input;
    let mut accepted = true;
    'lines: while !rest.is_empty() {
        let (line, after) = first_line(rest);
        let Ok(said) = machine.line(line, &mut out) else {
            return Status::NoMemory;
        };
        let Ok(()) = write_all(sink, &out) else {
            return Status::WriteFault;
        };
        out.clear();
        accepted &= said;
        rest = after;
    }
    if accepted {
        Status::Done
    } else {
        Status::Refused
    }
}

/// Writes what was said, if memory sufficed for it.
fn tell<K: Sink>(said: Result<Said, NoMemory>, sink: &mut K) -> Status
    ensures wrote { WroteSaid said result (K.held sink.old) (K.held sink.new) }
    ensures unwritten { result ≡ Status.NoMemory → sink.new ≡ sink.old }
    ensures faults { K.faults sink.old ≤ K.faults sink.new }
    ensures write_fault { result ≡ Status.WriteFault → Rose (K.faults sink.old) (K.faults sink.new) }
{
    let Ok(said) = said else {
        return Status::NoMemory;
    };
    let Ok(()) = write_all(sink, &said.text) else {
        return Status::WriteFault;
    };
    if said.accepted {
        Status::Done
    } else {
        Status::Refused
    }
}

/// Answers an input by what was asked for.
fn answer<K: Sink>(alloc: Global, asked: &Asked, input: &[u8], sink: &mut K) -> Status
    ensures wrote { Wrote asked.now input.now result (K.held sink.old) (K.held sink.new) }
    ensures unwritten { result ≡ Status.NoMemory → asked.now ≢ AskedRun → sink.new ≡ sink.old }
    ensures refused { result ≡ Status.Refused → IsTrue (reads asked.now) }
    ensures write_fault { result ≡ Status.WriteFault → Rose (K.faults sink.old) (K.faults sink.new) }
{
    match asked {
        Asked::Run => run(alloc, input, sink),
        Asked::Certify(name) => tell(certify(alloc, input, name), sink),
        Asked::Check => tell(check(alloc, input), sink),
        Asked::Migrate => tell(migrate(alloc, input), sink),
        Asked::Gen(number) => tell(generated(alloc, *number), sink),
    }
}

/// Does what the words say, which are those after the program's name. For `run` the source is read whole, and the reply
/// to each of its lines is written before the next line is taken. For `certify`, `check` and `migrate` it is read whole, and
/// one answer is written. For `gen` nothing is read.
pub fn dtt<S: Source, K: Sink>(
    alloc: Global,
    words: &[String],
    source: &mut S,
    sink: &mut K,
) -> Status
    // What is answered: the source was read to its end, and the sink holds a text that belongs to words, input and status.
    ensures answers { IsAnswer result → WhereTold (input_of (map string_bytes words.now) (S.left source.old)) (K.held sink.old)
        (λ input before. Gained (K.held sink.new) before (λ text. IsResult (map string_bytes words.now) input text result)) }
    ensures read_to_end { IsAnswer result → IsTrue (reads_for (map string_bytes words.now)) → IfSome (S.left source.old) (λ _. S.left source.new ≡ Some []) }

    // When each other status comes, and that what isn't read is never refused.
    ensures refused { result ≡ Status.Refused → IsTrue (reads_for (map string_bytes words.now)) }
    ensures usage { (result ≡ Status.Usage) ↔ AreOther (map string_bytes words.now) }
    ensures read_fault { result ≡ Status.ReadFault → IsTrue (reads_for (map string_bytes words.now)) × Rose (S.faults source.old) (S.faults source.new) }
    ensures write_fault { result ≡ Status.WriteFault → Rose (K.faults sink.old) (K.faults sink.new) }
    ensures too_long { result ≡ Status.TooLong → IsTrue (reads_for (map string_bytes words.now)) × TookTooMany (S.taken source.old) (S.taken source.new) }
    ensures always_too_long { S.taken source.old + 16777217 ≤ S.taken source.new → result ≡ Status.TooLong }

    // What was done then.
    ensures untouched { IsFalse (reads_for (map string_bytes words.now)) → source.new ≡ source.old }
    ensures unwritten { IsUnwritten (map string_bytes words.now) result → sink.new ≡ sink.old }
    ensures front { IsCutShort result → WhereTold (input_of (map string_bytes words.now) (S.left source.old)) (K.held sink.old)
        (λ input before. Gained (K.held sink.new) before (λ text. IsShort (map string_bytes words.now) input text result)) }

    // Where the words are of one of the forms and nothing fails outside, nothing but memory keeps the answer back.
    ensures complete { (asked : Asked) → Ask (map string_bytes words.now) asked
        → (IsTrue (reads asked) → (¬ Rose (S.faults source.old) (S.faults source.new)) × EndsWithinLimit (S.left source.old) (S.taken source.old) (S.taken source.new))
        → ¬ Rose (K.faults sink.old) (K.faults sink.new) → IsAnswerOrNoMemory result }
{
    let Some(asked) = read_words(words) else {
        return Status::Usage;
    };
    if !asked.reads() {
        return answer(alloc, &asked, &[], sink);
    }
    match read_all(alloc, source, READ_MAX) {
        Ok(input) => answer(alloc, &asked, &input, sink),
        Err(ReadEnd::Fault) => Status::ReadFault,
        Err(ReadEnd::TooLong) => Status::TooLong,
        Err(ReadEnd::NoMemory) => Status::NoMemory,
    }
}
