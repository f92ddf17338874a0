//! The top call: by the words of a command line, or by an order that was read from them.
ghost use Rattle.std.specs.Prelude.{◌≡◌};
ghost use Rattle.dem_outside.specs.Change.{change};
ghost use Rattle.dem_words.specs.Meaning.{words_of};
ghost use Rattle.dem_words.specs.declared.order.Mode.TheVariants as modes;
ghost use Rattle.dem_jobs.specs.Jobs.{run_job, job_of, job_meant};
ghost use Rattle.dem_jobs.specs.Answers.{Answers};

use crate::run::run;
use dem_jobs::{OUT_OF_MEMORY, Refusal, carry_out, refuse, tell};
use dem_outside::{Gate, Sink, Source};
use dem_words::{Mode, Order, WordFault, read_words};
use std::alloc::Global;
use std::sync::Wait;
use std::thread::Threads;

/// The whole program over any source and sinks.
///
/// The words are those of a command line; the first is the program's name and isn't read. What the words ask for is done: `out` gains its
/// text, and `note` the line of a refusal. The answer is the status of the process: 0 where the last step was reached, 3 where a limit was
/// passed, 1 for words that are no good, 2 for an input that is refused, 4 for a read that failed, 5 for a put that failed,
/// whatever was about to be answered, and 6 where there was no memory. The mode `run` starts a second thread and may wait for it; both
/// threads pass `gate` before each action.
pub fn main_call<R: Threads + Wait + Sync, S: Source, K: Sink, N: Sink, G: Gate>(
    rt: &R,
    alloc: Global,
    words: &[String],
    source: &mut S,
    out: &mut K,
    note: &mut N,
    gate: &G,
) -> u8
    ensures { Answers (job_meant (words_of words.now)) (change S.left S.faults source.old source.new) (change K.held K.faults out.old out.new)
        (change N.held N.faults note.old note.new) result }
{
    match read_words(alloc, words) {
        Ok(order) => obey(rt, alloc, &order, source, out, note, gate),
        Err(WordFault::Usage) => refuse(Refusal::Usage, note),
        Err(WordFault::OutOfMemory) => OUT_OF_MEMORY,
    }
}

// Does what an order asks for: a run by two threads here, all else by the call that never waits.
fn obey<R: Threads + Wait + Sync, S: Source, K: Sink, N: Sink, G: Gate>(
    rt: &R,
    alloc: Global,
    order: &Order,
    source: &mut S,
    out: &mut K,
    note: &mut N,
    gate: &G,
) -> u8
    ensures { Answers (job_of order.now) (change S.left S.faults source.old source.new) (change K.held K.faults out.old out.new)
        (change N.held N.faults note.old note.new) result }
{
    if order.mode == Mode::Run {
        return answer_by_threads(rt, alloc, order, source, out, note, gate);
    }
    quiet_call(alloc, order, source, out, note)
}

// Makes a run by two threads, and then puts its line.
fn answer_by_threads<R: Threads + Wait + Sync, S: Source, K: Sink, N: Sink, G: Gate>(
    rt: &R,
    alloc: Global,
    order: &Order,
    source: &mut S,
    out: &mut K,
    note: &mut N,
    gate: &G,
) -> u8
    ensures { Answers (run_job order.now) (change S.left S.faults source.old source.new) (change K.held K.faults out.old out.new)
        (change N.held N.faults note.old note.new) result }
{
    tell(run(rt, alloc, order, source, out, note, gate), note)
}

/// Does what an order of another mode than `run` asks for, and answers as `main_call` does. It waits for nobody and returns.
pub fn quiet_call<S: Source, K: Sink, N: Sink>(
    alloc: Global,
    order: &Order,
    source: &mut S,
    out: &mut K,
    note: &mut N,
) -> u8
    requires alone { ¬ (order.now.mode ≡ modes.Run) }
    ensures { Answers (job_of order.now) (change S.left S.faults source.old source.new) (change K.held K.faults out.old out.new)
        (change N.held N.faults note.old note.new) result }
{
    answer(alloc, order, source, out, note)
}

// Does the job of an order, and then puts its line.
fn answer<S: Source, K: Sink, N: Sink>(
    alloc: Global,
    order: &Order,
    source: &mut S,
    out: &mut K,
    note: &mut N,
) -> u8
    requires alone { ¬ (order.now.mode ≡ modes.Run) }
    ensures { Answers (job_of order.now) (change S.left S.faults source.old source.new) (change K.held K.faults out.old out.new)
        (change N.held N.faults note.old note.new) result }
{
    tell(carry_out(alloc, order, source, out, note), note)
}
