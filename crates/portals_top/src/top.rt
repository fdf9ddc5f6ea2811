//! The whole program.

ghost use Rattle.std.specs.Prelude.{◌≡◌, ◌<◌, List, ℕ, Option, None, [], map, string_bytes};
ghost use Rattle.coll_shape.specs.Meaning.{Lists};
ghost use Rattle.schedule_compiler.specs.shapes.Footprint.{refusal};
ghost use Rattle.worlds.specs.World.{WorldState};
ghost use Rattle.run_text.specs.Ending.{IsTold, Written};
ghost use Rattle.portals_top.specs.Answered.{LeavesDescribed, LeavesOf, LeavesWorld};
ghost use Rattle.portals_top.specs.Begun.{Begins, BeginsCall, IsLeft, IsLeftOf, IsLeftOfDescribed};
ghost use Rattle.portals_top.specs.Checked.{AnswersTo, Checked};
ghost use Rattle.portals_top.specs.Due.{due, due_compiled, due_described, due_of};
ghost use Rattle.portals_top.specs.Explained.{Explained, IsPlaced, Tells, TellsBegun, TellsBegunOf, TellsOf};
ghost use Rattle.portals_top.specs.Formats.{read_as};
ghost use Rattle.portals_top.specs.Left.{nothing_ran};
ghost use Rattle.job_runs.specs.Modes.{HasWorkers};
ghost use Rattle.portals_top.specs.Words.{CanDo, readers_of, request};

use crate::begun::Begun;
use crate::checking::judged_text;
use crate::choosing::{ChoiceText, chosen};
use crate::large::{generated_job, large};
use crate::parsing::parse_text;
use crate::planning::plan;
use crate::ran::Ran;
use crate::refusing::refuse_plan;
use crate::running::{run, run_alone};
use crate::saying::say_beside;
use crate::words::{Command, Request, Task, request_in};
use coll_lang::{Description, LONGEST_TEXT, ParseFault};
use coll_shape::Shape;
use job_runs::{Host, Mode};
use order_lines::LONGEST_CHECK;
use port_io::{Sink, Source};
use rank_threads::{Gate, OpenGate};
use run_text::{ReadError, Status, read_text, refuse, write_short};
use schedule_compiler::done::counted_shape;
use schedule_compiler::{ShapeJob, compile};
use std::alloc::Global;
use std::sync::Wait;
use std::thread::Threads;
use text_notes::notes::Note;
use work_sharing::reach_ahead;

const USAGE: &[u8] =
    b"usage: portals_run once | sim X | plan | run W | trace W | large K W | check | steady W | json W\n";

/// Writes the usage line.
fn usage<K: Sink>(sink: &mut K) -> Status
    ensures { Written (due None [] nothing_ran) (K.outflow sink.old) (K.outflow sink.new) result }
{
    match write_short(sink, USAGE) {
        Ok(()) => Status::Usage,
        Err(_) => Status::WriteFault,
    }
}

/// Writes the plan of a shape. What its ranks install isn't made.
fn planned<K: Sink>(alloc: Global, shape: &Shape, sink: &mut K, told: &mut Option<Note>) -> Status
    ensures written { (inputs : Lists) (ran : Option WorldState) →
        Written (due_compiled Command.Plan shape.now inputs ran (refusal shape.now)) (K.outflow sink.old) (K.outflow sink.new) result }
    ensures told { Tells result (K.outflow sink.old) (K.outflow sink.new) told.new }
{
    match counted_shape(alloc, shape) {
        Ok(counted) => plan(alloc, sink, counted),
        Err(fault) => refuse_plan(alloc, sink, shape, fault, told),
    }
}

/// Compiles a description, and runs it as far as one thread does.
fn executed<K: Sink>(
    alloc: Global,
    mode: Mode,
    d: Description,
    sink: &mut K,
    ran: &mut Ran,
    told: &mut Option<Note>,
) -> Begun
    requires workers { HasWorkers mode }
    requires none { ran.old ≡ nothing_ran }
    ensures begun { Begins (λ after. due_compiled (Command.Execute mode) d.shape d.inputs after.world (refusal d.shape))
        (LeavesWorld (Command.Execute mode) d.shape d.inputs) (IsLeft (Command.Execute mode) d.shape d.inputs (refusal d.shape))
        (K.outflow sink.old) (K.outflow sink.new) ran.new result }
    ensures told { TellsBegun result (K.outflow sink.old) (K.outflow sink.new) told.new }
{
    let (shape, inputs) = d.into_parts();
    match compile(alloc, &shape) {
        Ok(schedule) => match ShapeJob::new(alloc, shape, schedule, inputs) {
            Ok(job) => run_alone(alloc, mode, job, sink, ran),
            Err(_) => Begun::Answered(Status::NoMemory),
        },
        Err(fault) => Begun::Answered(refuse_plan(alloc, sink, &shape, fault, told)),
    }
}

/// Compiles a description and answers it.
fn compiled<K: Sink>(
    alloc: Global,
    command: Command,
    d: Description,
    sink: &mut K,
    ran: &mut Ran,
    told: &mut Option<Note>,
) -> Begun
    requires workers { CanDo command }
    requires none { ran.old ≡ nothing_ran }
    ensures begun { Begins (λ after. due_compiled command d.shape d.inputs after.world (refusal d.shape))
        (LeavesWorld command d.shape d.inputs)
        (IsLeft command d.shape d.inputs (refusal d.shape)) (K.outflow sink.old) (K.outflow sink.new) ran.new result }
    ensures told { TellsBegun result (K.outflow sink.old) (K.outflow sink.new) told.new }
{
    match command {
        Command::Execute(mode) => executed(alloc, mode, d, sink, ran, told),
        Command::Plan => Begun::Answered(planned(alloc, d.shape(), sink, told)),
    }
}

/// Answers a description.
fn described<K: Sink>(
    alloc: Global,
    command: Command,
    d: Description,
    sink: &mut K,
    ran: &mut Ran,
    told: &mut Option<Note>,
) -> Begun
    requires workers { CanDo command }
    requires none { ran.old ≡ nothing_ran }
    ensures begun { Begins (λ after. due_described command d after d.choices) (LeavesDescribed command d d.choices)
        (IsLeftOfDescribed command d d.choices) (K.outflow sink.old) (K.outflow sink.new) ran.new result }
    ensures told { TellsBegun result (K.outflow sink.old) (K.outflow sink.new) told.new }
{
    match d.choices() {
        Some(choices) => {
            let shape = d.shape();
            shape.recall_form();
            let ranks = shape.ranks();
            let text = ChoiceText { ranks, choices };
            Begun::Answered(chosen(alloc, command, &text, sink, ran, told))
        }
        None => compiled(alloc, command, d, sink, ran, told),
    }
}

/// How many threads read a text for a command.
fn readers_for(command: Command) -> u32
    requires workers { CanDo command }
    ensures exact { result ≡ readers_of command }
    ensures some { 0 < result }
{
    match command {
        Command::Execute(
            Mode::Run { workers } | Mode::Trace { workers } | Mode::Steady { workers },
        ) => workers,
        _ => 1,
    }
}

/// Answers what was read. The text is given back once it is read.
fn answer<R: Threads + Sync, G, K: Sink>(
    host: &Host<R, G>,
    task: Task,
    text: Vec<u8>,
    sink: &mut K,
    ran: &mut Ran,
    told: &mut Option<Note>,
) -> Begun
    requires workers { CanDo task.command }
    requires none { ran.old ≡ nothing_ran }
    ensures begun { Begins (λ after. due_of task.command after (read_as task.format text.items))
        (LeavesOf task.command (read_as task.format text.items))
        (IsLeftOf task.command (read_as task.format text.items)) (K.outflow sink.old) (K.outflow sink.new) ran.new result }
    ensures told { TellsBegun result (K.outflow sink.old) (K.outflow sink.new) told.new }
{
    let threads = readers_for(task.command);
    match parse_text(host.rt, host.alloc, threads, task.format, text, told) {
        Ok(d) => described(host.alloc, task.command, d, sink, ran, told),
        Err(ParseFault::Refused { line, name }) => {
            Begun::Answered(refuse(host.alloc, sink, line, name))
        }
        Err(ParseFault::NoMemory) => Begun::Answered(Status::NoMemory),
    }
}

/// Reads a description and answers it.
fn read_and_answer<R: Threads + Sync, G, S: Source, K: Sink>(
    host: &Host<R, G>,
    task: Task,
    source: &mut S,
    sink: &mut K,
    ran: &mut Ran,
    told: &mut Option<Note>,
) -> Begun
    requires workers { CanDo task.command }
    requires none { ran.old ≡ nothing_ran }
    ensures begun { (bytes : List ℕ) × IsTold (S.inflow source.old).left bytes
        × BeginsCall (Some (Request.Do task)) bytes (S.inflow source.old) (S.inflow source.new) (K.outflow sink.old) (K.outflow sink.new)
        ran.new result }
    ensures told { TellsBegun result (K.outflow sink.old) (K.outflow sink.new) told.new }
{
    match read_text(host.alloc, LONGEST_TEXT, source) {
        Ok(text) => answer(host, task, text, sink, ran, told),
        Err(ReadError::Failed) => Begun::Answered(Status::ReadFault),
        Err(ReadError::NoMemory) => Begun::Answered(Status::NoMemory),
    }
}

/// Reads a description with orders and answers it. No world is left.
fn read_and_check<S: Source, K: Sink>(
    alloc: Global,
    source: &mut S,
    sink: &mut K,
    told: &mut Option<Note>,
) -> Status
    ensures checked { (bytes : List ℕ) × IsTold (S.inflow source.old).left bytes
        × Checked bytes (S.inflow source.old) (S.inflow source.new) (K.outflow sink.old) (K.outflow sink.new) nothing_ran result }
    ensures told { (bytes : List ℕ) × IsTold (S.inflow source.old).left bytes
        × TellsOf (IsPlaced bytes) result (K.outflow sink.old) (K.outflow sink.new) told.new }
{
    match read_text(alloc, LONGEST_CHECK, source) {
        Ok(text) => judged_text(alloc, text.as_slice(), sink, told),
        Err(ReadError::Failed) => Status::ReadFault,
        Err(ReadError::NoMemory) => Status::NoMemory,
    }
}

/// What one thread does. The note of a refusal is kept.
fn started<R: Threads + Sync, G, S: Source, K: Sink>(
    host: &Host<R, G>,
    words: &[String],
    source: &mut S,
    sink: &mut K,
    ran: &mut Ran,
    told: &mut Option<Note>,
) -> Begun
    ensures begun { (bytes : List ℕ) × IsTold (S.inflow source.old).left bytes
        × BeginsCall (request (map string_bytes words.now)) bytes (S.inflow source.old) (S.inflow source.new) (K.outflow sink.old)
        (K.outflow sink.new) ran.new result }
    ensures told { (bytes : List ℕ) × IsTold (S.inflow source.old).left bytes
        × TellsBegunOf (IsPlaced bytes) result (K.outflow sink.old) (K.outflow sink.new) told.new }
{
    ran.world = None;
    ran.choice = None;
    ran.spent = None;
    // The text that is read then grows in memory that the process has already.
    reach_ahead(host.alloc);
    match request_in(words) {
        Some(Request::Do(task)) => read_and_answer(host, task, source, sink, ran, told),
        Some(Request::Large { number, workers }) => match generated_job(host.alloc, number) {
            Ok(job) => Begun::Large {
                number,
                workers,
                job,
            },
            Err(_) => Begun::Answered(Status::NoMemory),
        },
        Some(Request::Check) => Begun::Answered(read_and_check(host.alloc, source, sink, told)),
        None => Begun::Answered(usage(sink)),
    }
}

/// What of the whole program one thread does: no call in it waits, and it always returns. Words that no worker is needed for are
/// answered, as `portals_main` says: `once`, `sim X`, `plan`, `check`, and all that get the usage line. For the others the source is
/// read, the text is refused or compiled, and the run is left to workers: then the sink is untouched, and no world is handed back. `run
/// W`, `trace W`, `steady W` and `json W` are read by so many threads at most, the caller among them.
pub fn begin<R: Threads + Sync, G, S: Source, K: Sink>(
    host: &Host<R, G>,
    words: &[String],
    source: &mut S,
    sink: &mut K,
    ran: &mut Ran,
) -> Begun
    ensures { (bytes : List ℕ) × IsTold (S.inflow source.old).left bytes
        × BeginsCall (request (map string_bytes words.now)) bytes (S.inflow source.old) (S.inflow source.new) (K.outflow sink.old)
        (K.outflow sink.new) ran.new result }
{
    let mut told = None;
    started(host, words, source, sink, ran, &mut told)
}

/// The whole program but what is said on standard error. The note of a refusal is kept.
fn answered<R: Threads + Wait + Sync, G: Gate, S: Source, K: Sink>(
    host: &Host<R, G>,
    words: &[String],
    source: &mut S,
    sink: &mut K,
    ran: &mut Ran,
    told: &mut Option<Note>,
) -> Status
    ensures answers { (bytes : List ℕ) × IsTold (S.inflow source.old).left bytes
        × AnswersTo (request (map string_bytes words.now)) bytes (S.inflow source.old) (S.inflow source.new) (K.outflow sink.old)
        (K.outflow sink.new) ran.new result }
    ensures told { (bytes : List ℕ) × IsTold (S.inflow source.old).left bytes
        × TellsOf (IsPlaced bytes) result (K.outflow sink.old) (K.outflow sink.new) told.new }
{
    match started(host, words, source, sink, ran, told) {
        Begun::Answered(status) => status,
        Begun::Run { crew, job } => run(host, crew, &job, sink, ran),
        Begun::Large {
            number,
            workers,
            job,
        } => large(host, number, workers, &job, sink, ran),
    }
}

/// The whole program, with the host's gate, which workers pass: each passes it while it has the turn of a rank, before a start and a
/// firing, and between the pop of a message and its receipt. All else is as `portals_main` says.
pub fn run_with_gate<R: Threads + Wait + Sync, G: Gate, S: Source, K: Sink, N: Sink>(
    host: &Host<R, G>,
    words: &[String],
    source: &mut S,
    sink: &mut K,
    notes: &mut N,
    ran: &mut Ran,
) -> Status
    ensures answers { (bytes : List ℕ) × IsTold (S.inflow source.old).left bytes
        × AnswersTo (request (map string_bytes words.now)) bytes (S.inflow source.old) (S.inflow source.new) (K.outflow sink.old)
        (K.outflow sink.new) ran.new result }
    ensures explained { (bytes : List ℕ) × IsTold (S.inflow source.old).left bytes
        × Explained bytes result (K.outflow sink.old) (K.outflow sink.new) (N.outflow notes.old) (N.outflow notes.new) }
{
    let mut told = None;
    let status = answered(host, words, source, sink, ran, &mut told);
    say_beside(notes, words, status, &told);
    status
}

/// The whole program: reads what the words ask for from the source, writes the text that is owed to the sink, and answers
/// how it ended. The words are those of the command line without the program's name.
///
/// `once` reads a description and runs it on one thread. `sim X` runs it in the order that the words of a generator with the seed X
/// choose, and writes that order too. A choice text is run by these two alone. `run W` runs it by W workers on threads, from 1 to
/// 16, and `trace W` writes the order of each rank's steps too; where no thread can be started, the call does a worker's part
/// itself. `steady W` does what `run W` does, by workers that go on until a wave of probes has found that nothing is left. `json W`
/// does what `run W` does with a description in JSON. `large K W` reads nothing: W workers run the description that the number K,
/// below 65,536, chooses, and its summary is written. `plan` writes the plan that the description is compiled to; nothing is run.
/// `check` reads a description and after it, for each rank, the line of its local steps, and writes the verdict on these. All
/// other words get the usage line, and leave the source unread.
///
/// The world that ran, or the choice world, is handed back in `ran`, where a result was owed and the run was made; after every
/// other answer there is none, whatever there was before. Of a source that doesn't tell its bytes there are bytes for which all
/// this holds; of a sink that doesn't tell what it took nothing is said of the text.
///
/// What a person is to know stands in `notes`: beside a result nothing, beside the line of a refusal or of orders that fail the line of
/// a note of it, beside the usage line which word is wrong and a line for each form, and beside a fault or want of memory a line. What
/// fails there changes nothing.
pub fn portals_main<R: Threads + Wait + Sync, S: Source, K: Sink, N: Sink>(
    host: &Host<R, OpenGate>,
    words: &[String],
    source: &mut S,
    sink: &mut K,
    notes: &mut N,
    ran: &mut Ran,
) -> Status
    ensures answers { (bytes : List ℕ) × IsTold (S.inflow source.old).left bytes
        × AnswersTo (request (map string_bytes words.now)) bytes (S.inflow source.old) (S.inflow source.new) (K.outflow sink.old)
        (K.outflow sink.new) ran.new result }
    ensures explained { (bytes : List ℕ) × IsTold (S.inflow source.old).left bytes
        × Explained bytes result (K.outflow sink.old) (K.outflow sink.new) (N.outflow notes.old) (N.outflow notes.new) }
{
    run_with_gate(host, words, source, sink, notes, ran)
}
