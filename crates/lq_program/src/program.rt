ghost use Rattle.std.specs.Prelude.{◌≡◌, ◌↔◌, ◌⊎◌, ℕ, ◌≤◌, List, Option, None, map, string_bytes};
ghost use Rattle.std.specs.Prelude.{IfOk, IfErr, IfSome, IsSomeAnd, OnSome};
ghost use Rattle.std.specs.Option.{option_copied};
ghost use Rattle.std.specs.Io.KnownBytes.{Appends};
ghost use Rattle.lq_outside.specs.Faults.{Rose};
ghost use Rattle.lq_outside.specs.Sinks.{AppendsFront};
ghost use Rattle.lq_records.specs.Sound.{IsSound};
ghost use Rattle.lq_program.specs.CommandLine.{asked_connection, asked_load, asked_words};
ghost use Rattle.lq_program.specs.Faults.{IsStatus, status_of, end_text};
ghost use Rattle.lq_program.specs.Load.{load_line};
ghost use Rattle.lq_session.specs.Reading.{ReadsAll, ReadsNoFurther, ReadsPart, ReadsSome};
ghost use Rattle.lq_session.specs.Reading.{RepliesToFirst, RepliesToPart, RepliesToRead};
ghost use Rattle.lq_session.specs.Replies.{replies};
ghost use Rattle.lq_program.specs.Run.{IsRefused, IsRefusedLog, LoadsNoBase, LoadsNoLog};
ghost use Rattle.lq_program.specs.Run.{MustRefuse, MustRefuseLog, OnFile, OnLog, OnOpening, Opens};
ghost use Rattle.lq_program.specs.Run.{OpensLog, OpensNone, Reports, SaysBase, SaysLog};
ghost use Rattle.lq_program.specs.Words.{wanted_by};

use crate::command_line::{Asked, Subcommand, asked_words};
use crate::fault::{Fault, LOG_LIMIT, LogFault, OBJECTS_LIMIT, ObjectsFault};
use crate::load::load;
use lq_live::Live;
use lq_log::{LogBook, LogErr};
use lq_objects::{ObjectsErr, read_objects};
use lq_outside::{Files, LoadErr, Sink, Source};
use lq_records::Base;
use lq_session::{ServeErr, serve};
use std::alloc::Global;

/// Runs the program: `ask OBJECTS` serves the messages of the input over the objects of a file, and
/// with `--log FILE` from the state that a log left, by the rules of rights that its options choose
/// (`asked_words`). Each query is answered at the state that the commands before it left. The
/// connection ends after a query without `KeepAlive: on`, after a message that is too long, after
/// the 10,000th message, or with the input. `load N` serves the stream of a workload that the
/// number generates over its objects, from the state that its log left, and writes one line, which
/// tells how many bytes the replies have, and their sum modulo 2 ^ 32 (`load_line`). It reads
/// neither a file nor the input. The answer is the status that the program ends with:
///
/// - 0: all messages up to the end of the connection were served. A command writes nothing; neither
///   does a refused query or a message that is too long without `ResponseHeader: fixed16`. The line
///   of a load was written.
/// - 1: the words are outside the grammar.
/// - 2: the object file is refused, or has more than 67,108,864 bytes.
/// - 3: the log is refused, or has more than 67,108,864 bytes. The object file is read before it.
/// - 4: the object file or the log is missing or can't be read.
/// - 5: the input can't be read.
/// - 6: the output can't be written. A front of the replies, or of a load's line, was written.
/// - 7: out of memory. Where it ran out for a query or a message that is too long of `ask`, the
///   reply to it is the refusal `out of memory` with the code 500: 30 bytes with `ResponseHeader:
///   fixed16`, or none without. Where the write of it fails, a front of it was written, and the
///   status is 7 too.
///
/// A load ends with 0, 6 or 7, as its objects and its log are always accepted.
///
/// With a status above 0 its text goes to `faults`; a failed write of it changes no status.
pub fn run<R, F: Files, S: Source, K: Sink>(
    _rt: &R,
    alloc: Global,
    words: &[String],
    files: &mut F,
    input: &mut S,
    output: &mut K,
    faults: &mut K,
) -> u8
    // The statuses, and when each may come.
    ensures status { IsStatus result }
    ensures usage { (result ≡ 1) ↔ (asked_words (map string_bytes words.now) ≡ None) }
    ensures objects { result ≡ 2
        → OnFile (asked_connection (map string_bytes words.now)) (F.held_at files.old)
        (λ wanted file. IsRefused wanted.rules file) }
    ensures exactly { OnFile (asked_connection (map string_bytes words.now)) (F.held_at files.old)
        (λ wanted file. MustRefuse wanted.rules result file) }
    ensures log { result ≡ 3
        → OnLog (asked_connection (map string_bytes words.now)) (F.held_at files.old) IsRefusedLog }
    ensures log_exactly { IfSome (asked_connection (map string_bytes words.now))
        (λ wanted. IfSome wanted.log (λ path.
        MustRefuseLog result (F.held_at files.old path))) }
    ensures file_cause { result ≡ 4 → Rose (F.faults files.old) (F.faults files.new) }
    ensures read_cause { result ≡ 5 → Rose (S.faults input.old) (S.faults input.new) }
    ensures write_cause { result ≡ 6 → Rose (K.faults output.old) (K.faults output.new) }

    // What was read and written at each status.
    ensures untouched { (result ≡ 1) ⊎ (result ≡ 2) ⊎ (result ≡ 3) ⊎ (result ≡ 4)
        → (input.new ≡ input.old) × (output.new ≡ output.old) }
    ensures no_file { result ≡ 1 → files.new ≡ files.old }
    ensures read { result ≡ 0 → OnSome (asked_connection (map string_bytes words.now))
        (ReadsAll (S.left input.old) (S.left input.new)) }
    ensures no_further { result ≡ 0 → ReadsNoFurther S.left S.one_read input.old input.new }
    ensures written { result ≡ 0
        → OnOpening (asked_connection (map string_bytes words.now)) (F.held_at files.old)
        (λ s. IfSome (S.left input.old) (λ all.
        Appends (K.held output.old) (K.held output.new) (replies s all))) }
    ensures part { result ≡ 5 → ReadsPart (S.left input.old) (S.left input.new) }
    ensures part_written { result ≡ 5
        → OnOpening (asked_connection (map string_bytes words.now)) (F.held_at files.old)
        (λ s. RepliesToPart s (S.left input.old) (S.left input.new)
        (K.held output.old) (K.held output.new)) }
    ensures cut_short { result ≡ 6
        → OnOpening (asked_connection (map string_bytes words.now)) (F.held_at files.old)
        (λ s. IfSome (S.left input.old) (λ all.
        AppendsFront (K.held output.old) (K.held output.new) (replies s all))) }
    ensures read_before { result ≡ 6
        → OnOpening (asked_connection (map string_bytes words.now)) (F.held_at files.old)
        (λ s. RepliesToRead s (S.left input.old) (S.left input.new)
        (K.held output.old) (K.held output.new)) }
    ensures some_read { (result ≡ 6) ⊎ (result ≡ 7)
        → ReadsSome (S.left input.old) (S.left input.new) }
    ensures first_written { result ≡ 7
        → ((input.new ≡ input.old) × (output.new ≡ output.old))
        ⊎ OnOpening (asked_connection (map string_bytes words.now)) (F.held_at files.old)
        (λ s. IfSome (S.left input.old) (λ all.
        RepliesToFirst s all (K.faults output.old) (K.faults output.new)
        (K.held output.old) (K.held output.new))) }

    // What a load reads and writes, and its statuses.
    ensures loaded { result ≡ 0 → IfSome (asked_load (map string_bytes words.now))
        (λ number. IsSomeAnd (load_line number)
        (Appends (K.held output.old) (K.held output.new))) }
    ensures load_cut_short { IfSome (asked_load (map string_bytes words.now))
        (λ number. IsSomeAnd (load_line number)
        (AppendsFront (K.held output.old) (K.held output.new))) }
    ensures load_untouched { OnSome (asked_load (map string_bytes words.now))
        ((input.new ≡ input.old) × (files.new ≡ files.old)) }
    ensures load_status { OnSome (asked_load (map string_bytes words.now))
        ((result ≡ 0) ⊎ (result ≡ 6) ⊎ (result ≡ 7)) }

    // What the fault sink gets, where its count of faults doesn't rise.
    ensures report { ¬ Rose (K.faults faults.old) (K.faults faults.new)
        → Reports (asked_connection (map string_bytes words.now)) (F.held_at files.old) result
        (K.held faults.old) (K.held faults.new) }
    ensures quiet { result ≡ 0 → faults.new ≡ faults.old }

    // No count falls, and no file changes.
    ensures files_later { F.faults files.old ≤ F.faults files.new }
    ensures input_later { S.faults input.old ≤ S.faults input.new }
    ensures output_later { K.faults output.old ≤ K.faults output.new }
    ensures faults_later { K.faults faults.old ≤ K.faults faults.new }
    ensures files_stay { (p : List ℕ) → F.held_at files.new p ≡ F.held_at files.old p }
{
    let asked = match asked_words(words) {
        Some(Subcommand::Ask(asked)) => asked,
        Some(Subcommand::Load(number)) => return load_or_tell(alloc, number, output, faults),
        None => return end(Fault::Usage, faults),
    };
    let live = match open(alloc, &asked, files) {
        Ok(live) => live,
        Err(fault) => return end(fault, faults),
    };
    match serve(alloc, live, input, output) {
        Ok(()) => 0,
        Err(ServeErr::Read) => end(Fault::Read, faults),
        Err(ServeErr::Write) => end(Fault::Write, faults),
        Err(ServeErr::Memory) => end(Fault::Memory, faults),
    }
}

/// Runs the workload of a number, and returns the status that the program ends with.
fn load_or_tell<K: Sink>(alloc: Global, number: u64, output: &mut K, faults: &mut K) -> u8
    ensures status { (result ≡ 0) ⊎ (result ≡ 6) ⊎ (result ≡ 7) }
    ensures written { result ≡ 0 → IsSomeAnd (load_line number)
        (Appends (K.held output.old) (K.held output.new)) }
    ensures cut_short { IsSomeAnd (load_line number)
        (AppendsFront (K.held output.old) (K.held output.new)) }
    ensures cause { result ≡ 6 → Rose (K.faults output.old) (K.faults output.new) }
    ensures told { (files : List ℕ → Option (Option (List ℕ)))
        → ¬ Rose (K.faults faults.old) (K.faults faults.new)
        → Reports None files result (K.held faults.old) (K.held faults.new) }
    ensures quiet { result ≡ 0 → faults.new ≡ faults.old }
    ensures output_later { K.faults output.old ≤ K.faults output.new }
    ensures faults_later { K.faults faults.old ≤ K.faults faults.new }
{
    if let Err(fault) = load(alloc, number, output) {
        return end(fault, faults);
    }
    0
}

/// Tells why the program ends, and returns its status.
fn end<K: Sink>(fault: Fault, faults: &mut K) -> u8
    ensures code { result ≡ status_of fault.entry }
    ensures known { IsStatus result }
    ensures told { ¬ Rose (K.faults faults.old) (K.faults faults.new)
        → Appends (K.held faults.old) (K.held faults.new) (end_text fault.entry) }
    ensures later { K.faults faults.old ≤ K.faults faults.new }
{
    let _ = fault.report(faults);
    fault.status()
}

/// Reads the object file, and then the log, where one is asked for.
fn open<'a, F: Files>(alloc: Global, asked: &Asked<'a>, files: &mut F) -> Result<Live, Fault<'a>>
    ensures ok { IfOk result
        (λ live. Opens (wanted_by asked.now) (F.held_at files.old) live.state) }
    ensures count { IfOk result (λ live. live.count ≡ 0) }
    ensures err { IfErr result (OpensNone (wanted_by asked.now) (F.held_at files.old)
        (F.faults files.old) (F.faults files.new)) }
    ensures later { F.faults files.old ≤ F.faults files.new }
    ensures stays { (p : List ℕ) → F.held_at files.new p ≡ F.held_at files.old p }
{
    let base = match load_base(alloc, asked, files) {
        Ok(base) => base,
        Err(fault) => return Err(fault),
    };
    let log = match load_log(alloc, asked.log, files) {
        Ok(log) => log,
        Err(fault) => return Err(fault),
    };
    match Live::open(alloc, base, log) {
        Ok(live) => Ok(live),
        Err(_) => Err(Fault::Memory),
    }
}

/// Loads the object file and reads it.
fn load_base<'a, F: Files>(
    alloc: Global,
    asked: &Asked<'a>,
    files: &mut F,
) -> Result<Base, Fault<'a>>
    ensures ok { IfOk result (SaysBase asked.now.rules (F.held_at files.old asked.now.path.now)) }
    ensures sound { IfOk result IsSound }
    ensures err { IfErr result (LoadsNoBase (wanted_by asked.now)
        (F.held_at files.old asked.now.path.now)
        (F.faults files.old) (F.faults files.new)) }
    ensures later { F.faults files.old ≤ F.faults files.new }
    ensures stays { (p : List ℕ) → F.held_at files.new p ≡ F.held_at files.old p }
{
    let path = asked.path;
    let bytes = match files.load(alloc, path, OBJECTS_LIMIT) {
        Ok(bytes) => bytes,
        Err(LoadErr::Missing) => return Err(Fault::FileMissing(path)),
        Err(LoadErr::Failed) => return Err(Fault::FileUnreadable(path)),
        Err(LoadErr::TooLarge) => return Err(Fault::Objects(ObjectsFault::TooLarge)),
        Err(LoadErr::Memory) => return Err(Fault::Memory),
    };
    match read_objects(alloc, &bytes, asked.rules) {
        Ok(base) => Ok(base),
        Err(ObjectsErr::At { line, what }) => Err(Fault::Objects(ObjectsFault::At { line, what })),
        Err(ObjectsErr::Memory(_)) => Err(Fault::Memory),
    }
}

/// Loads the log and reads it, where one is asked for; else it has no entries.
fn load_log<'a, F: Files>(
    alloc: Global,
    path: Option<&'a str>,
    files: &mut F,
) -> Result<LogBook, Fault<'a>>
    ensures ok { IfOk result
        (λ log. OpensLog (option_copied path.entry) (F.held_at files.old) log.entries) }
    ensures err { IfErr result (λ fault. IsSomeAnd (option_copied path.entry)
        (λ asked. LoadsNoLog asked (F.held_at files.old asked)
        (F.faults files.old) (F.faults files.new) fault)) }
    ensures later { F.faults files.old ≤ F.faults files.new }
    ensures stays { (p : List ℕ) → F.held_at files.new p ≡ F.held_at files.old p }
{
    match path {
        Some(path) => read_log(alloc, path, files),
        None => Ok(LogBook::empty(alloc)),
    }
}

/// Loads a log and reads it.
fn read_log<'a, F: Files>(alloc: Global, path: &'a str, files: &mut F) -> Result<LogBook, Fault<'a>>
    ensures ok { IfOk result (λ log. SaysLog (F.held_at files.old path.now) log.entries) }
    ensures err { IfErr result (LoadsNoLog path.now (F.held_at files.old path.now)
        (F.faults files.old) (F.faults files.new)) }
    ensures later { F.faults files.old ≤ F.faults files.new }
    ensures stays { (p : List ℕ) → F.held_at files.new p ≡ F.held_at files.old p }
{
    let bytes = match files.load(alloc, path, LOG_LIMIT) {
        Ok(bytes) => bytes,
        Err(LoadErr::Missing) => return Err(Fault::FileMissing(path)),
        Err(LoadErr::Failed) => return Err(Fault::FileUnreadable(path)),
        Err(LoadErr::TooLarge) => return Err(Fault::Log(LogFault::TooLarge)),
        Err(LoadErr::Memory) => return Err(Fault::Memory),
    };
    match LogBook::read(alloc, &bytes) {
        Ok(log) => Ok(log),
        Err(LogErr::TooManyLines { line }) => Err(Fault::Log(LogFault::TooManyLines { line })),
        Err(LogErr::LineTooLong { line }) => Err(Fault::Log(LogFault::LineTooLong { line })),
        Err(LogErr::Memory(_)) => Err(Fault::Memory),
    }
}
