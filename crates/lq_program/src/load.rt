ghost use Rattle.std.specs.Prelude.{◌≡◌, ℕ, ◌≤◌, ◌%◌, ◌⊎◌, Some, None, IfOk, IfErr, OnOk, OnErr};
ghost use Rattle.std.specs.Prelude.{IsSome, IsSomeAnd, length, string_bytes, sum};
ghost use Rattle.std.specs.Io.KnownBytes.{Appends};
ghost use Rattle.lq_outside.specs.Faults.{Rose};
ghost use Rattle.lq_outside.specs.Sinks.{AppendsFront};
ghost use Rattle.lq_workload.specs.Objects.{objects_text};
ghost use Rattle.lq_workload.specs.Workload.{log_text};
ghost use Rattle.lq_program.specs.Load.{load_line, load_state, replies_line};
ghost use Rattle.lq_session.specs.Replies.{replies};

use crate::fault::Fault;
use lq_live::Live;
use lq_log::LogBook;
use lq_objects::read_objects;
use lq_outside::{MemSink, Sink, SteadySource, write_all};
use lq_records::{Memory, Rules};
use lq_session::serve;
use lq_workload::Workload;
use std::alloc::{AllocError, Global};

/// By which rules contacts see services and groups where no option says else.
const RULES: Rules = Rules {
    service_strict: false,
    group_strict: true,
};

/// Runs the workload of a number: its stream is served from the state that its objects and its log
/// open with, and its replies are kept in memory. Then one line is written, which tells how many
/// bytes the replies have, and their sum modulo 2 ^ 32. The errors are `Write`, after which a front
/// of the line was written, and out of memory, after which nothing was.
pub fn load<K: Sink>(alloc: Global, number: u64, output: &mut K) -> Result<(), Fault<'static>>
    ensures ok { OnOk result
        (IsSomeAnd (load_line number) (Appends (K.held output.old) (K.held output.new))) }
    ensures err { OnErr result
        (IsSomeAnd (load_line number) (AppendsFront (K.held output.old) (K.held output.new))) }
    ensures errors { IfErr result (λ fault. (fault ≡ Fault.Write) ⊎ (fault ≡ Fault.Memory)) }
    ensures cause { result ≡ Err Fault.Write → Rose (K.faults output.old) (K.faults output.new) }
    ensures later { K.faults output.old ≤ K.faults output.new }
{
    let Ok(line) = line_of(alloc, number) else {
        return Err(Fault::Memory);
    };
    match write_all(output, line.as_bytes()) {
        Ok(()) => Ok(()),
        Err(_) => Err(Fault::Write),
    }
}

/// The line of the workload of a number.
#[tactic(auto, using(crate::proofs::WorkloadLemmas::line_there))]
fn line_of(alloc: Global, number: u64) -> Result<String, Memory>
    ensures ok { IfOk result (λ line. load_line number ≡ Some (string_bytes line)) }
    ensures there { IsSome (load_line number) }
{
    let workload = Workload::generate(alloc, number)?;
    let live = open(alloc, &workload)?;
    let replies = replies(alloc, live, workload.stream)?;
    line_of_replies(alloc, replies.held())
}

/// The state that a workload's objects and its log open with. Both are accepted, so that the only
/// error is out of memory.
fn open(alloc: Global, workload: &Workload) -> Result<Live, Memory>
    ensures state { (number : ℕ) → string_bytes workload.now.objects ≡ objects_text number
        → string_bytes workload.now.log ≡ log_text number
        → IfOk result (λ live. load_state number ≡ Some live.state) }
    ensures count { IfOk result (λ live. live.count ≡ 0) }
{
    let Ok(base) = read_objects(alloc, workload.objects.as_bytes(), RULES) else {
        return Err(AllocError);
    };
    let Ok(log) = LogBook::read(alloc, workload.log.as_bytes()) else {
        return Err(AllocError);
    };
    Live::open(alloc, base, log)
}

/// The replies to a stream. A failed write of them is out of memory too.
fn replies(alloc: Global, live: Live, stream: String) -> Result<MemSink, Memory>
    requires { live.count ≡ 0 }
    ensures { IfOk result (λ sink. sink.held ≡ replies live.state (string_bytes stream)) }
{
    let mut input = SteadySource::new(stream.into_bytes());
    let mut output = MemSink::new(alloc, Vec::new(alloc));
    match serve(alloc, live, &mut input, &mut output) {
        Ok(()) => Ok(output),
        Err(_) => Err(AllocError),
    }
}

/// The line that tells of replies.
fn line_of_replies(alloc: Global, bytes: &[u8]) -> Result<String, Memory>
    ensures { IfOk result (λ line. string_bytes line ≡ replies_line bytes.now) }
{
    let count = bytes.len();
    let sum = sum(bytes);
    format!(in alloc;
        "hosts 100 services 1000 lines 2000 commands 50 queries 20 bytes {count} sum {sum}\n"
    )
}

/// The sum of bytes modulo 2 ^ 32.
fn sum(bytes: &[u8]) -> u32
    ensures { result ≡ sum bytes.now % 4294967296 }
{
    let mut sum = 0_u32;
    for byte in bytes {
        sum = sum.wrapping_add(u32::from(*byte));
    }
    sum
}
