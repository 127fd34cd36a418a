ghost use Rattle.std.specs.Prelude.{[], ◌≡◌, All, ◌≢◌, ◌<◌, ◌≤◌, ◌⊎◌, length, vec_len, IfOk, IfErr};
ghost use Rattle.std.specs.Prelude.{IfSome, OnErr, OnOk};
ghost use Rattle.std.specs.Io.KnownBytes.{Appends, Keeps};
ghost use Rattle.lq_outside.specs.Faults.{HasCause, Rose};
ghost use Rattle.lq_outside.specs.Sinks.{AppendsFront};
ghost use Rattle.lq_request.specs.Messages.{Command, Query, TooLong, message_limit};
ghost use Rattle.lq_output.specs.Header.{refusal_text};
ghost use Rattle.lq_query.specs.Answer.{answer_of};
ghost use Rattle.lq_request.specs.Reading.{ShowsCells};
ghost use Rattle.lq_request.specs.Request.{request_in};
ghost use Rattle.lq_request.specs.Stats.{IsStat};
ghost use Rattle.lq_request.specs.Style.{style_of};
ghost use Rattle.lq_session.specs.Reading.{AppendsOrFaults, ReadsAll, ReadsNoFurther};
ghost use Rattle.lq_session.specs.Reading.{RepliesToFirst, read_limit};
ghost use Rattle.lq_session.specs.Replies.{after_piece, keeps, opening, out_of_memory, replies};
ghost use Rattle.lq_session.specs.Replies.{reply_to, too_long, update_of};
ghost use Rattle.lq_session.specs.Session.{Breaks, BreaksReply, Does, Fills, Stops};

use lq_commands::{CommandErr, Order, read_command};
use lq_events::Update;
use lq_live::Live;
use lq_output::refusal;
use lq_outside::{Failed, Sink, Source, write_all};
use lq_query::answer;
use lq_records::{Items, Memory, Refusal, Text};
use lq_request::{Cut, Cutting, ReadErr, Request, read_request, reply_style};
use std::alloc::{AllocError, Global};
use std::marker::Model;
use std::mem::forget;

/// How many messages of a connection are served. A further one isn't looked at: the connection
/// ends.
pub const MOST_MESSAGES: usize = 10_000;

/// How many bytes are read at once. More would take more room for each connection.
const PIECE: usize = 65_536;

/// What a query or a message that is too long is answered where memory runs out for it, if it asks
/// for the line of 16 bytes. A constant, since the reply itself can take no memory then.
const OUT_OF_MEMORY: &[u8] = b"500          14\nout of memory\n";

/// Why a connection breaks off.
#[derive(Clone, Copy)]
pub enum ServeErr {
    /// A read failed.
    Read,
    /// A write failed.
    Write,
    /// Out of memory.
    Memory,
}

impl From<AllocError> for ServeErr {
    ghost use Rattle.lq_session.specs.declared.session.ServeErr.TheVariants.{Memory};

    ghost from_gives = { λ _ e. e ≡ Memory };

    fn from(_: AllocError) -> Self {
        ServeErr::Memory
    }
}

/// Serves a connection: reads messages from the input, and writes the reply to each query before
/// the next message is read. Each command takes its step of the state. The connection ends after a
/// query that doesn't keep it, after a message that is too long, after the 10,000th message, or at
/// the end of the input. The errors are `Read`, `Write` and out of memory. A query or a message
/// that is too long for which memory runs out is refused with the code 500, in its style, before
/// the connection ends with that error, also where the write of it fails.
///
/// The program ends after it: the state's memory isn't given back.
pub fn serve<S: Source, K: Sink>(
    alloc: Global,
    live: Live,
    input: &mut S,
    output: &mut K,
) -> Result<(), ServeErr>
    requires { live.count ≡ 0 }
    ensures written { OnOk result (IfSome (S.left input.old) (λ all.
        Appends (K.held output.old) (K.held output.new) (replies live.state all))) }
    ensures read { OnOk result (ReadsAll (S.left input.old) (S.left input.new)) }
    ensures no_further { OnOk result (ReadsNoFurther S.left S.one_read input.old input.new) }
    ensures stopped { IfErr result (λ error. Stops error live.state
        (S.left input.old) (S.left input.new) (K.held output.old) (K.held output.new)) }
    ensures refused { result ≡ Err ServeErr.Memory
        → ((input.new ≡ input.old) × (output.new ≡ output.old))
        ⊎ IfSome (S.left input.old) (λ all. RepliesToFirst live.state all
        (K.faults output.old) (K.faults output.new) (K.held output.old) (K.held output.new)) }
    ensures input_later { S.faults input.old ≤ S.faults input.new }
    ensures output_later { K.faults output.old ≤ K.faults output.new }
    ensures read_cause { result ≡ Err ServeErr.Read
        → Rose (S.faults input.old) (S.faults input.new) }
    ensures write_cause { result ≡ Err ServeErr.Write
        → Rose (K.faults output.old) (K.faults output.new) }
{
    let Ok((mut session, mut cut, mut piece)) = start(alloc, live) else {
        return Err(ServeErr::Memory);
    };
    let served = serve_all(&mut session, &mut cut, &mut piece, input, output);
    // Its memory is left to the system, which takes it back at once when the program ends. A drop
    // would go over each text of the state.
    forget(session);
    served
}

/// Serves the messages of an input from an opening state on.
fn serve_all<S: Source, K: Sink>(
    session: &mut Session,
    cut: &mut Cut,
    piece: &mut [u8],
    input: &mut S,
    output: &mut K,
) -> Result<(), ServeErr>
    requires opened { session.old ≡ opening session.old.state }
    requires none { cut.old ≡ [] }
    requires size { length piece.old ≡ read_limit }
    ensures written { OnOk result (IfSome (S.left input.old) (λ all.
        Appends (K.held output.old) (K.held output.new) (replies session.old.state all))) }
    ensures read { OnOk result (ReadsAll (S.left input.old) (S.left input.new)) }
    ensures no_further { OnOk result (ReadsNoFurther S.left S.one_read input.old input.new) }
    ensures stopped { IfErr result (λ error. Stops error session.old.state
        (S.left input.old) (S.left input.new) (K.held output.old) (K.held output.new)) }
    ensures refused { result ≡ Err ServeErr.Memory
        → IfSome (S.left input.old) (λ all. RepliesToFirst session.old.state all
        (K.faults output.old) (K.faults output.new) (K.held output.old) (K.held output.new)) }
    ensures input_later { S.faults input.old ≤ S.faults input.new }
    ensures output_later { K.faults output.old ≤ K.faults output.new }
    ensures read_cause { result ≡ Err ServeErr.Read
        → Rose (S.faults input.old) (S.faults input.new) }
    ensures write_cause { result ≡ Err ServeErr.Write
        → Rose (K.faults output.old) (K.faults output.new) }
{
    let mut ended = false;
    let mut left = MOST_MESSAGES;
    'messages: while left > 0 {
        match session.next(cut, ended, output) {
            Ok(Next::On) => left -= 1,
            Ok(Next::More) => match fill(input, cut, piece) {
                Ok(end) => ended = end,
                Err(error) => return Err(error),
            },
            Ok(Next::Last) => return Ok(()),
            Ok(Next::Closed) => return Ok(()),
            Err(error) => return Err(error),
        }
    }
    Ok(())
}

/// The session over a state, no bytes yet, and room for what one read gives.
fn start(alloc: Global, live: Live) -> Result<(Session, Cut, Vec<u8>), Memory>
    ensures session { IfOk result (λ parts. parts.0 ≡ live) }
    ensures cut { IfOk result (λ parts. parts.1 ≡ []) }
    ensures piece { IfOk result (λ parts. vec_len parts.2 ≡ read_limit) }
{
    let cut = Cut::new(alloc)?;
    let piece = new_piece(alloc)?;
    Ok((Session { alloc, live }, cut, piece))
}

/// Room for what one read gives.
fn new_piece(alloc: Global) -> Result<Vec<u8>, Memory>
    ensures { IfOk result (λ piece. vec_len piece ≡ read_limit) }
{
    vec![in alloc; 0; PIECE]
}

/// Reads once after what is held, and says whether the input has ended.
fn fill<S: Source>(input: &mut S, cut: &mut Cut, piece: &mut [u8]) -> Result<bool, ServeErr>
    requires room { length cut.old ≤ message_limit }
    requires size { length piece.old ≡ read_limit }
    ensures ok { IfOk result
        (λ ended. Fills ended (S.left input.old) (S.left input.new) cut.old cut.new) }
    ensures err { OnErr result (Keeps (S.left input.old) (S.left input.new)) }
    ensures same { OnErr result (cut.new ≡ cut.old) }
    ensures read { IfErr result (λ error. error ≡ ServeErr.Read) }
    ensures once { S.one_read input.old input.new }
    ensures cause { HasCause (S.faults input.old) (S.faults input.new) result }
{
    let most = cut.room().min(piece.len());
    match input.read(&mut piece[..most]) {
        Ok(count) => {
            cut.feed(&piece[..count]);
            Ok(count == 0)
        }
        Err(Failed) => Err(ServeErr::Read),
    }
}

/// What became of a connection.
#[derive(Clone, Copy)]
enum Next {
    /// A message was served, and the connection goes on.
    On,
    /// A message was served that is the last one of the connection.
    Last,
    /// No message is left.
    Closed,
    /// No message is whole, and more bytes may come.
    More,
}

/// What a query is answered.
#[derive(Drop)]
struct Answered {
    bytes: Items<u8>,
    /// Whether the connection goes on.
    keep: bool,
}

/// The state of the objects, which the messages of a connection speak of.
#[derive(Drop)]
struct Session {
    alloc: Global,
    live: Live,
}

impl Model for Session {
    ghost use Rattle.lq_live.specs.State.{Counted};

    ghost Value = { Counted };

    ghost view = { λ session. session.live };
}

impl Session {
    /// Serves the message that stands first in what is held.
    fn next<K: Sink>(
        &mut self,
        cut: &mut Cut,
        ended: bool,
        output: &mut K,
    ) -> Result<Next, ServeErr>
        ensures ok { IfOk result (λ next. Does next ended cut.old cut.new self.old self.new
            (K.held output.old) (K.held output.new)) }
        ensures err { IfErr result (λ error. Breaks error ended cut.old self.old
            (K.faults output.old) (K.faults output.new)
            (K.held output.old) (K.held output.new)) }
        ensures later { K.faults output.old ≤ K.faults output.new }
        ensures cause { result ≡ Err ServeErr.Write
            → Rose (K.faults output.old) (K.faults output.new) }
    {
        match cut.next_message(ended) {
            Cutting::Query(text) => match self.answer(text, output) {
                Ok(true) => Ok(Next::On),
                Ok(false) => Ok(Next::Last),
                Err(error) => Err(error),
            },
            Cutting::Command(text) => match self.command(text) {
                Ok(()) => Ok(Next::On),
                Err(_) => Err(ServeErr::Memory),
            },
            Cutting::TooLong(front) => match self.refuse(front, output) {
                Ok(()) => Ok(Next::Last),
                Err(error) => Err(error),
            },
            Cutting::Empty => Ok(Next::Closed),
            Cutting::More => Ok(Next::More),
        }
    }

    /// Writes the reply to a query, and says whether the connection goes on. Where memory runs out
    /// the query is refused.
    fn answer<K: Sink>(&self, text: &[u8], output: &mut K) -> Result<bool, ServeErr>
        ensures keep { IfOk result (λ keep. keep ≡ keeps (request_in text.now)) }
        ensures ok { OnOk result (Appends (K.held output.old) (K.held output.new)
            (reply_to (request_in text.now) self.now.state)) }
        ensures broken { IfErr result (λ error.
            BreaksReply error (Query text.now) self.now.state
            (K.faults output.old) (K.faults output.new)
            (K.held output.old) (K.held output.new)) }
        ensures later { K.faults output.old ≤ K.faults output.new }
        ensures cause { result ≡ Err ServeErr.Write
            → Rose (K.faults output.old) (K.faults output.new) }
    {
        let Ok(answered) = self.reply(text) else {
            refuse_for_memory(output, text);
            return Err(ServeErr::Memory);
        };
        write_reply(output, answered.bytes.as_slice())?;
        Ok(answered.keep)
    }

    /// Writes the reply to a message that is too long, in the style of its front.
    fn refuse<K: Sink>(&self, front: &[u8], output: &mut K) -> Result<(), ServeErr>
        ensures ok { OnOk result (Appends (K.held output.old) (K.held output.new)
            (refusal_text too_long (style_of front.now).fixed16)) }
        ensures broken { IfErr result (λ error.
            BreaksReply error (TooLong front.now) self.now.state
            (K.faults output.old) (K.faults output.new)
            (K.held output.old) (K.held output.new)) }
        ensures later { K.faults output.old ≤ K.faults output.new }
        ensures cause { result ≡ Err ServeErr.Write
            → Rose (K.faults output.old) (K.faults output.new) }
    {
        let Ok(bytes) = long_refusal(self.alloc, reply_style(front).fixed16) else {
            refuse_for_memory(output, front);
            return Err(ServeErr::Memory);
        };
        write_reply(output, bytes.as_slice())
    }

    /// The reply to a query that is read.
    fn answer_to(&self, request: &Request) -> Result<Answered, Memory>
        requires cells { ShowsCells request.now }
        requires stats { All IsStat request.now.stats }
        ensures bytes { IfOk result (λ answered.
            answered.bytes ≡ (answer_of request.now self.now.state).bytes) }
        ensures keep { IfOk result (λ answered. answered.keep ≡ request.now.keep) }
    {
        let reply = answer(self.alloc, &self.live, request)?;
        Ok(Answered {
            bytes: reply.bytes,
            keep: request.keep,
        })
    }

    /// The reply to a query.
    fn reply(&self, text: &[u8]) -> Result<Answered, Memory>
        ensures bytes { IfOk result
            (λ answered. answered.bytes ≡ reply_to (request_in text.now) self.now.state) }
        ensures keep { IfOk result (λ answered. answered.keep ≡ keeps (request_in text.now)) }
    {
        match read_request(self.alloc, text, self.live.base()) {
            Ok(request) => self.answer_to(&request),
            Err(
                ReadErr::Refused {
                    refusal,
                    fixed16,
                    keep,
                },
            ) => Ok(Answered {
                bytes: refusal_bytes(self.alloc, &refusal, fixed16)?,
                keep,
            }),
            Err(ReadErr::Memory) => Err(AllocError),
        }
    }

    /// Takes a command's step of the state. One without a time is skipped.
    fn command(&mut self, text: &[u8]) -> Result<(), Memory>
        ensures { OnOk result (self.new ≡ after_piece self.old (Command text.now)) }
    {
        match read_command(self.alloc, self.live.base(), text) {
            Ok(order) => self.live.apply(&update_of(self.live.count(), order)),
            Err(CommandErr::NoTime) => Ok(()),
            Err(CommandErr::Memory) => Err(AllocError),
        }
    }
}

/// Writes a reply.
fn write_reply<K: Sink>(output: &mut K, bytes: &[u8]) -> Result<(), ServeErr>
    ensures ok { OnOk result (Appends (K.held output.old) (K.held output.new) bytes.now) }
    ensures err { OnErr result (AppendsFront (K.held output.old) (K.held output.new) bytes.now) }
    ensures write { IfErr result (λ error. error ≡ ServeErr.Write) }
    ensures cause { HasCause (K.faults output.old) (K.faults output.new) result }
{
    match write_all(output, bytes) {
        Ok(()) => Ok(()),
        Err(_) => Err(ServeErr::Write),
    }
}

/// Refuses a message that memory ran out for, in the style of its text. It takes no memory.
fn refuse_for_memory<K: Sink>(output: &mut K, text: &[u8])
    ensures written { AppendsOrFaults (K.faults output.old) (K.faults output.new)
        (K.held output.old) (K.held output.new)
        (refusal_text out_of_memory (style_of text.now).fixed16) }
    ensures later { K.faults output.old ≤ K.faults output.new }
{
    if reply_style(text).fixed16 {
        // Memory stays the reason that the connection ends where this write fails too.
        let _ = write_all(output, OUT_OF_MEMORY);
    }
}

/// What replies to a message that is too long.
fn long_refusal(alloc: Global, fixed16: bool) -> Result<Items<u8>, Memory>
    ensures { IfOk result (λ bytes. bytes ≡ refusal_text too_long fixed16) }
{
    let refused = Refusal {
        code: 413,
        text: Text::new(alloc, "request too large")?,
    };
    refusal_bytes(alloc, &refused, fixed16)
}

/// What replies to what is refused.
fn refusal_bytes(alloc: Global, refused: &Refusal, fixed16: bool) -> Result<Items<u8>, Memory>
    requires least { 100 ≤ refused.now.code }
    requires most { refused.now.code ≤ 999 }
    ensures { IfOk result (λ bytes. bytes ≡ refusal_text refused.now fixed16) }
{
    // A word of a message is far shorter; no memory would hold the reply.
    if refused.text.as_str().len() >= 99_999_999_999 {
        return Err(AllocError);
    }
    refusal(alloc, refused, fixed16)
}

/// The update of an order.
fn update_of(seq: u64, order: Order) -> Update
    ensures { result ≡ update_of seq order }
{
    let Order { time, text, act } = order;
    Update {
        origin: 0,
        seq,
        time,
        text,
        act,
    }
}
