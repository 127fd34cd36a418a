ghost use Rattle.std.specs.Prelude.{◌≡◌, ◌≢◌, ℕ, ◌+◌, ◌-◌, ◌<◌, ◌≤◌, List, [], ◌++◌, length, take};
ghost use Rattle.std.specs.Prelude.{drop, false, vec_len, IfOk};
ghost use Rattle.lq_request.specs.Cutting.{lent_piece, Shows, taken_by};
ghost use Rattle.lq_request.specs.Search.{IsKnown, IsSearched};
ghost use Rattle.lq_request.specs.Messages.{IsInOrder, IsNext, message_limit, rest_after, whole};
ghost use Rattle.lq_request.specs.declared.cut.TheConstants.{CAPACITY};

use crate::extent::{Extent, MessageKind, Searched};
use lq_records::Memory;
use std::alloc::Global;
use std::marker::Model;

/// The longest message in bytes, with the empty lines before it and the empty line that ends it. A
/// longer one is refused.
pub const MESSAGE_LIMIT: usize = 65_536;

/// The most bytes that are held: one more than a message may have shows that the bytes go on past
/// it.
const CAPACITY: usize = 65_537;

/// What stands first in the bytes of a connection.
#[derive(Clone, Copy)]
pub enum Cutting<'a> {
    /// The lines of a query, without the empty lines before it and the empty line that ends it.
    Query(&'a [u8]),
    /// The text of a command: what follows `COMMAND` and its blanks in the line.
    Command(&'a [u8]),
    /// No message is whole, and more bytes may come.
    More,
    /// No message is left.
    Empty,
    /// The first 65,536 bytes of a message that doesn't end within them.
    TooLong(&'a [u8]),
}

/// Cuts messages out of the bytes of a connection, in whatever pieces they come. Contracts see it
/// as the bytes that were fed and not yet cut off.
#[derive(Drop)]
pub struct Cut {
    buffer: Vec<u8>,
    start: usize,
    end: usize,
    searched: Searched,
}

impl Model for Cut {
    ghost use Rattle.std.specs.Prelude.{◌≡◌, ◌-◌, ◌≤◌, ℕ, List, take, drop, vec_len};
    ghost use Rattle.lq_request.specs.Search.{IsKnown};
    ghost use Rattle.lq_request.specs.declared.cut.TheConstants.{CAPACITY};
    ghost use Rattle.lq_request.specs.Messages.{message_limit};

    ghost Value = { List ℕ };

    ghost view = { λ cut. take (cut.end - cut.start) (drop cut.start cut.buffer.items) };

    ghost invariant = { λ cut. (cut.start ≤ cut.end) × (cut.end ≤ CAPACITY)
        × (vec_len cut.buffer ≡ CAPACITY) × (cut.searched.next ≤ message_limit)
        × IsKnown cut.searched.text cut.searched.next cut.searched.seen
        (take (cut.end - cut.start) (drop cut.start cut.buffer.items)) };
}

impl Cut {
    ghost use Rattle.std.specs.Prelude.{⊤};
    ghost use Rattle.std.specs.Borrow.{sem};
    ghost use mathlib.Core.Option.{none};
    ghost use denote.Follow.{follows_so};
    ghost use Rattle.lq_request.specs.contracts.cut.Cut.{the_row};

    /// Holds no bytes yet.
    pub fn new(alloc: Global) -> Result<Self, Memory>
        ensures { IfOk result (λ cut. cut ≡ []) }
    {
        Ok(Cut {
            buffer: vec![in alloc; 0; CAPACITY]?,
            start: 0,
            end: 0,
            searched: Searched::nothing(),
        })
    }

    /// How many bytes may be fed.
    pub fn room(&self) -> usize
        ensures { result + length self.now ≡ message_limit + 1 }
    {
        CAPACITY - (self.end - self.start)
    }

    /// Adds a piece of the connection's bytes.
    pub fn feed(&mut self, piece: &[u8])
        requires { length self.old + length piece.now ≤ message_limit + 1 }
        ensures { self.new ≡ self.old ++ piece.now }
    {
        let held = self.end - self.start;
        self.start = make_room(&mut self.buffer, self.start, held, piece.len());
        self.end = self.start + held;
        put(&mut self.buffer, self.end, piece);
        self.end += piece.len();
    }

    fn held_bytes(&self) -> &[u8]
        ensures { result.now ≡ self.now }
    {
        &self.buffer[self.start..self.end]
    }

    /// Cuts off what stands first; `ended` says that no more bytes come. `More` leaves all as it
    /// was.
    pub fn next_message(&mut self, ended: bool) -> Cutting<'_>
        ensures next { IsNext ended self.old (lent_piece result) }
        ensures order { IsInOrder ended self.old (lent_piece result)
            (rest_after (lent_piece result) self.old) }
        ensures* rest { sem 𝓛 (follows_so the_row the_row self.entry.ghost_name none (λ _ _. ⊤)
            (λ held. held ≡ rest_after (lent_piece result) self.old)) }
    {
        let mut searched = self.searched;
        let found = first_found(&mut searched, self.held_bytes(), ended);
        let start = self.start;
        self.start = start + found.taken_bytes();
        self.searched = searched;
        match found {
            Found::Message(extent) => message(
                extent.kind,
                &self.buffer[start + extent.start..start + extent.end],
            ),
            Found::TooLong => Cutting::TooLong(&self.buffer[start..start + MESSAGE_LIMIT]),
            Found::More => Cutting::More,
        }
    }
}

/// A whole message of a kind.
fn message(kind: MessageKind, text: &[u8]) -> Cutting<'_>
    ensures { lent_piece result ≡ whole kind text.now }
{
    match kind {
        MessageKind::Query => Cutting::Query(text),
        MessageKind::Command => Cutting::Command(text),
        MessageKind::Nothing => Cutting::Empty,
    }
}

/// What stands first in the bytes, by its places.
#[derive(Clone, Copy)]
enum Found {
    Message(Extent),
    TooLong,
    More,
}

impl Found {
    /// How many bytes it takes from the front.
    fn taken_bytes(self) -> usize
        ensures { result ≡ taken_by self }
    {
        match self {
            Found::Message(extent) => extent.next,
            Found::TooLong => MESSAGE_LIMIT,
            Found::More => 0,
        }
    }
}

/// What stands first in the bytes that are held, and how far what stands after it was looked over.
/// They are searched only where a line feed came, or where it is the last time.
fn first_found(searched: &mut Searched, held: &[u8], ended: bool) -> Found
    requires searched { IsKnown searched.old.text searched.old.next searched.old.seen held.now }
    requires limit { searched.old.next ≤ message_limit }
    ensures shows { Shows ended held.now result }
    ensures searched { IsKnown searched.new.text searched.new.next searched.new.seen
        (drop (taken_by result) held.now) }
    ensures limit { searched.new.next ≤ message_limit }
{
    if ended || held.len() > MESSAGE_LIMIT {
        return find(searched, held, ended);
    }
    if !searched.sees_feed(held) {
        return Found::More;
    }
    find(searched, held, ended)
}

/// The same by a search of what wasn't looked over.
fn find(searched: &mut Searched, held: &[u8], ended: bool) -> Found
    requires searched { IsSearched searched.old.text searched.old.next held.now }
    requires limit { searched.old.next ≤ message_limit }
    ensures shows { Shows ended held.now result }
    ensures searched { IsKnown searched.new.text searched.new.next searched.new.seen
        (drop (taken_by result) held.now) }
    ensures limit { searched.new.next ≤ message_limit }
{
    let mut further = *searched;
    let extent = further.extent_of(window(held));
    *searched = Searched::nothing();
    if extent.end < extent.next {
        Found::Message(extent)
    } else if held.len() > MESSAGE_LIMIT {
        Found::TooLong
    } else if !ended {
        *searched = Searched {
            seen: further.next,
            ..further
        };
        Found::More
    } else {
        Found::Message(Extent {
            next: held.len(),
            ..extent
        })
    }
}

/// Makes room for `more` bytes after those that are held, which begin at the place `start`: they
/// move to the front where it is wanting. Returns the place where they begin then.
fn make_room(buffer: &mut [u8], start: usize, held: usize, more: usize) -> usize
    requires within { start + held ≤ length buffer.old }
    requires enough { held + more ≤ length buffer.old }
    ensures held { take held (drop result buffer.new) ≡ take held (drop start buffer.old) }
    ensures room { result + held + more ≤ length buffer.new }
{
    if start + held + more <= buffer.len() {
        return start;
    }
    buffer.copy_within(start..start + held, 0);
    0
}

/// Puts a piece at a place.
fn put(buffer: &mut [u8], at: usize, piece: &[u8])
    requires { at + length piece.now ≤ length buffer.old }
    ensures { take (at + length piece.now) buffer.new ≡ take at buffer.old ++ piece.now }
{
    buffer[at..at + piece.len()].copy_from_slice(piece);
}

/// The bytes within which a message has to end.
fn window(held: &[u8]) -> &[u8]
    ensures { result.now ≡ take message_limit held.now }
{
    if held.len() > MESSAGE_LIMIT {
        &held[..MESSAGE_LIMIT]
    } else {
        held
    }
}
