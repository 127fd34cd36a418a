//! A process that has no more memory than some room.

use std::alloc::{AllocError, Global};
use std::process::Abort;
use std::test::Fail;

/// The bytes of a piece of room.
const PIECE: usize = 4096;

/// The most pieces of room: 8 MiB.
const MOST_PIECES: usize = 2048;

/// The most blocks that are taken of one size.
const MOST_BLOCKS: usize = 1 << 18;

/// The size of the first blocks that are taken: half of what a process can address.
const LARGEST: usize = 1 << 46;

/// The most calls that are made in one room.
const MOST_CALLS: usize = 20_000;

/// All the memory that the process may still have, in blocks that nothing uses, and the room that
/// is given back of it. An unused block takes a page at most.
#[derive(Drop)]
pub(crate) struct Scarce {
    blocks: Vec<Vec<u8>>,
    room: Vec<Vec<u8>>,
}

impl Scarce {
    /// Takes all memory, in blocks of ever smaller sizes.
    pub(crate) fn new(alloc: Global) -> Result<Self, AllocError> {
        let mut scarce = Scarce {
            blocks: Vec::with_capacity(alloc, MOST_BLOCKS)?,
            room: Vec::with_capacity(alloc, MOST_PIECES)?,
        };
        push_blocks(alloc, &mut scarce.room, PIECE, MOST_PIECES);
        for halvings in 0..43u32 {
            push_blocks(alloc, &mut scarce.blocks, LARGEST >> halvings, MOST_BLOCKS);
        }
        Ok(scarce)
    }

    /// Gives pieces of room back, and tells whether there were as many.
    pub(crate) fn give(&mut self, pieces: usize) -> bool {
        for _ in 0..pieces {
            if self.room.pop().is_none() {
                return false;
            }
        }
        true
    }
}

/// Takes blocks of a size, as many as there are and as the list has room for.
fn push_blocks(alloc: Global, blocks: &mut Vec<Vec<u8>>, size: usize, most: usize) {
    for _ in 0..most {
        if push_block(alloc, blocks, size).is_err() {
            return;
        }
    }
}

fn push_block(alloc: Global, blocks: &mut Vec<Vec<u8>>, size: usize) -> Result<(), AllocError> {
    let block = Vec::with_capacity(alloc, size)?;
    Ok(blocks.push(block)?)
}

/// What a call came to in a process that had no more memory than some room.
#[derive(Clone, Copy)]
struct Tried {
    /// The largest room in which a call failed, in pieces of 4 KiB.
    pieces: usize,
    /// Whether a call in more room gave what it should.
    is_right: bool,
}

/// A call that may run out of memory, with what it takes and should give.
pub(crate) trait Call {
    /// Makes the call, and tells whether it gave what it should.
    fn make(&mut self, alloc: Global) -> Result<bool, AllocError>;
}

/// Makes a call in ever more room until it succeeds.
fn try_in_rooms<C: Call>(alloc: Global, call: &mut C) -> Result<Tried, AllocError> {
    let mut scarce = Scarce::new(alloc)?;
    let mut pieces = 0usize;
    for _ in 0..MOST_PIECES {
        if let Ok(is_right) = call.make(alloc) {
            return Ok(Tried { pieces, is_right });
        }
        let more = 1 + pieces / 8;
        if !scarce.give(more) {
            break;
        }
        pieces = pieces.saturating_add(more);
    }
    Ok(Tried {
        pieces,
        is_right: false,
    })
}

/// How often a call succeeds in some pieces of room before it fails.
pub(crate) fn successes<C: Call>(
    alloc: Global,
    pieces: usize,
    call: &mut C,
) -> Result<usize, AllocError> {
    let mut scarce = Scarce::new(alloc)?;
    scarce.give(pieces);
    for count in 0..MOST_CALLS {
        if call.make(alloc).is_err() {
            return Ok(count);
        }
    }
    Ok(MOST_CALLS)
}

/// Makes a call that fails in some pieces of room and gives what it should in more of it, and then
/// makes it with ample memory.
pub(crate) fn assert_late<R: Abort + AllocGlobal, C: Call>(
    rt: &R,
    name: &str,
    pieces: usize,
    call: &mut C,
) -> Result<(), Fail> {
    let tried = try_in_rooms(rt.alloc(), call)?;
    assert!(rt;
        tried.pieces >= pieces,
        "{name} failed in {} pieces",
        tried.pieces
    );
    assert!(rt; tried.is_right, "{name}");
    assert!(rt; call.make(rt.alloc())?, "{name} with ample memory");
    Ok(())
}

/// Whether a number of calls before one fails is late, and one failed.
pub(crate) fn is_late(count: usize) -> bool {
    (300..MOST_CALLS).contains(&count)
}
