ghost use Rattle.std.specs.Prelude.{◌≡◌, ◌++◌, length, take, drop, min};

use std::marker::Model;

// The bytes that a source in memory has left.
#[derive(Drop)]
pub(crate) struct Unread {
    bytes: Vec<u8>,
    at: usize,
}

impl Model for Unread {
    ghost use Rattle.std.specs.Prelude.{ℕ, List, ◌≤◌, vec_len, drop};

    ghost Value = { List ℕ };

    ghost view = { λ u. drop u.at u.bytes.items };

    ghost invariant = { λ u. u.at ≤ vec_len u.bytes };
}

// Copies as many bytes as both have to the front of `buf`, and returns how many.
fn copy_front(bytes: &[u8], buf: &mut [u8]) -> usize
    ensures count { result ≡ min (length bytes.now) (length buf.old) }
    ensures copied { buf.new ≡ take result bytes.now ++ drop result buf.old }
{
    let count = bytes.len().min(buf.len());
    buf[..count].copy_from_slice(&bytes[..count]);
    count
}

impl Unread {
    pub(crate) fn new(bytes: Vec<u8>) -> Self
        ensures { result ≡ bytes.items }
    {
        Unread { bytes, at: 0 }
    }

    pub(crate) fn as_slice(&self) -> &[u8]
        ensures { result.now ≡ self.now }
    {
        &self.bytes[self.at..]
    }

    // Gives as many bytes as are left and fit, and returns how many.
    pub(crate) fn give(&mut self, buf: &mut [u8]) -> usize
        ensures count { result ≡ min (length self.old) (length buf.old) }
        ensures given { take result buf.new ≡ take result self.old }
        ensures rest { self.new ≡ drop result self.old }
    {
        let count = copy_front(&self.bytes[self.at..], buf);
        self.at += count;
        count
    }
}
