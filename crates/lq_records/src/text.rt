ghost use Rattle.std.specs.Prelude.{◌≡◌, IfOk, IfSome, [], drop, string_bytes};
ghost use Rattle.std.specs.Arc.{arc_str_bytes};
ghost use Rattle.std.specs.Str.{IsCharBoundary};

use crate::Memory;
use std::alloc::{AllocError, Global};
use std::cmp::Ordering;
use std::hash::{Hash, Hasher};
use std::marker::Model;
use std::sync::ArcStr;

/// A text that the data holds. Contracts see it as its bytes, which are UTF-8.
///
/// The clones of a text share its bytes, and so do its ends, so that a text of which the data has
/// many is held once.
pub struct Text {
    share: Share,
}

/// What a text takes its bytes from. The number takes room that stands unused before the memory's
/// address, so a text has 16 bytes; an `Option` of the memory, with the number after it, has 24.
#[derive(Drop)]
enum Share {
    /// The empty text. It has no memory.
    Nothing,
    /// The end of memory that clones share.
    End {
        /// How many bytes of that memory stand before the text.
        from: u32,
        whole: ArcStr,
    },
}

// Written by hand: where one is dropped a proof then meets a call, and not each of the forms.
impl Drop for Text {
    fn drop(self) {
        let Text { share: _share } = self;
    }
}

impl Model for Text {
    ghost use Rattle.std.specs.Prelude.{List, ℕ};
    ghost use Rattle.lq_records.specs.Shares.{IsShare, bytes_of_share};

    ghost Value = { List ℕ };

    ghost view = { λ text. bytes_of_share text.share };

    ghost invariant = { λ text. IsShare text.share };
}

/// The most bytes that may stand before an end.
const LONGEST: usize = 0xFFFF_FFFF;

impl Text {
    /// The empty text. It takes no memory.
    pub fn empty() -> Self
        ensures { result ≡ [] }
    {
        Text {
            share: Share::Nothing,
        }
    }

    /// A copy of a text. The only error is that memory runs out.
    pub fn new(alloc: Global, text: &str) -> Result<Self, Memory>
        ensures { IfOk result (λ copy. copy ≡ text.now) }
    {
        if text.is_empty() {
            return Ok(Text::empty());
        }
        Ok(Text::of_whole(ArcStr::from_str(alloc, text)?))
    }

    /// The text that a string has. The only error is that memory runs out.
    pub fn from_string(string: String) -> Result<Self, Memory>
        ensures { IfOk result (λ text. text ≡ string_bytes string) }
    {
        Ok(Text::of_whole(ArcStr::from_string(string)?))
    }

    /// All of some shared bytes.
    fn of_whole(whole: ArcStr) -> Self
        ensures { result ≡ arc_str_bytes whole }
    {
        // Tells the proof that the bytes are UTF-8, so that a character begins at the front.
        let _ = whole.as_str();
        Text {
            share: Share::End { from: 0, whole },
        }
    }

    /// A text that shares the bytes of this one where it is an end of it, and else a copy. The only
    /// error is that memory runs out.
    pub fn with_end(&self, alloc: Global, end: &str) -> Result<Self, Memory>
        ensures { IfOk result (λ text. text ≡ end.now) }
    {
        let Share::End { whole, .. } = &self.share else {
            return Text::new(alloc, end);
        };
        match end_at(whole.as_str(), end) {
            Some(from) => Ok(Text {
                share: Share::End {
                    from,
                    whole: whole.clone()?,
                },
            }),
            None => Text::new(alloc, end),
        }
    }

    /// The text as a string slice.
    pub fn as_str(&self) -> &str
        ensures { result.now ≡ self.now }
    {
        match &self.share {
            Share::End { from, whole } => &whole.as_str()[*from as usize..],
            Share::Nothing => "",
        }
    }
}

/// After how many bytes an end of a text begins. None where a text isn't its end, or is empty.
fn end_at(text: &str, end: &str) -> Option<u32>
    ensures boundary { IfSome result (λ from. IsCharBoundary text.now from) }
    ensures end { IfSome result (λ from. drop from text.now ≡ end.now) }
{
    if end.is_empty() || end.len() > text.len() {
        return None;
    }
    let from = text.len() - end.len();
    if from > LONGEST || !text.is_char_boundary(from) || &text[from..] != end {
        return None;
    }
    Some(from as u32)
}

impl Clone for Text {
    ghost use Rattle.std.specs.Prelude.{◌≡◌};

    ghost is_clone = { λ text copy. copy ≡ text };

    /// The same text, which shares its bytes with this one. The only error is that memory runs out.
    fn clone(&self) -> Result<Self, AllocError> {
        let share = match &self.share {
            Share::End { from, whole } => Share::End {
                from: *from,
                whole: whole.clone()?,
            },
            Share::Nothing => Share::Nothing,
        };
        Ok(Text { share })
    }
}

impl PartialEq for Text {
    ghost use Rattle.std.specs.Prelude.{bytes_eq};
    ghost use Rattle.std.specs.Cmp.Rules.{comparing};
    ghost use Rattle.std.proofs.Common.{rules};

    ghost eq = { bytes_eq };

    ghost laws = { Prim.search (comparing, rules) };

    fn eq(&self, other: &Self) -> bool {
        self.as_str() == other.as_str()
    }
}

impl Eq for Text {
    ghost use Rattle.std.specs.Cmp.Rules.{comparing};
    ghost use Rattle.std.proofs.Common.{rules};

    ghost laws = { Prim.search (comparing, rules) };
}

impl PartialOrd for Text {
    ghost use Rattle.std.specs.Cmp.Lexicographic.{slice_cmp};
    ghost use Rattle.std.specs.Ordering.{as_partial_cmp, nat_cmp};
    ghost use Rattle.std.specs.Cmp.Rules.{comparing};
    ghost use Rattle.std.proofs.Common.{rules};

    ghost partial_cmp = { as_partial_cmp (slice_cmp nat_cmp) };

    ghost laws = { Prim.search (comparing, rules) };

    fn partial_cmp(&self, other: &Self) -> Option<Ordering> {
        Some(self.cmp(other))
    }
}

impl Ord for Text {
    ghost use Rattle.std.specs.Cmp.Lexicographic.{slice_cmp};
    ghost use Rattle.std.specs.Ordering.{nat_cmp};
    ghost use Rattle.std.specs.Cmp.Rules.{comparing};
    ghost use Rattle.std.proofs.Common.{rules};

    ghost cmp = { slice_cmp nat_cmp };

    ghost total = { Prim.search (comparing, rules) };

    ghost matches_partial_cmp = { Prim.search (comparing, rules) };

    ghost matches_eq = { Prim.search (comparing, rules) };

    fn cmp(&self, other: &Self) -> Ordering {
        self.as_str().cmp(other.as_str())
    }
}

impl Hash for Text {
    ghost use Rattle.std.specs.Hash as fed;
    ghost use Rattle.std.specs.Cmp.Rules.{hashing};
    ghost use Rattle.std.proofs.Common.{rules};

    ghost hash_input = { fed.str };

    ghost respects_eq = { Prim.search (hashing, rules) };

    fn hash<H: Hasher>(&self, state: &mut H) {
        self.as_str().hash(state);
    }
}
