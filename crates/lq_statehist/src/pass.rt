ghost use Rattle.std.specs.Prelude.{◌≡◌, ◌≤◌, ◌<◌, ◌++◌, ◌∷◌, [], ℕ, List, Err, OnOk, length, map};
ghost use Rattle.std.specs.Option.{option_map};
ghost use Rattle.lq_statehist.specs.Facts.{Known};
ghost use Rattle.lq_statehist.specs.Pass.{IsKnownThroughout, RisesFrom, before, known_of, note_of};
ghost use Rattle.lq_statehist.specs.Pass.{piece_of_stretch, subject_of_lines};
ghost use Rattle.lq_statehist.specs.History.{history, slice_of};
ghost use Rattle.lq_statehist.specs.Slices.{most_slices};
ghost use Rattle.lq_statehist.specs.Tiling.{HistoryPiece, with_piece_before, pieces_between};
ghost use Rattle.lq_statehist.specs.declared.slice.HistErr.TheVariants.{TooMany};

use crate::current::Current;
use crate::line::Line;
use crate::slice::{HistErr, MOST_SLICES, Slice};
use crate::span::Span;
use crate::subject::Subject;
use lq_records::Object;

/// The seconds from one up to before another, in which the same is told.
#[derive(Clone, Copy)]
pub(crate) struct Stretch<'a> {
    from: u64,
    until: u64,
    known: Current<'a>,
}

/// A stretch and the one that follows it.
#[derive(Clone, Copy)]
struct Pair<'a> {
    last: Stretch<'a>,
    next: Stretch<'a>,
}

/// How far the history of an object is told.
#[derive(Clone, Copy)]
struct Pass<'a> {
    /// The last stretch, which grows as long as the same is told.
    growing: Option<Stretch<'a>>,
    /// The second up to which all is told.
    since: u64,
    /// What is known from then on.
    known: Current<'a>,
}

/// Adds the history of an object, by what a log says of it.
/// `TooMany` only where there would be more than 1,000,000 slices.
pub(crate) fn history<'a>(
    slices: &mut Vec<Slice>,
    about: &Subject<'a>,
    notes: &[Line<'a>],
    span: Span,
) -> Result<(), HistErr>
    requires order { RisesFrom 0 (map note_of notes.now) }
    ensures ok { OnOk result (slices.new.items ≡ slices.old.items
        ++ history (subject_of_lines about.now) (map note_of notes.now) span.from span.until) }
    ensures many { result ≡ Err TooMany → most_slices < length (slices.old.items
        ++ history (subject_of_lines about.now) (map note_of notes.now) span.from span.until) }
    ensures most { OnOk result (length slices.old.items ≤ most_slices
        → length slices.new.items ≤ most_slices) }
{
    let mut pass = Pass {
        growing: None,
        since: span.from,
        known: Current::nothing(),
    };
    for note in notes {
        match advance(slices, about.object, &mut pass, note.time.min(span.until)) {
            Ok(()) => {}
            Err(error) => return Err(error),
        }
        pass.known = pass.known.after(about, note);
    }
    match advance(slices, about.object, &mut pass, span.until) {
        Ok(()) => finish(slices, about.object, pass.growing),
        Err(error) => Err(error),
    }
}

/// Tells the seconds up to before another, where they aren't told yet. The same is known at each.
fn advance(
    slices: &mut Vec<Slice>,
    about: Object,
    pass: &mut Pass<'_>,
    to: u64,
) -> Result<(), HistErr>
    ensures ok { OnOk result ((until : ℕ) (at : ℕ → Known) → to ≤ until
        → IsKnownThroughout at (known_of pass.old.known) pass.old.since to
        → slices.new.items ++ map (slice_of about)
        (before (option_map piece_of_stretch pass.new.growing)
        (pieces_between at pass.new.since until))
        ≡ slices.old.items ++ map (slice_of about)
        (before (option_map piece_of_stretch pass.old.growing)
        (pieces_between at pass.old.since until))) }
    ensures many { result ≡ Err TooMany → (until : ℕ) (at : ℕ → Known) → to ≤ until
        → IsKnownThroughout at (known_of pass.old.known) pass.old.since to
        → most_slices < length (slices.old.items ++ map (slice_of about)
        (before (option_map piece_of_stretch pass.old.growing)
        (pieces_between at pass.old.since until))) }
    ensures since { OnOk result (to ≤ pass.new.since) }
    ensures later { OnOk result (pass.old.since ≤ pass.new.since) }
    ensures known { OnOk result (pass.new.known ≡ pass.old.known) }
    ensures most { OnOk result (length slices.old.items ≤ most_slices
        → length slices.new.items ≤ most_slices) }
{
    if to <= pass.since {
        return Ok(());
    }
    let next = Stretch {
        from: pass.since,
        until: to,
        known: pass.known,
    };
    pass.since = to;
    settle(slices, about, &mut pass.growing, next)
}

/// Lets a stretch follow: it makes the last one grow where both tell the same, else that one is
/// done.
fn settle<'a>(
    slices: &mut Vec<Slice>,
    about: Object,
    growing: &mut Option<Stretch<'a>>,
    next: Stretch<'a>,
) -> Result<(), HistErr>
    ensures ok { OnOk result ((later : List HistoryPiece)
        → slices.new.items ++ map (slice_of about)
        (before (option_map piece_of_stretch growing.new) later)
        ≡ slices.old.items ++ map (slice_of about)
        (before (option_map piece_of_stretch growing.old)
        (with_piece_before (piece_of_stretch next.entry) later))) }
    ensures many { result ≡ Err TooMany → (later : List HistoryPiece)
        → most_slices < length (slices.old.items ++ map (slice_of about)
        (before (option_map piece_of_stretch growing.old)
        (with_piece_before (piece_of_stretch next.entry) later))) }
    ensures most { OnOk result (length slices.old.items ≤ most_slices
        → length slices.new.items ≤ most_slices) }
{
    let Some(last) = *growing else {
        *growing = Some(next);
        return Ok(());
    };
    settle_after(slices, about, growing, Pair { last, next })
}

/// The same after the last stretch.
fn settle_after<'a>(
    slices: &mut Vec<Slice>,
    about: Object,
    growing: &mut Option<Stretch<'a>>,
    pair: Pair<'a>,
) -> Result<(), HistErr>
    ensures ok { OnOk result ((later : List HistoryPiece)
        → slices.new.items ++ map (slice_of about)
        (before (option_map piece_of_stretch growing.new) later)
        ≡ slices.old.items ++ map (slice_of about)
        (with_piece_before (piece_of_stretch pair.entry.last)
        (with_piece_before (piece_of_stretch pair.entry.next) later))) }
    ensures many { result ≡ Err TooMany → (later : List HistoryPiece)
        → most_slices < length (slices.old.items ++ map (slice_of about)
        (with_piece_before (piece_of_stretch pair.entry.last)
        (with_piece_before (piece_of_stretch pair.entry.next) later))) }
    ensures most { OnOk result (length slices.old.items ≤ most_slices
        → length slices.new.items ≤ most_slices) }
{
    if pair.last.known.is_same(&pair.next.known) {
        *growing = Some(Stretch {
            from: pair.last.from,
            until: pair.next.until,
            known: pair.last.known,
        });
        return Ok(());
    }
    *growing = Some(pair.next);
    push(slices, about, &pair.last)
}

/// Adds the last stretch, where there is one.
fn finish(
    slices: &mut Vec<Slice>,
    about: Object,
    growing: Option<Stretch<'_>>,
) -> Result<(), HistErr>
    ensures ok { OnOk result (slices.new.items ≡ slices.old.items
        ++ map (slice_of about) (before (option_map piece_of_stretch growing.entry) [])) }
    ensures many { result ≡ Err TooMany → most_slices < length (slices.old.items
        ++ map (slice_of about) (before (option_map piece_of_stretch growing.entry) [])) }
    ensures most { OnOk result (length slices.old.items ≤ most_slices
        → length slices.new.items ≤ most_slices) }
{
    match growing {
        Some(last) => push(slices, about, &last),
        None => Ok(()),
    }
}

/// Adds a slice. `TooMany` exactly where there are 1,000,000 already.
fn push(slices: &mut Vec<Slice>, about: Object, stretch: &Stretch<'_>) -> Result<(), HistErr>
    ensures ok { OnOk result (slices.new.items
        ≡ slices.old.items ++ slice_of about (piece_of_stretch stretch.now) ∷ []) }
    ensures many { result ≡ Err TooMany → most_slices ≤ length slices.old.items }
    ensures most { OnOk result (length slices.new.items ≤ most_slices) }
{
    if slices.len() >= MOST_SLICES {
        return Err(HistErr::TooMany);
    }
    let known = stretch.known;
    match slices.push(Slice {
        object: about,
        from: stretch.from,
        until: stretch.until,
        state: known.state,
        host_down: known.host_down,
        in_downtime: known.in_downtime,
        in_host_downtime: known.in_host_downtime,
        is_flapping: known.is_flapping,
        in_period: known.in_period,
        line: known.line,
    }) {
        Ok(()) => Ok(()),
        Err(_) => Err(HistErr::Memory),
    }
}
