ghost use Rattle.std.specs.Prelude.{◌≡◌, ◌∷◌, ◌<◌, ◌≤◌, IfSome, drop, length};
ghost use Rattle.std.specs.List.{position};
ghost use Rattle.lq_objects.specs.Blocks.{is_closing, parts_of};
ghost use Rattle.lq_objects.specs.Views.{part_of};

use crate::line::Line;

/// A part of the file: the lines up to a line `}`, and that line. It lacks at the end of the file
/// alone.
#[derive(Drop)]
pub(crate) struct Part<'p, 'a> {
    pub(crate) lines: &'p [Line<'a>],
    pub(crate) closing: Option<&'p Line<'a>>,
    /// How many lines the part has, with the one that closes it.
    pub(crate) length: usize,
}

/// The first part of lines.
pub(crate) fn first_part<'p, 'a>(lines: &'p [Line<'a>]) -> Part<'p, 'a>
    requires { 0 < length lines.now }
    ensures first { parts_of lines.now ≡ part_of result ∷ parts_of (drop result.length lines.now) }
    ensures some { 0 < result.length }
    ensures within { result.length ≤ length lines.now }
{
    match closing_place(lines) {
        Some(end) => Part {
            lines: &lines[..end],
            closing: Some(&lines[end]),
            length: end + 1,
        },
        None => Part {
            lines,
            closing: None,
            length: lines.len(),
        },
    }
}

/// The lines from a place on.
pub(crate) fn after<'p, 'a>(lines: &'p [Line<'a>], at: usize) -> &'p [Line<'a>]
    requires { at ≤ length lines.now }
    ensures { result.now ≡ drop at lines.now }
{
    &lines[at..]
}

fn closing_place(lines: &[Line<'_>]) -> Option<usize>
    ensures value { result ≡ position is_closing lines.now }
    ensures within { IfSome result (λ place. place < length lines.now) }
{
    lines.iter().position(|line| line.is_closing())
}
