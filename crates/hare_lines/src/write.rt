//! The text of pieces with their ways.

ghost use Rattle.std.specs.Prelude.{◌≡◌, ◌<◌, ◌+◌, ◌++◌, ◌&&◌, List, length, drop, replicate, OnOk, IfOk, if◌then◌else◌};
ghost use Rattle.hare_lines.specs.Read.{seen, seen_from, is_quoted};
ghost use Rattle.hare_lines.specs.Gaps.{next_way, next_is_string, without_comma, comma_of, behind_added, behind_comment};
ghost use Rattle.hare_lines.specs.Layout as layout;
ghost use Rattle.hare_lines.specs.Behind.{behind_of};
ghost use Rattle.hare_lines.specs.Write as spec;

use crate::line::{Line, comment_gap, line_behind, line_behind_token, token_gap};
use crate::read::{body_of, feeds_in, is_quoted, next_is_string};
use crate::way::{Before, Gap};
use hare_pieces::Piece;
use hare_ways::{Start, Way};
use hx_base::Bytes;
use std::alloc::{AllocError, Global};

// How far the writer has come.
#[derive(Clone, Copy)]
pub struct State<'a> {
    // How many bytes of the source stand in front.
    pub at: usize,
    // The ways of the tree's tokens that are left.
    pub ways: &'a [Way],
    // The comma of the first of them is added already.
    pub added: bool,
    // The next token is a string behind a string, of which the first has this depth.
    pub joined: bool,
    pub depth: u32,
    pub line: Line<'a>,
}

/// The text of the pieces of a source, which stand in it in their order, where the tokens of its tree have these ways: each piece behind
/// its gap, and the commas that are added. No piece stands over another. Fails for want of memory alone.
///
/// The time is linear in the source and the text.
pub fn write_pieces(
    alloc: Global,
    src: &[u8],
    pieces: &[Piece],
    ways: &[Way],
) -> Result<Bytes, AllocError>
    requires { layout.InOrder 0 (length src.now) pieces.now }
    ensures { IfOk result (λ text. text ≡ layout.written ways.now (seen src.now pieces.now)) }
{
    let mut out = Bytes::new(alloc);
    let mut state = State {
        at: 0,
        ways,
        added: false,
        joined: false,
        depth: 0,
        line: line_behind(Before::Nothing),
    };
    for i in 0..pieces.len() {
        state = put_next(&mut out, state, src, pieces, i)?;
    }
    if !out.bytes().is_empty() {
        out.extend(b"\n")?;
    }
    Ok(out)
}

// Writes the next piece.
fn put_next<'a>(
    out: &mut Bytes,
    state: State<'a>,
    src: &'a [u8],
    pieces: &[Piece],
    i: usize,
) -> Result<State<'a>, AllocError>
    requires within { i < length pieces.now }
    requires order { layout.InOrder state.at (length src.now) (drop i pieces.now) }
    ensures order { IfOk result (λ next. layout.InOrder next.at (length src.entry.now) (drop (i + 1) pieces.now)) }
    ensures text { IfOk result
        (λ next. out.new ++ spec.left src.entry.now next (drop (i + 1) pieces.now) ≡ out.old ++ spec.left src.entry.now state.entry
        (drop i pieces.now)) }
{
    let piece = pieces[i];
    let body = body_of(src, piece);
    let feeds = feeds_in(&src[state.at..piece.from]);
    let way = way_here(state);
    let line = put_comma(out, state.line, way.comma)?;
    if piece.comment {
        put(out, comment_gap(line.before, way, feeds), body)?;
        return Ok(behind_comment(state, piece.to));
    }
    let gap = token_gap(line, way, feeds, body);
    put(out, gap, body)?;
    let joined = is_joined(src, body, pieces.split_at(i + 1).1, piece.to);
    let next = behind_token(state, piece.to, joined, way.depth);
    Ok(State {
        at: next.at,
        ways: next.ways,
        added: next.added,
        joined: next.joined,
        depth: next.depth,
        line: line_behind_token(gap, line, way, body),
    })
}

// Whether the token behind this one, in front of these pieces, is a string behind a string.
fn is_joined(src: &[u8], body: &[u8], behind: &[Piece], at: usize) -> bool
    requires { layout.InOrder at (length src.now) behind.now }
    ensures { result ≡ (is_quoted body.now && next_is_string (seen_from src.now at behind.now)) }
{
    is_quoted(body) && next_is_string(src, behind, at)
}

// Behind a token, but for the line.
fn behind_token<'a>(state: State<'a>, at: usize, joined: bool, depth: u32) -> State<'a>
    ensures at { result.at ≡ at }
    ensures ways { spec.ways_left result.added result.ways.now ≡
        (if state.entry.joined then spec.ways_left state.entry.added state.entry.ways.now else drop 1
        (spec.ways_left state.entry.added state.entry.ways.now)) }
    ensures joined { result.joined ≡ joined }
    ensures depth { result.depth ≡ depth }
{
    if state.joined {
        return State {
            at,
            ways: state.ways,
            added: state.added,
            joined,
            depth,
            line: state.line,
        };
    }
    State {
        at,
        ways: others(state.ways),
        added: false,
        joined,
        depth,
        line: state.line,
    }
}

// Behind a comment, whose token is still to come.
fn behind_comment<'a>(state: State<'a>, at: usize) -> State<'a>
    ensures at { result.at ≡ at }
    ensures ways { spec.ways_left result.added result.ways.now ≡
        (if state.entry.joined then spec.ways_left state.entry.added state.entry.ways.now else without_comma
        (spec.ways_left state.entry.added state.entry.ways.now)) }
    ensures joined { result.joined ≡ state.entry.joined }
    ensures depth { result.depth ≡ state.entry.depth }
    ensures line { behind_of result.line ≡ behind_comment }
{
    State {
        at,
        ways: state.ways,
        added: !state.joined || state.added,
        joined: state.joined,
        depth: state.depth,
        line: line_behind(Before::Remark),
    }
}

// The way of the next token.
fn way_here(state: State<'_>) -> Way
    ensures { result ≡ spec.way_here state.entry }
{
    if state.joined {
        return Way {
            start: Start::Within,
            depth: state.depth,
            joins_before: false,
            joins_behind: false,
            comma: false,
        };
    }
    next_way(state.ways, state.added)
}

// The way of the next of the tree's tokens, whose comma is added already or not; at the end that of the end.
fn next_way(ways: &[Way], added: bool) -> Way
    ensures { result ≡ next_way (spec.ways_left added ways.now) }
{
    match ways.first() {
        Some(way) => Way {
            start: way.start,
            depth: way.depth,
            joins_before: way.joins_before,
            joins_behind: way.joins_behind,
            comma: way.comma && !added,
        },
        None => Way {
            start: Start::Begins,
            depth: 0,
            joins_before: false,
            joins_behind: false,
            comma: false,
        },
    }
}

// All ways but the first.
fn others(ways: &[Way]) -> &[Way]
    ensures { result.now ≡ drop 1 ways.now }
{
    match ways.split_first() {
        Some((_, others)) => others,
        None => ways,
    }
}

// Writes a comma behind the piece before, where one is added, and gives what stands before the next piece.
fn put_comma<'a>(out: &mut Bytes, line: Line<'a>, comma: bool) -> Result<Line<'a>, AllocError>
    ensures line { IfOk result (λ l. behind_of l ≡ behind_added comma (behind_of line.entry)) }
    ensures text { OnOk result (out.new ≡ out.old ++ layout.laid_bytes (comma_of comma)) }
{
    if comma {
        out.extend(b",")?;
        return Ok(line_behind(Before::Other));
    }
    Ok(line)
}

// Writes a gap and a piece.
fn put(out: &mut Bytes, gap: Gap, body: &[u8]) -> Result<(), AllocError>
    ensures { OnOk result (out.new ≡ out.old ++ (layout.gap_bytes gap ++ body.now)) }
{
    match gap {
        Gap::First | Gap::Join => {}
        Gap::Blank => out.extend(b" ")?,
        Gap::Line(empty, tabs) => put_line(out, empty, tabs)?,
    }
    out.extend(body)
}

// Begins a line, behind an empty one or not, with its tabs.
fn put_line(out: &mut Bytes, empty: bool, tabs: usize) -> Result<(), AllocError>
    ensures { OnOk result (out.new ≡ out.old ++ (layout.feeds empty ++ replicate tabs 9)) }
{
    out.extend(feeds(empty))?;
    'tabs: for n in 0..tabs {
        out.extend(b"\t")?;
    }
    Ok(())
}

// The line ends in front of a line.
fn feeds(empty: bool) -> &'static [u8]
    ensures { result.now ≡ layout.feeds empty }
{
    if empty { b"\n\n" } else { b"\n" }
}
