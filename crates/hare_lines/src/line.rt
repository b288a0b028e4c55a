//! What stands before a piece, and the gap between.

ghost use Rattle.std.specs.Prelude.{◌≡◌, ◌≤◌, [], false, map, slice_index};
ghost use Rattle.std.specs.Char.{is_ascii_digit};
ghost use Rattle.std.specs.List.{list_all};
ghost use Rattle.hare_lines.specs.Gaps as spec;
ghost use Rattle.hare_lines.specs.Behind.{behind_of};

use crate::way::{Before, Feeds, Gap};
use hare_tree::is_listed;
use hare_ways::{Start, Way};

// What stands before a piece: the piece before, whether no blank is to stand behind it, and the last two pieces back to the last blank or
// line end.
#[derive(Clone, Copy)]
pub struct Line<'a> {
    pub before: Before,
    pub joins: bool,
    pub last: &'a [u8],
    pub previous: &'a [u8],
}

// Behind this sort of piece, with which no piece is joined.
pub fn line_behind<'a>(before: Before) -> Line<'a>
    ensures { behind_of result ≡ record { before = before; joins = false; last = []; previous = [] } }
{
    Line {
        before,
        joins: false,
        last: &[],
        previous: &[],
    }
}

// Behind a token.
pub fn line_behind_token<'a>(gap: Gap, line: Line<'a>, way: Way, body: &'a [u8]) -> Line<'a>
    ensures { behind_of result ≡ spec.behind_token gap (behind_of line.entry) way body.entry.now }
{
    let before = if is_opening(body) {
        Before::Opening
    } else {
        Before::Other
    };
    let previous = match gap {
        Gap::Join => line.last,
        _ => &[],
    };
    Line {
        before,
        joins: way.joins_behind,
        last: body,
        previous,
    }
}

// Whether a token is an opening bracket.
fn is_opening(body: &[u8]) -> bool
    ensures { result ≡ spec.is_opening body.now }
{
    body == b"{".as_slice() || body == b"(".as_slice() || body == b"[".as_slice()
}

// The gap before a comment in front of a token with this way.
pub fn comment_gap(before: Before, way: Way, feeds: Feeds) -> Gap
    ensures { result ≡ spec.comment_gap before feeds (spec.comment_tabs way) }
{
    match before {
        Before::Nothing => Gap::First,
        Before::Remark => new_line(before, feeds, comment_tabs(way)),
        Before::Opening | Before::Other => match feeds {
            Feeds::Same => Gap::Blank,
            Feeds::Next | Feeds::Empty => new_line(before, feeds, comment_tabs(way)),
        },
    }
}

// The tabs of a comment's line.
fn comment_tabs(way: Way) -> usize
    ensures { result ≡ spec.comment_tabs way }
{
    way.depth as usize + extra_tab(way.start)
}

// The gap before a token.
pub fn token_gap(at: Line<'_>, way: Way, feeds: Feeds, body: &[u8]) -> Gap
    ensures { result ≡ spec.token_gap (behind_of at.entry) way feeds body.now }
{
    match at.before {
        Before::Nothing => Gap::First,
        Before::Remark => new_line(at.before, feeds, tabs_of(way) + extra_tab(way.start)),
        Before::Opening | Before::Other => start_gap(at, way, feeds, body),
    }
}

// The gap before a token that no comment stands before.
fn start_gap(at: Line<'_>, way: Way, feeds: Feeds, body: &[u8]) -> Gap
    ensures { result ≡ spec.start_gap (behind_of at.entry) way feeds body.now way.start }
{
    match way.start {
        Start::Within => {
            if joins(at, way, body) {
                Gap::Join
            } else {
                Gap::Blank
            }
        }
        Start::Begins | Start::Outdented => new_line(at.before, feeds, tabs_of(way)),
    }
}

// Whether a token is joined to the piece before it.
fn joins(at: Line<'_>, way: Way, body: &[u8]) -> bool
    ensures { result ≡ spec.joins (behind_of at.entry) way body.now }
{
    (at.joins || way.joins_before) && !grows(at.last, at.previous, body)
}

// Whether a piece, joined to the two before it, would not be the token that it is.
fn grows(last: &[u8], previous: &[u8], body: &[u8]) -> bool
    ensures { result ≡ spec.grows last.now previous.now body.now }
{
    is_listed(lengthened(first_byte(body)), last)
        || (are_digits(previous) && last == b".".as_slice() && begins_with_digit(body))
}

// The marks that this byte, directly behind them, makes longer.
fn lengthened(c: u8) -> &'static [&'static [u8]]
    ensures { map (λ w. w.now) result.now ≡ spec.lengthened c }
{
    match c {
        b'=' => &[
            b"!", b"%", b"&", b"*", b"+", b"-", b"/", b"<", b"<<", b"=", b">", b">>", b"^", b"|",
        ],
        b'.' => &[b".", b".."],
        b'>' => &[b"=", b">"],
        b'&' => &[b"&"],
        b':' => &[b":"],
        b'<' => &[b"<"],
        b'^' => &[b"^"],
        b'|' => &[b"|"],
        _ => &[],
    }
}

// The first byte, and 0 where there is none.
fn first_byte(s: &[u8]) -> u8
    ensures { result ≡ slice_index s.now 0 }
{
    match s.first() {
        Some(c) => *c,
        None => 0,
    }
}

// Whether a piece is plain decimal digits.
fn are_digits(s: &[u8]) -> bool
    ensures { result ≡ spec.are_digits s.now }
{
    !s.is_empty() && all_digits(s)
}

// Whether all bytes are digits.
fn all_digits(s: &[u8]) -> bool
    ensures { result ≡ list_all is_ascii_digit s.now }
{
    s.iter().all(|c| c.is_ascii_digit())
}

// Whether a digit comes first.
fn begins_with_digit(s: &[u8]) -> bool
    ensures { result ≡ is_ascii_digit (slice_index s.now 0) }
{
    first_byte(s).is_ascii_digit()
}

// A new line.
fn new_line(before: Before, feeds: Feeds, tabs: usize) -> Gap
    ensures { result ≡ spec.line before feeds tabs }
{
    match before {
        Before::Nothing => Gap::First,
        Before::Opening => Gap::Line(false, tabs),
        Before::Remark | Before::Other => Gap::Line(is_empty(feeds), tabs),
    }
}

// Whether an empty line stands there.
fn is_empty(feeds: Feeds) -> bool
    ensures { result ≡ spec.is_empty feeds }
{
    match feeds {
        Feeds::Empty => true,
        Feeds::Same | Feeds::Next => false,
    }
}

// The tabs of a token's line.
fn tabs_of(way: Way) -> usize
    ensures value { result ≡ spec.tabs_of way }
    ensures within { result ≤ way.depth }
{
    match way.start {
        Start::Within | Start::Begins => way.depth as usize,
        Start::Outdented => (way.depth as usize).saturating_sub(1),
    }
}

// One tab more, where the token begins its line only since a comment stands before it.
fn extra_tab(start: Start) -> usize
    ensures value { result ≡ spec.extra_tab start }
    ensures within { result ≤ 1 }
{
    match start {
        Start::Within => 1,
        Start::Begins | Start::Outdented => 0,
    }
}
