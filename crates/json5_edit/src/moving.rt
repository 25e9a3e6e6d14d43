//! The members of an object with what moves with each, and the text with other members in their places.
//!
//! Plain code over a text, without a promise of what it gives: [`sorting`](crate::sorting) reads its answers again.

use crate::commenting::LINE_ENDS;
use crate::entries::Entry;
use json5_edit_style::after_switched_off;
use json5_edit_style::comments::{is_lead, is_trail};
use json5_tokens::char::is_json5_line_terminator;
use json5_tokens::scanner::Scanner;
use json5_types::error::Result;
use std::alloc::Global;

/// A member with its comments: where the first of those before it begins, where its value ends, the comma after it, and
/// where the comments after that on its line end. Offsets are in bytes of the object's text.
#[derive(Clone, Copy, Drop)]
pub(crate) struct Piece {
    own: usize,
    end: usize,
    comma: Option<usize>,
    tail: usize,
}

/// The members with their comments, one after another.
pub(crate) fn pieces_of(alloc: Global, text: &str, members: &[Entry<'_>]) -> Result<Vec<Piece>> {
    let mut pieces = Vec::new(alloc);
    for member in members {
        pieces.push(piece_of(alloc, text, member)?)?;
    }
    Ok(pieces)
}

/// The text with these members in the places of those, each with its comments.
pub(crate) fn rearranged(
    alloc: Global,
    text: &str,
    line_end: &str,
    places: &[Piece],
    members: &[Entry<'_>],
) -> Result<String> {
    let mut made = String::new(alloc);
    let mut from = 0;
    let mut is_open = false;
    for (place, member) in places.iter().zip(members) {
        push_apart(&mut made, is_open, line_end, between(text, from, place.own))?;
        let piece = piece_of(alloc, text, member)?;
        is_open = push_piece(alloc, &mut made, text, piece, place.comma.is_some())?;
        from = place.tail;
    }
    let rest = between(text, from, text.len());
    push_apart(&mut made, is_open, line_end, rest)?;
    Ok(made)
}

/// Appends what stays between two members, on another line than a `//` comment that stands last.
fn push_apart(made: &mut String, is_open: bool, line_end: &str, stays: &str) -> Result<()> {
    let goes_on = !stays.trim_start_matches([' ', '\t']).starts_with(LINE_ENDS);
    if is_open && goes_on {
        made.push_str(line_end)?;
    }
    made.push_str(stays)?;
    Ok(())
}

/// Appends the member with its comments, and with a comma or without, and says whether it ends in a `//` comment.
fn push_piece(
    alloc: Global,
    made: &mut String,
    text: &str,
    piece: Piece,
    comma: bool,
) -> Result<bool> {
    made.push_str(between(text, piece.own, piece.end))?;
    let trail = match piece.comma {
        Some(at) => {
            made.push_str(between(text, piece.end, at))?;
            between(text, at.saturating_add(1), piece.tail)
        }
        None => between(text, piece.end, piece.tail),
    };
    if comma {
        made.push_str(",")?;
    }
    made.push_str(trail)?;
    ends_open(alloc, trail)
}

/// Whether blanks and comments end in a `//` comment.
fn ends_open(alloc: Global, trail: &str) -> Result<bool> {
    let text = [trail, ","].as_slice().concat(alloc)?;
    Ok(blanks_end(alloc, text.as_str(), 0)? == text.len())
}

/// The member with its comments.
fn piece_of(alloc: Global, text: &str, member: &Entry<'_>) -> Result<Piece> {
    let (_, before) = comma_and_tail(alloc, text, member.from)?;
    let from = after_switched_off(alloc, text, before, member.start)?;
    let (comma, tail) = comma_and_tail(alloc, text, member.end)?;
    Ok(Piece {
        own: own_start(alloc, text, from, member.start),
        end: member.end,
        comma,
        tail,
    })
}

/// The comma after the value that ends at the offset, if there is one, and where the comments end that begin after both on
/// their line.
fn comma_and_tail(alloc: Global, text: &str, end: usize) -> Result<(Option<usize>, usize)> {
    let blanks = blanks_end(alloc, text, end)?;
    if !between(text, blanks, text.len()).starts_with(',') {
        return Ok((None, trail_end(alloc, text, end, blanks)));
    }
    let from = blanks.saturating_add(1);
    let until = blanks_end(alloc, text, from)?;
    Ok((Some(blanks), trail_end(alloc, text, from, until)))
}

/// Where the comments end between these offsets that belong to the entry before them.
fn trail_end(alloc: Global, text: &str, from: usize, until: usize) -> usize {
    let gap = between(text, from, until);
    let rest = between(text, from, text.len());
    for (at, c) in gap.char_indices() {
        if is_json5_line_terminator(c)
            && is_trail(alloc, between(gap, 0, at), between(rest, at, rest.len()))
        {
            return from.saturating_add(between(gap, 0, at).trim_end().len());
        }
    }
    if is_trail(alloc, gap, between(text, until, text.len())) {
        return from.saturating_add(gap.trim_end().len());
    }
    from
}

/// Where the first comment begins between these offsets that belongs to the entry after them, or that begins.
fn own_start(alloc: Global, text: &str, from: usize, start: usize) -> usize {
    let gap = between(text, from, start);
    if is_lead(alloc, "", gap) {
        return from.saturating_add(first_comment(gap));
    }
    for (at, c) in gap.char_indices() {
        let next = at.saturating_add(c.len_utf8());
        let lead = between(gap, next, gap.len());
        if is_json5_line_terminator(c) && is_lead(alloc, between(gap, 0, next), lead) {
            return from
                .saturating_add(next)
                .saturating_add(first_comment(lead));
        }
    }
    start
}

/// Where the first comment among blanks begins, or they end.
fn first_comment(blanks: &str) -> usize {
    match blanks.find('/') {
        Some(at) => at,
        None => blanks.len(),
    }
}

/// Where the blanks and comments from the offset on end.
fn blanks_end(alloc: Global, text: &str, from: usize) -> Result<usize> {
    let mut scanner = Scanner::new(alloc, between(text, from, text.len()));
    scanner.skip_blank()?;
    Ok(from.saturating_add(scanner.offset()))
}

/// The text between two offsets; empty where there is none.
fn between(text: &str, from: usize, until: usize) -> &str {
    match text.get(from..until) {
        Some(part) => part,
        None => "",
    }
}
