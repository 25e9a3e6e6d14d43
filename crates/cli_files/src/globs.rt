//! Globs of paths, by the rules of editorconfig.org: `*` is what holds no slash, `**` anything, `?` one character but a slash,
//! `[ab]`, `[a-z]` and `[!ab]` one of some characters, `{a,b}` one of some texts, and `{1..9}` a number; `\` takes its meaning from
//! the next character. A glob without a slash is one of what stands last in a path, or after any slash.
//!
//! Plain code, of which no promise is made but that it is safe and ends. Its time is bounded by the product of both lengths.

use std::alloc::{AllocError, Global};

/// How many characters a number may have.
const NUMBER: usize = 20;

/// A glob, a path, and which places of both are reached together.
#[derive(Drop)]
struct Matching<'g> {
    glob: &'g str,
    path: &'g str,
    /// For the brackets and commas of `{a,b}` the place of the bracket that closes it.
    ends: Vec<Option<usize>>,
    /// For each place in the glob, whether it is reached with each place in the path.
    reached: Vec<Vec<bool>>,
}

/// Whether the path matches the glob.
///
/// ```text
/// matches_glob(alloc, "*.{json,json5}", "conf/app.json5")?    // true
/// ```
///
/// # Errors
///
/// Where a request for memory was refused.
pub fn matches_glob<'x>(alloc: Global, glob: &'x str, path: &'x str) -> Result<bool, AllocError> {
    let inner = glob.strip_prefix('/').unwrap_or(glob);
    let mut matching = Matching {
        glob: inner,
        path,
        ends: group_ends(alloc, inner)?,
        reached: Vec::new(alloc),
    };
    for _ in 0..=inner.len() {
        matching
            .reached
            .push(vec![in alloc; false; path.len().saturating_add(1)]?)?;
    }
    matching.start(!glob.contains('/'));
    Ok(matching.run())
}

impl<'g> Matching<'g> {
    /// Reaches the starts of the path: its front, and, if it may be anywhere, what follows a slash.
    fn start(&mut self, anywhere: bool) {
        self.reach(0, 0);
        for (at, byte) in self.path.bytes().enumerate() {
            if anywhere && byte == b'/' {
                self.reach(0, at.saturating_add(1));
            }
        }
    }

    /// Steps from each place that is reached, and says whether both ends are.
    fn run(&mut self) -> bool {
        for at in 0..self.glob.len() {
            for from in 0..=self.path.len() {
                if self.is_reached(at, from) {
                    self.step(at, from);
                }
            }
        }
        self.is_reached(self.glob.len(), self.path.len())
    }

    fn is_reached(&self, at: usize, from: usize) -> bool {
        match self.reached.get(at) {
            Some(row) => row.get(from).copied() == Some(true),
            None => false,
        }
    }

    fn reach(&mut self, at: usize, from: usize) {
        if let Some(row) = self.reached.get_mut(at)
            && let Some(place) = row.get_mut(from)
        {
            *place = true;
        }
    }

    /// Takes the next character of the path, if it fits, and goes on here in the glob.
    fn take(&mut self, at: usize, from: usize, next: Option<char>, fits: bool) {
        if let Some(c) = next
            && fits
        {
            self.reach(at, from.saturating_add(c.len_utf8()));
        }
    }

    /// Does what the glob asks for at this place.
    fn step(&mut self, at: usize, from: usize) {
        let rest = self.glob.get(at..).unwrap_or("");
        let next = self.path.get(from..).unwrap_or("").chars().next();
        let Some(sign) = rest.chars().next() else {
            return;
        };
        let behind = at.saturating_add(sign.len_utf8());
        match sign {
            '*' => self.star(at, from, next),
            '?' => self.take(behind, from, next, next != Some('/')),
            '[' => self.class(behind, from, next),
            '{' | ',' | '}' => self.group(at, from, next),
            '\\' => {
                let literal = rest.chars().nth(1);
                let width = literal.unwrap_or('/').len_utf8();
                self.take(behind.saturating_add(width), from, next, literal == next);
            }
            _ => self.take(behind, from, next, next == Some(sign)),
        }
    }

    fn star(&mut self, at: usize, from: usize, next: Option<char>) {
        let behind = at.saturating_add(1);
        let rest = self.glob.get(behind..).unwrap_or("");
        if !rest.starts_with('*') {
            self.reach(behind, from);
            self.take(at, from, next, next != Some('/'));
            return;
        }
        self.reach(behind.saturating_add(1), from);
        self.take(at, from, next, true);
        if rest.starts_with("*/") && begins_part(self.glob, at) && begins_part(self.path, from) {
            self.reach(behind.saturating_add(2), from);
        }
    }

    /// Takes one of the characters between brackets; or a bracket, if none closes it.
    fn class(&mut self, behind: usize, from: usize, next: Option<char>) {
        let rest = self.glob.get(behind..).unwrap_or("");
        match (rest.split_once(']'), next) {
            (Some((inner, _)), Some(c)) if !inner.contains('/') && !inner.is_empty() => {
                let end = behind.saturating_add(inner.len()).saturating_add(1);
                self.take(end, from, next, c != '/' && is_in_class(inner, c));
            }
            _ => self.take(behind, from, next, next == Some('[')),
        }
    }

    /// Enters, goes on in or leaves `{a,b}`; or takes a number, or the character itself.
    fn group(&mut self, at: usize, from: usize, next: Option<char>) {
        let behind = at.saturating_add(1);
        let sign = self.glob.get(at..).unwrap_or("").chars().next();
        match (sign, self.end_at(at)) {
            (Some('{'), Some(end)) => {
                self.reach(behind, from);
                for place in behind..end {
                    if self.end_at(place) == Some(end)
                        && self.glob.get(place..).unwrap_or("").starts_with(',')
                    {
                        self.reach(place.saturating_add(1), from);
                    }
                }
            }
            (Some(','), Some(end)) => self.reach(end, from),
            (Some('}'), Some(_)) => self.reach(behind, from),
            _ => {
                self.take(behind, from, next, next == sign);
                if sign == Some('{') {
                    self.number(behind, from);
                }
            }
        }
    }

    fn end_at(&self, at: usize) -> Option<usize> {
        self.ends.get(at).copied()?
    }

    /// Takes each number in the range that begins here, if one does.
    fn number(&mut self, behind: usize, from: usize) {
        let Some((low, high, end)) = self.range(behind) else {
            return;
        };
        for to in from..=from.saturating_add(NUMBER) {
            let digits = self.path.get(from..to).unwrap_or("");
            if let Ok(number) = digits.parse::<i64>()
                && low <= number
                && number <= high
            {
                self.reach(end, to);
            }
        }
    }

    /// The least number, the greatest, and the place behind the range.
    fn range(&self, behind: usize) -> Option<(i64, i64, usize)> {
        let (inner, _) = self.glob.get(behind..)?.split_once('}')?;
        let (low, high) = inner.split_once("..")?;
        let end = behind.saturating_add(inner.len()).saturating_add(1);
        Some((low.parse().ok()?, high.parse().ok()?, end))
    }
}

/// Whether this is the text's front, or a slash is before it.
fn begins_part(text: &str, at: usize) -> bool {
    let front = text.get(..at).unwrap_or("");
    front.is_empty() || front.ends_with('/')
}

/// Whether the character is one of these.
fn is_in_class(inner: &str, c: char) -> bool {
    let members = inner.strip_prefix('!').unwrap_or(inner);
    let mut found = false;
    let mut low = None;
    let mut is_range = false;
    for member in members.chars() {
        if member == '-' && low.is_some() && !is_range {
            is_range = true;
            continue;
        }
        let first = if is_range {
            low.unwrap_or(member)
        } else {
            member
        };
        found = found || first <= c && c <= member;
        low = Some(member);
        is_range = false;
    }
    found = found || is_range && c == '-';
    found != inner.starts_with('!')
}

/// For the brackets and commas of `{a,b}` the place of the bracket that closes it. Brackets without a comma stand for
/// themselves.
fn group_ends(alloc: Global, glob: &str) -> Result<Vec<Option<usize>>, AllocError> {
    let mut ends = vec![in alloc; None; glob.len()]?;
    let mut open = Vec::new(alloc);
    let mut is_escaped = false;
    for (at, byte) in glob.bytes().enumerate() {
        match byte {
            _ if is_escaped => is_escaped = false,
            b'\\' => is_escaped = true,
            b'{' => open.push(at)?,
            b',' if !open.is_empty() => open.push(at)?,
            b'}' => close_group(glob, &mut open, &mut ends, at),
            _ => {}
        }
    }
    Ok(ends)
}

/// Closes the group that was opened last, if commas are in it.
fn close_group(glob: &str, open: &mut Vec<usize>, ends: &mut Vec<Option<usize>>, end: usize) {
    let mut has_comma = false;
    for _ in 0..glob.len() {
        let Some(place) = open.pop() else {
            return;
        };
        let is_comma = glob.as_bytes().get(place).copied() == Some(b',');
        if is_comma || has_comma {
            set_end(ends, place, end);
            set_end(ends, end, end);
        }
        if !is_comma {
            return;
        }
        has_comma = true;
    }
}

fn set_end(ends: &mut Vec<Option<usize>>, place: usize, end: usize) {
    if let Some(entry) = ends.get_mut(place) {
        *entry = Some(end);
    }
}
