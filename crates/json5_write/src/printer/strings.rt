//! Strings (JSON5 section 5).

ghost use Rattle.std.specs.Prelude.{[], ◌∷◌, ◌++◌};
ghost use Rattle.std.specs.Str.{chars};
ghost use Rattle.json5_grammar.specs.Language.Characters.{double_quote};
ghost use Rattle.json5_grammar.specs.Written.Quoting.{escaped_all, quoted_text};
ghost use Rattle.json5_write.specs.Out.{piece};
ghost use Rattle.json5_write.specs.Quotes.{delimiter};
ghost use Rattle.json5_write.specs.ShortWrites.{Puts};

use crate::Printer;
use crate::escape_free::is_escape_free;
use crate::quoting::{Quote, split_at_escape};
use crate::refusal::Put;
use std::io::Write;

impl<W: Write + Drop> Printer<W> {
    /// Writes the text, and escapes the characters that aren't written as they are between these quotes. What is between two
    /// escapes is written in one piece.
    fn put_escaped(&mut self, quote: Quote, text: &str) -> Put
        ensures { Puts (piece (escaped_all (delimiter quote) (chars text.now))) self.old result self.new }
    {
        let mut rest = text;
        while let Some((raw, escaped, after)) = split_at_escape(quote, rest) {
            self.put_piece(raw)?;
            self.put_piece(escaped)?;
            rest = after;
        }
        self.put_piece(rest)
    }

    /// Writes the text between `"`.
    fn put_escape_free(&mut self, text: &str) -> Put
        ensures { Puts (piece (double_quote ∷ chars text.now ++ double_quote ∷ [])) self.old result self.new }
    {
        self.put_piece("\"")?;
        self.put_piece(text)?;
        self.put_piece("\"")
    }

    /// Writes the text between the quotes that are for it.
    #[inline(never)]
    pub fn put_quoted(&mut self, text: &str) -> Put
        ensures { Puts (piece (quoted_text (chars text.now))) self.old result self.new }
    {
        let quote = Quote::around(text);
        let mark = quote.text();
        self.put_piece(mark)?;
        self.put_escaped(quote, text)?;
        self.put_piece(mark)
    }

    /// Writes a string: between `'` where the text holds `"` and no `'`, else between `"`.
    pub fn put_str(&mut self, value: &str) -> Put
        ensures { Puts (piece (quoted_text (chars value.now))) self.old result self.new }
    {
        if is_escape_free(value) {
            return self.put_escape_free(value);
        }
        self.put_quoted(value)
    }
}
