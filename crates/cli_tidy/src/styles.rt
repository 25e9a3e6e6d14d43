//! The style that is chosen for a file, and by what.

ghost use Rattle.std.specs.Prelude.{◌≡◌};
ghost use Rattle.cli_tidy.specs.ChosenStyles.{nothing_asked};
ghost use Rattle.cli_tidy.specs.Tidies.{GetsCommas};
ghost use Rattle.json5_tidy.specs.declared.style.LastCommas.TheVariants as commas;

use crate::configs::Configs;
use crate::indents::own_indent;
use cli_files::{has_ending, shown};
use json5_tidy::{LastCommas, LineEnds, Stars, Style};
use std::alloc::{AllocError, Global};

/// What chose a size.
#[derive(Clone, Copy, Drop)]
pub enum Chooser {
    /// The words of the command line.
    Words,
    /// The `.editorconfig` with this index, of those that hold for the file's folder.
    Config(usize),
    /// The file's own text.
    Text,
    /// Nothing did, so it is the usual one.
    Usual,
}

/// A size, and what chose it.
#[derive(Clone, Copy, Drop)]
pub struct ChosenSize {
    pub size: usize,
    pub by: Chooser,
}

/// The line ends that are to be written, and what chose them.
#[derive(Clone, Copy, Drop)]
pub struct ChosenLineEnds {
    pub line_ends: LineEnds,
    pub by: Chooser,
}

/// Whether a line end is to follow the document, and what chose that.
#[derive(Clone, Copy, Drop)]
pub struct ChosenFinalLineEnd {
    pub is_wanted: bool,
    pub by: Chooser,
}

/// The style as far as it is chosen.
#[derive(Clone, Copy, Drop)]
pub struct ChosenStyle {
    /// How many spaces a level is indented by; 0 for a tab.
    pub indent: Option<ChosenSize>,
    /// How many columns a line may have.
    pub width: Option<ChosenSize>,
    pub last_commas: LastCommas,
    /// What becomes of the lines of star comments.
    pub stars: Stars,
    /// How many columns a tab has.
    pub tab_width: Option<ChosenSize>,
    pub line_ends: Option<ChosenLineEnds>,
    pub final_line_end: Option<ChosenFinalLineEnd>,
}

/// The style for a text, and what chose it.
#[derive(Clone, Copy, Drop)]
pub(crate) struct TextStyle {
    pub(crate) style: Style,
    pub(crate) indent_by: Chooser,
    pub(crate) width_by: Chooser,
    /// The style as it was chosen, without regard to the text.
    pub(crate) chosen: ChosenStyle,
}

impl ChosenStyle {
    /// Nothing is chosen.
    pub(crate) fn none() -> ChosenStyle
        ensures { result ≡ nothing_asked }
    {
        ChosenStyle {
            indent: None,
            width: None,
            last_commas: LastCommas::Auto,
            stars: Stars::Move,
            tab_width: None,
            line_ends: None,
            final_line_end: None,
        }
    }
}

/// The style for this text of the file with this name. Where no indentation is chosen it is the text's own.
pub(crate) fn style_for(alloc: Global, name: &str, chosen: ChosenStyle, text: &str) -> TextStyle
    ensures { result.style.last_commas ≡ commas.Always → GetsCommas name.now chosen.last_commas }
{
    let indent = match chosen.indent {
        Some(size) => size,
        None => own_indent(alloc, text),
    };
    let width = chosen.width.unwrap_or(usual_size(80));
    TextStyle {
        style: Style {
            indent: indent.size,
            width: width.size,
            last_commas: last_commas_for(name, chosen.last_commas),
            tab_width: chosen.tab_width.unwrap_or(usual_size(4)).size,
            stars: chosen.stars,
            line_ends: line_ends_of(chosen),
            final_line_end: has_final_line_end(chosen),
        },
        indent_by: indent.by,
        width_by: width.by,
        chosen,
    }
}

/// Where last commas come in the file with this name, if this is asked for: where nothing else is, always if its readers
/// take them, and never if they take it for JSON.
fn last_commas_for(name: &str, asked: LastCommas) -> LastCommas
    ensures { result ≡ commas.Always → GetsCommas name.now asked }
{
    if !matches!(asked, LastCommas::Auto) {
        return asked;
    }
    if has_ending(name, "json5") {
        return LastCommas::Always;
    }
    if has_ending(name, "json") || has_ending(name, "jsonc") {
        return LastCommas::Never;
    }
    LastCommas::Auto
}

/// The line ends that are chosen, and else the text's own.
fn line_ends_of(chosen: ChosenStyle) -> LineEnds {
    match chosen.line_ends {
        Some(told) => told.line_ends,
        None => LineEnds::Own,
    }
}

/// Whether a line end follows the document, as it does unless it is chosen that none does.
fn has_final_line_end(chosen: ChosenStyle) -> bool {
    match chosen.final_line_end {
        Some(told) => told.is_wanted,
        None => true,
    }
}

fn usual_size(size: usize) -> ChosenSize {
    ChosenSize {
        size,
        by: Chooser::Usual,
    }
}

/// The style in the words that ask for it, and behind each size what chose it; and what else .editorconfig files tell.
pub(crate) fn style_line(
    alloc: Global,
    name: &str,
    configs: &Configs,
    chosen: TextStyle,
) -> Result<String, AllocError> {
    let indent = if chosen.style.indent == 0 {
        format!(in alloc; "tab")?
    } else {
        format!(in alloc; "{}", chosen.style.indent)?
    };
    let commas = match chosen.style.last_commas {
        LastCommas::Auto => "auto",
        LastCommas::Always => "always",
        LastCommas::Never => "never",
    };
    let (by, width_by) = (
        configs.name_of(chosen.indent_by),
        configs.name_of(chosen.width_by),
    );
    let (name, width) = (shown(alloc, name)?, chosen.style.width);
    let stars = match chosen.style.stars {
        Stars::Move => "",
        Stars::Keep => ", --keep-stars",
    };
    let told = told_words(alloc, configs, chosen.chosen)?;
    format!(in alloc;
        "{}: --indent {indent} ({by}), --width {width} ({width_by}), --last-commas {commas}{stars}{}\n",
        name.as_str(),
        told.as_str(),
    )
}

/// What .editorconfig files tell that no word asks for, and which told it.
fn told_words(alloc: Global, configs: &Configs, chosen: ChosenStyle) -> Result<String, AllocError> {
    let mut words = String::new(alloc);
    if let Some(tab) = chosen.tab_width {
        let (size, by) = (tab.size, configs.name_of(tab.by));
        let word = format!(in alloc; ", tab_width {size} ({by})")?;
        words.push_str(word.as_str())?;
    }
    if let Some(ends) = chosen.line_ends {
        let (name, by) = (name_of_ends(ends.line_ends), configs.name_of(ends.by));
        let word = format!(in alloc; ", end_of_line {name} ({by})")?;
        words.push_str(word.as_str())?;
    }
    if let Some(last) = chosen.final_line_end {
        let (is_wanted, by) = (last.is_wanted, configs.name_of(last.by));
        let word = format!(in alloc; ", insert_final_newline {is_wanted} ({by})")?;
        words.push_str(word.as_str())?;
    }
    Ok(words)
}

fn name_of_ends(line_ends: LineEnds) -> &'static str {
    match line_ends {
        LineEnds::Lf => "lf",
        LineEnds::CrLf => "crlf",
        LineEnds::Own => "as it is",
    }
}
