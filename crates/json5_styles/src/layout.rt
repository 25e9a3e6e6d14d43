//! Layouts: where lines begin, and how they are indented.

ghost use Rattle.std.specs.Prelude.{◌≡◌};
ghost use Rattle.json5_styles.specs.declared.layout.Layout.TheVariants as layout;

/// Where the lines of a text begin, and how they are indented.
///
/// ```text
/// Layout::indented(4)    // four spaces a level
/// ```
#[derive(Clone, Copy, Debug, PartialEq, Eq)]
pub enum Layout {
    /// All on one line, without a blank and without a comma after the last element or member.
    Compact,
    /// Each element and each member on its own line, indented by so many spaces a level.
    Spaces(u8),
    /// The same with a tab a level.
    Tabs,
}

impl Layout {
    /// Makes the layout of [`to_string`](json5_write::to_string): two spaces a level.
    pub fn expanded() -> Layout
        ensures { result ≡ layout.Spaces 2 }
    {
        Layout::Spaces(2)
    }

    /// Makes the layout with so many spaces a level.
    pub fn indented(spaces: u8) -> Layout
        ensures { result ≡ layout.Spaces spaces }
    {
        Layout::Spaces(spaces)
    }

    /// Makes the layout with a tab a level.
    pub fn tabbed() -> Layout
        ensures { result ≡ layout.Tabs }
    {
        Layout::Tabs
    }

    /// Makes the layout on one line.
    pub fn compact() -> Layout
        ensures { result ≡ layout.Compact }
    {
        Layout::Compact
    }
}

/// How strings and keys are spelled.
#[derive(Clone, Copy, Debug, PartialEq, Eq)]
pub enum Spelling {
    /// As in JSON5: a key that is an identifier is bare, and a comma follows the last element or member of a line.
    Json5,
    /// As in JSON: strings and keys between double quotes, and no last comma.
    Json,
}

/// A layout with a spelling.
#[derive(Clone, Copy)]
pub(crate) struct Form {
    pub(crate) spelling: Spelling,
    pub(crate) layout: Layout,
}
