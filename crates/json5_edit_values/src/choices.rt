//! What a text leaves open to those who edit it.

ghost use Rattle.std.specs.Prelude.{◌≡◌};
ghost use Rattle.json5_edit_style.specs.declared.habits.Names.TheVariants as layout_names;

use json5_edit::Names;
use json5_styles::Layout;

/// What a text leaves open to the caller of an edit with a value.
///
/// ```text
/// Choices { layout: Some(Layout::tabbed()), names: Names::Bare }
/// ```
#[derive(Clone, Copy, Drop)]
pub struct Choices {
    /// Where the lines of the value begin; None for as it fits the text.
    pub layout: Option<Layout>,
    /// How a name stands as the first key of a document.
    pub names: Names,
}

impl Choices {
    /// Returns the choices of [`set_value`](crate::set_value) and its like: lines as they fit the text, and names between
    /// quotes.
    ///
    /// ```text
    /// Choices::of_text()    // Choices { layout: None, names: Names::Quoted }
    /// ```
    pub fn of_text() -> Choices
        ensures { result.names ≡ layout_names.Quoted }
    {
        Choices {
            layout: None,
            names: Names::Quoted,
        }
    }
}
