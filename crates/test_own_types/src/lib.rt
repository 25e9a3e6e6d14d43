//! Users' types that are read and written, proved lawful by what json5 promises alone.
#![tactic(auto)]

mod colors;
mod ids;
mod labels;
mod lists;
mod pairs;
mod ports;
mod reminders;
mod settings;
mod sizes;

ghost use Rattle.std.specs.Prelude.{◌≡◌, true};

pub use colors::{Color, colors_read_back};
pub use ids::Id;
use json5::{Deserializer, Input, Result};
pub use labels::Labels;
pub use lists::{AtMost, Bounds};
pub use pairs::Pair;
pub use ports::{Endpoint, OpenPort};
pub use reminders::{Moment, Reminder};
pub use settings::{Settings, settings_again};
pub use sizes::{Size, size_of_text};

/// Drops the access after one element: from then on the reader returns `Failed`.
pub fn gives_up<I: Input>(de: &mut Deserializer<I>) -> Result<()>
    ensures { de.new.failed ≡ true }
{
    let mut seq = de.deserialize_seq()?;
    let _first = seq.next_element::<bool>()?;
    Ok(())
}
