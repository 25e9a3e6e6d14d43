//! Types ready for the fields of settings: durations, sizes, addresses, URLs, paths, floats, numbers within bounds, lists
//! that aren't empty or have no twins, sets, objects without a key twice; and fields with an old name or with a default
//! that is made.
//!
//! ```text
//! let timeout: Duration = json5::from_str(alloc, "'1h30m'")?;    // 5400 seconds
//! let port: Within<1024, 65535> = json5::from_str(alloc, "8080")?;
//! ```
//!
//! A value that isn't taken is refused where it stands, with a message that says what is expected. `Duration`, `Size`,
//! `AsSpelled`, `FilePath`, `Within` and `NotEmpty` are fields of derived structs too.
#![tactic(auto)]

mod addresses;
mod derived;
mod durations;
mod faults;
mod floats;
mod made_defaults;
mod not_empty;
mod paths;
mod renamed;
mod rest;
mod sizes;
mod spelled;
mod sums;
mod text_sets;
mod told_apart;
mod unique;
mod unique_keys;
mod units;
mod urls;
mod within;

pub use addresses::addresses_are_spelled;
pub use durations::{Duration, durations_read_back};
pub use floats::{Float, floats_read_back};
pub use made_defaults::{MakesDefault, WithDefaultFrom};
pub use not_empty::{NotEmpty, lists_read_back};
pub use paths::{FilePath, paths_read_back};
pub use renamed::{Renamed, RenamedOr};
pub use rest::read_struct_rest;
pub use sizes::{Size, sizes_read_back};
pub use spelled::{AsSpelled, Spelled, read_spelled, spellings_read_back};
pub use text_sets::{TextSet, text_sets_read_back};
pub use unique::{TellsApart, Unique, UniqueTexts, unique_read_back, unique_texts_read_back};
pub use unique_keys::{UniqueKeys, unique_keys_read_back};
pub use url::Url;
pub use urls::urls_read_back;
pub use within::{Within, numbers_read_back};
