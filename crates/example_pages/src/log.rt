//! An enum of names.

use json5::{Deserialize, Deserializer, Input, Result, one_of_names};

/// `'error'` or `'info'`
#[derive(Clone, Copy, Debug)]
pub enum Log {
    Error,
    Info,
}

impl<I: Input> Deserialize<I> for Log {
    ghost use Rattle.std.specs.Prelude.{[], ◌∷◌};
    ghost use Rattle.json5.specs.Structs.{codes, one_named};
    ghost use Rattle.example_pages.specs.declared.log.Log.{Log};
    ghost use Rattle.example_pages.specs.declared.log.Log.TheVariants.{Error, Info};

    ghost Content = { Log };

    ghost content = { λ l. l };

    ghost convert = { one_named (codes "error" ∷ codes "info" ∷ []) (Error ∷ Info ∷ []) };

    fn deserialize(de: &mut Deserializer<I>) -> Result<Log> {
        one_of_names(de, &["error", "info"], &[Log::Error, Log::Info])
    }
}
