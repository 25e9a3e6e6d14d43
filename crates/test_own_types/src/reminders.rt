//! When one is reminded, read and written by a description of the variants.

ghost use Rattle.json5.specs.Structs.{codes, struct_of};
ghost use Rattle.test_own_types.specs.Written.{reminder_tree, moment_tree};

use json5::OneOf::{First, Later};
use json5::fields::{EnumVariants, StructFields};
use json5::{
    Deserialize, Deserializer, Field, Holding, Input, NoContent, OneOf, Required, Result,
    Serialize, Serializer, read_enum, read_struct, write_struct,
};
use std::io::Write;

/// When one is reminded.
#[derive(Drop)]
pub enum Reminder {
    /// `'off'`
    Off,
    /// Each day at this hour: `{ daily: 7 }`.
    Daily(u8),
    /// On this day of each week, at this hour: `{ weekly: [1, 7] }`.
    Weekly(u8, u8),
    /// Once: `{ once: { day: 'today', hour: 7 } }`.
    Once(Moment),
}

type Variants = OneOf<NoContent, OneOf<Holding<u8>, OneOf<Holding<(u8, u8)>, Holding<Moment>>>>;

/// The name of a variant, and then its content.
impl<I: Input> Deserialize<I> for Reminder {
    ghost use Rattle.json5.specs.Enums.{enum_of};
    ghost use Rattle.json5.specs.VariantContents.{RefusesEnum};
    ghost use Rattle.test_own_types.specs.Accepted.{reminder_names, reminder_content};

    ghost Content = { ⟦<Variants as EnumVariants<I>>⟧.Content };

    ghost content = { reminder_content };

    ghost convert = { enum_of reminder_names ⟦<Variants as EnumVariants<I>>⟧.convert };

    ghost refuses = { RefusesEnum reminder_names ⟦<Variants as EnumVariants<I>>⟧.faults };

    fn deserialize(de: &mut Deserializer<I>) -> Result<Reminder> {
        match read_enum::<I, Variants>(de, &["off", "daily", "weekly", "once"]) {
            Ok(First(_)) => Ok(Reminder::Off),
            Ok(Later(First(Holding(hour)))) => Ok(Reminder::Daily(hour)),
            Ok(Later(Later(First(Holding((day, hour)))))) => Ok(Reminder::Weekly(day, hour)),
            Ok(Later(Later(Later(Holding(moment))))) => Ok(Reminder::Once(moment)),
            Err(e) => Err(e),
        }
    }
}

/// A string for the variant that holds nothing, and else an object with the variant's name as its one key.
impl Serialize for Reminder {
    ghost tree = { reminder_tree };

    fn serialize<W: Write + Drop>(&self, ser: &mut Serializer<W>) -> Result<()> {
        match self {
            Reminder::Off => ser.serialize_unit_variant("Reminder", 0, "off"),
            Reminder::Daily(hour) => ser.serialize_newtype_variant("Reminder", 1, "daily", hour),
            Reminder::Weekly(day, hour) => {
                ser.serialize_newtype_variant("Reminder", 2, "weekly", &(*day, *hour))
            }
            Reminder::Once(moment) => ser.serialize_newtype_variant("Reminder", 3, "once", moment),
        }
    }
}

/// A day and an hour.
#[derive(Drop)]
pub struct Moment {
    /// The day, as it was given.
    pub day: String,
    /// The hour.
    pub hour: u8,
}

impl<I: Input> Deserialize<I> for Moment {
    ghost Content = { ⟦<(Required, Required) as StructFields<I, (String, u8)>>⟧.Content };

    ghost content = { λ m. ⟦<(Required, Required) as StructFields<I, (String, u8)>>⟧.content (m.day, m.hour) };

    ghost convert = { struct_of (⟦<(Required, Required) as StructFields<I, (String, u8)>>⟧.layout (codes "day", codes "hour")) };

    fn deserialize(de: &mut Deserializer<I>) -> Result<Moment> {
        let (day, hour) = read_struct(de, (Required("day"), Required("hour")))?;
        Ok(Moment { day, hour })
    }
}

impl Serialize for Moment {
    ghost tree = { moment_tree };

    fn serialize<W: Write + Drop>(&self, ser: &mut Serializer<W>) -> Result<()> {
        write_struct(ser, &(Field("day", &self.day), Field("hour", &self.hour)))
    }
}
