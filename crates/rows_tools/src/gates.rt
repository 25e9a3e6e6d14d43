//! Described structs that have schemas.

ghost use Rattle.std.specs.Prelude.{[], ◌∷◌};
ghost use Rattle.json5.specs.Structs.{codes, one_named, struct_of, struct_only};
ghost use Rattle.json5_settings.specs.DescribedSchemas.{names_schema, open_struct_schema, struct_schema};
ghost use Rattle.rows_tools.specs.declared.gates.Level.TheVariants.{Low, High};

use indexmap::IndexMap;
use json5::fields::StructFields;
use json5::{
    Decimal, Deserialize, Deserializer, Input, Optional, Required, Result, WithDefault,
    one_of_names, read_struct, read_struct_only,
};
use json5_settings::{
    Described, DescribedFields, Keywords, names_keywords, struct_keywords, struct_only_keywords,
};
use json5_settings_types::Within;
use std::alloc::Global;
use std::collections::{BTreeMap, HashMap};

/// How much is let in.
#[derive(Clone, Copy)]
pub(crate) enum Level {
    Low,
    High,
}

impl<I: Input> Deserialize<I> for Level {
    ghost Content = { Self };

    ghost content = { λ l. l };

    ghost convert = { one_named (codes "low" ∷ codes "high" ∷ []) (Low ∷ High ∷ []) };

    fn deserialize(de: &mut Deserializer<I>) -> Result<Level> {
        one_of_names(de, &["low", "high"], &[Level::Low, Level::High])
    }
}

impl<I: Input> Described<I> for Level {
    ghost keywords = { names_schema (codes "low" ∷ codes "high" ∷ []) };

    fn keywords(alloc: Global) -> Result<Keywords> {
        names_keywords(alloc, &["low", "high"], &[Level::Low, Level::High])
    }
}

/// `{ name: 'north', port: 8080, level: 'low', codes: [1, -2], width: 2.5, label: null, limits: { a: 1 } }`
#[derive(Drop)]
pub(crate) struct Gate {
    pub(crate) name: String,
    pub(crate) port: u16,
    pub(crate) level: Option<Level>,
    pub(crate) codes: Vec<i8>,
    pub(crate) width: Decimal,
    pub(crate) label: Option<String>,
    pub(crate) limits: Option<BTreeMap<String, u16>>,
}

type GateParts = (
    Required,
    WithDefault<u16>,
    Optional,
    Required,
    Required,
    Required,
    Optional,
);

type GateValues = (
    String,
    u16,
    Option<Level>,
    Vec<i8>,
    Decimal,
    Option<String>,
    Option<BTreeMap<String, u16>>,
);

impl<I: Input> Deserialize<I> for Gate {
    ghost Content = { ⟦<GateParts as StructFields<I, GateValues>>⟧.Content };

    ghost content = { λ g. ⟦<GateParts as StructFields<I, GateValues>>⟧.content (g.name, g.port, g.level, g.codes, g.width, g.label, g.limits) };

    ghost convert = { struct_only (⟦<GateParts as StructFields<I, GateValues>>⟧.layout (codes "name", ((codes "port", 80), (codes "level", (codes "codes", (codes "width", (codes "label", codes "limits"))))))) };

    fn deserialize(de: &mut Deserializer<I>) -> Result<Gate> {
        let (name, port, level) = (Required("name"), WithDefault("port", 80), Optional("level"));
        let (codes, width, label) = (Required("codes"), Required("width"), Required("label"));
        let limits = Optional("limits");
        match read_struct_only(de, (name, port, level, codes, width, label, limits)) {
            Ok((name, port, level, codes, width, label, limits)) => Ok(Gate {
                name,
                port,
                level,
                codes,
                width,
                label,
                limits,
            }),
            Err(e) => Err(e),
        }
    }
}

impl<I: Input> Described<I> for Gate {
    ghost keywords = { struct_schema (codes "name" ∷ codes "port" ∷ codes "level" ∷ codes "codes" ∷ codes "width" ∷ codes "label" ∷ codes "limits" ∷ []) ⟦<GateParts as DescribedFields<I, GateValues>>⟧.kinds };

    fn keywords(alloc: Global) -> Result<Keywords> {
        let (name, port, level) = (Required("name"), WithDefault("port", 80), Optional("level"));
        let (codes, width, label) = (Required("codes"), Required("width"), Required("label"));
        let limits = Optional("limits");
        let fields = (name, port, level, codes, width, label, limits);
        struct_only_keywords::<I, GateValues, GateParts>(alloc, fields)
    }
}

const LOWEST: i64 = -2;

/// `{ hosts: { a: 'low' }, racks: { b: [1, 2] }, floor: -1 }`, and any other members.
#[derive(Drop)]
pub(crate) struct Site {
    pub(crate) hosts: HashMap<String, Level>,
    pub(crate) racks: Option<IndexMap<String, Vec<i8>>>,
    pub(crate) floor: Option<Within<{ LOWEST }, 40>>,
}

type SiteParts = (Required, Optional, Optional);

type SiteValues = (
    HashMap<String, Level>,
    Option<IndexMap<String, Vec<i8>>>,
    Option<Within<{ LOWEST }, 40>>,
);

impl<I: Input> Deserialize<I> for Site {
    ghost Content = { ⟦<SiteParts as StructFields<I, SiteValues>>⟧.Content };

    ghost content = { λ s. ⟦<SiteParts as StructFields<I, SiteValues>>⟧.content (s.hosts, s.racks, s.floor) };

    ghost convert = { struct_of (⟦<SiteParts as StructFields<I, SiteValues>>⟧.layout (codes "hosts", (codes "racks", codes "floor"))) };

    fn deserialize(de: &mut Deserializer<I>) -> Result<Site> {
        let fields = (Required("hosts"), Optional("racks"), Optional("floor"));
        match read_struct(de, fields) {
            Ok((hosts, racks, floor)) => Ok(Site {
                hosts,
                racks,
                floor,
            }),
            Err(e) => Err(e),
        }
    }
}

impl<I: Input> Described<I> for Site {
    ghost keywords = { open_struct_schema (codes "hosts" ∷ codes "racks" ∷ codes "floor" ∷ []) ⟦<SiteParts as DescribedFields<I, SiteValues>>⟧.kinds };

    fn keywords(alloc: Global) -> Result<Keywords> {
        let fields = (Required("hosts"), Optional("racks"), Optional("floor"));
        struct_keywords::<I, SiteValues, SiteParts>(alloc, fields)
    }
}
