//! The settings of a web server. An unknown field is refused.

ghost use Rattle.std.specs.Prelude.{[], ◌∷◌};
ghost use Rattle.json5.specs.Structs.{codes, one_named, struct_only};
ghost use Rattle.example_settings.specs.declared.settings.Log.TheVariants.{Error, Info, Debug};
ghost use Rattle.example_settings.specs.declared.settings.Method.TheVariants.{Get, Post};

use json5::fields::StructFields;
use json5::{
    Deserialize, Deserializer, Input, Optional, Required, Result, WithDefault, one_of_names,
    read_struct_only,
};

/// `{ server: { .. }, routes: [ .. ], limits: { .. }, log: 'error' }`
#[derive(Drop)]
pub struct Settings {
    pub server: Server,
    pub routes: Vec<Route>,
    pub limits: Option<Limits>,
    pub log: Log,
}

type SettingsParts = (Required, Required, Optional, WithDefault<Log>);

type SettingsValues = (Server, Vec<Route>, Option<Limits>, Log);

impl<I: Input> Deserialize<I> for Settings {
    ghost Content = { ⟦<SettingsParts as StructFields<I, SettingsValues>>⟧.Content };

    ghost content = { λ s. ⟦<SettingsParts as StructFields<I, SettingsValues>>⟧.content
        (s.server, s.routes, s.limits, s.log) };

    ghost convert = { struct_only (⟦<SettingsParts as StructFields<I, SettingsValues>>⟧.layout
        (codes "server", (codes "routes", (codes "limits", (codes "log", Info))))) };

    fn deserialize(de: &mut Deserializer<I>) -> Result<Settings> {
        let (server, routes) = (Required("server"), Required("routes"));
        let (limits, log) = (Optional("limits"), WithDefault("log", Log::Info));
        let (server, routes, limits, log) = read_struct_only(de, (server, routes, limits, log))?;
        Ok(Settings {
            server,
            routes,
            limits,
            log,
        })
    }
}

/// `{ host: 'shop.example', port: 8443, tls: { .. } }`; the port is 80 where it is missing.
#[derive(Drop)]
pub struct Server {
    pub host: String,
    pub port: u16,
    pub tls: Option<Tls>,
}

type ServerParts = (Required, WithDefault<u16>, Optional);

impl<I: Input> Deserialize<I> for Server {
    ghost Content = { ⟦<ServerParts as StructFields<I, (String, u16, Option<Tls>)>>⟧.Content };

    ghost content = { λ s. ⟦<ServerParts as StructFields<I, (String, u16, Option<Tls>)>>⟧.content
        (s.host, s.port, s.tls) };

    ghost convert = { struct_only (⟦<ServerParts as StructFields<I, (String, u16, Option<Tls>)>>⟧.layout
        (codes "host", ((codes "port", 80), codes "tls"))) };

    fn deserialize(de: &mut Deserializer<I>) -> Result<Server> {
        let fields = (Required("host"), WithDefault("port", 80), Optional("tls"));
        let (host, port, tls) = read_struct_only(de, fields)?;
        Ok(Server { host, port, tls })
    }
}

/// The files of a certificate and its key.
#[derive(Drop)]
pub struct Tls {
    pub cert: String,
    pub key: String,
}

impl<I: Input> Deserialize<I> for Tls {
    ghost Content = { ⟦<(Required, Required) as StructFields<I, (String, String)>>⟧.Content };

    ghost content = { λ t. ⟦<(Required, Required) as StructFields<I, (String, String)>>⟧.content (t.cert, t.key) };

    ghost convert = { struct_only (⟦<(Required, Required) as StructFields<I, (String, String)>>⟧.layout
        (codes "cert", codes "key")) };

    fn deserialize(de: &mut Deserializer<I>) -> Result<Tls> {
        let (cert, key) = read_struct_only(de, (Required("cert"), Required("key")))?;
        Ok(Tls { cert, key })
    }
}

/// `{ path: '/', methods: ['GET'], upstream: 'http://127.0.0.1:9000' }`
#[derive(Drop)]
pub struct Route {
    pub path: String,
    pub methods: Option<Vec<Method>>,
    pub upstream: String,
}

type RouteParts = (Required, Optional, Required);

impl<I: Input> Deserialize<I> for Route {
    ghost Content = { ⟦<RouteParts as StructFields<I, (String, Option<Vec<Method>>, String)>>⟧.Content };

    ghost content = { λ r. ⟦<RouteParts as StructFields<I, (String, Option<Vec<Method>>, String)>>⟧.content
        (r.path, r.methods, r.upstream) };

    ghost convert = { struct_only (⟦<RouteParts as StructFields<I, (String, Option<Vec<Method>>, String)>>⟧.layout
        (codes "path", (codes "methods", codes "upstream"))) };

    fn deserialize(de: &mut Deserializer<I>) -> Result<Route> {
        let fields = (Required("path"), Optional("methods"), Required("upstream"));
        let (path, methods, upstream) = read_struct_only(de, fields)?;
        Ok(Route {
            path,
            methods,
            upstream,
        })
    }
}

/// The most bytes of a body and of a header.
#[derive(Drop)]
pub struct Limits {
    pub body: u64,
    pub header: u32,
}

type LimitsParts = (WithDefault<u64>, WithDefault<u32>);

impl<I: Input> Deserialize<I> for Limits {
    ghost Content = { ⟦<LimitsParts as StructFields<I, (u64, u32)>>⟧.Content };

    ghost content = { λ l. ⟦<LimitsParts as StructFields<I, (u64, u32)>>⟧.content (l.body, l.header) };

    ghost convert = { struct_only (⟦<LimitsParts as StructFields<I, (u64, u32)>>⟧.layout
        ((codes "body", 1048576), (codes "header", 8192))) };

    fn deserialize(de: &mut Deserializer<I>) -> Result<Limits> {
        let fields = (WithDefault("body", 1048576), WithDefault("header", 8192));
        let (body, header) = read_struct_only(de, fields)?;
        Ok(Limits { body, header })
    }
}

/// How much is logged.
#[derive(Clone, Copy, Debug)]
pub enum Log {
    Error,
    Info,
    Debug,
}

impl<I: Input> Deserialize<I> for Log {
    ghost Content = { Self };

    ghost content = { λ l. l };

    ghost convert = { one_named (codes "error" ∷ codes "info" ∷ codes "debug" ∷ [])
        (Error ∷ Info ∷ Debug ∷ []) };

    fn deserialize(de: &mut Deserializer<I>) -> Result<Log> {
        let logs = [Log::Error, Log::Info, Log::Debug];
        one_of_names(de, &["error", "info", "debug"], &logs)
    }
}

/// A method of HTTP.
#[derive(Clone, Copy, Debug)]
pub enum Method {
    Get,
    Post,
}

impl<I: Input> Deserialize<I> for Method {
    ghost Content = { Self };

    ghost content = { λ m. m };

    ghost convert = { one_named (codes "GET" ∷ codes "POST" ∷ []) (Get ∷ Post ∷ []) };

    fn deserialize(de: &mut Deserializer<I>) -> Result<Method> {
        one_of_names(de, &["GET", "POST"], &[Method::Get, Method::Post])
    }
}
