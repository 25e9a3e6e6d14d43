//! The settings of a web server, derived. An unknown field is refused.

use serde::Deserialize;
use std::collections::BTreeMap;

/// `{ server: { .. }, routes: { '/': [{ .. }] }, max_body: 0x100000, log: 'error' }`: each route leads to servers that are
/// asked in turn.
#[derive(Drop, Deserialize)]
#[serde(deny_unknown_fields)]
pub struct Settings {
    pub server: Server,
    pub routes: BTreeMap<String, Vec<Server>>,
    #[serde(default = "mebibyte")]
    pub max_body: u64,
    #[serde(default = "info")]
    pub log: Log,
}

/// `{ host: 'shop.example', port: 8443, tls: 'shop.pem' }`: the port is 80 where it is missing, and `tls` is the file of a
/// certificate and its key.
#[derive(Drop, Deserialize)]
#[serde(deny_unknown_fields)]
pub struct Server {
    pub host: String,
    #[serde(default = "http")]
    pub port: u16,
    pub tls: Option<String>,
}

/// `'error'`, `'info'` or `'debug'`
#[derive(Debug, Drop, Deserialize)]
#[serde(rename_all = "lowercase")]
pub enum Log {
    Error,
    Info,
    Debug,
}

fn info() -> Log {
    Log::Info
}

fn http() -> u16 {
    80
}

fn mebibyte() -> u64 {
    1048576
}
