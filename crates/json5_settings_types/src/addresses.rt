//! Addresses: `'127.0.0.1'`, `'[::1]:8080'`.

ghost use Rattle.std.specs.Prelude.{◌≡◌, ◌↔◌, List, ℕ, Some};
ghost use Rattle.std.specs.declared.net.ip_addr.IpAddr.{IpAddr};
ghost use Rattle.std.specs.declared.net.socket_addr.SocketAddr.{SocketAddr};
ghost use Rattle.std.specs.Net.Grammar.{IsIpText, IsSocketText};
ghost use Rattle.json5_settings_types.specs.Addresses.{ip_of, socket_of};

use crate::spelled::Spelled;
use std::net::{IpAddr, SocketAddr};

/// `'127.0.0.1'` or `'::1'`: `AsSpelled<IpAddr>`.
impl Spelled for IpAddr {
    ghost Meaning = { IpAddr };

    ghost meaning = { λ a. a };

    ghost spells = { ip_of };

    fn expected() -> &'static str {
        "an address such as '127.0.0.1' or '::1'"
    }

    fn parse(text: &str) -> Option<IpAddr> {
        text.parse::<IpAddr>().ok()
    }
}

/// `'127.0.0.1:8080'` or `'[::1]:8080'`: `AsSpelled<SocketAddr>`.
impl Spelled for SocketAddr {
    ghost Meaning = { SocketAddr };

    ghost meaning = { λ a. a };

    ghost spells = { socket_of };

    fn expected() -> &'static str {
        "an address and a port such as '127.0.0.1:8080' or '[::1]:8080'"
    }

    fn parse(text: &str) -> Option<SocketAddr> {
        text.parse::<SocketAddr>().ok()
    }
}

/// The law of addresses: which texts spell them. The call does nothing.
pub fn addresses_are_spelled()
    ensures ip { (t : List ℕ) (a : IpAddr) → ip_of t ≡ Some a ↔ IsIpText t a }
    ensures socket { (t : List ℕ) (a : SocketAddr) → socket_of t ≡ Some a ↔ IsSocketText t a }
{}
