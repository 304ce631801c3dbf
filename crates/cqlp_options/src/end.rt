//! Ends of connections that are asked for.

ghost use Rattle.std.specs.Prelude.{◌≡◌, IfOk, IfSome};
ghost use Rattle.std.specs.Net.Socket.{socket_scope_id};
ghost use Rattle.clap.specs.Words.{found_of, rows_of};
ghost use Rattle.cqlp_options.specs.Ends.{NamesEnd};
ghost use Rattle.cqlp_options.specs.Matched.{IsEnd};

use crate::matched::path;
use clap::ArgMatches;
use std::net::{IpAddr, SocketAddr};

/// An end of connections: an address, at the port with this number alone if there is one.
#[derive(Clone, Copy)]
pub struct AskedEnd {
    pub address: IpAddr,
    pub port: Option<u16>,
}

/// No end is named by a text.
#[derive(Clone, Copy)]
pub(crate) struct NoEnd;

/// The end that an option names, if it is given.
pub(crate) fn end(matches: &ArgMatches<'_>, option: &str) -> Result<Option<AskedEnd>, NoEnd>
    ensures { IfOk result (IsEnd option.now (rows_of (found_of matches.now))) }
{
    match path(matches, option) {
        Some(text) => {
            let end = end_named(text).ok_or(NoEnd)?;
            Ok(Some(end))
        }
        None => Ok(None),
    }
}

/// The end that a text names: by an address, or by an address and a port as a socket has them.
fn end_named(text: &str) -> Option<AskedEnd>
    ensures { IfSome result (NamesEnd text.now) }
{
    if let Ok(address) = text.parse::<IpAddr>() {
        return Some(AskedEnd {
            address,
            port: None,
        });
    }
    let socket = text.parse::<SocketAddr>().ok()?;
    if scope_of(&socket) > 0 {
        return None;
    }
    Some(AskedEnd {
        address: socket.ip(),
        port: Some(socket.port()),
    })
}

/// The scope of an IPv6 address.
fn scope_of(socket: &SocketAddr) -> u32
    ensures { result ≡ socket_scope_id socket.now }
{
    match socket {
        SocketAddr::V4(_) => 0,
        SocketAddr::V6(socket) => socket.scope_id(),
    }
}
