//! IP addresses and sockets.
ghost use Rattle.std.specs.Prelude.{◌≡◌, ◌||◌, ◌++◌, take, replicate, IfOk};
ghost use Rattle.std.specs.List.{filter};
ghost use Rattle.p2p_address.specs.Addresses.{is_global, subnet_of};

use crate::ranges::{NOT_GLOBAL_V4, NOT_GLOBAL_V6, is_in_v4, is_in_v6};
use std::alloc::{AllocError, Global};

/// An IP address. A mapped IPv4 address stays an IPv6 address.
#[derive(Clone, Copy, PartialEq, Eq, PartialOrd, Ord, Hash, Debug)]
pub enum IpAddr {
    /// Its bytes in the order in which they are written.
    V4([u8; 4]),
    /// Its bytes in the order in which they are written.
    V6([u8; 16]),
}

/// An IP address and a port.
#[derive(Clone, Copy, PartialEq, Eq, Debug)]
pub struct SocketAddr {
    pub ip: IpAddr,
    pub port: u16,
}

/// Whether `ip` is in none of the ranges of `NOT_GLOBAL_V4` and `NOT_GLOBAL_V6`.
///
/// Ports `IpAddrExt::is_global` of commonware-p2p's `commonware-utils`, with a table of its own.
pub fn is_global(ip: &IpAddr) -> bool
    ensures { result ≡ is_global ip.now }
{
    match ip {
        IpAddr::V4(bytes) => !is_in_v4(&NOT_GLOBAL_V4, *bytes),
        IpAddr::V6(bytes) => !is_in_v6(&NOT_GLOBAL_V6, *bytes),
    }
}

/// The subnet of `ip`: its first 24 bits for IPv4 and its first 48 for IPv6, and otherwise 0.
///
/// Ports `IpAddrExt::subnet` of commonware-p2p's `commonware-utils`.
pub fn subnet(ip: &IpAddr) -> IpAddr
    ensures { result ≡ subnet_of ip.now }
{
    match *ip {
        IpAddr::V4(bytes) => IpAddr::V4(subnet_v4(bytes)),
        IpAddr::V6(bytes) => IpAddr::V6(subnet_v6(bytes)),
    }
}

fn subnet_v4(address: [u8; 4]) -> [u8; 4]
    ensures { result ≡ take 3 address ++ replicate 1 0 }
{
    let mut start = [0; 4];
    start[..3].copy_from_slice(&address[..3]);
    start
}

fn subnet_v6(address: [u8; 16]) -> [u8; 16]
    ensures { result ≡ take 6 address ++ replicate 10 0 }
{
    let mut start = [0; 16];
    start[..6].copy_from_slice(&address[..6]);
    start
}

/// The addresses that may be dialed, in order: all of them where `private` ones are allowed, and else the global ones.
pub fn resolve_filtered(
    alloc: Global,
    addresses: &[SocketAddr],
    private: bool,
) -> Result<Vec<SocketAddr>, AllocError>
    ensures { IfOk result (λ v. v.items ≡ filter (λ s. private || is_global s.ip) addresses.now) }
{
    addresses
        .iter()
        .copied()
        .filter(|address| private || is_global(&address.ip))
        .collect(alloc)
}
