//! Where a peer is dialed and where it dials from.
ghost use Rattle.std.specs.Prelude.{◌≡◌, IfOk};
ghost use Rattle.p2p_address.specs.Addresses.{ingress_of, egress_of, is_valid};
ghost use Rattle.p2p_address.specs.declared.peer.Ingress.TheVariants as ingress;
ghost use Rattle.p2p_address.specs.declared.peer.Address.TheVariants as address;

use crate::ip::{IpAddr, SocketAddr, is_global};
use p2p_base::Text;
use std::alloc::{AllocError, Global};

/// Where a peer is dialed.
///
/// Ports `Ingress` of commonware-p2p.
#[derive(Drop, PartialEq, Eq, Debug)]
pub enum Ingress {
    /// An address.
    Socket(SocketAddr),
    /// A name that is looked up, and a port.
    Dns { host: Text, port: u16 },
}

impl Ingress {
    /// Whether it may be dialed: an address where `private` ones are allowed or it is global, and a name where `dns` is allowed.
    pub fn is_valid(&self, private: bool, dns: bool) -> bool
        ensures { result ≡ is_valid private dns self.now }
    {
        match self {
            Ingress::Socket(socket) => private || is_global(&socket.ip),
            Ingress::Dns { .. } => dns,
        }
    }

    /// An equal ingress.
    pub fn try_clone(&self, alloc: Global) -> Result<Ingress, AllocError>
        ensures { IfOk result (λ i. i ≡ self.now) }
    {
        match self {
            Ingress::Socket(socket) => Ok(Ingress::Socket(*socket)),
            Ingress::Dns { host, port } => {
                let host = host.try_clone(alloc)?;
                Ok(Ingress::Dns { host, port: *port })
            }
        }
    }
}

impl Clone for Ingress {
    ghost is_clone = { λ i j. j ≡ i };

    fn clone(&self) -> Result<Ingress, AllocError> {
        match self {
            Ingress::Socket(socket) => Ok(Ingress::Socket(*socket)),
            Ingress::Dns { host, port } => {
                let host = host.clone()?;
                Ok(Ingress::Dns { host, port: *port })
            }
        }
    }
}

impl From<SocketAddr> for Ingress {
    ghost from_gives = { λ socket i. i ≡ ingress.Socket socket };

    fn from(socket: SocketAddr) -> Ingress {
        Ingress::Socket(socket)
    }
}

/// Where a peer is dialed and where it dials from.
///
/// Ports `Address` of commonware-p2p.
#[derive(Drop, PartialEq, Eq, Debug)]
pub enum Address {
    /// One address for both.
    Symmetric(SocketAddr),
    /// One for each.
    Asymmetric {
        ingress: Ingress,
        egress: SocketAddr,
    },
}

impl Address {
    /// Where the peer is dialed.
    pub fn ingress(&self, alloc: Global) -> Result<Ingress, AllocError>
        ensures { IfOk result (λ i. i ≡ ingress_of self.now) }
    {
        match self {
            Address::Symmetric(socket) => Ok(Ingress::Socket(*socket)),
            Address::Asymmetric { ingress, .. } => ingress.try_clone(alloc),
        }
    }

    /// The IP address that the peer dials from.
    pub fn egress_ip(&self) -> IpAddr
        ensures { result ≡ egress_of self.now }
    {
        match self {
            Address::Symmetric(socket) => socket.ip,
            Address::Asymmetric { egress, .. } => egress.ip,
        }
    }

    /// An equal address.
    pub fn try_clone(&self, alloc: Global) -> Result<Address, AllocError>
        ensures { IfOk result (λ a. a ≡ self.now) }
    {
        match self {
            Address::Symmetric(socket) => Ok(Address::Symmetric(*socket)),
            Address::Asymmetric { ingress, egress } => {
                let ingress = ingress.try_clone(alloc)?;
                Ok(Address::Asymmetric {
                    ingress,
                    egress: *egress,
                })
            }
        }
    }
}

impl Clone for Address {
    ghost is_clone = { λ a b. b ≡ a };

    fn clone(&self) -> Result<Address, AllocError> {
        match self {
            Address::Symmetric(socket) => Ok(Address::Symmetric(*socket)),
            Address::Asymmetric { ingress, egress } => {
                let ingress = ingress.clone()?;
                Ok(Address::Asymmetric {
                    ingress,
                    egress: *egress,
                })
            }
        }
    }
}

impl From<SocketAddr> for Address {
    ghost from_gives = { λ socket a. a ≡ address.Symmetric socket };

    fn from(socket: SocketAddr) -> Address {
        Address::Symmetric(socket)
    }
}
