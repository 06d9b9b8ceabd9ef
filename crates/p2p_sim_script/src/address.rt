//! Addresses, and peers with theirs.
ghost use Rattle.std.specs.Prelude.{◌≡◌, [], length, codes};
ghost use Rattle.serde_json.specs.Find.{get};
ghost use Rattle.p2p_sim_script.specs.View.{view, items_view};
ghost use Rattle.p2p_sim_script.specs.Gives.{Gives};
ghost use Rattle.p2p_sim_script.specs.Tree.{field_at, form_or};
ghost use Rattle.p2p_sim_script.specs.AddressForm.{byte_of, port_of, ip_with, ip_of, socket_of, dns_of, ingress_of, symmetric_of, asymmetric_of, address_of, pair_in, pair_of, pair_with, peers_of};

use crate::error::ScriptError;
use crate::tree::{FromTree, field, only, within};
use crate::value::Value;
use p2p_address::{Address, Ingress, IpAddr, SocketAddr};
use p2p_base::{Key, List, Map, SetError, Text};
use std::alloc::Global;

fn read_byte(tree: &Value) -> Option<u8>
    ensures { result ≡ byte_of (view tree.now) }
{
    let number = tree.as_u64()?;
    if number <= 255 {
        Some(number as u8)
    } else {
        None
    }
}

impl FromTree for u8 {
    ghost form = { byte_of };

    fn from_tree(_alloc: Global, tree: &Value) -> Result<u8, ScriptError> {
        read_byte(tree).ok_or(ScriptError::NotScript)
    }
}

fn four(bytes: &[u8]) -> [u8; 4]
    requires { length bytes.now ≡ 4 }
    ensures { result ≡ bytes.now }
{
    let mut ip = [0; 4];
    ip.copy_from_slice(bytes);
    ip
}

fn sixteen(bytes: &[u8]) -> [u8; 16]
    requires { length bytes.now ≡ 16 }
    ensures { result ≡ bytes.now }
{
    let mut ip = [0; 16];
    ip.copy_from_slice(bytes);
    ip
}

fn ip(bytes: &[u8]) -> Option<IpAddr>
    ensures { result ≡ ip_with bytes.now }
{
    match bytes.len() {
        4 => Some(IpAddr::V4(four(bytes))),
        16 => Some(IpAddr::V6(sixteen(bytes))),
        _ => None,
    }
}

impl FromTree for IpAddr {
    ghost form = { ip_of };

    fn from_tree(alloc: Global, tree: &Value) -> Result<IpAddr, ScriptError> {
        let bytes = List::<u8>::from_tree(alloc, tree)?;
        ip(bytes.as_slice()).ok_or(ScriptError::NotScript)
    }
}

fn read_port(tree: &Value) -> Option<u16>
    ensures { result ≡ field_at (codes "port") port_of (view tree.now) }
{
    Some(within(tree, "port", 0, u16::MAX as u64)? as u16)
}

impl FromTree for SocketAddr {
    ghost form = { socket_of };

    fn from_tree(alloc: Global, tree: &Value) -> Result<SocketAddr, ScriptError> {
        if !only(tree, &["ip", "port"]) {
            return Err(ScriptError::NotScript);
        }
        let ip = field(alloc, tree, "ip")?;
        let port = read_port(tree).ok_or(ScriptError::NotScript)?;
        Ok(SocketAddr { ip, port })
    }
}

impl FromTree for Text {
    ghost use Rattle.serde_json.specs.Find.{as_str};

    ghost form = { as_str };

    fn from_tree(alloc: Global, tree: &Value) -> Result<Text, ScriptError> {
        let text = tree.as_str().ok_or(ScriptError::NotScript)?;
        Ok(Text::from_str(alloc, text)?)
    }
}

fn read_dns(alloc: Global, tree: &Value) -> Result<Ingress, ScriptError>
    ensures { Gives result (dns_of (view tree.now)) }
{
    if !only(tree, &["host", "port"]) {
        return Err(ScriptError::NotScript);
    }
    let host = field(alloc, tree, "host")?;
    let port = read_port(tree).ok_or(ScriptError::NotScript)?;
    Ok(Ingress::Dns { host, port })
}

impl FromTree for Ingress {
    ghost form = { ingress_of };

    fn from_tree(alloc: Global, tree: &Value) -> Result<Ingress, ScriptError> {
        match SocketAddr::from_tree(alloc, tree) {
            Ok(socket) => Ok(Ingress::Socket(socket)),
            Err(ScriptError::NotScript) => read_dns(alloc, tree),
            Err(ScriptError::Memory) => Err(ScriptError::Memory),
        }
    }
}

fn read_symmetric(alloc: Global, tree: &Value) -> Result<Address, ScriptError>
    ensures { Gives result (symmetric_of (view tree.now)) }
{
    if !only(tree, &["symmetric"]) {
        return Err(ScriptError::NotScript);
    }
    Ok(Address::Symmetric(field(alloc, tree, "symmetric")?))
}

fn read_asymmetric(alloc: Global, tree: &Value) -> Result<Address, ScriptError>
    ensures { Gives result (asymmetric_of (view tree.now)) }
{
    if !only(tree, &["egress", "ingress"]) {
        return Err(ScriptError::NotScript);
    }
    let egress = field(alloc, tree, "egress")?;
    let ingress = field(alloc, tree, "ingress")?;
    Ok(Address::Asymmetric { ingress, egress })
}

impl FromTree for Address {
    ghost form = { address_of };

    fn from_tree(alloc: Global, tree: &Value) -> Result<Address, ScriptError> {
        match read_symmetric(alloc, tree) {
            Ok(address) => Ok(address),
            Err(ScriptError::NotScript) => read_asymmetric(alloc, tree),
            Err(ScriptError::Memory) => Err(ScriptError::Memory),
        }
    }
}

fn read_both(alloc: Global, key: &Value, address: &Value) -> Result<(Key, Address), ScriptError>
    ensures { Gives result (pair_with (view key.now) (view address.now)) }
{
    let key = Key::from_tree(alloc, key)?;
    let address = Address::from_tree(alloc, address)?;
    Ok((key, address))
}

fn read_pair(alloc: Global, items: &[Value]) -> Result<(Key, Address), ScriptError>
    ensures { Gives result (pair_in (items_view items.now)) }
{
    if items.len() != 2 {
        return Err(ScriptError::NotScript);
    }
    read_both(alloc, &items[0], &items[1])
}

impl FromTree for (Key, Address) {
    ghost form = { pair_of };

    fn from_tree(alloc: Global, tree: &Value) -> Result<(Key, Address), ScriptError> {
        let items = tree.as_array().ok_or(ScriptError::NotScript)?;
        read_pair(alloc, items)
    }
}

impl FromTree for Map<Key, Address> {
    ghost form = { peers_of };

    fn from_tree(alloc: Global, tree: &Value) -> Result<Map<Key, Address>, ScriptError> {
        let pairs = List::<(Key, Address)>::from_tree(alloc, tree)?;
        match Map::try_from(pairs.into_inner()) {
            Ok(peers) => Ok(peers),
            Err(SetError::Duplicate) => Err(ScriptError::NotScript),
            Err(SetError::Memory) => Err(ScriptError::Memory),
        }
    }
}

/// The peers at `name`, of which there are none where there is no such name.
pub(crate) fn peers_or_none(
    alloc: Global,
    tree: &Value,
    name: &str,
) -> Result<Map<Key, Address>, ScriptError>
    ensures { Gives result (form_or [] peers_of (get name.now (view tree.now))) }
{
    match tree.get(name) {
        Some(value) => Map::from_tree(alloc, value),
        None => Ok(Map::empty(alloc)),
    }
}
