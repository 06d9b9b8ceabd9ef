//! The text of addresses, and of where a peer is dialed.
ghost use Rattle.std.specs.Prelude.{◌≡◌, OnOk};
ghost use Rattle.std.specs.String.{string_bytes};
ghost use Rattle.p2p_sim_report.specs.AddressText.{text_onto, dns_onto, ingress_onto};

use crate::text::{ToText, put, put_list, put_number};
use p2p_address::{Ingress, IpAddr, SocketAddr};
use serde_json::Value;
use std::alloc::AllocError;

// A text in quotes.
fn put_text(out: &mut String, text: &str) -> Result<(), AllocError>
    ensures { OnOk result (string_bytes out.new ≡ text_onto (string_bytes out.old) text.now) }
{
    let alloc = *out.allocator();
    let quoted = Value::String(String::from_str(alloc, text)?).to_string(alloc)?;
    put(out, quoted.as_str())
}

impl ToText for u8 {
    ghost use Rattle.p2p_sim_report.specs.Text.{number_onto};

    ghost onto = { number_onto };

    fn write_onto(&self, out: &mut String) -> Result<(), AllocError> {
        put_number(out, *self as u64)
    }
}

impl ToText for IpAddr {
    ghost use Rattle.p2p_sim_report.specs.AddressText.{ip_onto};

    ghost onto = { ip_onto };

    fn write_onto(&self, out: &mut String) -> Result<(), AllocError> {
        match self {
            IpAddr::V4(bytes) => put_list(out, bytes.as_slice()),
            IpAddr::V6(bytes) => put_list(out, bytes.as_slice()),
        }
    }
}

impl ToText for SocketAddr {
    ghost use Rattle.p2p_sim_report.specs.AddressText.{socket_onto};

    ghost onto = { socket_onto };

    fn write_onto(&self, out: &mut String) -> Result<(), AllocError> {
        put(out, "{\"ip\":")?;
        self.ip.write_onto(out)?;
        put(out, ",\"port\":")?;
        put_number(out, self.port as u64)?;
        put(out, "}")
    }
}

fn put_dns(out: &mut String, host: &str, port: u16) -> Result<(), AllocError>
    ensures { OnOk result (string_bytes out.new ≡ dns_onto (string_bytes out.old) host.now port) }
{
    put(out, "{\"host\":")?;
    put_text(out, host)?;
    put(out, ",\"port\":")?;
    put_number(out, port as u64)?;
    put(out, "}")
}

pub fn put_ingress(out: &mut String, ingress: &Ingress) -> Result<(), AllocError>
    ensures { OnOk result (string_bytes out.new ≡ ingress_onto (string_bytes out.old) ingress.now) }
{
    match ingress {
        Ingress::Socket(socket) => socket.write_onto(out),
        Ingress::Dns { host, port } => put_dns(out, host.as_str(), *port),
    }
}
