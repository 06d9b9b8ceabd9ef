//! Addresses: each range that isn't global by its first and last one and the neighbours of both, subnets, and what may be dialed.
use p2p_address::{Address, Ingress, IpAddr, SocketAddr, is_global, resolve_filtered, subnet};
use p2p_base::Text;
use std::alloc::{AllocError, Global};

// The first and the last address of each range that isn't global, as numbers.
const WITHIN_V4: [u32; 26] = [
    0x0000_0000,
    0x00FF_FFFF,
    0x0A00_0000,
    0x0AFF_FFFF,
    0x6440_0000,
    0x647F_FFFF,
    0x7F00_0000,
    0x7FFF_FFFF,
    0xA9FE_0000,
    0xA9FE_FFFF,
    0xAC10_0000,
    0xAC1F_FFFF,
    0xC000_0000,
    0xC000_00FF,
    0xC000_0200,
    0xC000_02FF,
    0xC0A8_0000,
    0xC0A8_FFFF,
    0xC612_0000,
    0xC613_FFFF,
    0xC633_6400,
    0xC633_64FF,
    0xCB00_7100,
    0xCB00_71FF,
    0xF000_0000,
    0xFFFF_FFFF,
];

// The addresses right before and right after each, where there are such.
const BESIDE_V4: [u32; 24] = [
    0x0100_0000,
    0x09FF_FFFF,
    0x0B00_0000,
    0x643F_FFFF,
    0x6480_0000,
    0x7EFF_FFFF,
    0x8000_0000,
    0xA9FD_FFFF,
    0xA9FF_0000,
    0xAC0F_FFFF,
    0xAC20_0000,
    0xBFFF_FFFF,
    0xC000_0100,
    0xC000_01FF,
    0xC000_0300,
    0xC0A7_FFFF,
    0xC0A9_0000,
    0xC611_FFFF,
    0xC614_0000,
    0xC633_63FF,
    0xC633_6500,
    0xCB00_70FF,
    0xCB00_7200,
    0xEFFF_FFFF,
];

const WITHIN_V6: [u128; 10] = [
    0,
    1,
    0x0000_FFFF_0000_0000,
    0x0000_FFFF_FFFF_FFFF,
    0x2001_0DB8_0000_0000_0000_0000_0000_0000,
    0x2001_0DB8_FFFF_FFFF_FFFF_FFFF_FFFF_FFFF,
    0xFC00_0000_0000_0000_0000_0000_0000_0000,
    0xFDFF_FFFF_FFFF_FFFF_FFFF_FFFF_FFFF_FFFF,
    0xFE80_0000_0000_0000_0000_0000_0000_0000,
    0xFEBF_FFFF_FFFF_FFFF_FFFF_FFFF_FFFF_FFFF,
];

const BESIDE_V6: [u128; 9] = [
    2,
    0x0000_FFFE_FFFF_FFFF,
    0x0001_0000_0000_0000,
    0x2001_0DB7_FFFF_FFFF_FFFF_FFFF_FFFF_FFFF,
    0x2001_0DB9_0000_0000_0000_0000_0000_0000,
    0xFBFF_FFFF_FFFF_FFFF_FFFF_FFFF_FFFF_FFFF,
    0xFE00_0000_0000_0000_0000_0000_0000_0000,
    0xFE7F_FFFF_FFFF_FFFF_FFFF_FFFF_FFFF_FFFF,
    0xFEC0_0000_0000_0000_0000_0000_0000_0000,
];

// The first of these that is global, or isn't, against what is wanted.
fn other_v4(numbers: &[u32], wanted: bool) -> Option<u32> {
    for number in numbers {
        if is_global(&IpAddr::V4(number.to_be_bytes())) != wanted {
            return Some(*number);
        }
    }
    None
}

fn other_v6(numbers: &[u128], wanted: bool) -> Option<u128> {
    for number in numbers {
        if is_global(&IpAddr::V6(number.to_be_bytes())) != wanted {
            return Some(*number);
        }
    }
    None
}

#[test]
fn ranges_end_at_the_table_and_subnets_keep_the_first_bits(rt: HostRuntime) {
    assert!(rt; other_v4(&WITHIN_V4, false).is_none());
    assert!(rt; other_v4(&BESIDE_V4, true).is_none());
    assert!(rt; other_v6(&WITHIN_V6, false).is_none());
    assert!(rt; other_v6(&BESIDE_V6, true).is_none());
    let long: u128 = 0x2001_0db9_1234_5678_9abc_def0_1234_5678;
    let short: u128 = 0x2001_0db9_1234_0000_0000_0000_0000_0000;
    let v4 = subnet(&IpAddr::V4([203, 7, 255, 9]));
    let v6 = subnet(&IpAddr::V6(long.to_be_bytes()));
    assert!(rt; v4 == IpAddr::V4([203, 7, 255, 0]));
    assert!(rt; v6 == IpAddr::V6(short.to_be_bytes()));
}

const HOME: SocketAddr = SocketAddr {
    ip: IpAddr::V4([10, 0, 0, 1]),
    port: 80,
};

const AWAY: SocketAddr = SocketAddr {
    ip: IpAddr::V4([11, 0, 0, 1]),
    port: 80,
};

// Whether these addresses are found, with this leave for private ones.
fn resolves(alloc: Global, private: bool, wanted: &[SocketAddr]) -> Result<bool, AllocError> {
    let found = resolve_filtered(alloc, &[HOME, AWAY, HOME], private)?;
    Ok(found.as_slice() == wanted)
}

// Whether an ingress may be dialed with leave for names alone, and for private addresses alone.
fn dialed(ingress: &Ingress) -> (bool, bool) {
    (ingress.is_valid(false, true), ingress.is_valid(true, false))
}

#[test]
fn private_ones_are_resolved_and_dialed_by_leave(rt: HostRuntime) {
    assert!(rt; resolves(rt.alloc(), false, &[AWAY]) == Ok(true));
    assert!(rt; resolves(rt.alloc(), true, &[HOME, AWAY, HOME]) == Ok(true));
    assert!(rt; dialed(&Ingress::from(HOME)) == (false, true));
    assert!(rt; dialed(&Ingress::from(AWAY)) == (true, true));
}

// Whether an address that is dialed by name may be, equals its copies and not another one, and tells where it is dialed and from where
// it dials.
fn asymmetric(alloc: Global) -> Result<[bool; 6], AllocError> {
    let host = Text::from_str(alloc, "peer.example")?;
    let ingress = Ingress::Dns { host, port: 1 };
    let valid = dialed(&ingress) == (true, false);
    let named = ingress.clone()? == ingress;
    let address = Address::Asymmetric {
        ingress: ingress.try_clone(alloc)?,
        egress: AWAY,
    };
    let cloned = address.clone()? == address;
    let apart = address.try_clone(alloc)? != Address::from(AWAY);
    let told = address.ingress(alloc)? == ingress;
    Ok([
        valid,
        named,
        cloned,
        apart,
        told,
        address.egress_ip() == AWAY.ip,
    ])
}

// Whether an address of one end is dialed there and dials from there.
fn symmetric(alloc: Global) -> Result<bool, AllocError> {
    let address = Address::from(HOME);
    let is_dialed = address.ingress(alloc)? == Ingress::from(HOME);
    Ok(is_dialed && address.egress_ip() == HOME.ip)
}

#[test]
fn an_address_tells_its_two_ends(rt: HostRuntime) {
    assert!(rt; asymmetric(rt.alloc()) == Ok([true; 6]));
    assert!(rt; symmetric(rt.alloc()) == Ok(true));
}
