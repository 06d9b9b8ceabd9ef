//! The ranges of addresses that aren't global.
ghost use Rattle.std.specs.Prelude.{◌≡◌};
ghost use Rattle.std.specs.List.{list_any};
ghost use Rattle.p2p_address.specs.Ranges.{in_v4, in_v6};

/// The IPv4 addresses whose first `bits` bits are those of `prefix`.
#[derive(Debug)]
pub struct RangeV4 {
    pub prefix: [u8; 4],
    pub bits: u32,
}

/// The IPv6 addresses whose first `bits` bits are those of `prefix`.
#[derive(Debug)]
pub struct RangeV6 {
    pub prefix: [u8; 16],
    pub bits: u32,
}

/// The IPv4 addresses that aren't global.
pub static NOT_GLOBAL_V4: [RangeV4; 13] = [
    RangeV4 {
        prefix: [0, 0, 0, 0],
        bits: 8,
    },
    RangeV4 {
        prefix: [10, 0, 0, 0],
        bits: 8,
    },
    RangeV4 {
        prefix: [100, 64, 0, 0],
        bits: 10,
    },
    RangeV4 {
        prefix: [127, 0, 0, 0],
        bits: 8,
    },
    RangeV4 {
        prefix: [169, 254, 0, 0],
        bits: 16,
    },
    RangeV4 {
        prefix: [172, 16, 0, 0],
        bits: 12,
    },
    RangeV4 {
        prefix: [192, 0, 0, 0],
        bits: 24,
    },
    RangeV4 {
        prefix: [192, 0, 2, 0],
        bits: 24,
    },
    RangeV4 {
        prefix: [192, 168, 0, 0],
        bits: 16,
    },
    RangeV4 {
        prefix: [198, 18, 0, 0],
        bits: 15,
    },
    RangeV4 {
        prefix: [198, 51, 100, 0],
        bits: 24,
    },
    RangeV4 {
        prefix: [203, 0, 113, 0],
        bits: 24,
    },
    RangeV4 {
        prefix: [240, 0, 0, 0],
        bits: 4,
    },
];

/// The IPv6 addresses that aren't global.
pub static NOT_GLOBAL_V6: [RangeV6; 6] = [
    RangeV6 {
        prefix: [0, 0, 0, 0, 0, 0, 0, 0, 0, 0, 0, 0, 0, 0, 0, 0],
        bits: 128,
    },
    RangeV6 {
        prefix: [0, 0, 0, 0, 0, 0, 0, 0, 0, 0, 0, 0, 0, 0, 0, 1],
        bits: 128,
    },
    RangeV6 {
        prefix: [0, 0, 0, 0, 0, 0, 0, 0, 0, 0, 0xff, 0xff, 0, 0, 0, 0],
        bits: 96,
    },
    RangeV6 {
        prefix: [0x20, 0x01, 0x0d, 0xb8, 0, 0, 0, 0, 0, 0, 0, 0, 0, 0, 0, 0],
        bits: 32,
    },
    RangeV6 {
        prefix: [0xfc, 0, 0, 0, 0, 0, 0, 0, 0, 0, 0, 0, 0, 0, 0, 0],
        bits: 7,
    },
    RangeV6 {
        prefix: [0xfe, 0x80, 0, 0, 0, 0, 0, 0, 0, 0, 0, 0, 0, 0, 0, 0],
        bits: 10,
    },
];

impl RangeV4 {
    /// Whether `address` is in the range.
    pub fn contains(&self, address: [u8; 4]) -> bool
        ensures { result ≡ in_v4 address self.now }
    {
        let other_bits = 32u32.saturating_sub(self.bits);
        let prefix = u32::from_be_bytes(self.prefix).checked_shr(other_bits);
        let start = u32::from_be_bytes(address).checked_shr(other_bits);
        start == prefix
    }
}

impl RangeV6 {
    /// Whether `address` is in the range.
    pub fn contains(&self, address: [u8; 16]) -> bool
        ensures { result ≡ in_v6 address self.now }
    {
        let other_bits = 128u32.saturating_sub(self.bits);
        let prefix = u128::from_be_bytes(self.prefix).checked_shr(other_bits);
        let start = u128::from_be_bytes(address).checked_shr(other_bits);
        start == prefix
    }
}

/// Whether `address` is in one of the ranges.
pub(super) fn is_in_v4(ranges: &[RangeV4], address: [u8; 4]) -> bool
    ensures { result ≡ list_any (in_v4 address) ranges.now }
{
    ranges.iter().any(|range| range.contains(address))
}

/// Whether `address` is in one of the ranges.
pub(super) fn is_in_v6(ranges: &[RangeV6], address: [u8; 16]) -> bool
    ensures { result ≡ list_any (in_v6 address) ranges.now }
{
    ranges.iter().any(|range| range.contains(address))
}
