//! `PayloadConfig`, how large a payload may be.

/// How large a payload may be that is decoded.
///
/// Ports `PayloadConfig` of commonware-p2p.
#[derive(Clone, Copy, Debug, PartialEq, Eq)]
pub struct PayloadConfig {
    /// How many bits a bit vector has at most.
    pub max_bit_vec: u64,
    /// How many peers are told of at most.
    pub max_peers: usize,
    /// How many bytes a message has at most.
    pub max_data_length: usize,
}
