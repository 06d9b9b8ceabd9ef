//! `Answer`, what a connection that begins is answered.
use p2p_discovery::Info;

/// What the tracker answers a connection that begins.
#[derive(Drop, PartialEq, Eq, Debug)]
pub enum Answer<P> {
    /// Its peer may connect: the connection sends this info of the own peer first.
    Greeting(Info<P>),
    /// Its peer may not connect, or the tracker has ended.
    NotEligible,
}
