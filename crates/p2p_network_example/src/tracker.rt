//! The tracker: what it is asked, a message a step, and what it answers.
use anyhow::{Result, bail};
use p2p_base::Key;
use p2p_tracker::{Actor, Mailbox, Put, Stepped};

/// That no message waits for the tracker, so that its next step takes what it is asked next.
pub fn none_waits(way: &Mailbox<Key>) -> Result<()> {
    if way.oldest().is_some() {
        bail!("the tracker was asked");
    }
    Ok(())
}

/// One step of the tracker at the moment 0, and what it put. The last argument would draw how long a peer that was granted isn't listed again.
///
/// `may_step` is asked first: a step doesn't take that the connection of a peer has begun which isn't reserved, nor a peer back that isn't held.
pub fn serve(
    rt: &impl Print,
    key: Key,
    tracker: &mut Actor<Key>,
    way: &mut Mailbox<Key>,
) -> Result<()> {
    // `step` asks for it.
    if !tracker.may_step(way) {
        bail!("the tracker can't take what waits for it");
    }
    match tracker.step(way, 0, 0)? {
        Stepped::Idle => Ok(()),
        Stepped::EndedBlocks { put } => tell(rt, key, put.as_slice()),
        Stepped::Message { put } => tell(rt, key, put.as_slice()),
    }
}

/// Prints what the tracker put.
fn tell(rt: &impl Print, key: Key, puts: &[Put<Key>]) -> Result<()> {
    for put in puts {
        show(rt, key, put)?;
    }
    Ok(())
}

/// Prints one thing that the tracker put. Nobody subscribed to peer sets or to blocked keys here, or asked for a peer set.
fn show(rt: &impl Print, key: Key, put: &Put<Key>) -> Result<()> {
    match put {
        Put::Kill { peer, conn } => {
            println!(rt; "  node {key}: the tracker kills connection {conn} with {peer}")?;
        }
        Put::Listenable { addresses, .. } => {
            println!(rt;
                "  node {key}: the tracker lets in {:?}",
                addresses.as_slice()
            )?;
        }
        Put::Dialable(whom) => {
            println!(rt;
                "  node {key}: the tracker lists {:?}",
                whom.peers.as_slice()
            )?;
        }
        Put::Dial(grant) => println!(rt; "  node {key}: the tracker grants {grant:?}")?,
        Put::Acceptable { acceptable, .. } => {
            println!(rt; "  node {key}: the tracker may accept: {acceptable}")?;
        }
        Put::Listen { reserved, .. } => {
            println!(rt; "  node {key}: the tracker grants {reserved:?}")?;
        }
        Put::Update { .. } | Put::Blocked { .. } | Put::PeerSet { .. } => {}
    }
    Ok(())
}
