//! A connection, from the spawner to its end, over a link in memory.
ghost use Rattle.std.specs.Prelude.{◌≤◌, IfOk};

use crate::node::{OK, SECOND, one_a_second, routed};
use bytes::Bytes;
use p2p_address::{Address, IpAddr, SocketAddr};
use p2p_base::{Key, List, Map, Sent};
use p2p_flow::{AddressableTrackedPeers, Carrier, Recipients};
use p2p_flow_connection::{self as connection, Delivered, Inbounds};
use p2p_lookup::peer::{Actor, Config, Error, Stepped};
use p2p_lookup::spawner;
use p2p_router::{self as router, Messenger};
use p2p_runtime::MemoryLink;
use p2p_tracker_directory::{self as directory, Directory, Reservation};
use p2p_tracker_mailbox::{self as tracker, Metadata};
use std::alloc::{AllocError, Global};

// Key 2 with its address.
fn peers(alloc: Global) -> Result<AddressableTrackedPeers<Key>, AllocError> {
    let ip = IpAddr::V4([10, 0, 0, 2]);
    let mut pairs = Vec::new(alloc);
    pairs.push((Key(2), Address::Symmetric(SocketAddr { ip, port: 80 })))?;
    match Map::try_from(pairs) {
        Ok(primary) => Ok(AddressableTrackedPeers::primary(alloc, primary)),
        Err(_) => Err(AllocError),
    }
}

// Tracks these peers in a directory, and reserves key 2 for a dial.
fn reserve(
    directory: &mut Directory<Key>,
    peers: AddressableTrackedPeers<Key>,
) -> Result<Reservation<Key>, AllocError> {
    let _ = directory.track(0, peers)?;
    match directory.dial(&Key(2), 0, 0)? {
        Some((reservation, _ingress)) => Ok(reservation),
        None => Err(AllocError),
    }
}

// The same in a new directory.
fn reservation(alloc: Global) -> Result<Reservation<Key>, AllocError> {
    let cfg = directory::Config {
        allow_private_ips: true,
        allow_dns: false,
        bypass_ip_check: false,
        max_sets: 1,
        peer_connection_cooldown: SECOND,
        block_duration: 5,
    };
    let peers = peers(alloc)?;
    let mut directory = Directory::init(alloc, Key(0), cfg)?;
    reserve(&mut directory, peers)
}

// Channel 7 with one message a second, batches of two frames, and a ping every ten seconds.
fn config(alloc: Global) -> Result<Config, AllocError>
    ensures mailbox { IfOk result (λ c. 1 ≤ c.mailbox_size) }
    ensures batch { IfOk result (λ c. 1 ≤ c.send_batch_size) }
{
    let quota = one_a_second()?;
    Ok(Config {
        channels: List::from_slice(alloc, &[(7, quota)])?,
        mailbox_size: 4,
        send_batch_size: 2,
        ping_frequency: 10 * SECOND,
        max_message_size: 1024,
    })
}

// The connection 24, which a spawner makes over the link 9.
fn spawn(
    alloc: Global,
    spawner: &mut spawner::Actor<Key>,
    mailbox: &mut spawner::Mailbox<Key>,
) -> Result<Actor<Key>, AllocError> {
    if !matches!(mailbox.spawn(9, reservation(alloc)?), Ok(Sent::Ok)) {
        return Err(AllocError);
    }
    let Ok(
        spawner::Stepped::Spawned {
            connection: 9,
            actor,
        },
    ) = spawner.step(alloc, mailbox, 24)
    else {
        return Err(AllocError);
    };
    Ok(actor)
}

// The same of a new spawner, whose mailbox is closed then.
fn spawned(alloc: Global) -> Result<Actor<Key>, AllocError> {
    let config = config(alloc)?;
    let mut mailbox = spawner::Mailbox::new(alloc, 1)?;
    let mut spawner = spawner::Actor::new(config);
    let actor = spawn(alloc, &mut spawner, &mut mailbox)?;
    mailbox.close();
    Ok(actor)
}

// A connection, and what its steps are lent.
#[derive(Drop)]
struct Stand {
    actor: Actor<Key>,
    link: MemoryLink,
    inbounds: Inbounds<Key>,
    router: router::Actor<Key>,
    messenger: Messenger<Key>,
    way: tracker::Mailbox<Key>,
}

// The connection with all that its steps are lent.
fn new_stand(alloc: Global) -> Result<Stand, AllocError> {
    let mut inbounds = Inbounds::new(alloc);
    inbounds.register(alloc, 7, 2)?;
    let (router, messenger) = routed(alloc)?;
    let way = tracker::Mailbox::new(alloc, 4)?;
    Ok(Stand {
        actor: spawned(alloc)?,
        link: MemoryLink::new(alloc),
        inbounds,
        router,
        messenger,
        way,
    })
}

impl Stand {
    // A step of the sending half.
    fn send(&mut self, alloc: Global, now: u64) -> Result<Stepped<Key>, AllocError> {
        self.actor.send_step(
            alloc,
            &mut self.link,
            &mut self.router,
            &mut self.messenger,
            &mut self.way,
            now,
        )
    }

    // A step of the receiving half.
    fn recv(&mut self, alloc: Global, now: u64) -> Result<Stepped<Key>, AllocError> {
        self.actor.recv_step(
            alloc,
            &mut self.link,
            &mut self.inbounds,
            &mut self.router,
            &mut self.messenger,
            &mut self.way,
            now,
        )
    }

    // Whether it begins, tells its tracker so, and runs once its router has answered.
    fn begin(&mut self, alloc: Global) -> Result<[bool; 3], AllocError> {
        let begun = matches!(self.send(alloc, 0)?, Stepped::Started);
        let told = matches!(
            self.way.take(),
            Some(tracker::Message::Connect {
                public_key: Key(2),
                conn: 24
            })
        );
        let _ = self.router.step(&mut self.messenger)?;
        let runs = matches!(self.send(alloc, 0)?, Stepped::Running);
        Ok([begun, told, runs])
    }

    // Whether a message for its peer goes through the router.
    fn content(&mut self, alloc: Global) -> Result<bool, AllocError> {
        let to = Recipients::One(Key(2));
        let told = self
            .messenger
            .content(alloc, to, 7, Bytes::from_static(b"m"), false)?;
        let _ = self.router.step(&mut self.messenger)?;
        Ok(told == OK)
    }

    // Whether it receives a message, and writes one behind the ping that is due.
    fn work(&mut self, alloc: Global) -> Result<[bool; 4], AllocError> {
        let came = self
            .link
            .arrive(Bytes::from_static(b"\x00\x07\x01m"))
            .is_ok();
        let received = matches!(
            self.recv(alloc, 0)?,
            Stepped::Received {
                was_held: false,
                delivered: Delivered::Kept,
                ..
            }
        );
        let routed = self.content(alloc)?;
        let sent = matches!(
            self.send(alloc, 10 * SECOND)?,
            Stepped::Sent { ping: true, .. }
        );
        Ok([came, received, routed, sent])
    }

    // Whether a kill ends it, its peer is released once, and it has no more to do.
    fn end(&mut self, alloc: Global) -> Result<[bool; 3], AllocError> {
        let _ = self.actor.control().kill();
        let killed = matches!(
            self.send(alloc, 10 * SECOND)?,
            Stepped::Ended {
                error: Error::Connection(connection::Error::Killed(Key(2))),
                ..
            }
        );
        let released = matches!(
            self.way.take(),
            Some(tracker::Message::Release {
                metadata: Metadata::Dialer(Key(2))
            })
        );
        let idle = matches!(self.recv(alloc, 20 * SECOND)?, Stepped::Idle);
        Ok([killed, released, idle])
    }
}

// The frames that two reads of the other end give, by their length.
fn departed(link: &mut MemoryLink) -> [Option<usize>; 2] {
    let first = link.depart().map(|frame| frame.len());
    [first, link.depart().map(|frame| frame.len())]
}

type Lived = ([bool; 3], [bool; 4], [Option<usize>; 2], [bool; 3]);

// All that of a new connection.
fn lived(alloc: Global) -> Result<Lived, AllocError> {
    let mut stand = new_stand(alloc)?;
    let begun = stand.begin(alloc)?;
    let worked = stand.work(alloc)?;
    let written = departed(&mut stand.link);
    Ok((begun, worked, written, stand.end(alloc)?))
}

#[test]
fn a_connection_goes_through_its_steps(rt: HostRuntime) {
    let written = [Some(1), Some(4)];
    assert!(rt; lived(rt.alloc()) == Ok(([true; 3], [true; 4], written, [true; 3])));
}

// Whether a connection ends whose link fails as it writes, and one whose link fails as it reads.
fn failed(alloc: Global) -> Result<[bool; 3], AllocError> {
    let mut writes = new_stand(alloc)?;
    let _ = writes.begin(alloc)?;
    let routed = writes.content(alloc)?;
    writes.link.leave();
    let stepped = writes.send(alloc, 0)?;
    let unsent = matches!(
        stepped,
        Stepped::Ended {
            error: Error::SendFailed,
            written: 0,
            ..
        }
    );
    Ok([routed, unsent, reads_fail(alloc)?])
}

fn reads_fail(alloc: Global) -> Result<bool, AllocError> {
    let mut reads = new_stand(alloc)?;
    let _ = reads.begin(alloc)?;
    reads.link.cut();
    let stepped = reads.recv(alloc, 0)?;
    Ok(matches!(
        stepped,
        Stepped::Ended {
            error: Error::ReceiveFailed,
            ..
        }
    ))
}

#[test]
fn a_link_that_fails_ends_its_connection(rt: HostRuntime) {
    assert!(rt; failed(rt.alloc()) == Ok([true; 3]));
}
