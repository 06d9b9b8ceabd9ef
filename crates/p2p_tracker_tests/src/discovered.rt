//! A connection of a discovered network, until its peer has greeted, and how its ends print. What its steps do else is worked out beside
//! its definitions.
ghost use Rattle.std.specs.Prelude.{◌≤◌};

use crate::infos::{AnySignature, of_peer_one, signed};
use p2p_base::{Key, List};
use p2p_discovery::{Payload, types};
use p2p_discovery_directory::tracker::{self, Answer};
use p2p_discovery_directory::{Metadata, Reservation};
use p2p_discovery_peer::peer::{Actor, Config, Error, Stepped};
use p2p_flow_connection::{Error as Ended, Inbounds};
use p2p_router::{self as router, Messenger};
use p2p_runtime::MemoryLink;
use p2p_wire::CodecError;
use std::alloc::{AllocError, Global};
use std::test::Fail;

// No channels, batches of two frames, and a bit vector every ten nanoseconds.
fn config(alloc: Global) -> Config
    ensures mailbox { 1 ≤ result.mailbox_size }
    ensures batch { 1 ≤ result.send_batch_size }
{
    Config {
        channels: List::empty(alloc),
        mailbox_size: 4,
        send_batch_size: 2,
        gossip_bit_vec_frequency: 10,
        max_peers_per_set: 8,
        peer_gossip_max_count: 1,
        max_message_size: 1024,
    }
}

// The connection 24 of key 1 with key 2, which began it, and what its steps are lent.
#[derive(Drop)]
struct Stand {
    actor: Actor<Key>,
    link: MemoryLink,
    router: router::Actor<Key>,
    messenger: Messenger<Key>,
    way: tracker::Mailbox<Key>,
}

fn new_stand(alloc: Global) -> Result<Stand, AllocError> {
    let reservation = Reservation::new(Metadata::Listener(Key(2)));
    let Ok(actor) = Actor::new(alloc, config(alloc), 24, reservation) else {
        return Err(AllocError);
    };
    let (router, mailbox) = router::Actor::new(alloc, router::Config { mailbox_size: 4 })?;
    let mut messenger = Messenger::unbound(alloc);
    if messenger.bind(mailbox).is_err() {
        return Err(AllocError);
    }
    Ok(Stand {
        actor,
        link: MemoryLink::new(alloc),
        router,
        messenger,
        way: tracker::Mailbox::new(alloc, 4)?,
    })
}

impl Stand {
    // A step of the sending half.
    fn send(&mut self, alloc: Global) -> Result<Stepped<Key>, AllocError> {
        self.actor.send_step(
            alloc,
            &mut self.link,
            &mut self.router,
            &mut self.messenger,
            &mut self.way,
            0,
        )
    }

    // Whether it begins: its tracker is asked for a greeting.
    fn begins(&mut self, alloc: Global) -> Result<bool, AllocError> {
        let started = matches!(self.send(alloc)?, Stepped::Started);
        let asked = matches!(
            self.way.take(),
            Some(tracker::Message::Connect { conn: 24, .. })
        );
        Ok(started && asked)
    }

    // Whether, once its tracker has answered, it tells its router, takes that one's answer and greets its peer.
    fn runs(&mut self, alloc: Global) -> Result<bool, AllocError> {
        let announced = matches!(self.send(alloc)?, Stepped::Announced);
        let _ = self.router.step(&mut self.messenger)?;
        let running = matches!(self.send(alloc)?, Stepped::Running { .. });
        let own = Payload::Greeting(signed(alloc, 1, 0)?).encode(alloc)?;
        Ok(announced && running && self.link.depart() == Some(own))
    }

    // A step of the receiving half, once the greeting of key 2 has come.
    fn is_greeted(&mut self, alloc: Global) -> Result<Stepped<Key>, AllocError> {
        let frame = Payload::Greeting(signed(alloc, 2, 0)?).encode(alloc)?;
        if self.link.arrive(frame).is_err() {
            return Err(AllocError);
        }
        let mut inbounds = Inbounds::new(alloc);
        let infos = of_peer_one(alloc)?;
        self.actor.recv_step(
            alloc,
            &mut self.link,
            &mut inbounds,
            &mut self.router,
            &mut self.messenger,
            &mut self.way,
            &infos,
            &AnySignature,
            0,
        )
    }
}

#[test]
fn a_discovered_connection_greets_and_is_greeted(rt: HostRuntime) {
    let alloc = rt.alloc();
    let mut stand = new_stand(alloc).expect(&rt, "memory");
    assert!(rt; stand.begins(alloc) == Ok(true));
    let greeting = signed(alloc, 1, 0).expect(&rt, "memory");
    assert!(rt; stand.way.answer(24, Answer::Greeting(greeting)).is_ok());
    assert!(rt; stand.runs(alloc) == Ok(true));
    assert!(rt; matches!(stand.is_greeted(alloc), Ok(Stepped::Greeted)));
    assert!(rt; matches!(stand.way.take(), Some(tracker::Message::Peers { .. })));
}

// The place of the first end that prints as another text. `None` where each prints as it should.
fn first_other_end(
    alloc: Global,
    ends: &[(Error<Key>, &str)],
) -> Result<Option<usize>, AllocError> {
    for (i, end) in ends.iter().enumerate() {
        if end.0.to_string(alloc)?.as_str() != end.1 {
            return Ok(Some(i));
        }
    }
    Ok(None)
}

#[test]
fn each_end_of_a_discovered_connection_has_its_text(rt: HostRuntime) {
    let ends: [(Error<Key>, &str); 8] = [
        (Error::Connection(Ended::Killed(Key(7))), "peer killed: 7"),
        (Error::SendFailed, "send failed"),
        (Error::ReceiveFailed, "receive failed"),
        (
            Error::DecodeFailed(CodecError::EndOfBuffer),
            "decode failed",
        ),
        (Error::Types(types::Error::ReceivedSelf), "types"),
        (Error::MissingGreeting, "missing greeting"),
        (Error::DuplicateGreeting, "duplicate greeting"),
        (Error::GreetingMismatch, "greeting public key mismatch"),
    ];
    assert!(rt; first_other_end(rt.alloc(), &ends) == Ok(None));
}
