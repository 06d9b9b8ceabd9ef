//! `Meeting`, how an act brings two nodes together.
ghost use Rattle.std.specs.Prelude.{◌≡◌};
ghost use Rattle.p2p_net_node.specs.Meetings.{meeting_of as meeting_of_act};

use p2p_address::SocketAddr;
use p2p_log::Act;

/// The two nodes that an act brings together: the one that dials, and the one that listens.
#[derive(Clone, Copy)]
pub struct Ends {
    pub dials: u64,
    pub listens: u64,
}

/// How an act brings two nodes together.
#[derive(Clone, Copy)]
pub enum Meeting {
    /// By a link of an attempt, which comes from this address.
    Link {
        attempt: u64,
        from: SocketAddr,
        ends: Ends,
    },
    /// By the end of the exchange of keys over the link of this event.
    Finish {
        link: u64,
        ok: bool,
    },
    /// Not any more: the link of this event is cut.
    Cut {
        link: u64,
    },
}

/// How an act brings two nodes together, where it does.
pub fn meeting_of(act: &Act) -> Option<Meeting>
    ensures { result ≡ meeting_of_act act.now }
{
    match act {
        Act::Connect {
            attempt,
            from,
            node,
            to,
        } => Some(Meeting::Link {
            attempt: *attempt,
            from: *from,
            ends: Ends {
                dials: *node,
                listens: *to,
            },
        }),
        Act::Finish { link, ok } => Some(Meeting::Finish {
            link: *link,
            ok: *ok,
        }),
        Act::Cut { link } => Some(Meeting::Cut { link: *link }),
        _ => None,
    }
}
