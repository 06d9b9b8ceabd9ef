//! What is drawn for a generated script, beside draws that another program made.
use bytes::Bytes;
use p2p_log::{Act, Recipients};
use p2p_sim_script::generated_script;

fn sends(number: &'static [u8], node: u64, priority: bool) -> Act {
    Act::Send {
        bytes: Bytes::from_static(number),
        channel: 0,
        node,
        priority,
        to: Recipients::All,
    }
}

#[test]
fn the_first_events_that_are_drawn_are_those_of_the_seed(rt: HostRuntime) {
    let made = generated_script(rt.alloc(), 100, 7);
    let (configs, script) = made.expect(&rt, "memory");
    assert_eq!(rt; (configs.len(), script.len()), (4, 100));
    let due = [
        sends(&[0, 0, 0, 96], 1, true),
        Act::SendStep { conn: 33, node: 1 },
        Act::Router { node: 0 },
        sends(&[0, 0, 0, 99], 0, false),
    ];
    for (event, act) in script.as_slice().iter().skip(96).zip(due.iter()) {
        assert_eq!(rt; &event.act, act);
    }
}
