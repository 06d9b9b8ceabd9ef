//! A world, by each of its calls.
use crate::presets::LOCAL;
use p2p_log::{Act, Config, Event};
use p2p_net::{RunError, World, fits};

// The act is asked for at this moment.
fn event(at: u64, act: Act) -> Event {
    Event { at, seed: 0, act }
}

const NOBODY: Config = Config {
    max_peers_per_set: 0,
    ..LOCAL
};

#[test]
fn a_world_records_an_event_or_refuses_it_with_its_place(rt: HostRuntime) {
    assert!(rt; fits(&LOCAL) && !fits(&NOBODY));
    let mut world = World::new(rt.alloc(), &[LOCAL]).expect(&rt, "it fits");
    assert!(rt; world.report().log.is_empty());
    assert!(rt; world.node(0).is_some() && world.node(1).is_none());
    let start = event(5, Act::Start { node: 0 });
    assert_eq!(rt; world.apply(&start), Ok(()));
    let earlier = event(4, Act::Router { node: 0 });
    assert_eq!(rt; world.apply(&earlier), Err(RunError::Event(1)));
    assert_eq!(rt; world.report().log.len(), 1);
}
