//! Records, by their calls that take memory, and the own one. Of the others their clauses say each answer.
use crate::peers::{address, ip, socket};
use p2p_address::Ingress;
use p2p_tracker_directory::{Address, Record};

// Whether a record's peer is in a set, whether it is to be dialed, and whether nothing needs the record.
fn standing(record: &Record) -> [bool; 3] {
    [
        record.eligible(),
        record.is_outbound_target(),
        record.deletable(),
    ]
}

#[test]
fn a_record_tells_where_its_peer_is(rt: HostRuntime) {
    let record = Record::known(address(7));
    let place = Some(Ingress::Socket(socket(7)));
    assert!(rt; record.try_clone(rt.alloc()).expect(&rt, "memory") == record);
    assert!(rt; record.ingress(rt.alloc()).expect(&rt, "memory") == place);
    assert_eq!(rt; record.egress_ip(), Some(ip(7)));
    assert!(rt; record.is_blockable());
    assert!(rt; record.has_valid_ingress(true, false));
    assert!(rt; !record.has_valid_ingress(false, false));
}

#[test]
fn the_record_of_the_node_itself_has_no_place(rt: HostRuntime) {
    let record = Record::myself();
    let place = Address::Known(address(7));
    assert!(rt; record.ingress(rt.alloc()).expect(&rt, "memory").is_none());
    assert_eq!(rt; record.egress_ip(), None);
    assert_eq!(rt; standing(&record), [false, true, false]);
    assert!(rt; !record.is_blockable());
    assert!(rt; place.try_clone(rt.alloc()).expect(&rt, "memory") == place);
}
