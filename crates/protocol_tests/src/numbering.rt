//! Tests of the server's numbers and receipts.

use crate::by_version::ByVersion;
use security_server::{ProposeFault, Receipt, ReceiptFault, Server};
use std::test::Fail;

fn receipt(manager: u8, number: u32) -> Receipt {
    Receipt { manager, number }
}

/// One change from end to end, with three managers: two receipts are not enough, and each refusal has its reason.
#[test]
fn a_number_is_complete_with_one_receipt_of_each(rt: HostRuntime) -> Result<(), Fail> {
    let decider = ByVersion;
    let mut server = Server::new(&decider, 3, 9);
    assert_eq!(rt; server.propose(2), Err(ProposeFault::NoVersion));
    assert_eq!(rt; server.propose(1), Ok(1));
    assert_eq!(rt; server.propose(0), Err(ProposeFault::Pending(1)));
    assert_eq!(rt; server.collect(receipt(2, 1)), Ok(()));
    assert_eq!(rt; server.collect(receipt(0, 1)), Ok(()));
    assert_eq!(rt; server.complete(1), false);
    assert_eq!(rt; server.collect(receipt(1, 1)), Ok(()));
    assert_eq!(rt; server.complete(2), false);
    assert_eq!(rt; server.complete(1), true);
    assert_eq!(rt; server.pending(), None);
    assert_eq!(rt; server.received(0), false);
    Ok(())
}

#[test]
fn a_receipt_is_refused_with_its_reason(rt: HostRuntime) -> Result<(), Fail> {
    let decider = ByVersion;
    let mut server = Server::new(&decider, 3, 9);
    let early = ReceiptFault::Old {
        number: 1,
        pending: None,
    };
    assert_eq!(rt; server.collect(receipt(0, 1)), Err(early));
    assert_eq!(rt; server.propose(1), Ok(1));
    let foreign = ReceiptFault::Foreign {
        manager: 3,
        registered: 3,
    };
    assert_eq!(rt; server.collect(receipt(3, 1)), Err(foreign));
    assert_eq!(rt; server.collect(receipt(0, 1)), Ok(()));
    let twice = ReceiptFault::Double {
        manager: 0,
        number: 1,
    };
    assert_eq!(rt; server.collect(receipt(0, 1)), Err(twice));
    Ok(())
}

#[test]
fn numbers_are_spent(rt: HostRuntime) -> Result<(), Fail> {
    let decider = ByVersion;
    let mut server = Server::new(&decider, 1, 1);
    assert_eq!(rt; server.propose(1), Ok(1));
    assert_eq!(rt; server.collect(receipt(0, 1)), Ok(()));
    assert_eq!(rt; server.complete(1), true);
    assert_eq!(rt; server.propose(0), Err(ProposeFault::Spent));
    Ok(())
}
