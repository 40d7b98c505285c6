//! Limits, passes, the cache over three numbers, and forced acknowledgements.

use crate::board::{Counting, Refused, new_decider, opened};
use crate::steps::{Said, Step, at_one_seat, at_two_seats};
use access_vectors::Vector;
use avc_rows::Origin;
use epoch_gate::GateFault;
use manager_history::NotifyFault;
use std::alloc::Global;

/// Why there is no gate with these limits.
fn refusal(
    alloc: Global,
    decider: &Counting,
    seats: u8,
    quota: u32,
    most: u32,
) -> Option<GateFault> {
    match opened(alloc, decider, seats, quota, most) {
        Err(Refused::Gate(fault)) => Some(fault),
        _ => None,
    }
}

#[test]
fn limits_of_a_gate(rt: HostRuntime) {
    let decider = new_decider();
    for (seats, quota, most, fault) in [
        (0, 3, 9, GateFault::Seats(0)),
        (65, 3, 9, GateFault::Seats(65)),
        (1, 0, 9, GateFault::Quota(0)),
        (1, 536_870_913, 9, GateFault::Quota(536_870_913)),
        (1, 3, 0, GateFault::Most(0)),
        (1, 3, 1_048_576, GateFault::Most(1_048_576)),
    ] {
        let refused = refusal(rt.alloc(), &decider, seats, quota, most);
        assert_eq!(rt; refused, Some(fault));
    }
}

#[test]
fn limits_of_a_station(rt: HostRuntime) {
    let steps = [
        (Step::Enter, Said::Entered),
        (Step::Leave, Said::Left),
        (Step::Enter, Said::Entered),
        (Step::Leave, Said::Left),
        (Step::Enter, Said::Entered),
        (Step::Leave, Said::Left),
        (Step::Enter, Said::Spent),
        (Step::Notify(1), Said::Notified(Ok(1))),
        (Step::Acknowledge, Said::done(1)),
        (Step::Notify(0), Said::Notified(Ok(2))),
        (Step::Acknowledge, Said::done(2)),
        (Step::Notify(1), Said::Notified(Err(NotifyFault::Spent))),
    ];
    let _asked = at_one_seat(&rt, rt.alloc(), 3, 2, &steps);
}

#[test]
fn older_passes_are_counted(rt: HostRuntime) {
    let before = [
        (Step::Enter, Said::Entered),
        (Step::Notify(1), Said::Notified(Ok(1))),
    ];
    let beside = [
        (Step::Enter, Said::Entered),
        (Step::Pass, Said::Pass(Some((1, 1)))),
        (Step::Acknowledge, Said::busy(1)),
        (Step::Leave, Said::Left),
        (Step::Acknowledge, Said::busy(1)),
    ];
    let behind = [
        (Step::Leave, Said::Left),
        (Step::Acknowledge, Said::done(1)),
    ];
    at_two_seats(&rt, rt.alloc(), &before, &beside, &behind);
}

#[test]
fn cache_over_three_numbers(rt: HostRuntime) {
    let (all, fewer) = (Vector::of(7), Vector::of(6));
    let steps = [
        (Step::Enter, Said::Entered),
        (Step::Look, Said::Looked(Some((all, Origin::Asked)))),
        (Step::Look, Said::Looked(Some((all, Origin::Hit)))),
        (Step::Leave, Said::Left),
        (Step::Notify(1), Said::Notified(Ok(1))),
        (Step::Acknowledge, Said::done(1)),
        (Step::Enter, Said::Entered),
        (Step::Look, Said::Looked(Some((fewer, Origin::Asked)))),
        (Step::Leave, Said::Left),
        (Step::Notify(0), Said::Notified(Ok(2))),
        (Step::Acknowledge, Said::done(2)),
        (Step::Enter, Said::Entered),
        (Step::Look, Said::Looked(Some((all, Origin::Asked)))),
        (Step::Leave, Said::Left),
    ];
    assert_eq!(rt; at_one_seat(&rt, rt.alloc(), 9, 9, &steps), 3);
}

#[test]
fn forced_acknowledgements_abort_older_calls(rt: HostRuntime) {
    let before = [
        (Step::Enter, Said::Entered),
        (Step::Notify(1), Said::Notified(Ok(1))),
        (Step::Force, Said::done(1)),
        (Step::Read, Said::Aborted),
    ];
    let beside = [
        (Step::Enter, Said::Entered),
        (Step::Pass, Said::Pass(Some((1, 1)))),
        (Step::Notify(0), Said::Notified(Ok(2))),
        (Step::Acknowledge, Said::busy(1)),
        (Step::Leave, Said::Left),
        (Step::Acknowledge, Said::done(2)),
        (Step::Notify(1), Said::Notified(Ok(3))),
        (Step::Acknowledge, Said::busy(1)),
    ];
    let behind = [
        (Step::Leave, Said::Left),
        (Step::Acknowledge, Said::done(3)),
    ];
    at_two_seats(&rt, rt.alloc(), &before, &beside, &behind);
}
