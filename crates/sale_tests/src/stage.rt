//! The three stages of a sale: whether a round is open, and whether the sale has ended.
use sale_parts::Stage;

#[test]
fn an_ended_sale_is_not_open(rt: HostRuntime) {
    assert!(rt; !Stage::Ended.is_open());
    assert!(rt; Stage::Ended.has_ended());
}

#[test]
fn a_shut_sale_is_neither(rt: HostRuntime) {
    assert!(rt; !Stage::Shut.is_open());
    assert!(rt; !Stage::Shut.has_ended());
}

#[test]
fn an_open_sale_has_not_ended(rt: HostRuntime) {
    assert!(rt; Stage::Open.is_open());
    assert!(rt; !Stage::Open.has_ended());
}
