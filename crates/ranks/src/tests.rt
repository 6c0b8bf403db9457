//! Seats in the order of their bonds.
use crate::bond::SeatBond;
use crate::order::next_in_order;

const BONDS: [SeatBond; 5] = [
    SeatBond {
        seat: 4,
        dollars: 10,
    },
    SeatBond {
        seat: 2,
        dollars: 30,
    },
    SeatBond {
        seat: 1,
        dollars: 30,
    },
    SeatBond {
        seat: 3,
        dollars: 20,
    },
    SeatBond {
        seat: 3,
        dollars: 20,
    },
];

#[test]
fn the_larger_bond_comes_first_then_the_lower_seat(rt: HostRuntime) {
    assert_eq!(rt; next_in_order(&BONDS, 0, None), Some(2));
    assert_eq!(rt; next_in_order(&BONDS, 0, Some(2)), Some(1));
    assert_eq!(rt;
        next_in_order(&BONDS, 0, Some(1)),
        Some(3),
        "of two that are alike, the lower place"
    );
    assert_eq!(rt;
        next_in_order(&BONDS, 0, Some(3)),
        Some(0),
        "behind both that are alike"
    );
    assert_eq!(rt; next_in_order(&BONDS, 0, Some(4)), Some(0));
    assert_eq!(rt; next_in_order(&BONDS, 0, Some(0)), None);
}

#[test]
fn nothing_comes_next(rt: HostRuntime) {
    assert_eq!(rt;
        next_in_order(&BONDS, 0, Some(5)),
        None,
        "behind a place past the end"
    );
    assert_eq!(rt; next_in_order(&BONDS, 1, None), None, "in an empty group");
    assert_eq!(rt;
        next_in_order(&BONDS[0..0], 0, None),
        None,
        "in an empty list"
    );
}
