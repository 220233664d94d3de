// Charges, margins and piles of them.
use crate::questions::book_of;
use book::refusal::Refusal;
use schedule::any_change::AnyChange;
use schedule::change::Change;
use schedule::charge::Charge;
use schedule::earliest_deadline::EarliestDeadline;
use schedule::fixed_priority::FixedPriority;
use schedule::layer::Layer;
use schedule::margin::Margin;
use schedule::pile::Pile;
use schedule::test::Test;
use schedule::timing_test::TimingTest;
use std::test::Fail;

#[test]
fn layers_are_made_within_their_ranges(rt: HostRuntime) {
    for (ticks, by) in [
        (0, None),
        (1_000, None),
        (1_001, Some(Refusal::Charge)),
        (u32::MAX, Some(Refusal::Charge)),
    ] {
        assert_eq!(rt; Charge::try_from(ticks).err(), by);
    }
    for (thousandths, by) in [
        (0, Some(Refusal::Margin)),
        (999, Some(Refusal::Margin)),
        (1_000, None),
        (4_000, None),
        (4_001, Some(Refusal::Margin)),
        (u32::MAX, Some(Refusal::Margin)),
    ] {
        assert_eq!(rt; Margin::try_from(thousandths).err(), by);
    }
}

#[test]
fn a_charge_is_paid_twice(rt: HostRuntime) -> Result<(), Fail> {
    let book = book_of(&[(10, 4)])?;
    let fixed = Layer {
        change: Charge::try_from(1)?,
        below: FixedPriority,
    };
    let earliest = Layer {
        change: Charge::try_from(1)?,
        below: EarliestDeadline,
    };
    for (time, passes) in [(0, false), (1, true), (2, true), (3, false)] {
        assert!(rt; fixed.ask(&book, &[time]) == passes);
        assert!(rt; earliest.ask(&book, &[time]) == passes);
    }
    assert!(rt; fixed.tell(&book, &[2], 0) == Some(4));
    assert!(rt; fixed.tell(&book, &[2], 1) == None);
    assert!(rt; fixed.tell(&book, &[3], 0) == None);
    assert!(rt; fixed.tell(&book, &[0], 0) == None);
    Ok(())
}

#[test]
fn the_outer_layer_changes_the_times_first(rt: HostRuntime) -> Result<(), Fail> {
    let book = book_of(&[(10, 10)])?;
    // 3 * 1.5 rounded up is 5, and 2 more is 7
    let margin_outside = Layer {
        change: Margin::try_from(1_500)?,
        below: Layer {
            change: Charge::try_from(1)?,
            below: FixedPriority,
        },
    };
    assert!(rt; margin_outside.tell(&book, &[3], 0) == Some(7));
    // 3 and 2 is 5, and 5 * 1.5 rounded up is 8
    let charge_outside = Layer {
        change: Charge::try_from(1)?,
        below: Layer {
            change: Margin::try_from(1_500)?,
            below: FixedPriority,
        },
    };
    assert!(rt; charge_outside.tell(&book, &[3], 0) == Some(8));
    Ok(())
}

#[test]
fn a_slice_of_changes_makes_them_in_turn(rt: HostRuntime) -> Result<(), Fail> {
    let book = book_of(&[(10, 10)])?;
    let margin = AnyChange::Margin(Margin::try_from(1_500)?);
    let charge = AnyChange::Charge(Charge::try_from(1)?);
    // 3 * 1.5 rounded up is 5, and 2 more is 7; 3 and 2 is 5, and 5 * 1.5 rounded up is 8
    for (changes, response) in [([margin, charge], 7), ([charge, margin], 8)] {
        let layer = Layer {
            change: &changes[..],
            below: FixedPriority,
        };
        assert!(rt; layer.tell(&book, &[3], 0) == Some(response));
    }
    let none: [AnyChange; 0] = [];
    let bare = Layer {
        change: &none[..],
        below: FixedPriority,
    };
    assert!(rt; bare.tell(&book, &[3], 0) == Some(3));
    assert!(rt; !bare.ask(&book, &[11]));
    Ok(())
}

#[test]
fn a_slice_of_no_changes_caps_a_time(rt: HostRuntime) {
    let none: [AnyChange; 0] = [];
    let changes = &none[..];
    for (time, changed) in [
        (0, 0),
        (1_000_001, 1_000_001),
        (1_000_002, 1_000_001),
        (u32::MAX, 1_000_001),
    ] {
        assert!(rt; changes.change(time) == changed);
    }
}

#[test]
fn a_margin_rounds_up_and_the_cap_comes_last(rt: HostRuntime) -> Result<(), Fail> {
    // 333,334 * 3 is 1,000,002; 1 * 1.001 rounded up is 2; 250,000 * 4 is 1,000,000, which a task may have
    let book = book_of(&[(1_000_000, 1_000_000)])?;
    let treble = Layer {
        change: Margin::try_from(3_000)?,
        below: FixedPriority,
    };
    assert!(rt; treble.tell(&book, &[333_333], 0) == Some(999_999));
    assert!(rt; !treble.ask(&book, &[333_334]));
    let slightly = Layer {
        change: Margin::try_from(1_001)?,
        below: FixedPriority,
    };
    assert!(rt; slightly.tell(&book, &[1], 0) == Some(2));
    let most = Layer {
        change: Margin::try_from(4_000)?,
        below: FixedPriority,
    };
    assert!(rt; most.tell(&book, &[250_000], 0) == Some(1_000_000));
    assert!(rt; !most.ask(&book, &[u32::MAX]));
    assert!(rt; !most.ask(&book, &[1_000_001]));
    Ok(())
}

#[test]
fn a_pile_hands_its_times_down(rt: HostRuntime) -> Result<(), Fail> {
    let pile = Layer {
        change: AnyChange::Margin(Margin::try_from(1_500)?),
        below: Layer {
            change: AnyChange::Charge(Charge::try_from(10)?),
            below: Layer {
                change: AnyChange::Margin(Margin::try_from(2_000)?),
                below: FixedPriority,
            },
        },
    };
    // 3 to 5 to 25 to 50; 0 to 0 to 20 to 40; the rest to the cap
    let mut times = [3, 0, 500_000, 1_000_001, u32::MAX];
    pile.hand_down(&mut times);
    assert!(rt; times == [50, 40, 1_000_001, 1_000_001, 1_000_001]);
    let mut same = [3, 0];
    FixedPriority.hand_down(&mut same);
    assert!(rt; same == [3, 0]);
    let book = book_of(&[(100, 50)])?;
    assert!(rt; pile.tell(&book, &[3], 0) == Some(50));
    assert!(rt; !pile.ask(&book, &[4]));
    // what is handed down would pass, but the list given has a 0
    assert!(rt; !pile.ask(&book, &[0]));
    Ok(())
}
