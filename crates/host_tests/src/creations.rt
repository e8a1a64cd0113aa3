// The creations that the tests begin with.
use arrayvec::{ArrayString, ArrayVec};
use bid_rules::{Facts, Rent};
use sealed_core::Creation;
use std::process::Abort;

pub(crate) const SECRET: [u8; 32] = [7; 32];

pub(crate) const NOW: u64 = 1_772_366_000;

pub(crate) const DEADLINE: u64 = 1_772_366_400;

// A text that has room.
fn text<const N: usize>(rt: &impl Abort, words: &str) -> ArrayString<N> {
    let Ok(text) = ArrayString::from(words) else {
        panic!(rt; "too long");
    };
    text
}

// A flat for two, with a rent of 1000.
pub(crate) fn flat(rt: &impl Abort, tag: &str) -> Creation {
    let mut members = ArrayVec::new();
    let mut items = ArrayVec::new();
    for (member, room) in [("Ann", "Attic"), ("Ben", "Back")] {
        assert!(rt; members.try_push(text(rt, member)).is_ok());
        assert!(rt; items.try_push(text(rt, room)).is_ok());
    }
    Creation {
        title: text(rt, "Flat"),
        members,
        items,
        facts: Facts::Rent(Rent {
            members: 2,
            rent: 1000,
        }),
        deadline: DEADLINE,
        tag: text(rt, tag),
    }
}
