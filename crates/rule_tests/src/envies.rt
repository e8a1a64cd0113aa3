// Tests the rule that a table of what members would gain has no envy exactly when no entry is above 0.
use arrayvec::ArrayVec;
use envy_check::is_envy_free;
use split_frac::make;

// A gain of 0 isn't envy, and the least gain above it is.
#[test]
fn no_entry_above_zero_is_no_envy(rt: HostRuntime) {
    for (cents, is_free) in [(0, true), (-1, true), (1, false)] {
        let mut row = ArrayVec::new();
        row.push(make(cents, 3));
        let mut table = ArrayVec::new();
        table.push(row);
        assert_eq!(rt; is_envy_free(&table), is_free);
    }
}
