//! The table's words say who pins a record, also after a pin that was forgotten.
use crate::confirming::confirm;
use crate::seats::tables::opened;

#[test]
fn the_words_say_who_pins_a_record(rt: HostRuntime) {
    let (board, mut dealer) = opened(rt.alloc(), 4, 2).expect(&rt, "memory");
    let mut first = board.deal(&mut dealer);
    let mut second = board.deal(&mut dealer);
    let record = first.pin(1);
    let other = second.pin(2);
    let both = second.pins(0);
    second.forget(2, other);
    let first_alone = second.pins(0);
    first.unpin(1, record);
    let (none, past_all) = (second.pins(0), second.pins(33));
    let pins = [both, first_alone, none, past_all];
    confirm(&rt, pins == [3, 1, 0, 0], "who pins the record");
}
