//! Three passes that each pin and unpin once, and a writer that publishes twice, in each of the
//! 83,160 orders in which their events can come: what the core's answers say after each event is
//! what a model of plain sets says.
use super::{answer_to, each_is_answered};
use mst_pin::{Answer, Core, Event};
use std::process::Abort;

/// The events of passes 1, 2, 3 and of the writer.
const LENGTHS: [u8; 4] = [2, 2, 2, 6];

fn event_of(actor: u8, place: u8) -> Event {
    if actor < 3 {
        return if place == 0 {
            Event::Pin(actor + 1)
        } else {
            Event::Unpin(actor + 1)
        };
    }
    match place {
        0 => Event::Write(0),
        1 => Event::Publish { into: 1, rows: 1 },
        3 => Event::Write(1),
        4 => Event::Publish { into: 2, rows: 2 },
        _ => Event::Transfer,
    }
}

/// Which of records 0, 1, 2 is current or pinned, and which of rows 0, 1 it has.
#[derive(Clone, Copy, PartialEq, Eq)]
struct Version {
    records: [bool; 3],
    rows: [bool; 2],
}

const NOTHING: Version = Version {
    records: [false, false, false],
    rows: [false, false],
};

const OPENING: Version = Version {
    records: [true, false, false],
    rows: [false, false],
};

const FIRST: Version = Version {
    records: [false, true, false],
    rows: [true, false],
};

const SECOND: Version = Version {
    records: [false, false, true],
    rows: [false, true],
};

/// What a copy of the core answers to one event.
fn answer_of(core: &Core, event: Event) -> Answer {
    let mut copy = *core;
    answer_to(&mut copy, event)
}

/// The core after a transfer, if one waits, and the end of all pins but those of one pass.
fn alone(core: &Core, pass: u8) -> Core {
    let mut copy = *core;
    answer_to(&mut copy, Event::Transfer);
    for other in 1..4u8 {
        if other != pass {
            answer_to(&mut copy, Event::Unpin(other));
        }
    }
    copy
}

/// Which of rows 0 and 1 a current or pinned record has, by the writes that are refused.
fn rows_of(core: &Core) -> [bool; 2] {
    [
        answer_of(core, Event::Write(0)) == Answer::Refused,
        answer_of(core, Event::Write(1)) == Answer::Refused,
    ]
}

/// What is current, if nothing is pinned: the record that a pin is told.
fn current_of(core: &Core) -> Version {
    let told = answer_of(core, Event::Pin(1));
    Version {
        records: [
            told == Answer::Record(0),
            told == Answer::Record(1),
            told == Answer::Record(2),
        ],
        rows: rows_of(core),
    }
}

/// What the one pass pins that may: the record that is not drained once another one, which has no
/// rows, is current.
fn pinned_in(core: &Core) -> Version {
    let mut copy = *core;
    answer_to(&mut copy, Event::Publish { into: 3, rows: 0 });
    answer_to(&mut copy, Event::Transfer);
    Version {
        records: [
            answer_of(&copy, Event::Ask(0)) == Answer::No,
            answer_of(&copy, Event::Ask(1)) == Answer::No,
            answer_of(&copy, Event::Ask(2)) == Answer::No,
        ],
        rows: rows_of(&copy),
    }
}

/// The state as plain values: whether a transfer waits, what is current, what each pass pins, and
/// what it is told if it pins now.
#[derive(Clone, Copy, PartialEq, Eq)]
struct Plain {
    waits: bool,
    current: Version,
    pins: [Version; 3],
    told: [Answer; 3],
}

/// What a pass is told that pins now: the current record, if it pins nothing.
fn told_of(current: Version, pinned: Version) -> Answer {
    if pinned != NOTHING {
        return Answer::Refused;
    }
    match current.records {
        [true, _, _] => Answer::Record(0),
        [_, true, _] => Answer::Record(1),
        _ => Answer::Record(2),
    }
}

impl Plain {
    fn opening() -> Plain {
        Plain {
            waits: false,
            current: OPENING,
            pins: [NOTHING; 3],
            told: [Answer::Record(0); 3],
        }
    }

    /// What the core's answers say.
    fn of(core: &Core) -> Plain {
        Plain {
            waits: answer_of(core, Event::Transfer) == Answer::Done,
            current: current_of(&alone(core, 0)),
            pins: [
                pinned_in(&alone(core, 1)),
                pinned_in(&alone(core, 2)),
                pinned_in(&alone(core, 3)),
            ],
            told: [
                answer_of(core, Event::Pin(1)),
                answer_of(core, Event::Pin(2)),
                answer_of(core, Event::Pin(3)),
            ],
        }
    }

    /// The state after an event that is taken.
    fn after(self, event: Event) -> Plain {
        let mut next = self;
        match event {
            Event::Pin(1) => next.pins[0] = self.current,
            Event::Pin(2) => next.pins[1] = self.current,
            Event::Pin(_) => next.pins[2] = self.current,
            Event::Unpin(1) => next.pins[0] = NOTHING,
            Event::Unpin(2) => next.pins[1] = NOTHING,
            Event::Unpin(_) => next.pins[2] = NOTHING,
            Event::Publish { into: 1, .. } => {
                next.current = FIRST;
                next.waits = true;
            }
            Event::Publish { .. } => {
                next.current = SECOND;
                next.waits = true;
            }
            Event::Transfer => next.waits = false,
            Event::Write(_) | Event::Ask(_) => {}
        }
        let [first, second, third] = next.pins;
        next.told = [
            told_of(next.current, first),
            told_of(next.current, second),
            told_of(next.current, third),
        ];
        next
    }
}

/// What a core answers after all events.
const LAST: &[(Event, Answer)] = &[
    (Event::Ask(0), Answer::Yes),
    (Event::Ask(1), Answer::Yes),
    (Event::Ask(2), Answer::Refused),
    (Event::Write(0), Answer::Done),
    (Event::Write(1), Answer::Refused),
];

/// Goes on in each order in which the `left` events that are left can come, and gives the number of
/// those orders.
fn orders(rt: &impl Abort, core: Core, plain: Plain, places: [u8; 4], left: u8) -> u32 {
    if left == 0 {
        let mut last = core;
        each_is_answered(rt, &mut last, LAST);
        return 1;
    }
    let mut count = 0u32;
    for actor in 0..4u8 {
        let place = places[actor as usize];
        if place < LENGTHS[actor as usize] {
            let event = event_of(actor, place);
            let mut next = core;
            assert!(rt; answer_to(&mut next, event) != Answer::Refused);
            let model = plain.after(event);
            assert!(rt; Plain::of(&next) == model);
            let mut further = places;
            further[actor as usize] = place + 1;
            count = count.saturating_add(orders(rt, next, model, further, left - 1));
        }
    }
    count
}

#[test]
fn each_interleaving_agrees_with_plain_sets(rt: HostRuntime) {
    let core = Core::new(3).expect(&rt, "1 to 32 passes");
    assert_eq!(rt; orders(&rt, core, Plain::opening(), [0; 4], 12), 83_160);
}
