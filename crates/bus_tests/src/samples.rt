use crate::calls::Call::{Exchange, Put};
use crate::calls::make_all;
use bus::Bus;
use bus::line::Line;
use bus::script::{Step, run};
use cursor::Cursor;
use cursor::count::CountLeaf;
use cursor::slice::SliceLeaf;
use frame::stroke::Stroke;

pub(crate) const VALVE: [Stroke; 3] = [
    Stroke {
        valve: 5,
        volume: 10,
    },
    Stroke {
        valve: 1,
        volume: 100,
    },
    Stroke {
        valve: 2,
        volume: 200,
    },
];

pub(crate) const LABEL: [Stroke; 1] = [Stroke {
    valve: 1,
    volume: 100,
}];

/// The label asks first and is served second; then nobody waits.
#[test]
fn valve_first(rt: HostRuntime) {
    let mut bus = Bus::new(
        SliceLeaf::new(&VALVE),
        SliceLeaf::new(&LABEL),
        CountLeaf::new(0, 16),
    );
    let calls = [
        Put(2, 5, 0, &[0x20, 2]),
        Put(1, 1, 0, &[0x20, 1]),
        Exchange(&[0x23, 1, 5, 0, 10], 1),
        Exchange(&[0x23, 2, 1, 0, 100], 1),
        Exchange(&[0x22], 0),
    ];
    make_all(&rt, &mut bus, &calls);
}

/// Every other frame; strokes and numbers on one bus.
#[test]
fn every_frame(rt: HostRuntime) {
    let mut bus = Bus::new(
        SliceLeaf::new(&VALVE),
        SliceLeaf::new(&LABEL),
        CountLeaf::new(0, 16),
    );
    let calls = [
        Put(3, 1, 0, &[0x20, 3]),
        Put(3, 4, 0, &[0x21, 23]),
        Put(3, 2, 1, &[0x21, 24]),
        Exchange(&[0x24, 3, 0, 0, 0, 0, 0, 0, 0, 0], 1),
        Put(1, 3, 5, &[0x20, 1]),
        Exchange(&[0x26, 1, 0, 0, 0, 0, 0, 0, 0, 2], 1),
        Put(1, 1, 0, &[0x20, 1]),
        Exchange(&[0x25, 1], 1),
        Put(9, 1, 0, &[0x21, 21]),
    ];
    make_all(&rt, &mut bus, &calls);
}

/// All three wait: valve, label, stir; each is served once, and a valve that comes again goes first again.
#[test]
fn lowest_party(rt: HostRuntime) {
    let mut bus = Bus::new(
        SliceLeaf::new(&VALVE),
        SliceLeaf::new(&LABEL),
        CountLeaf::new(0, 16),
    );
    let calls = [
        Put(3, 2, 4, &[0x20, 3]),
        Put(2, 6, 1, &[0x20, 2]),
        Put(1, 5, 1, &[0x20, 1]),
        Exchange(&[0x23, 1, 1, 0, 100], 1),
        Exchange(&[0x26, 2, 0, 0, 0, 0, 0, 0, 0, 0], 1),
        Put(1, 4, 9, &[0x20, 1]),
        Exchange(&[0x23, 1, 5, 0, 10], 1),
        Exchange(&[0x24, 3, 0, 0, 0, 0, 0, 0, 0, 4], 1),
        Exchange(&[0x22], 0),
    ];
    make_all(&rt, &mut bus, &calls);
}

/// A list of calls from a new bus on; then the bus goes on from there.
#[test]
fn whole_script(rt: HostRuntime) {
    let steps = [
        Step::Put {
            party: 2,
            call: 1,
            n: 0,
        },
        Step::Put {
            party: 1,
            call: 3,
            n: 1,
        },
        Step::Exchange,
        Step::Put {
            party: 1,
            call: 1,
            n: 0,
        },
        Step::Put {
            party: 7,
            call: 7,
            n: 7,
        },
        Step::Exchange,
        Step::Exchange,
    ];
    let mut line = Line::new();
    let mut out = [0u8; 10];
    let mut bus = run(
        SliceLeaf::new(&VALVE),
        SliceLeaf::new(&LABEL),
        CountLeaf::new(0, 16),
        &mut line,
        &mut out,
        &steps,
    );
    assert!(rt; out == [0x23, 2, 1, 0, 100, 0, 0, 0, 0, 0]);
    assert_eq!(rt; bus.tally(), 3);
    make_all(
        &rt,
        &mut bus,
        &[Put(1, 1, 0, &[0x20, 1]), Exchange(&[0x23, 1, 2, 0, 200], 1)],
    );
}
