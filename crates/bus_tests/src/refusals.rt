use crate::calls::Call::{Exchange, Put};
use crate::calls::make_all;
use crate::samples::{LABEL, VALVE};
use bus::Bus;
use bus::fault::Fault;
use bus::line::Line;
use bus::party::Party;
use bus::receipt::write_receipt;
use bus::request::Call;
use cursor::Cursor;
use cursor::count::CountLeaf;
use cursor::slice::SliceLeaf;
use frame::framed::Framed;
use refusal::Refusal;

/// Each of put's refusals, in the order of its checks; what waits is served as if they had not been.
#[test]
fn puts(rt: HostRuntime) {
    let mut bus = Bus::new(
        SliceLeaf::new(&VALVE),
        SliceLeaf::new(&LABEL),
        CountLeaf::new(0, 16),
    );
    let calls = [
        Put(1, 2, 2, &[0x20, 1]),
        Put(3, 1, 0, &[0x20, 3]),
        Put(0, 1, 0, &[0x21, 21]),
        Put(4, 9, 0, &[0x21, 21]),
        Put(255, 4, 0, &[0x21, 21]),
        Put(1, 0, 0, &[0x21, 22]),
        Put(3, 7, 0, &[0x21, 22]),
        Put(3, 4, 0, &[0x21, 23]),
        Put(3, 5, 0, &[0x21, 23]),
        Put(3, 6, 0, &[0x21, 23]),
        Put(1, 1, 0, &[0x21, 24]),
        Put(3, 3, 0, &[0x21, 24]),
        Exchange(&[0x23, 1, 2, 0, 200], 1),
        Exchange(&[0x24, 3, 0, 0, 0, 0, 0, 0, 0, 0], 1),
        Exchange(&[0x22], 0),
    ];
    make_all(&rt, &mut bus, &calls);
}

/// A buffer of 9 bytes is too short, whether somebody waits or not.
#[test]
fn nine_bytes(rt: HostRuntime) {
    let mut bus = Bus::new(
        SliceLeaf::new(&VALVE),
        SliceLeaf::new(&LABEL),
        CountLeaf::new(0, 16),
    );
    let mut line = Line::new();
    let mut out = [7u8; 9];
    assert!(rt; bus.exchange(&mut line, &mut out) == Err(Fault::Short));
    assert!(rt; bus.put(1, 1, 0) == Ok(Party::Valve));
    assert!(rt; bus.exchange(&mut line, &mut out) == Err(Fault::Short));
    assert!(rt; out == [7; 9]);
    assert_eq!(rt; (line.device(), bus.tally()), (Party::Valve, 0));
    make_all(&rt, &mut bus, &[Exchange(&[0x23, 1, 5, 0, 10], 1)]);
}

/// One of 10 does.
#[test]
fn ten_bytes(rt: HostRuntime) {
    let mut bus = Bus::new(
        SliceLeaf::new(&VALVE),
        SliceLeaf::new(&LABEL),
        CountLeaf::new(0, 16),
    );
    let mut line = Line::new();
    let mut out = [7u8; 10];
    assert!(rt; bus.put(1, 1, 0) == Ok(Party::Valve));
    assert!(rt; bus.exchange(&mut line, &mut out) == Ok(5));
    assert!(rt; out == [0x23, 1, 5, 0, 10, 7, 7, 7, 7, 7]);
}

/// A receipt needs the same room, and says the numbers of other refusals too.
#[test]
fn receipts(rt: HostRuntime) {
    let refused: Result<Party, u8> = Err(12);
    let mut nine = [7u8; 9];
    assert!(rt; write_receipt(refused, &mut nine) == Err(Fault::Short));
    assert!(rt; nine == [7; 9]);
    let mut ten = [7u8; 10];
    assert!(rt; write_receipt(refused, &mut ten) == Ok(2));
    assert!(rt; ten == [0x21, 12, 7, 7, 7, 7, 7, 7, 7, 7]);
    assert_eq!(rt; Fault::Short.number(), 25);
}

/// Parties and calls by their numbers, and the first number past them.
#[test]
fn numbers(rt: HostRuntime) {
    assert!(rt; Party::try_from(3) == Ok(Party::Stir));
    assert!(rt; Party::try_from(4) == Err(Fault::UnknownParty));
    assert_eq!(rt; u8::from(Party::Stir), 3);
    assert!(rt; Call::try_from(6) == Ok(Call::AdvanceBack));
    assert!(rt; Call::try_from(7) == Err(Fault::UnknownCall));
}
