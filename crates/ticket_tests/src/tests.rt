use frame::stroke::Stroke;
use refusal::Refusal;
use std::test::Fail;
use ticket::faults::{CanFault, FieldFault, RecordFault};
use ticket::loading::load;

const NONE: Stroke = Stroke {
    valve: 99,
    volume: 9999,
};

/// The worked example: can 7 of 1000 ml, a purge, two tints, every second tint on the label.
const SAMPLE: &[u8] =
    b"\x01\x00\x00\x00\x07\x03\xE8\x03\x05\x00\x0A\x02\x01\x00\x64\x02\x02\x00\xC8\x06\x00\x00\x00\x00\x00\x00\x00\x02\x0F\x00\x03";

/// Tickets that are refused, with the number and the place: the smallest input for each number, and the edges beside it.
const REFUSED: [(&[u8], u8, usize); 20] = [
    (b"", 11, 0),
    (b"\x0F\x00\x00", 5, 0),
    (b"\x00", 3, 0),
    (b"\x08", 3, 0),
    (b"\x10", 3, 0),
    (b"\x01", 4, 0),
    (b"\x01\x00\x00\x00\x07\x03", 4, 0),
    (b"\x01\x00\x00\x00\x07\x03\xE8", 11, 7),
    (
        b"\x01\x00\x00\x00\x07\x03\xE8\x01\x00\x00\x00\x07\x03\xE8",
        5,
        7,
    ),
    (b"\x01\x00\x00\x00\x07\x03\xE8\x07\x01\x07\x01", 6, 9),
    (b"\x01\x00\x00\x00\x07\x03\xE8\x07\x01\x07\x10", 6, 9),
    (b"\x01\x00\x00\x00\x07\x03\xE8\x07\x10", 7, 7),
    (b"\x01\x00\x00\x00\x07\x03\xE8\x02\x10\x00\x00", 7, 7),
    (b"\x01\x00\x00\x00\x07\x03\xE8\x03\x10\x00\x00", 7, 7),
    (b"\x02\x10\x00\x00", 5, 0),
    (
        b"\x01\x00\x00\x00\x07\x03\xE8\x06\x00\x00\x00\x00\x00\x00\x00\x00",
        1,
        7,
    ),
    (b"\x01\x00\x00\x00\x07\x03\xE8\x0F\x00\x01", 9, 7),
    (
        b"\x01\x00\x00\x00\x07\x03\xE8\x02\x0F\x00\x01\x0F\x00\x00",
        9,
        11,
    ),
    (b"\x01\x00\x00\x00\x07\x03\xE8\x0F\x00\x00\x09", 10, 10),
    (b"\x01\x00\x00\x00\x07\x03\xE8\x0F\x00\x01\x09", 9, 7),
];

#[test]
fn sample_loads(rt: HostRuntime) -> Result<(), Fail> {
    let mut purges = [NONE; 2];
    let mut tints = [NONE; 3];
    let loaded = load(SAMPLE, &mut purges, &mut tints)?;
    assert_eq!(rt; (loaded.can, loaded.size), (7, 1000));
    assert_eq!(rt; (loaded.purges, loaded.tints), (1, 2));
    assert_eq!(rt; (loaded.resume, loaded.limit), (0, u64::MAX));
    assert_eq!(rt; (loaded.stride.get(), loaded.first), (2, 0));
    assert_eq!(rt;
        purges,
        [
            Stroke {
                valve: 5,
                volume: 10,
            },
            NONE,
        ]
    );
    assert_eq!(rt;
        tints,
        [
            Stroke {
                valve: 1,
                volume: 100,
            },
            Stroke {
                valve: 2,
                volume: 200,
            },
            NONE,
        ]
    );
    Ok(())
}

#[test]
fn refusals(rt: HostRuntime) -> Result<(), Fail> {
    for (ticket, number, place) in REFUSED {
        let mut purges = [NONE; 2];
        let mut tints = [NONE; 2];
        let fault = load(ticket, &mut purges, &mut tints).err().ok_or("loaded")?;
        assert_eq!(rt; (fault.number(), fault.place()), (number, place));
        assert_eq!(rt; (purges, tints), ([NONE; 2], [NONE; 2]));
    }
    Ok(())
}

#[test]
fn layers_are_held_whole(rt: HostRuntime) {
    let ticket = b"\x01\x00\x00\x00\x07\x03\xE8\x02\x10\x00\x00";
    let fault = load(ticket, &mut [NONE; 2], &mut [NONE; 2]).err();
    assert_eq!(rt;
        fault,
        Some(CanFault::Record(RecordFault::Field(FieldFault::High), 7))
    );
}

/// What each refusal says; a fault that holds another says what that one says.
#[test]
fn meanings(rt: HostRuntime) -> Result<(), Fail> {
    let told = [
        (CanFault::TooLong(32768), "A ticket has at most 32768 bytes"),
        (
            CanFault::Misplaced(0),
            "The first record is not a head, or a later one is",
        ),
        (CanFault::Twice(0), "A setting stands a second time"),
        (CanFault::Full(0), "The stroke's table has no free entry"),
        (
            CanFault::Count(0),
            "The end's number is not the number of strokes before it",
        ),
        (CanFault::After(0), "There are bytes after the end record"),
        (CanFault::NoEnd(0), "There is no end record"),
        (
            CanFault::Record(RecordFault::Unknown, 0),
            "No record has this kind",
        ),
        (
            CanFault::Record(RecordFault::Cut, 0),
            "The record's body runs past the end of the ticket",
        ),
        (
            CanFault::Record(RecordFault::Field(FieldFault::ZeroStride), 0),
            "The label stride is 0",
        ),
        (
            CanFault::Record(RecordFault::Field(FieldFault::High), 0),
            "A valve or canister is above 15",
        ),
    ];
    for (fault, meaning) in told {
        let text = format!(in rt.alloc(); "{fault}")?;
        assert_eq!(rt; text.as_str(), meaning);
    }
    Ok(())
}

/// A table that is exactly full is fine; one stroke more gets 8.
#[test]
fn full_tables(rt: HostRuntime) {
    assert_eq!(rt; load(SAMPLE, &mut [NONE; 1], &mut [NONE; 2]).err(), None);
    assert_eq!(rt;
        load(SAMPLE, &mut [NONE; 0], &mut [NONE; 2]).err(),
        Some(CanFault::Full(7))
    );
    assert_eq!(rt;
        load(SAMPLE, &mut [NONE; 1], &mut [NONE; 1]).err(),
        Some(CanFault::Full(15))
    );
}

/// 32768 bytes are read, and found unlawful for another reason; 32769 are not.
#[test]
fn lengths(rt: HostRuntime) {
    let zeros = [0; 32769];
    assert_eq!(rt;
        load(&zeros[..32768], &mut [NONE; 1], &mut [NONE; 1]).err(),
        Some(CanFault::Record(RecordFault::Unknown, 0))
    );
    assert_eq!(rt;
        load(&zeros, &mut [NONE; 1], &mut [NONE; 1]).err(),
        Some(CanFault::TooLong(32768))
    );
}

/// A good ticket that is cut at any byte is refused, with 4 or 11.
#[test]
fn every_cut(rt: HostRuntime) -> Result<(), Fail> {
    for n in 0..SAMPLE.len() {
        let fault = load(&SAMPLE[..n], &mut [NONE; 1], &mut [NONE; 2])
            .err()
            .ok_or("loaded")?;
        assert!(rt; matches!(fault.number(), 4 | 11));
    }
    Ok(())
}
