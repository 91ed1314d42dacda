//! The kinds of a ticket's records, and the length of the body of each.
// Numbers and no enum: records are decided by ranges of kinds.
ghost use Rattle.std.specs.Prelude.{◌≡◌};
ghost use Rattle.ticket.specs.Kinds.{body_in};

pub const HEAD: u8 = 0x01;

pub const TINT: u8 = 0x02;

pub const PURGE: u8 = 0x03;

pub const RESUME: u8 = 0x04;

pub const LIMIT: u8 = 0x05;

/// the label's stride
pub const STRIDE: u8 = 0x06;

/// the first canister to stir
pub const FIRST: u8 = 0x07;

pub const END: u8 = 0x0F;

/// The mark of an unknown kind: no known record has an empty body.
// No `Option` here, so that reader and promises share one array of plain lengths.
pub const UNKNOWN: u8 = 0;

/// The body's length for each kind from HEAD to END. Reader and promises have it from here.
pub const BODIES: [u8; 15] = [
    6, // HEAD
    3, // TINT
    3, // PURGE
    8, // RESUME
    8, // LIMIT
    8, // STRIDE
    1, // FIRST
    UNKNOWN, // 08
    UNKNOWN, // 09
    UNKNOWN, // 0A
    UNKNOWN, // 0B
    UNKNOWN, // 0C
    UNKNOWN, // 0D
    UNKNOWN, // 0E
    2, // END
];

/// The length of the body of a record of this kind; `UNKNOWN` if no record has it.
pub fn body_len(kind: u8) -> u8
    ensures { result ≡ body_in BODIES kind }
{
    match kind {
        HEAD..=END => BODIES[kind as usize - 1],
        _ => UNKNOWN,
    }
}
