//! The first bytes of the bus's own frames; an item's frame begins with the item's kind.
#[derive(Clone, Copy)]
pub(crate) enum Kind {
    Accepted = 0x20,
    Refused = 0x21,
    Idle = 0x22,
    Nothing = 0x25,
    Advance = 0x26,
}
