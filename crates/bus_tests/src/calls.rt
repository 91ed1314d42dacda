//! Calls of a bus with what they must answer and leave.
use bus::Bus;
use bus::line::Line;
use bus::receipt::write_receipt;
use cursor::{Cursor, TwoEnded};
use frame::framed::Framed;
use std::process::Abort;

#[derive(Clone, Copy)]
pub(crate) enum Call {
    /// party, call and n of a put, and its receipt's bytes
    /// (unnamed, so that each call is one line of a table)
    Put(u8, u8, u64, &'static [u8]),
    /// an exchange's frame, and how often it touches the leaves
    Exchange(&'static [u8], u64),
}

const FILL: u8 = 0xEE;

/// One call into a buffer of 12 bytes: its answer, the bytes it wrote and those it left, the line, and the touches.
fn make<V: TwoEnded<Item: Framed>, L: TwoEnded<Item: Framed>, S: Cursor<Item: Framed>>(
    rt: &impl Abort,
    bus: &mut Bus<V, L, S>,
    line: &mut Line,
    call: Call,
) {
    let tally = bus.tally();
    let device = line.device();
    let mut out = [FILL; 12];
    let (answer, bytes, touches) = match call {
        Call::Put(party, call, n, receipt) => (
            write_receipt(bus.put(party, call, n), &mut out),
            receipt,
            0,
        ),
        Call::Exchange(frame, touches) => (bus.exchange(line, &mut out), frame, touches),
    };
    assert!(rt; answer == Ok(bytes.len()));
    let rest = out.strip_prefix(bytes);
    assert!(rt; rest.is_some_and(|rest| rest.iter().all(|&byte| byte == FILL)));
    assert_eq!(rt; line.device(), device);
    assert_eq!(rt; bus.tally().saturating_sub(tally), touches);
}

pub(crate) fn make_all<
    V: TwoEnded<Item: Framed>,
    L: TwoEnded<Item: Framed>,
    S: Cursor<Item: Framed>,
>(rt: &impl Abort, bus: &mut Bus<V, L, S>, calls: &[Call]) {
    let mut line = Line::new();
    for call in calls {
        make(rt, bus, &mut line, *call);
    }
}
