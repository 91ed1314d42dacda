use cursor::slice::SliceLeaf;
use cursor::{Cursor, TwoEnded};
use frame::stroke::Stroke;
use std::test::Fail;
use ticket::loading::load;

const SAMPLE: &[u8] =
    b"\x01\x00\x00\x00\x07\x03\xE8\x03\x05\x00\x0A\x02\x01\x00\x64\x02\x02\x00\xC8\x06\x00\x00\x00\x00\x00\x00\x00\x02\x0F\x00\x03";

/// The tints of a loaded ticket, from both ends.
#[test]
fn loaded_tints(rt: HostRuntime) -> Result<(), Fail> {
    let mut purges = [Stroke::default(); 4];
    let mut tints = [Stroke::default(); 4];
    let loaded = load(SAMPLE, &mut purges, &mut tints)?;
    let mut leaf = SliceLeaf::part(&tints, 0, loaded.tints as u64);
    assert_eq!(rt; leaf.len(), 2);
    assert_eq!(rt;
        leaf.next_back(),
        Some(Stroke {
            valve: 2,
            volume: 200,
        })
    );
    assert_eq!(rt;
        leaf.next(),
        Some(Stroke {
            valve: 1,
            volume: 100,
        })
    );
    assert_eq!(rt; (leaf.next(), leaf.tally()), (None, 3));
    Ok(())
}
