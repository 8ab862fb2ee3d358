use djq_cursors::Cursors;
use std::test::Fail;

#[test]
fn keeps_cursors_in_slots(rt: HostRuntime) -> Result<(), Fail> {
    let mut cursors: Cursors<u64> = Cursors::new(rt.alloc());
    assert!(rt; cursors.is_empty());
    let slot = cursors.open(7)?;
    assert!(rt; !cursors.is_empty());
    cursors.close(slot);
    assert!(rt; cursors.is_empty());
    Ok(())
}
