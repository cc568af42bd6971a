//! That a small measurement comes to its end.
use crate::guarded::Guarded;
use crate::tally::Tally;
use std::test::Fail;

#[test]
fn a_guarded_tally_is_added_to_so_many_times(rt: HostRuntime) -> Result<(), Fail> {
    let mut guarded = Guarded::new(Tally::new(rt.alloc(), 1, 3)?, 2);
    assert_eq!(rt; guarded.add(), Some(0));
    assert_eq!(rt; guarded.add(), Some(1));
    assert_eq!(rt; guarded.add(), None);
    assert_eq!(rt; guarded.count(), 2);
    Ok(())
}
