//! The log of a search.

use search_log::Log;
use std::test::Fail;

#[test]
fn begins_without_lines(rt: HostRuntime) -> Result<(), Fail> {
    let opened = Log::open(rt.alloc(), 4, 3);
    assert!(rt; opened.is_ok_and(|log| log.derived() == 0 && log.handles() == 4));
    Ok(())
}
