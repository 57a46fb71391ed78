mod script;

use clause_pool::{Full, Pool};
use std::test::Fail;

#[test]
fn puts_until_the_words_are_used(rt: HostRuntime) -> Result<(), Fail> {
    let mut pool = Pool::open(rt.alloc(), 11, 4, 8)?;
    let first = pool.put(&[0, 2])?;
    assert_eq!(rt; pool.used(), 5);
    let _second = pool.put(&[0, 4, 6])?;
    assert_eq!(rt; pool.used(), 11);
    assert_eq!(rt; pool.put(&[1]), Err(Full));
    pool.forget(first);
    pool.compact();
    assert_eq!(rt; pool.used(), 6);
    assert!(rt; pool.put(&[1, 3]).is_ok());
    Ok(())
}

#[test]
fn is_full_with_no_words(rt: HostRuntime) -> Result<(), Fail> {
    let mut pool = Pool::open(rt.alloc(), 0, 4, 8)?;
    assert_eq!(rt; pool.put(&[]), Err(Full));
    pool.compact();
    assert_eq!(rt; pool.used(), 0);
    Ok(())
}

#[test]
fn is_full_with_no_handles(rt: HostRuntime) -> Result<(), Fail> {
    let mut pool = Pool::open(rt.alloc(), 11, 0, 8)?;
    assert_eq!(rt; pool.put(&[1]), Err(Full));
    assert!(rt; pool.first_watch(1).is_none());
    Ok(())
}
