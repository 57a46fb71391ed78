//! The order of decisions over three variables.

use decision_order::DecisionOrder;
use std::test::Fail;

#[test]
fn most_active_first(rt: HostRuntime) -> Result<(), Fail> {
    let mut order = DecisionOrder::open(rt.alloc(), 3)?;
    assert_eq!(rt; order.next(), None);
    order.put_back(0, true);
    order.put_back(1, false);
    order.put_back(2, true);
    order.raise(1);
    order.age();
    order.raise(2);
    assert_eq!(rt; order.next(), Some(2));
    assert_eq!(rt; order.next(), Some(1));
    order.put_back(2, false);
    assert_eq!(rt; order.next(), Some(2));
    assert_eq!(rt; order.next(), Some(0));
    assert_eq!(rt; order.next(), None);
    assert!(rt; order.phase(0));
    assert!(rt; !order.phase(2));
    Ok(())
}
