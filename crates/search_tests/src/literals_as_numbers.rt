//! Literals, and truth under values.

use literals::{holds, is_positive, is_true, negative, opposite, positive, variable};

#[test]
fn numbers(rt: HostRuntime) {
    assert_eq!(rt; positive(3), 6);
    assert_eq!(rt; negative(3), 7);
    assert_eq!(rt; opposite(6), 7);
    assert_eq!(rt; opposite(7), 6);
    assert_eq!(rt; variable(7), 3);
    assert!(rt; is_positive(6));
    assert!(rt; !is_positive(7));
}

#[test]
fn truth(rt: HostRuntime) {
    let values = [true, false];
    assert!(rt; holds(&values, 0));
    assert!(rt; !holds(&values, 1));
    assert!(rt; holds(&values, 3));
    assert!(rt; is_true(&values, &[1, 3]));
    assert!(rt; !is_true(&values, &[1, 2]));
    assert!(rt; !is_true(&values, &[]));
}
