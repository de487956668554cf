use crate::{nodes, with_node};

#[test]
fn nodes_of_rows(rt: HostRuntime) {
    let mut some = nodes(134);
    assert_eq!(rt; some.next(), Some(1));
    assert_eq!(rt; some.next(), Some(2));
    assert_eq!(rt; some.next(), Some(7));
    assert_eq!(rt; some.next(), None);
    assert_eq!(rt; nodes(0).next(), None);
    assert_eq!(rt; nodes(9223372036854775808).next(), Some(63));
}

#[test]
fn rows_with_a_node_more(rt: HostRuntime) {
    assert_eq!(rt; with_node(5, true, 1), 7);
    assert_eq!(rt; with_node(5, true, 2), 5);
    assert_eq!(rt; with_node(5, false, 1), 5);
    assert_eq!(rt; with_node(0, true, 63), 9223372036854775808);
    assert_eq!(rt; with_node(5, true, 64), 5);
}
