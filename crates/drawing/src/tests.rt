// What is drawn from fixed states, worked out by a program of its own in whole numbers.
use crate::{Case, Chance, Graph};

#[test]
fn numbers_below(rt: HostRuntime) {
    let mut chance = Chance::new(1);
    for (count, number) in [(10, 4), (7, 1), (1, 0), (0, 0)] {
        assert_eq!(rt; chance.below(count), number);
    }
}

#[test]
fn numbers_between(rt: HostRuntime) {
    let mut chance = Chance::new(2);
    assert_eq!(rt; chance.between(1, 6), 5);
    assert_eq!(rt; chance.between(3, 3), 3);
    assert_eq!(rt; chance.between(9, 4), 9);
    assert_eq!(rt; chance.between(0, usize::MAX), 782780504);
    assert_eq!(rt; chance.between(usize::MAX, usize::MAX), usize::MAX);
}

#[test]
fn so_many_in_a_hundred(rt: HostRuntime) {
    let mut chance = Chance::new(3);
    for (hundredths, drawn) in [
        (50, false),
        (50, false),
        (0, false),
        (100, true),
        (37, true),
        (37, true),
    ] {
        assert_eq!(rt; chance.percent(hundredths), drawn);
    }
}

#[test]
fn rows(rt: HostRuntime) {
    let mut chance = Chance::new(4);
    assert_eq!(rt; chance.row(8, 50), 225);
    assert_eq!(rt; chance.row(70, 50), 8257602787542499599);
    assert_eq!(rt; chance.row(3, 100), 7);
    assert_eq!(rt; chance.row(5, 0), 0);
}

#[test]
fn random_graph(rt: HostRuntime) {
    let mut chance = Chance::new(5);
    let graph = Graph::random(&mut chance, 5, 50);
    assert_eq!(rt; graph.rows(), [24, 20, 10, 21, 11].as_slice());
}

#[test]
fn wall(rt: HostRuntime) {
    let graph = Graph::wall(3, 2);
    assert_eq!(rt; graph.rows(), [10, 21, 34, 17, 42, 20].as_slice());
}

// Joints hold both ways; a node is not joined to itself, nor past the last one.
#[test]
fn joints(rt: HostRuntime) {
    let mut graph = Graph::new(3);
    graph.join(0, 2);
    graph.join(1, 1);
    graph.join(1, 3);
    assert!(rt; graph.joined(0, 2));
    assert!(rt; graph.joined(2, 0));
    assert!(rt; !graph.joined(0, 1));
    assert!(rt; !graph.joined(1, 1));
    assert!(rt; !graph.joined(3, 1));
    assert!(rt; !graph.joined(64, 0));
    assert_eq!(rt; Graph::new(100).rows().len(), 64);
}

// A row is drawn for each unit and no more.
#[test]
fn case(rt: HostRuntime) {
    let mut chance = Chance::new(6);
    let case = Case::random(&mut chance, Graph::new(3), Graph::new(5), 50);
    assert_eq!(rt; case.rows(), [11, 13, 12].as_slice());
    assert_eq!(rt; case.units.count, 3);
    assert_eq!(rt; case.bays.count, 5);
    assert_eq!(rt; chance.below(10), 0);
}
