use crate::{JointFault, JointTable, WallGrid};
use graphs::Source;

const DECLINED: Result<(), JointFault> = Err(JointFault { place: 0 });

#[test]
fn lawful_walls(rt: HostRuntime) {
    assert_eq!(rt; WallGrid::look_over(1, 1), Ok(()));
    assert_eq!(rt; WallGrid::look_over(1, 64), Ok(()));
    assert_eq!(rt; WallGrid::look_over(8, 8), Ok(()));
    assert_eq!(rt; WallGrid::new(1, 1).row(0), 0);
    let tower = WallGrid::new(1, 64);
    assert_eq!(rt; tower.count(), 64);
    assert_eq!(rt; tower.row(63), 1 << 62);
    assert_eq!(rt; tower.column(1), 5);
}

#[test]
fn wall_of_eight_by_eight(rt: HostRuntime) {
    let wall = WallGrid::new(8, 8);
    assert!(rt; wall.joined(6, 7));
    assert!(rt; !wall.joined(7, 8));
    assert!(rt; wall.joined(15, 7));
    assert!(rt; !wall.joined(63, 71));
    assert_eq!(rt; wall.row(0), 258);
    assert_eq!(rt; wall.row(7), 32832);
    assert_eq!(rt; wall.row(9), 132354);
    assert_eq!(rt; wall.column(9), 132354);
    assert_eq!(rt; wall.row(64), 0);
}

#[test]
fn ill_walls(rt: HostRuntime) {
    assert_eq!(rt; WallGrid::look_over(0, 1), DECLINED);
    assert_eq!(rt; WallGrid::look_over(9, 8), DECLINED);
    // The product would wrap to 2.
    assert_eq!(rt; WallGrid::look_over(9223372036854775809, 2), DECLINED);
    assert_eq!(rt; WallGrid::new(9, 8).count(), 1);
}

#[test]
fn ring_of_four(rt: HostRuntime) {
    assert_eq!(rt; JointTable::look_over(&[10, 5, 10, 5], 4), Ok(()));
    let ring = JointTable::new(&[10, 5, 10, 5], 4);
    assert_eq!(rt; ring.count(), 4);
    assert!(rt; ring.joined(0, 3));
    assert!(rt; !ring.joined(0, 2));
    assert!(rt; !ring.joined(4, 0));
    assert_eq!(rt; ring.row(1), 5);
    assert_eq!(rt; ring.column(2), 10);
    assert_eq!(rt; ring.row(4), 0);
}

#[test]
fn ill_tables(rt: HostRuntime) {
    assert_eq!(rt; JointTable::look_over(&[], 0), DECLINED, "no rows");
    assert_eq!(rt; JointTable::look_over(&[0; 65], 65), DECLINED, "65 rows");
    assert_eq!(rt; JointTable::look_over(&[2, 1], 3), DECLINED, "not square");
    assert_eq!(rt;
        JointTable::look_over(&[2, 5], 2),
        DECLINED,
        "a bit at the count"
    );
    assert_eq!(rt;
        JointTable::look_over(&[1, 0], 2),
        DECLINED,
        "a node joined to itself"
    );
    assert_eq!(rt;
        JointTable::look_over(&[0, 1], 2),
        DECLINED,
        "a one-sided joint"
    );
    assert_eq!(rt; JointTable::new(&[0, 1], 2).count(), 1);
}
