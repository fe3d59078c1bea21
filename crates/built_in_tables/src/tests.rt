use crate::{built_in_4, built_in_5};
use config_table::Table;

/// The element and the port of each member, group by group.
static FOUR: [&[(u8, u8)]; 5] = [
    &[(0, 0), (1, 0), (2, 0), (3, 0)],
    &[(0, 1), (1, 1), (2, 1)],
    &[(1, 2), (2, 2), (3, 2)],
    &[(3, 1)],
    &[(0, 3)],
];

static FIVE: [&[(u8, u8)]; 6] = [
    &[(0, 0), (1, 0), (2, 0), (3, 0)],
    &[(1, 1), (2, 1), (3, 1)],
    &[(2, 2), (3, 2), (4, 2)],
    &[(0, 3), (1, 3), (3, 3), (4, 3)],
    &[(4, 4)],
    &[(0, 5)],
];

#[test]
fn groups_and_members(rt: HostRuntime) {
    for (table, n, members) in [
        (built_in_4(), 4, FOUR.as_slice()),
        (built_in_5(), 5, FIVE.as_slice()),
    ] {
        assert_eq!(rt; (table.n(), table.manager()), (n, 1));
        assert_eq!(rt; table.groups().len(), members.len());
        for (group, seats) in table.groups().iter().zip(members) {
            let found = group.members.iter().map(|p| (p.ne, p.port));
            assert!(rt; found.eq(seats.iter().copied()), "group {}", group.vid);
            assert_eq!(rt; (group.ts, group.tr, group.tx), (3, 2, 0));
            assert_eq!(rt; (group.outs, group.ins, group.masked.bits), (16, 32, 0));
        }
    }
}
