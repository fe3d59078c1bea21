use config_table::{ConfigError, Group, Table};
use ftpp_base::{Proc, Row, Set8};
use std::test::Fail;

/// The built-in table of four elements.
fn four_elements() -> [Group; 5] {
    [
        Group::usual(1, &[(0, 0), (1, 0), (2, 0), (3, 0)]),
        Group::usual(2, &[(0, 1), (1, 1), (2, 1)]),
        Group::usual(3, &[(1, 2), (2, 2), (3, 2)]),
        Group::usual(4, &[(3, 1)]),
        Group::usual(5, &[(0, 3)]),
    ]
}

/// What is wrong with a table of these parts.
fn error_of(n: u8, manager: u8, groups: &[Group]) -> Option<ConfigError> {
    Table::new(n, manager, groups).err()
}

/// Whether a table of these parts is refused with this error, which has that code.
fn is_refused(n: u8, manager: u8, groups: &[Group], error: ConfigError, code: u8) -> bool {
    error_of(n, manager, groups) == Some(error) && error.code() == code
}

#[test]
fn refuses_other_sizes_and_managers(rt: HostRuntime) {
    let groups = four_elements();
    let all = groups.as_slice();
    let none = &all[..0];
    for (n, manager, groups, error, code) in [
        (3, 1, all, ConfigError::Elements { n: 3 }, 1),
        (6, 1, none, ConfigError::Elements { n: 6 }, 1),
        (4, 1, none, ConfigError::GroupCount { count: 0 }, 2),
        (4, 6, all, ConfigError::Manager { manager: 6 }, 11),
        (
            4,
            4,
            all,
            ConfigError::ManagerLive {
                manager: 4,
                live: 1,
            },
            12,
        ),
    ] {
        assert!(rt; is_refused(n, manager, groups, error, code), "{error:?}");
    }
}

/// Whether the table of four elements, where one group is another, is refused so.
fn is_refused_with(place: usize, group: Group, error: ConfigError, code: u8) -> bool {
    let mut groups = four_elements();
    groups[place.min(4)] = group;
    is_refused(4, 1, &groups, error, code)
}

/// A group in place of another, the error and its code.
type Case = (usize, Group, ConfigError, u8);

/// Groups whose number or members are wrong.
fn wrong_members() -> [Case; 9] {
    let fourth = |members: &[(u8, u8)]| Group::usual(4, members);
    let shared = Proc { ne: 3, port: 0 };
    let no_element = Proc { ne: 4, port: 1 };
    let no_port = Proc { ne: 3, port: 8 };
    [
        (
            0,
            Group::usual(0, &[(0, 0)]),
            ConfigError::Vid { vid: 0 },
            3,
        ),
        (
            4,
            Group::usual(255, &[(0, 3)]),
            ConfigError::Vid { vid: 255 },
            3,
        ),
        (
            4,
            Group::usual(4, &[(0, 3)]),
            ConfigError::VidOrder { vid: 4 },
            4,
        ),
        (
            3,
            fourth(&[(3, 1), (2, 5)]),
            ConfigError::Size { vid: 4, size: 2 },
            5,
        ),
        (3, fourth(&[]), ConfigError::Size { vid: 4, size: 0 }, 5),
        (
            3,
            fourth(&[(4, 1)]),
            ConfigError::MemberRange {
                vid: 4,
                proc: no_element,
            },
            6,
        ),
        (
            3,
            fourth(&[(3, 8)]),
            ConfigError::MemberRange {
                vid: 4,
                proc: no_port,
            },
            6,
        ),
        (
            3,
            fourth(&[(3, 1), (2, 5), (3, 6)]),
            ConfigError::SameElement { vid: 4, ne: 3 },
            7,
        ),
        (
            3,
            fourth(&[(3, 0)]),
            ConfigError::SharedProcessor {
                vid: 4,
                proc: shared,
            },
            8,
        ),
    ]
}

/// The fourth group with a set of masked members.
fn masked(bits: u8) -> Group {
    let mut group = Group::usual(4, &[(3, 1)]);
    group.masked = Set8 { bits };
    group
}

/// The fourth group with other numbers.
fn numbered(ts: u16, tr: u16, tx: u16, outs: u8, ins: u8) -> Group {
    let mut group = Group::usual(4, &[(3, 1)]);
    group.ts = ts;
    group.tr = tr;
    group.tx = tx;
    group.outs = outs;
    group.ins = ins;
    group
}

/// Fourth groups whose masked members or numbers are wrong.
fn wrong_numbers() -> [Case; 7] {
    let timeout = |value: u16| ConfigError::Timeout { vid: 4, value };
    let slots = |value: u8| ConfigError::Slots { vid: 4, value };
    let expiry = ConfigError::Expiry {
        vid: 4,
        value: 1001,
    };
    [
        (3, masked(2), ConfigError::Masked { vid: 4, masked: 2 }, 9),
        (3, masked(1), ConfigError::Masked { vid: 4, masked: 1 }, 9),
        (3, numbered(0, 2, 0, 0, 32), timeout(0), 10),
        (3, numbered(3, 1001, 0, 16, 32), timeout(1001), 10),
        (3, numbered(3, 2, 1001, 16, 32), expiry, 16),
        (3, numbered(3, 2, 0, 65, 32), slots(65), 17),
        (3, numbered(3, 2, 0, 16, 0), slots(0), 17),
    ]
}

#[test]
fn names_the_first_broken_clause(rt: HostRuntime) {
    for (place, group, error, code) in wrong_members() {
        assert!(rt; is_refused_with(place, group, error, code), "{error:?}");
    }
    for (place, group, error, code) in wrong_numbers() {
        assert!(rt; is_refused_with(place, group, error, code), "{error:?}");
    }
}

#[test]
fn refuses_more_than_forty_groups(rt: HostRuntime) {
    let mut groups: Row<Group, 41> = Row::new();
    for vid in 1..42 {
        let _ = groups.try_push(Group::usual(vid, &[]));
    }
    assert!(rt;
        is_refused(
            4,
            1,
            groups.as_slice(),
            ConfigError::GroupCount { count: 41 },
            2
        )
    );
    groups.truncate(40);
    assert!(rt;
        is_refused(
            4,
            1,
            groups.as_slice(),
            ConfigError::Size { vid: 1, size: 0 },
            5
        )
    );
}

/// The first group with other numbers, and a member masked.
fn managers() -> Group {
    let mut group = Group::usual(1, &[(0, 0), (1, 0), (2, 0), (3, 0)]);
    group.masked = Set8 { bits: 4 };
    group.ts = 1000;
    group.tr = 1000;
    group.tx = 1000;
    group.outs = 64;
    group.ins = 1;
    group
}

/// The table of four elements with that first group, and its groups.
fn changed_table() -> Option<(Table, [Group; 5])> {
    let mut groups = four_elements();
    groups[0] = managers();
    let table = Table::new(4, 1, &groups).ok()?;
    Some((table, groups))
}

/// Whether a group has so many live members, which are these of some places.
fn has_live(group: &Group, count: u8, places: &[(u8, bool)]) -> bool {
    group.live_count() == count
        && places
            .iter()
            .all(|(place, live)| group.is_live(*place) == *live)
}

#[test]
fn looks_up_groups_and_members(rt: HostRuntime) -> Result<(), Fail> {
    let (table, groups) = changed_table().ok_or("table")?;
    assert!(rt; table.n() == 4 && table.manager() == 1);
    assert!(rt; table.groups() == groups.as_slice());
    assert!(rt; table.group(0).is_none() && table.group(6).is_none());
    let places = [(0, true), (2, false), (3, true), (4, false), (255, false)];
    let first = table.group(1).ok_or("group")?;
    assert!(rt; has_live(first, 3, &places));
    for (ne, port, seat) in [
        (2, 0, Some((1, 2))),
        (3, 2, Some((3, 2))),
        (3, 1, Some((4, 0))),
        (3, 3, None),
        (4, 0, None),
    ] {
        assert!(rt; table.group_of(Proc { ne, port }) == seat, "{ne}.{port}");
    }
    Ok(())
}

#[test]
fn tells_tables_apart(rt: HostRuntime) -> Result<(), Fail> {
    let (table, _) = changed_table().ok_or("table")?;
    let other = Table::new(4, 1, &four_elements()).ok().ok_or("other")?;
    assert!(rt; table.same_table(&table.copy()) && !table.same_table(&other));
    Ok(())
}
