//! The two built-in tables.

ghost use Rattle.std.specs.Prelude.{◌≡◌};
ghost use Rattle.built_in_tables.specs.Tables.{c4, c5};

use config_table::{Group, Table};

/// The built-in table of four elements. Its manager is the group of all of them.
pub fn built_in_4() -> Table
    ensures { result ≡ c4 }
{
    let groups = [
        Group::usual(1, &[(0, 0), (1, 0), (2, 0), (3, 0)]),
        Group::usual(2, &[(0, 1), (1, 1), (2, 1)]),
        Group::usual(3, &[(1, 2), (2, 2), (3, 2)]),
        Group::usual(4, &[(3, 1)]),
        Group::usual(5, &[(0, 3)]),
    ];
    match Table::new(4, 1, groups.as_slice()) {
        Ok(table) => table,
        Err(_) => unreachable!(),
    }
}

/// The built-in table of five elements. Its manager is the group of the first four.
pub fn built_in_5() -> Table
    ensures { result ≡ c5 }
{
    let groups = [
        Group::usual(1, &[(0, 0), (1, 0), (2, 0), (3, 0)]),
        Group::usual(2, &[(1, 1), (2, 1), (3, 1)]),
        Group::usual(3, &[(2, 2), (3, 2), (4, 2)]),
        Group::usual(4, &[(0, 3), (1, 3), (3, 3), (4, 3)]),
        Group::usual(5, &[(4, 4)]),
        Group::usual(6, &[(0, 5)]),
    ];
    match Table::new(5, 1, groups.as_slice()) {
        Ok(table) => table,
        Err(_) => unreachable!(),
    }
}
