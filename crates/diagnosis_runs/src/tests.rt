ghost use Rattle.std.specs.Prelude.{◌<◌};

use config_table::{ConfigError, Group, Table};
use diagnosis::{DiagnosisText, Suspects, diagnosis_text};
use ftpp_base::Ne;
use std::test::*;
use syndrome_log::SyndromeKind::{D1, D2, O, P1, P2, R, V};
use syndrome_log::{Syndrome, SyndromeKind};

/// What an element noted: the kind, the accused and the other.
type Noted<'a> = &'a [(SyndromeKind, u8, u8)];

/// The built-in table of four elements.
fn four_elements() -> Result<Table, ConfigError> {
    Table::new(
        4,
        1,
        &[
            Group::usual(1, &[(0, 0), (1, 0), (2, 0), (3, 0)]),
            Group::usual(2, &[(0, 1), (1, 1), (2, 1)]),
            Group::usual(3, &[(1, 2), (2, 2), (3, 2)]),
            Group::usual(4, &[(3, 1)]),
            Group::usual(5, &[(0, 3)]),
        ],
    )
}

/// An element of four, and the last one for a greater number.
fn element(number: u8) -> Ne
    ensures { result < 4 }
{
    Ne::at(usize::from(number.min(3)))
}

/// The suspects of an element of four after these entries.
fn suspects_after(me: u8, noted: Noted) -> Suspects {
    let mut suspects = Suspects::all(4, element(me));
    for (kind, accused, other) in noted {
        suspects.note(&Syndrome {
            cycle: 0,
            kind: *kind,
            accused: element(*accused),
            other: element(*other),
        });
    }
    suspects
}

/// The lines, where there are suspects for each element of the table.
fn lines_of(table: &Table, faulty: Option<Ne>, suspects: &[Suspects]) -> Option<DiagnosisText> {
    if suspects.len() == usize::from(table.n()) {
        Some(diagnosis_text(table, faulty, suspects))
    } else {
        None
    }
}

#[test]
fn writes_the_lines_of_rows(rt: HostRuntime) -> Result<(), Fail> {
    // the faulty element, what each element noted, and the lines
    let rows: [(Option<u8>, [Noted; 4], &str); 6] = [
        (
            Some(3),
            [&[], &[(P2, 3, 0)], &[], &[]],
            "suspects 0 1 2 3\nsuspects 1 0 3\nsuspects 2 0 1 3\n",
        ),
        (
            Some(3),
            [
                &[(P1, 3, 3), (P2, 1, 3)],
                &[(P1, 3, 3), (P2, 0, 3)],
                &[(P2, 0, 3), (P2, 1, 3)],
                &[],
            ],
            "suspects 0 3\nsuspects 1 3\nsuspects 2 3\nmask 1 3\nmask 3 2\n",
        ),
        (
            Some(3),
            [
                &[(D1, 3, 3), (D2, 1, 3), (D2, 2, 3)],
                &[(D1, 3, 3)],
                &[(D1, 3, 3)],
                &[],
            ],
            "suspects 0 3\nsuspects 1 3\nsuspects 2 3\nmask 1 3\nmask 3 2\n",
        ),
        // entries on members leave all
        (
            Some(3),
            [&[(V, 2, 2), (R, 1, 1), (O, 1, 1)], &[], &[], &[(P1, 0, 0)]],
            "suspects 0 1 2 3\nsuspects 1 0 2 3\nsuspects 2 0 1 3\n",
        ),
        // the masks are those of the least element that is not faulty
        (
            Some(0),
            [&[(P1, 3, 3)], &[(P1, 0, 0)], &[], &[]],
            "suspects 1 0\nsuspects 2 0 1 3\nsuspects 3 0 1 2\nmask 1 0\nmask 2 0\n",
        ),
        (
            None,
            [&[], &[], &[], &[]],
            "suspects 0 1 2 3\nsuspects 1 0 2 3\nsuspects 2 0 1 3\nsuspects 3 0 1 2\n",
        ),
    ];
    let table = four_elements()?;
    for (place, (faulty, noted, lines)) in rows.iter().enumerate() {
        let suspects = [
            suspects_after(0, noted[0]),
            suspects_after(1, noted[1]),
            suspects_after(2, noted[2]),
            suspects_after(3, noted[3]),
        ];
        let faulty = faulty.map(element);
        let text = lines_of(&table, faulty, &suspects).ok_or("four elements")?;
        assert_eq!(rt; text.as_slice(), lines.as_bytes(), "row {place}");
    }
    Ok(())
}
