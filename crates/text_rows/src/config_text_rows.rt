use config_table::{ConfigError, Group};
use config_text::{ConfigKey, Place, TextError, print_config, read_config};
use ftpp_base::Proc;
use std::test::Fail;

/// The first lines of a file of version 1, and of one of version 2.
const V1: &str = "version = 1\nelements = 4\nmanager = 1";

const V2: &str = "version = 2\nelements = 4\nmanager = 1";

/// The built-in table of four elements, as a user writes it.
const BUILT_IN: &str =
    "# four elements\nversion = 1\nelements = 4\nmanager = 1\n\n[[group]]\nvid = 1\nmembers = [\"0.0\", \"1.0\", \"2.0\", \"3.0\"]\nts = 3\ntr = 2\n\n[[group]]\nvid = 2\nmembers = [\"0.1\", \"1.1\", \"2.1\"]\nts = 3\ntr = 2\n\n[[group]]\nvid = 3\nmembers = [\"1.2\", \"2.2\", \"3.2\"]\nts = 3\ntr = 2\n\n[[group]]\nvid = 4\nmembers = [\"3.1\"]\nts = 3\ntr = 2\n\n[[group]]\nvid = 5\nmembers = [\"0.3\"]\nts = 3\ntr = 2\nmasked = []\n";

/// Its first two groups, and a member that is masked twice.
const FOUR: &str =
    "# four elements\nversion = 1\nelements = 4\nmanager = 1\n\n[[group]]\nvid = 1\nmembers = [\"0.0\", \"1.0\", \"2.0\", \"3.0\"]\nts = 3\ntr = 2\n\n[[group]]\nvid = 2\nmembers = [\"0.1\", \"1.1\", \"2.1\"]\nts = 3\ntr = 2\nmasked = [1, 1]\n";

/// What is wrong with a file.
fn error_of(rt: &HostRuntime, bytes: &[u8]) -> Option<TextError> {
    read_config(rt.alloc(), bytes).err()
}

/// A key at the top.
fn top(key: ConfigKey) -> Place {
    Place { group: None, key }
}

/// A key of the second group.
fn second(key: ConfigKey) -> Place {
    Place {
        group: Some(1),
        key,
    }
}

#[test]
fn reads_and_prints(rt: HostRuntime) -> Result<(), Fail> {
    let alloc = rt.alloc();
    let built_in = read_config(alloc, BUILT_IN.as_bytes())?;
    assert_eq!(rt; (built_in.n(), built_in.manager()), (4, 1));
    assert_eq!(rt;
        built_in.groups(),
        [
            Group::usual(1, &[(0, 0), (1, 0), (2, 0), (3, 0)]),
            Group::usual(2, &[(0, 1), (1, 1), (2, 1)]),
            Group::usual(3, &[(1, 2), (2, 2), (3, 2)]),
            Group::usual(4, &[(3, 1)]),
            Group::usual(5, &[(0, 3)]),
        ]
        .as_slice()
    );
    let table = read_config(alloc, FOUR.as_bytes())?;
    assert_eq!(rt;
        (table.n(), table.manager(), table.groups().len()),
        (4, 1, 2)
    );
    let group = table.group(2).ok_or("no group 2")?;
    assert_eq!(rt;
        (group.masked.bits, group.tx, group.outs, group.ins),
        (2, 0, 16, 32)
    );
    let text = print_config(alloc, &table)?;
    let written = String::from_utf8(text).ok().ok_or("text")?;
    assert_eq!(rt;
        written.as_str(),
        "elements = 4\nmanager = 1\nversion = 2\n\n[[group]]\nins = 32\nmasked = []\nmembers = [\"0.0\", \"1.0\", \"2.0\", \"3.0\"]\nouts = 16\ntr = 2\nts = 3\ntx = 0\nvid = 1\n\n[[group]]\nins = 32\nmasked = [1]\nmembers = [\"0.1\", \"1.1\", \"2.1\"]\nouts = 16\ntr = 2\nts = 3\ntx = 0\nvid = 2\n"
    );
    let again = print_config(alloc, &read_config(alloc, written.as_bytes())?)?;
    assert_eq!(rt; again.as_slice(), written.as_bytes());
    Ok(())
}

/// What is wrong with a file that begins with these lines and whose second group has these.
fn error_in(rt: &HostRuntime, head: &str, lines: &str) -> Result<Option<TextError>, Fail> {
    let text = format!(in rt.alloc();
        "{head}\n[[group]]\nvid = 1\nmembers = [\"0.0\", \"1.0\", \"2.0\"]\nts = 3\ntr = 2\n[[group]]\n{lines}"
    )?;
    Ok(error_of(rt, text.as_bytes()))
}

#[test]
fn names_the_first_failing_test(rt: HostRuntime) -> Result<(), Fail> {
    for (text, want, code) in [
        ("[", TextError::NotToml, 13),
        ("version = 1\nversion = 1", TextError::NotToml, 13),
        (
            "a = 1\nversion = 7",
            TextError::Key(top(ConfigKey::Other)),
            14,
        ),
        ("elements = 4", TextError::Key(top(ConfigKey::Version)), 14),
        ("version = 3", TextError::Kind(top(ConfigKey::Version)), 15),
        ("version = 2", TextError::Key(top(ConfigKey::Elements)), 14),
        (
            "version = 1\nelements = 256",
            TextError::Kind(top(ConfigKey::Elements)),
            15,
        ),
        (
            "version = 1\nelements = 4",
            TextError::Key(top(ConfigKey::Manager)),
            14,
        ),
        (
            "version = 1\nelements = 4\nmanager = -1",
            TextError::Kind(top(ConfigKey::Manager)),
            15,
        ),
        (
            "version = 1\nelements = 4\nmanager = 1",
            TextError::Key(top(ConfigKey::Groups)),
            14,
        ),
        (
            "version = 1\nelements = 4\nmanager = 1\ngroup = 3",
            TextError::Kind(top(ConfigKey::Groups)),
            15,
        ),
        (
            "version = 1\nelements = 4\nmanager = 1\ngroup = [3]",
            TextError::Kind(Place {
                group: Some(0),
                key: ConfigKey::Groups,
            }),
            15,
        ),
        (
            "version = 1\nelements = 4\nmanager = 1\ngroup = []",
            TextError::Table(ConfigError::GroupCount { count: 0 }),
            2,
        ),
    ] {
        assert_eq!(rt; want.code(), Some(code));
        assert_eq!(rt; error_of(&rt, text.as_bytes()), Some(want));
    }
    assert_eq!(rt; error_of(&rt, &[b'#', 255]), Some(TextError::NotToml));
    for (head, lines, want, code) in [
        (
            V1,
            "vid = 2",
            TextError::Key(second(ConfigKey::Members)),
            14,
        ),
        (
            V1,
            "vid = 2\ntx = 1",
            TextError::Key(second(ConfigKey::Other)),
            14,
        ),
        (
            V2,
            "vid = 2\ntz = 1",
            TextError::Key(second(ConfigKey::Other)),
            14,
        ),
        (V2, "tx = -1", TextError::Key(second(ConfigKey::Vid)), 14),
        (
            V1,
            "vid = \"2\"",
            TextError::Kind(second(ConfigKey::Vid)),
            15,
        ),
        (V1, "vid = 256", TextError::Kind(second(ConfigKey::Vid)), 15),
        (
            V1,
            "vid = 2\nmembers = [\"0.1\", \"0.2\", \"0.3\", \"0.4\", \"0.5\"]",
            TextError::Kind(second(ConfigKey::Members)),
            15,
        ),
        (
            V1,
            "vid = 2\nmembers = [\"10.0\"]",
            TextError::Kind(second(ConfigKey::Members)),
            15,
        ),
        (
            V1,
            "vid = 2\nmembers = [\"3,1\"]\ntr = 2",
            TextError::Kind(second(ConfigKey::Members)),
            15,
        ),
        (
            V1,
            "vid = 2\nmembers = [\"3.1\"]\ntr = 2",
            TextError::Key(second(ConfigKey::Ts)),
            14,
        ),
        (
            V1,
            "vid = 2\nmembers = [\"3.1\"]\nts = -1",
            TextError::Kind(second(ConfigKey::Ts)),
            15,
        ),
        (
            V1,
            "vid = 2\nmembers = [\"3.1\"]\nts = 3",
            TextError::Key(second(ConfigKey::Tr)),
            14,
        ),
        (
            V1,
            "vid = 2\nmembers = [\"3.1\"]\nts = 3\ntr = 65536",
            TextError::Kind(second(ConfigKey::Tr)),
            15,
        ),
        (
            V1,
            "vid = 2\nmembers = [\"3.1\"]\nts = 3\ntr = 2\nmasked = [8]",
            TextError::Kind(second(ConfigKey::Masked)),
            15,
        ),
        (
            V2,
            "vid = 2\nmembers = [\"3.1\"]\nts = 3\ntr = 2\nmasked = 0",
            TextError::Kind(second(ConfigKey::Masked)),
            15,
        ),
        (
            V2,
            "vid = 2\nmembers = [\"3.1\"]\nts = 3\ntr = 2\ntx = 1.0\nouts = -1",
            TextError::Kind(second(ConfigKey::Tx)),
            15,
        ),
        (
            V2,
            "vid = 2\nmembers = [\"3.1\"]\nts = 3\ntr = 2\nouts = 256",
            TextError::Kind(second(ConfigKey::Outs)),
            15,
        ),
        (
            V2,
            "vid = 2\nmembers = [\"3.1\"]\nts = 3\ntr = 2\nins = true",
            TextError::Kind(second(ConfigKey::Ins)),
            15,
        ),
        (
            V2,
            "vid = 2\nmembers = [\"3.1\"]\nts = 3\ntr = 2\nouts = 65",
            TextError::Table(ConfigError::Slots { vid: 2, value: 65 }),
            17,
        ),
        (
            V1,
            "vid = 2\nmembers = [\"3.1\", \"2.5\"]\nts = 3\ntr = 2",
            TextError::Table(ConfigError::Size { vid: 2, size: 2 }),
            5,
        ),
        // each clause of a valid table
        (
            "version = 1\nelements = 6\nmanager = 1",
            "vid = 2\nmembers = [\"3.1\"]\nts = 3\ntr = 2",
            TextError::Table(ConfigError::Elements { n: 6 }),
            1,
        ),
        (
            V1,
            "vid = 0\nmembers = [\"3.1\"]\nts = 3\ntr = 2",
            TextError::Table(ConfigError::Vid { vid: 0 }),
            3,
        ),
        (
            V1,
            "vid = 1\nmembers = [\"3.1\"]\nts = 3\ntr = 2",
            TextError::Table(ConfigError::VidOrder { vid: 1 }),
            4,
        ),
        (
            V1,
            "vid = 2\nmembers = [\"4.1\"]\nts = 3\ntr = 2",
            TextError::Table(ConfigError::MemberRange {
                vid: 2,
                proc: Proc { ne: 4, port: 1 },
            }),
            6,
        ),
        (
            V1,
            "vid = 2\nmembers = [\"3.1\", \"2.2\", \"3.3\"]\nts = 3\ntr = 2",
            TextError::Table(ConfigError::SameElement { vid: 2, ne: 3 }),
            7,
        ),
        (
            V1,
            "vid = 2\nmembers = [\"0.0\"]\nts = 3\ntr = 2",
            TextError::Table(ConfigError::SharedProcessor {
                vid: 2,
                proc: Proc { ne: 0, port: 0 },
            }),
            8,
        ),
        (
            V1,
            "vid = 2\nmembers = [\"3.1\"]\nts = 3\ntr = 2\nmasked = [0]",
            TextError::Table(ConfigError::Masked { vid: 2, masked: 1 }),
            9,
        ),
        (
            V1,
            "vid = 2\nmembers = [\"3.1\"]\nts = 3\ntr = 0",
            TextError::Table(ConfigError::Timeout { vid: 2, value: 0 }),
            10,
        ),
        (
            "version = 1\nelements = 4\nmanager = 3",
            "vid = 2\nmembers = [\"3.1\"]\nts = 3\ntr = 2",
            TextError::Table(ConfigError::Manager { manager: 3 }),
            11,
        ),
        (
            "version = 1\nelements = 4\nmanager = 2",
            "vid = 2\nmembers = [\"3.1\"]\nts = 3\ntr = 2",
            TextError::Table(ConfigError::ManagerLive {
                manager: 2,
                live: 1,
            }),
            12,
        ),
        (
            V2,
            "vid = 2\nmembers = [\"3.1\"]\nts = 3\ntr = 2\ntx = 1001",
            TextError::Table(ConfigError::Expiry {
                vid: 2,
                value: 1001,
            }),
            16,
        ),
    ] {
        assert_eq!(rt; want.code(), Some(code));
        assert_eq!(rt; error_in(&rt, head, lines)?, Some(want), "{lines}");
    }
    Ok(())
}

#[test]
fn refuses_cut_files_and_names_errors(rt: HostRuntime) -> Result<(), Fail> {
    for end in 0..41usize {
        // lines are whole at the end of the comment and of the first two keys
        let is_whole = matches!(end, 0..=16 | 27 | 28 | 40);
        let cut = FOUR.as_bytes().get(..end).ok_or("a short file")?;
        let code = error_of(&rt, cut).and_then(|error| error.code());
        assert_eq!(rt; code, Some(if is_whole { 14 } else { 13 }), "{end}");
    }
    let place = top(ConfigKey::Other);
    for (error, want) in [
        (TextError::NotToml, "NotToml"),
        (TextError::Key(place), "Key"),
        (TextError::Kind(place), "Kind"),
        (
            TextError::Table(ConfigError::Manager { manager: 1 }),
            "Table",
        ),
        (TextError::Memory, "Memory"),
    ] {
        let text = format!(in rt.alloc(); "{error}")?;
        assert_eq!(rt; text.as_str(), want);
    }
    assert_eq!(rt; TextError::Memory.code(), None);
    Ok(())
}
