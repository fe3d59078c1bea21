ghost use Rattle.std.specs.Prelude.{◌≡◌};
ghost use Rattle.sender_choice.specs.Sinces.{nothing_held};

use super::*;
use ftpp_base::VidSet;
use std::test::Fail;

/// The set of some group numbers.
fn set_of(vids: &[u8]) -> VidSet {
    let mut set = VidSet::new();
    for vid in vids {
        set.put(*vid);
    }
    set
}

/// What a chooser that holds no group answers to calls of each kind.
fn answers<C: Chooser>(chooser: &mut C) -> [Option<(u8, u32)>; 9]
    requires { C.held chooser.old ≡ nothing_held }
{
    let eligible = set_of(&[2, 5]);
    let calls = [
        ChoiceCall::Set { vid: 5, since: 0 },
        ChoiceCall::Set { vid: 2, since: 1 },
        ChoiceCall::Set { vid: 3, since: 0 },
        ChoiceCall::Oldest {
            eligible: set_of(&[2, 3, 5]),
        },
        ChoiceCall::Oldest { eligible },
        ChoiceCall::Oldest {
            eligible: set_of(&[]),
        },
        ChoiceCall::Set { vid: 5, since: 2 },
        ChoiceCall::Clear { vid: 3 },
        ChoiceCall::Oldest {
            eligible: set_of(&[2, 3, 5]),
        },
    ];
    let mut out = [None; 9];
    drive(chooser, &calls, &mut out);
    out
}

#[test]
fn choosers_find_the_oldest_of_a_set(rt: HostRuntime) -> Result<(), Fail> {
    let expected = [
        None,
        None,
        None,
        Some((3, 0)),
        Some((5, 0)),
        None,
        None,
        None,
        Some((2, 1)),
    ];
    assert_eq!(rt; answers(&mut ScanChooser::new()), expected);
    assert_eq!(rt; answers(&mut IndexChooser::new()), expected);
    Ok(())
}
