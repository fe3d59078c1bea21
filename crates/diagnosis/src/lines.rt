//! The lines of a diagnosis.

ghost use Rattle.std.specs.Prelude.{◌≡◌, ◌+◌, ◌≤◌, ◌<◌, ◌++◌, ◌*◌, length};
ghost use Rattle.std.specs.List.{flat_map};
ghost use Rattle.std.specs.Fmt.{decimal};
ghost use Rattle.ftpp_base.specs.Lists.{is_this};
ghost use Rattle.diagnosis.specs.Suspects.{only_one};
ghost use Rattle.diagnosis.specs.Lines.{behind_blank, diagnosis_lines, least, mask_line, mask_lines, member_line, suspects_line, suspects_lines};

use crate::{Suspects, proposals};
use config_table::Table;
use ftpp_base::{Ne, Row};
use itoa::Buffer;
use table_update::Update;

/// How many bytes the lines of a diagnosis take at most.
pub const ROOM: usize = 1_024;

/// The bytes of the lines of a diagnosis.
pub type DiagnosisText = Row<u8, ROOM>;

/// The lines of a diagnosis after a run that ended with this table: for each element that was not faulty in the last cycle, the
/// numbers of its suspects; then, where the least of these elements has one suspect, the masks that are proposed. `suspects` is
/// by element.
#[tactic(auto, unfolding(crate::specs::Lines::diagnosis_lines))]
pub fn diagnosis_text(table: &Table, faulty: Option<Ne>, suspects: &[Suspects]) -> DiagnosisText
    requires { length suspects.now ≡ table.now.n }
    ensures { result.items ≡ diagnosis_lines table.now faulty suspects.now }
{
    let n = table.n();
    prove!(suspects.len() == usize::from(n));
    let mut out = DiagnosisText::new();
    suspects_lines(&faulty, suspects, &mut out);
    mask_lines(table, &suspects[least(&faulty).index()], &mut out);
    out
}

/// A line for each proposal, where there is one suspect.
fn mask_lines(table: &Table, suspects: &Suspects, out: &mut DiagnosisText)
    requires { length out.old.items + 520 ≤ ROOM }
    ensures { out.new.items ≡ out.old.items ++ mask_lines table.now (only_one suspects.now) }
{
    if let Some(ne) = suspects.only() {
        proposal_lines(proposals(table, ne).as_slice(), out);
    }
}

/// The least element that is not faulty.
pub fn least(faulty: &Option<Ne>) -> Ne
    ensures number { result ≡ least faulty.now }
    ensures small { result ≤ 1 }
{
    Ne::at(if is_faulty(faulty, 0) { 1 } else { 0 })
}

/// Whether this element is the faulty one.
fn is_faulty(faulty: &Option<Ne>, place: usize) -> bool
    ensures { result ≡ is_this faulty.now place }
{
    match faulty {
        Some(ne) => ne.index() == place,
        None => false,
    }
}

/// How many bytes the line of an element and its suspects takes at most.
const LINE: usize = 33;

/// A line for each element that is not faulty: its suspects.
fn suspects_lines(faulty: &Option<Ne>, suspects: &[Suspects], out: &mut DiagnosisText)
    requires few { length suspects.now ≤ 5 }
    requires room { length out.old.items + 33 * 5 ≤ ROOM }
    ensures text { out.new.items ≡ out.old.items ++ suspects_lines faulty.now 0 suspects.now }
    ensures len { length out.new.items ≤ length out.old.items + 33 * length suspects.now }
{
    for (place, left) in suspects.iter().enumerate() {
        if !is_faulty(faulty, place) {
            suspects_line(Ne::at(place), left, out);
        }
    }
}

/// The line of an element and its suspects.
#[tactic(auto, unfolding(crate::specs::Lines::suspects_line))]
fn suspects_line(ne: Ne, suspects: &Suspects, out: &mut DiagnosisText)
    requires { length out.old.items + LINE ≤ ROOM }
    ensures text { out.new.items ≡ out.old.items ++ suspects_line ne suspects.now }
    ensures len { length out.new.items ≤ length out.old.items + LINE }
{
    piece(b"suspects ", out);
    number(ne.byte(), out);
    behind_blanks(suspects.left(), out);
    piece(b"\n", out);
}

/// The numbers of some elements, each behind a blank.
fn behind_blanks(elements: &[Ne], out: &mut DiagnosisText)
    requires few { length elements.now ≤ 5 }
    requires room { length out.old.items + 20 ≤ ROOM }
    ensures text { out.new.items ≡ out.old.items ++ flat_map behind_blank elements.now }
    ensures len { length out.new.items ≤ length out.old.items + 4 * length elements.now }
{
    for ne in elements {
        piece(b" ", out);
        number(ne.byte(), out);
    }
}

/// A line for each proposal.
fn proposal_lines(proposals: &[Update], out: &mut DiagnosisText)
    requires few { length proposals.now ≤ 40 }
    requires room { length out.old.items + 520 ≤ ROOM }
    ensures text { out.new.items ≡ out.old.items ++ flat_map mask_line proposals.now }
{
    for update in proposals {
        mask_line(update, out);
    }
}

/// The line of a proposal, which is a mask.
fn mask_line(update: &Update, out: &mut DiagnosisText)
    requires { length out.old.items + 13 ≤ ROOM }
    ensures text { out.new.items ≡ out.old.items ++ mask_line update.now }
    ensures len { length out.new.items ≤ length out.old.items + 13 }
{
    if let Update::Mask { vid, member } = update {
        member_line(*vid, *member, out);
    }
}

/// The line of a member to mask.
#[tactic(auto, unfolding(crate::specs::Lines::member_line))]
fn member_line(vid: u8, member: u8, out: &mut DiagnosisText)
    requires { length out.old.items + 13 ≤ ROOM }
    ensures text { out.new.items ≡ out.old.items ++ member_line vid member }
    ensures len { length out.new.items ≤ length out.old.items + 13 }
{
    piece(b"mask ", out);
    number(vid, out);
    piece(b" ", out);
    number(member, out);
    piece(b"\n", out);
}

/// Bytes as they are.
fn piece(bytes: &[u8], out: &mut DiagnosisText)
    requires { length out.old.items + length bytes.now ≤ ROOM }
    ensures text { out.new.items ≡ out.old.items ++ bytes.now }
    ensures len { length out.new.items ≡ length out.old.items + length bytes.now }
{
    out.try_extend_from_slice(bytes).unwrap();
}

/// A number in decimal.
fn number(n: u8, out: &mut DiagnosisText)
    requires { length out.old.items + 3 ≤ ROOM }
    ensures text { out.new.items ≡ out.old.items ++ decimal n }
    ensures len { length out.new.items ≤ length out.old.items + 3 }
{
    let mut buffer = Buffer::new();
    piece(buffer.format(n).as_bytes(), out);
}
