//! Lines that take no memory.

ghost use Rattle.std.specs.Prelude.{◌≡◌, ◌+◌, ◌≤◌, ◌++◌, length};
ghost use Rattle.std.specs.Fmt.{decimal};
ghost use Rattle.command_steps.specs.Lines.{line_room, script_line, config_line, valid_line};

use arrayvec::ArrayVec;
use config_table::Table;
use itoa::Buffer;

/// A line of at most 256 bytes.
pub type Line = ArrayVec<u8, 256>;

/// Appends bytes as they are.
pub fn piece(line: &mut Line, bytes: &[u8])
    requires { length line.old.items + length bytes.now ≤ line_room }
    ensures text { line.new.items ≡ line.old.items ++ bytes.now }
    ensures len { length line.new.items ≡ length line.old.items + length bytes.now }
{
    line.try_extend_from_slice(bytes).unwrap();
}

/// Appends a number in decimal.
pub fn number(line: &mut Line, n: u64)
    requires { length line.old.items + 20 ≤ line_room }
    ensures text { line.new.items ≡ line.old.items ++ decimal n }
    ensures len { length line.new.items ≤ length line.old.items + 20 }
{
    let mut buffer = Buffer::new();
    piece(line, buffer.format(n).as_bytes());
}

/// Appends the line of a refused script.
#[tactic(auto, using(crate::proofs::Pieces::script_pieces))]
fn put_script(line: u32, code: u8, text: &mut Line)
    requires { length text.old.items + 60 ≤ line_room }
    ensures { text.new.items ≡ text.old.items ++ script_line line code }
{
    piece(text, b"script ");
    number(text, u64::from(line));
    piece(text, b" ");
    number(text, u64::from(code));
    piece(text, b"\n");
}

/// Appends the line of a refused configuration file.
#[tactic(auto, using(crate::proofs::Pieces::config_pieces))]
fn put_config(code: u8, text: &mut Line)
    requires { length text.old.items + 60 ≤ line_room }
    ensures { text.new.items ≡ text.old.items ++ config_line code }
{
    piece(text, b"config ");
    number(text, u64::from(code));
    piece(text, b"\n");
}

/// Appends the line on a table.
#[tactic(auto, using(crate::proofs::Pieces::valid_pieces))]
fn put_valid(table: &Table, text: &mut Line)
    requires { length text.old.items + 110 ≤ line_room }
    ensures { text.new.items ≡ text.old.items ++ valid_line table.now }
{
    piece(text, b"valid elements ");
    number(text, u64::from(table.n()));
    piece(text, b" groups ");
    number(text, table.groups().len() as u64);
    piece(text, b" manager ");
    number(text, u64::from(table.manager()));
    piece(text, b"\n");
}

/// The line of a refused script.
pub(crate) fn script_line(line: u32, code: u8) -> Line
    ensures { result.items ≡ script_line line code }
{
    let mut text = Line::new();
    put_script(line, code, &mut text);
    text
}

/// The line of a refused configuration file.
pub(crate) fn config_line(code: u8) -> Line
    ensures { result.items ≡ config_line code }
{
    let mut text = Line::new();
    put_config(code, &mut text);
    text
}

/// The line on a table.
pub(crate) fn valid_line(table: &Table) -> Line
    ensures { result.items ≡ valid_line table.now }
{
    let mut text = Line::new();
    put_valid(table, &mut text);
    text
}
