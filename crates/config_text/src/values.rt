//! The kinds of values: numbers, processors and sets.

ghost use Rattle.std.specs.Prelude.{◌≡◌, ◌≤◌, ◌&&◌, option_map, IfSome};
ghost use Rattle.toml.specs.Data.{as_integer};
ghost use Rattle.toml.specs.View.{view, array_view};
ghost use Rattle.config_text.specs.Values.{number_of, version_of, proc_from, proc_of, row_of, few_procs, procs_of, set_from, set_of, is_digit};

use ftpp_base::{Proc, Row, Set8};
use toml::Value;
use toml::value::Array;

/// An integer up to `top`.
#[tactic(auto, unfolding(crate::specs::Values::number_of))]
pub(crate) fn number(value: &Value, top: u16) -> Option<u16>
    ensures value { result ≡ number_of top (view value.now) }
    ensures within { IfSome result (λ n. n ≤ top) }
{
    let n = value.as_integer()?;
    if 0 <= n && n <= i64::from(top) {
        Some(n as u16)
    } else {
        None
    }
}

/// 1 or 2.
#[tactic(auto, unfolding(crate::specs::Values::version_of))]
pub(crate) fn version_number(value: &Value) -> Option<u16>
    ensures value { result ≡ version_of (view value.now) }
    ensures within { IfSome result (λ n. n ≤ 2) }
{
    let n = number(value, 255)?;
    if n == 1 || n == 2 { Some(n) } else { None }
}

/// Whether a byte is a decimal digit.
fn is_digit(b: u8) -> bool
    ensures { result ≡ is_digit b }
{
    48 <= b && b <= 57
}

/// One digit, a dot, one digit.
fn proc_from(word: &[u8]) -> Option<Proc>
    ensures { result ≡ proc_from word.now }
{
    match word {
        [e, dot, p] => {
            if is_digit(*e) && *dot == b'.' && is_digit(*p) {
                Some(Proc {
                    ne: *e - b'0',
                    port: *p - b'0',
                })
            } else {
                None
            }
        }
        _ => None,
    }
}

/// A text of one processor.
#[tactic(auto, unfolding(crate::specs::Values::proc_of))]
fn proc_of(value: &Value) -> Option<Proc>
    ensures { result ≡ proc_of (view value.now) }
{
    let text = value.as_str()?;
    proc_from(text.as_bytes())
}

/// At most four processors.
#[tactic(auto, using(crate::proofs::Counted::count_view), unfolding(crate::specs::Values::few_procs))]
fn few_procs(array: &Array) -> Option<Row<Proc, 4>>
    ensures { result ≡ option_map row_of (few_procs (array_view array.now)) }
{
    if array.len() > 4 {
        return None;
    }
    let mut row: Row<Proc, 4> = Row::new();
    for value in array {
        match proc_of(value) {
            Some(proc) => row.push(proc),
            None => return None,
        }
    }
    Some(row)
}

/// An array of at most four processors.
#[tactic(auto, unfolding(crate::specs::Values::procs_of))]
pub(crate) fn procs_of(value: &Value) -> Option<Row<Proc, 4>>
    ensures { result ≡ procs_of (view value.now) }
{
    let array = value.as_array()?;
    few_procs(array)
}

/// The set of the numbers of an array, each below 8.
fn set_from(array: &Array) -> Option<Set8>
    ensures { result ≡ set_from (record { bits = 0 }) (array_view array.now) }
{
    let mut found = Set8::EMPTY;
    for value in array {
        match number(value, 7) {
            Some(i) => found = found.with(i as u8),
            None => return None,
        }
    }
    Some(found)
}

/// An array of numbers below 8, as a set.
#[tactic(auto, unfolding(crate::specs::Values::set_of))]
pub(crate) fn set_of(value: &Value) -> Option<Set8>
    ensures { result ≡ set_of (view value.now) }
{
    let array = value.as_array()?;
    set_from(array)
}
