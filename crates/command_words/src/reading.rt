//! Words as commands.

ghost use Rattle.std.specs.Prelude.{◌≡◌, map, string_bytes, option_map, IfSome};
ghost use Rattle.command_words.specs.Commands.{soak_of, sweep_of, make_of, node_of, named_of, audit_of, command_of};
ghost use Rattle.command_words.specs.Values.{command_value, IsInRange};

use crate::commands::Command;
use crate::numbers::{element, number_within};
use crate::options::{config, optional_config};
use ftpp_base::MOST_CYCLES;

/// The most cycles of a script that is written.
const MOST_MADE: u64 = 10_000;

/// The most cycles of a sweep in all.
const MOST_SWEPT: u64 = 1_000_000;

/// The most starts of a sweep.
const MOST_STARTS: u64 = 64;

/// `soak START CYCLES`.
#[tactic(auto, unfolding(crate::specs::Commands::soak_of))]
fn soak<'a>(words: &[String]) -> Option<Command<'a>>
    ensures command { option_map command_value result ≡ soak_of (map string_bytes words.now) }
    ensures ranges { IfSome result IsInRange }
{
    match words {
        [start, cycles] => {
            let start = number_within(0, u64::MAX, start.as_str())?;
            let cycles = number_within(1, u64::from(MOST_CYCLES), cycles.as_str())? as u32;
            Some(Command::Soak { start, cycles })
        }
        _ => None,
    }
}

/// `sweep START COUNT CYCLES`.
#[tactic(auto, unfolding(crate::specs::Commands::sweep_of))]
fn sweep<'a>(words: &[String]) -> Option<Command<'a>>
    ensures command { option_map command_value result ≡ sweep_of (map string_bytes words.now) }
    ensures ranges { IfSome result IsInRange }
{
    match words {
        [start, count, cycles] => {
            let start = number_within(0, u64::MAX, start.as_str())?;
            let count = number_within(1, MOST_STARTS, count.as_str())?;
            let cycles = number_within(1, u64::from(MOST_CYCLES), cycles.as_str())?;
            if start > u64::MAX - (count - 1) || count * cycles > MOST_SWEPT {
                return None;
            }
            Some(Command::Sweep {
                start,
                count: count as u32,
                cycles: cycles as u32,
            })
        }
        _ => None,
    }
}

/// `make START CYCLES`.
#[tactic(auto, unfolding(crate::specs::Commands::make_of))]
fn make<'a>(words: &[String]) -> Option<Command<'a>>
    ensures command { option_map command_value result ≡ make_of (map string_bytes words.now) }
    ensures ranges { IfSome result IsInRange }
{
    match words {
        [start, cycles] => {
            let start = number_within(0, u64::MAX, start.as_str())?;
            let cycles = number_within(1, MOST_MADE, cycles.as_str())? as u32;
            Some(Command::Make { start, cycles })
        }
        _ => None,
    }
}

/// `node E CYCLES` and perhaps a configuration.
#[tactic(auto, unfolding(crate::specs::Commands::node_of))]
fn node(words: &[String]) -> Option<Command<'_>>
    ensures command { option_map command_value result ≡ node_of (map string_bytes words.now) }
    ensures ranges { IfSome result IsInRange }
{
    match words {
        [number, cycles, options @ ..] => {
            let element = element(number.as_str())?;
            let cycles = number_within(1, u64::from(MOST_CYCLES), cycles.as_str())? as u32;
            let config = optional_config(options)?;
            Some(Command::Node {
                element,
                cycles,
                config,
            })
        }
        _ => None,
    }
}

/// An element, or `Some(None)` for `none`.
#[tactic(auto, unfolding(crate::specs::Commands::named_of))]
fn named(word: &str) -> Option<Option<u8>>
    ensures { result ≡ named_of word.now }
{
    if word == "none" {
        return Some(None);
    }
    Some(Some(element(word)?))
}

/// `audit E` or `audit none`, and perhaps a configuration.
#[tactic(auto, unfolding(crate::specs::Commands::audit_of))]
fn audit(words: &[String]) -> Option<Command<'_>>
    ensures command { option_map command_value result ≡ audit_of (map string_bytes words.now) }
    ensures ranges { IfSome result IsInRange }
{
    match words {
        [word, options @ ..] => {
            let named = named(word.as_str())?;
            let config = optional_config(options)?;
            Some(Command::Audit { named, config })
        }
        _ => None,
    }
}

/// What the words behind the program's name ask for; None exactly where they are not lawful.
#[tactic(auto, unfolding(crate::specs::Commands::command_of))]
pub fn read_words(words: &[String]) -> Option<Command<'_>>
    ensures command { option_map command_value result ≡ command_of (map string_bytes words.now) }
    ensures ranges { IfSome result IsInRange }
{
    let (name, words) = words.split_first()?;
    match name.as_str() {
        "run" => Some(Command::Run {
            config: optional_config(words)?,
        }),
        "trace" => Some(Command::Trace {
            config: optional_config(words)?,
        }),
        "check" => Some(Command::Check {
            config: config(words)?,
        }),
        "migrate" => Some(Command::Migrate {
            config: config(words)?,
        }),
        "soak" => soak(words),
        "sweep" => sweep(words),
        "make" => make(words),
        "node" => node(words),
        "audit" => audit(words),
        "diagnose" => Some(Command::Diagnose {
            config: optional_config(words)?,
        }),
        _ => None,
    }
}
