//! Words that name a configuration file.

ghost use Rattle.std.specs.Prelude.{◌≡◌, map, codes, string_bytes, option_copied, option_map};
ghost use Rattle.command_words.specs.Commands.{is_word, name_of, behind, config_of, optional_config};

/// The name of a file, which is not empty and does not begin with `-`.
#[tactic(auto, unfolding(crate::specs::Commands::name_of))]
fn file_name(word: &str) -> Option<&str>
    ensures { option_copied result ≡ name_of word.now }
{
    match word.as_bytes() {
        [] | [b'-', ..] => None,
        _ => Some(word),
    }
}

/// What follows `--config=`.
fn behind_config(word: &str) -> Option<&str>
    ensures { option_copied result ≡ behind (codes "--config=") word.now }
{
    word.strip_prefix("--config=")
}

/// The file named by `--config NAME` or `--config=NAME`.
#[tactic(auto, unfolding(crate::specs::Commands::config_of))]
pub(crate) fn config(words: &[String]) -> Option<&str>
    ensures { option_copied result ≡ config_of (map string_bytes words.now) }
{
    match words {
        [word] => file_name(behind_config(word.as_str())?),
        [option, name] => {
            if option.as_str() == "--config" {
                return file_name(name.as_str());
            }
            None
        }
        _ => None,
    }
}

/// The same, or `Some(None)` for no words.
#[tactic(auto, unfolding(crate::specs::Commands::optional_config))]
pub(crate) fn optional_config(words: &[String]) -> Option<Option<&str>>
    ensures { option_map option_copied result ≡ optional_config (map string_bytes words.now) }
{
    if words.is_empty() {
        return Some(None);
    }
    Some(Some(config(words)?))
}
