//! Lines and words of bytes.

ghost use Rattle.std.specs.Prelude.{◌≡◌, ◌+◌, ◌<◌, ◌≤◌, [], ◌∷◌, length, map, take, position, option_copied, IfSome, MatchOption};
ghost use Rattle.std.specs.List.{slice_split};
ghost use Rattle.std.specs.Str.Lines.{strip_carriage_return};
ghost use Rattle.script_words.specs.Lines.{is_newline, is_blank, is_solid, words_of, pieces_left};

use ftpp_base::Row;

/// The place of the first newline.
fn first_newline(text: &[u8]) -> Option<usize>
    ensures { result ≡ position is_newline text.now }
{
    text.iter().position(|b| *b == b'\n')
}

/// The place of the first space or tab.
fn first_blank(line: &[u8]) -> Option<usize>
    ensures { result ≡ position is_blank line.now }
{
    line.iter().position(|b| is_space(*b))
}

/// The place of the first byte that is no space and no tab.
fn first_solid(line: &[u8]) -> Option<usize>
    ensures { result ≡ position is_solid line.now }
{
    line.iter().position(|b| !is_space(*b))
}

/// The bytes up to the first newline, and those after it where there is one.
#[tactic(auto, using(crate::proofs::Cuts::cut_first, crate::proofs::Cuts::cut_none, std::proofs::lemmas::List::take_rest))]
pub fn cut_line(text: &[u8]) -> (&[u8], Option<&[u8]>)
    ensures cut { slice_split is_newline text.now ≡ result.0.now ∷ pieces_left (option_copied result.1) }
    ensures shorter { IfSome result.1 (λ after. length after.now < length text.now) }
{
    match first_newline(text) {
        None => (text, None),
        Some(at) => {
            let (line, after) = text.split_at(at);
            (line, Some(&after[1..]))
        }
    }
}

/// The line without a carriage return at its end.
pub fn without_carriage_return(line: &[u8]) -> &[u8]
    ensures { result.now ≡ strip_carriage_return line.now }
{
    if !line.is_empty() && line[line.len() - 1] == b'\r' {
        return &line[..line.len() - 1];
    }
    line
}

/// The first word, and what follows it.
#[tactic(auto, using(crate::proofs::Cuts::word_first, crate::proofs::Cuts::word_last, crate::proofs::Cuts::word_none))]
fn cut_word(line: &[u8]) -> Option<(&[u8], &[u8])>
    ensures { MatchOption result (words_of line.now ≡ []) (λ cut. words_of line.now ≡ cut.0.now ∷ words_of cut.1.now) }
{
    let start = first_solid(line)?;
    let (_blanks, rest) = line.split_at(start);
    match first_blank(rest) {
        None => Some((rest, &rest[rest.len()..])),
        Some(len) => Some(rest.split_at(len)),
    }
}

/// Whether a byte is a space or a tab.
fn is_space(b: u8) -> bool
    ensures { result ≡ is_blank b }
{
    b == b' ' || b == b'\t'
}

/// The first nine words.
#[tactic(auto, using(crate::proofs::Cuts::front_whole, crate::proofs::Cuts::front_nine))]
pub fn words<'a>(line: &'a [u8]) -> Row<&'a [u8], 9>
    ensures { map (λ w. w.now) result.items ≡ take 9 (words_of line.now) }
{
    let mut words = Row::new();
    let mut rest = line;
    for _ in 0..9usize {
        match cut_word(rest) {
            None => return words,
            Some((word, after)) => {
                words.push(word);
                rest = after;
            }
        }
    }
    words
}
