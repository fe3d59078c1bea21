//! The agreed pattern: what an element reads from two rounds in which all elements send their patterns.
#![tactic(auto)]

ghost use Rattle.std.specs.Prelude.{◌≡◌, ◌<◌, ◌≤◌};
ghost use Rattle.ftpp_base.specs.Lists.{cell_at, each_below};
ghost use Rattle.two_round.specs.Echoes.{Echoes, result_for};
ghost use Rattle.local_pattern.specs.Pattern.{read_column};
ghost use Rattle.pattern_exchange.specs.Settled.{settled};

use bit_vote::Cells;
use ftpp_base::Ne;
use local_pattern::SystemPattern;
use two_round::TwoRound;

/// The pattern of all elements, each read entry by entry from its two-round result. Where there is no
/// result, or an entry is outside the grammar, no request and no space are shown.
pub fn pattern_of<const N: usize>(results: &Cells<N, 32>) -> SystemPattern<N>
    requires { N ≤ 5 }
    ensures read { result ≡ each_below N (λ s. read_column (cell_at results.now s)) }
    ensures settled { (x : Echoes) → results.now ≡ each_below N (result_for x) → result ≡ settled N x }
{
    let mut pattern = SystemPattern::quiet();
    pattern_into(results, &mut pattern);
    pattern
}

/// Like `pattern_of`, but writes it in place of another one.
pub fn pattern_into<const N: usize>(results: &Cells<N, 32>, pattern: &mut SystemPattern<N>)
    requires { N ≤ 5 }
    ensures read { pattern.new ≡ each_below N (λ s. read_column (cell_at results.now s)) }
    ensures settled { (x : Echoes) → results.now ≡ each_below N (result_for x) → pattern.new ≡ settled N x }
{
    for k in 0..pattern.elements() {
        let source = Ne::at(k);
        pattern.reread(source, results.row(source.index()));
    }
}

/// The pattern of all elements, as one element reads it from what it holds of both rounds.
pub fn settle<const N: usize>(x: &TwoRound<N, 32>) -> SystemPattern<N>
    requires { N ≤ 5 }
    ensures { result ≡ settled N x.now }
{
    pattern_of(&x.results())
}
