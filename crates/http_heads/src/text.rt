//! Spaces and tabs around a text.
ghost use Rattle.std.specs.Prelude.{◌≡◌, reverse};
ghost use Rattle.httparse.specs.Grammar.{skip_ows, trim_ows};

use httparse::is_space_or_tab;

/// Without the spaces and tabs that it begins with.
pub fn trim_start(mut s: &[u8]) -> &[u8]
    ensures { result.now ≡ skip_ows s.now }
{
    while let [first, rest @ ..] = s
        && is_space_or_tab(*first)
    {
        s = rest;
    }
    s
}

/// Without the spaces and tabs that it ends with.
pub fn trim_end(mut s: &[u8]) -> &[u8]
    ensures { result.now ≡ reverse (skip_ows (reverse s.now)) }
{
    while let [rest @ .., last] = s
        && is_space_or_tab(*last)
    {
        s = rest;
    }
    s
}

/// Without the spaces and tabs around it: the OWS of RFC 9110, section 5.6.3.
#[tactic(auto, unfolding(httparse::specs::Grammar::trim_ows))]
pub fn trim(s: &[u8]) -> &[u8]
    ensures { result.now ≡ trim_ows s.now }
{
    trim_end(trim_start(s))
}
