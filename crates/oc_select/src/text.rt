//! Small tests and cuts of bytes.

ghost use Rattle.std.specs.Prelude.{◌≡◌, reverse};
ghost use Rattle.std.specs.Str.{str_eq_ignore_ascii_case};
ghost use Rattle.httparse.specs.Grammar.{skip_ows, trim_ows};

use httparse::is_space_or_tab;

/// Whether two texts are the same, apart from upper and lower case.
pub fn is_alike(a: &[u8], b: &[u8]) -> bool
    ensures { result ≡ str_eq_ignore_ascii_case a.now b.now }
{
    a.eq_ignore_ascii_case(b)
}

/// The bytes without spaces and tabs at the start.
fn trim_start(bytes: &[u8]) -> &[u8]
    ensures { result.now ≡ skip_ows bytes.now }
{
    let mut rest = bytes;
    while let [first, others @ ..] = rest
        && is_space_or_tab(*first)
    {
        rest = others;
    }
    rest
}

/// The bytes without spaces and tabs at the end.
fn trim_end(bytes: &[u8]) -> &[u8]
    ensures { result.now ≡ reverse (skip_ows (reverse bytes.now)) }
{
    let mut rest = bytes;
    while let [before @ .., last] = rest
        && is_space_or_tab(*last)
    {
        rest = before;
    }
    rest
}

/// The bytes without spaces and tabs at both ends (RFC 9110, section 5.6.3).
#[tactic(auto, unfolding(httparse::specs::Grammar::trim_ows))]
pub fn trim(bytes: &[u8]) -> &[u8]
    ensures { result.now ≡ trim_ows bytes.now }
{
    trim_end(trim_start(bytes))
}
