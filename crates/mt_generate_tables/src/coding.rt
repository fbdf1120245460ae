//! Codes of tokens.

ghost use Rattle.std.specs.Prelude.{◌≡◌, ◌<◌};
ghost use Rattle.mt_generate_spec.specs.Generated.{token_of};
ghost use Rattle.mt_generate_tables.specs.Coded.{token_coded};

use mt_generate::Drawn;

/// So many tokens can be drawn: of 1,000 ranks, in singular and plural.
pub(crate) const ALL: usize = 2_000;

/// The code of a token.
pub(crate) fn code_of(token: Drawn) -> u16
    requires { token.rank < 1000 }
    ensures token { token_coded result ≡ token_of token.rank token.plural }
    ensures low { result < 2000 }
{
    (2 * token.rank + u32::from(token.plural)) as u16
}

/// The token of a code.
pub(crate) fn drawn_of(code: u16) -> Drawn
    ensures { token_of result.rank result.plural ≡ token_coded code }
{
    Drawn {
        rank: u32::from(code / 2),
        plural: code % 2 == 1,
    }
}
