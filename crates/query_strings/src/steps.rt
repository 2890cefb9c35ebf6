// What the walks do at a token and at an argument.
ghost use Rattle.std.specs.Prelude.{◌≡◌, Some, ◌+◌};
ghost use Rattle.tokens.specs.Token.{token_at, width_of};
ghost use Rattle.query_strings.specs.Reads.{Joins, OverAny};

use resolve::steps::{both, with_args};
use resolve::{Ask, Look, Looked};
use tokens::Token;

// The position after a token.
pub fn after_token(s: &[u8], at: usize, t: Token) -> usize
    requires { token_at s.now at ≡ Some t }
    ensures { result ≡ at + width_of t }
{
    at + tokens::width(t)
}

// What a token and its arguments come to; where there is no token, what they do.
pub fn over(t: Option<Token>, l: Option<Look>, params: usize, bound: usize, a: Looked) -> Looked
    ensures { OverAny t l params bound a result }
{
    let Some(t) = t else {
        return a;
    };
    let ask = Ask {
        module: 0,
        params,
        bound,
    };
    with_args(t, l, ask, a)
}

// An argument, and then the others.
pub fn join(a: Looked, b: Looked) -> Looked
    ensures { Joins a b result }
{
    both(a, b)
}
