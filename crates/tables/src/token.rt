// Tokens where they stand, read as the crate of tokens reads them, but with the column of rows lent; each function is called at one place, so that
// no token need be laid out in memory on its way to the walk.
ghost use Rattle.std.specs.Prelude.{◌≡◌, ◌^◌, ◌<◌};
ghost use Rattle.tokens.specs.Token.{arguments_of, built_in, instanced, named, tagged_at, token_at};

use rows::{RowColumn, Rows};
use tokens::{Token, byte_at, number_at};

fn name_token(name: u16, k: u8) -> Option<Token>
    ensures { result ≡ named name k }
{
    if name == 0 {
        None
    } else {
        Some(Token::Name(name, k))
    }
}

fn instance_token(inst: u16, name: u16, k: u8) -> Option<Token>
    ensures { result ≡ instanced inst name k }
{
    if inst == 0 {
        return None;
    }
    if name == 0 {
        None
    } else {
        Some(Token::InstanceOperator(inst, name, k))
    }
}

fn built_in_token(column: &RowColumn, code: u8) -> Option<Token>
    ensures { result ≡ built_in code }
{
    if rows::arity_of(column.row(code)) == Rows::NO_CODE {
        None
    } else {
        Some(Token::BuiltIn(code))
    }
}

// The token that begins with a tag, bytes past the end taken for 0.
fn tagged(s: &[u8], column: &RowColumn, at: usize, tag: u8) -> Option<Token>
    requires { at < 2 ^ 63 }
    ensures { result ≡ tagged_at s.now at tag }
{
    match tag {
        0 => Some(Token::Parameter(byte_at(s, at + 1))),
        1 => Some(Token::Bound(number_at(s, at + 1))),
        2 => name_token(number_at(s, at + 1), byte_at(s, at + 3)),
        3 => instance_token(
            number_at(s, at + 1),
            number_at(s, at + 3),
            byte_at(s, at + 5),
        ),
        4 => built_in_token(column, byte_at(s, at + 1)),
        5 => Some(Token::Literal(number_at(s, at + 1))),
        _ => None,
    }
}

// The token at a position, with all its bytes; or none.
pub fn token_in(s: &[u8], column: &RowColumn, at: usize) -> Option<Token>
    ensures { result ≡ token_at s.now at }
{
    if s.len() <= at {
        return None;
    }
    let t = tagged(s, column, at, s[at])?;
    (tokens::width(t) <= s.len() - at).then_some(t)
}

// How many arguments follow a token.
pub fn arguments_in(column: &RowColumn, t: Token) -> u8
    ensures { result ≡ arguments_of t }
{
    match t {
        Token::Parameter(_) => 0,
        Token::Bound(_) => 0,
        Token::Name(_, k) => k,
        Token::InstanceOperator(_, _, k) => k,
        Token::BuiltIn(code) => rows::arity_of(column.row(code)),
        Token::Literal(_) => 0,
    }
}
