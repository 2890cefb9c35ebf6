// Causes 3 and 5 of a query.
ghost use Rattle.std.specs.Prelude.{◌≡◌, leb};
ghost use Rattle.limits.specs.Limits.{level_count};
ghost use Rattle.std.specs.List.{list_any};
ghost use Rattle.asking.specs.Asks.{levels_cause, limit_cause};

use limits::Limits;
use tokens::whole;

// Whether one of the levels given is none. A `for`, not `any`: what the edit first_level_unseen plants in it is refused for the level that is not seen, in `any` for its form.
fn level_above(levels: &[u8]) -> bool
    ensures { result ≡ list_any (λ l. leb level_count l) levels.now }
{
    for i in 0..levels.len() {
        if (Limits::LEVELS as u8) <= levels[i] {
            return true;
        }
    }
    false
}

// Where a limit is passed: 5, if the bytes are one expression.
pub fn limit_cause(expr: &[u8]) -> u8
    ensures { result ≡ limit_cause expr.now }
{
    if whole(expr) { 5 } else { 3 }
}

// Causes 3 and 5 as far as the levels tell them; 0 if they do not.
pub fn levels_cause(expr: &[u8], levels: &[u8]) -> u8
    ensures { result ≡ levels_cause levels.now expr.now }
{
    if level_above(levels) {
        return 3;
    }
    if Limits::ARITY < levels.len() {
        return limit_cause(expr);
    }
    0
}
