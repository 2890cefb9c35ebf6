// The level form of a text, by one walk over its tokens where they stand in the file: it goes down with the label of the place, and adds each
// node's level to one form. What the names of the text mean is given by tables (specs/Tables.antt): `refs` says what each name of the file was
// resolved to, `numbers` which definition of the world a definition of the text's module is, `words` is the table of forms.
#![tactic(auto)]

pub mod meaning;
pub mod names;
pub mod steps;

ghost use Rattle.std.specs.Prelude.{◌≡◌, ◌^◌, ◌≤◌, ◌<◌};
ghost use Rattle.limits.specs.Limits.{max_arity};
ghost use Rattle.tokens.specs.Expr.{expr_at, several};
ghost use Rattle.tokens.specs.Fold.{under_of};
ghost use Rattle.forms.specs.Labels.{Digit, after};
ghost use Rattle.levels.specs.Tables.{form_named, names_of};
ghost use Rattle.levels.specs.Meant.{meant};
ghost use Rattle.levels.specs.Walk.{AddsAll, Fits, Named, Steps, TextForm, Tokened};

use crate::meaning::Meanings;
use crate::names::{form_at, number_at, place_of};
use crate::steps::{Step, bound_step, built_in_step, head_step, literal_step, parameter_step};
use forms::Form;
use limits::Limits;
use rows::RowColumn;
use tokens::Token;

// What arguments inherit: the levels of the bound variables around them, and of those in the last of them, 0 or 1 each, a bit for each, the
// nearest lowest; the label of their place; and inside that the label of each.
#[derive(Clone, Copy)]
pub struct Under {
    pub around: u64,
    pub within: u64,
    pub label: u8,
    pub labels: u64,
}

// A form and a position.
#[derive(Clone, Copy)]
pub struct Walked {
    pub form: u64,
    pub next: usize,
}

// The bound variables' levels in the first of k arguments: the last is inside the token's binder, the others are not.
fn scope(k: u8, around: u64, within: u64) -> u64
    ensures { result ≡ under_of k around within }
{
    if k == 1 { within } else { around }
}

// The first of the labels inside l.
pub fn first_label(l: u8, labels: u64) -> u8
    requires { l < 8 }
    ensures { Digit (after l labels) result }
{
    forms::label_after(l, (labels % 8) as u8)
}

impl Meanings<'_> {
    // The form of what the name at a position was resolved to.
    fn form_of(&self, at: usize) -> u64
        ensures { result ≡ form_named (meant self.now) at }
    {
        let r = number_at(self.refs, at);
        form_at(self.words, place_of(self.numbers, r))
    }

    fn name_step(&self, at: usize, count: u8, bits: u64, l: u8, form: u64, next: usize) -> Step
        requires { l < 8 }
        ensures { Named (meant self.now) count at bits l form next result }
    {
        let w = self.form_of(at);
        head_step(w, self.outer, count, bits, l, form, next)
    }

    // A token at a position.
    fn token_step(
        &self,
        at: usize,
        t: Token,
        bits: u64,
        l: u8,
        form: u64,
        next: usize,
    ) -> Option<Step>
        requires { (l < 8) × (bits < 2 ^ 63) }
        ensures { Tokened (meant self.now) t at bits l form next result }
    {
        match t {
            Token::Parameter(i) => Some(parameter_step(self.outer, i, bits, l, form, next)),
            Token::Bound(j) => Some(bound_step(self.outer, j, bits, l, form, next)),
            Token::Name(_, k) => Some(self.name_step(at, k, bits, l, form, next)),
            Token::InstanceOperator(_, _, k) => Some(self.name_step(at, k, bits, l, form, next)),
            Token::BuiltIn(code) => built_in_step(self.column, code, bits, l, form, next),
            Token::Literal(n) => Some(literal_step(self.outer, n, bits, l, form, next)),
        }
    }

    // Whatever stands at a position.
    fn any_step(&self, s: &[u8], at: usize, bits: u64, l: u8, form: u64) -> Option<Step>
        requires { (l < 8) × (bits < 2 ^ 63) }
        ensures { Steps (meant self.now) s.now at bits l form result }
    {
        let Some(t) = tokens::token_at(s, at) else {
            return None;
        };
        let next = at + tokens::width(t);
        self.token_step(at, t, bits, l, form, next)
    }

    // The same, quicker at a parameter and at a built-in.
    fn next_step(&self, s: &[u8], at: usize, bits: u64, l: u8, form: u64) -> Option<Step>
        requires { (l < 8) × (bits < 2 ^ 63) }
        ensures { Steps (meant self.now) s.now at bits l form result }
    {
        if at < s.len() {
            if 1 < s.len() - at {
                let x = s[at + 1];
                let tag = s[at];
                if tag == 4 {
                    return built_in_step(self.column, x, bits, l, form, at + 2);
                }
                if tag == 0 {
                    return Some(parameter_step(self.outer, x, bits, l, form, at + 2));
                }
            }
        }
        self.any_step(s, at, bits, l, form)
    }

    // Adds `count` arguments from a position on. Where one is left, its own arguments are what is left.
    fn walk_args(
        &self,
        s: &[u8],
        at: usize,
        count: u8,
        nesting: usize,
        u: Under,
        before: u64,
    ) -> Walked
        requires { Fits nesting u }
        ensures { AddsAll (meant self.now) u before (several (expr_at nesting s.now) at count) result.form result.next }
    {
        let mut form = before;
        let mut pos = at;
        let mut k = count;
        let mut nest = nesting;
        let mut around = u.around;
        let mut within = u.within;
        let mut label = u.label;
        let mut labels = u.labels;
        while k != 0 {
            if nest == 0 {
                return Walked { form, next: pos };
            }
            let e = scope(k, around, within);
            let l = first_label(label, labels);
            let Some(t) = self.next_step(s, pos, e, l, form) else {
                return Walked { form, next: pos };
            };
            if t.count == 0 {
                form = t.form;
                pos = t.next;
                k -= 1;
                labels = labels / 8;
                continue;
            }
            if k == 1 {
                form = t.form;
                pos = t.next;
                k = t.count;
                nest -= 1;
                around = e;
                within = t.inner;
                label = l;
                labels = t.labels;
                continue;
            }
            let inner = Under {
                around: e,
                within: t.inner,
                label: l,
                labels: t.labels,
            };
            let b = self.walk_args(s, t.next, t.count, nest - 1, inner, t.form);
            form = b.form;
            pos = b.next;
            k -= 1;
            labels = labels / 8;
        }
        Walked { form, next: pos }
    }
}

// The form of the text at a position, `outer` parameters being those of the instances around it.
pub fn text_form(
    s: &[u8],
    refs: &[u16],
    numbers: &[u16],
    words: &[u64],
    at: usize,
    outer: usize,
) -> u64
    requires { outer ≤ max_arity }
    ensures { TextForm (names_of refs.now numbers.now words.now outer) s.now at result }
{
    let column = RowColumn::new();
    let u = Under {
        around: 0,
        within: 0,
        label: Form::PLAIN,
        labels: Form::PLAIN as u64,
    };
    let meanings = Meanings {
        refs,
        numbers,
        words,
        outer,
        column: &column,
    };
    meanings.walk_args(s, at, 1, Limits::NESTING, u, 0).form
}
