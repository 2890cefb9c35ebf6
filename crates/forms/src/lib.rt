// Level forms: the level of an expression as a function of its parameters' levels, in one number: a base and a label for each of sixteen
// parameters. What they mean is said in specs/.
#![tactic(auto)]

pub mod card;
pub mod levels;
mod probing;

ghost use Rattle.std.specs.Prelude.{◌≡◌, ◌+◌, ◌<◌, ◌≤◌, get_or};
ghost use Rattle.std.specs.Int.Bits.{bit_or};
ghost use Rattle.theory.specs.Level.{highest};
ghost use Rattle.theory.specs.Lists.{param_levels};
ghost use Rattle.forms.specs.Labels.{Digit, after, coded, kept, refused, under, whole};
ghost use Rattle.forms.specs.Forms.{Gives, GivesBits, Leads, bits_at, width};

#[derive(Drop)]
pub struct Form;

impl Form {
    // parameters of a form
    pub const PARAMS: usize = 16;

    // the label of what stands under no mask
    pub const PLAIN: u8 = 1;

    // the form of a declared variable
    pub const VARIABLE: u64 = 1;
}

// The level, where it counts.
fn kept_part(l: u8, x: u8) -> u8
    ensures { result ≡ kept l x }
{
    if l % 2 == 0 { 0 } else { x }
}

// Not level-correct, where it is refused.
fn refused_part(l: u8, x: u8) -> u8
    ensures { result ≡ refused l x }
{
    if l & x & 6 == 0 { 0 } else { 7 }
}

// What a place with label l makes of a level of bits x.
pub fn level_under(l: u8, x: u8) -> u8
    requires { (l < 8) × (x < 8) }
    ensures { Digit (under l x) result }
{
    kept_part(l, x) | refused_part(l, x)
}

// The label of a place with label m inside one with label l: the nearer mask, and the farther label where there is none.
pub fn label_after(l: u8, m: u8) -> u8
    requires { (l < 8) × (m < 8) }
    ensures { Digit (after l m) result }
{
    if l == 0 { 0 } else { m & 6 | kept_part(m, l) }
}

// A form with a level of bits x added at a place with label l.
pub fn add_level(form: u64, l: u8, x: u8) -> u64
    requires { (l < 8) × (x < 8) }
    ensures { GivesBits result (λ v. bit_or (bits_at form v) (under l (whole x))) }
{
    let y = level_under(l, x) as u64;
    form | y
}

// A form with parameter i added at a place with label l.
pub fn add_param(form: u64, l: u8, i: usize) -> u64
    requires { l < 8 }
    ensures { GivesBits result (λ v. bit_or (bits_at form v) (under l (coded (get_or v i 0)))) }
{
    if i < Form::PARAMS {
        form | (l as u64) << ((i as u64) * 3 + 3)
    } else {
        form
    }
}

// A form, and the labels that are left.
#[derive(Clone, Copy)]
pub struct Led {
    pub form: u64,
    pub labels: u64,
}

// A form with the parameters from `from` on added, k of them, each under its label inside l.
pub fn add_params(form: u64, l: u8, labels: u64, from: usize, k: usize) -> Led
    requires { (l < 8) × (from + k ≤ width) }
    ensures { Leads form l labels from k result }
{
    let mut f = form;
    let mut left = labels;
    for i in 0..k {
        let m = label_after(l, (left % 8) as u8);
        f = add_param(f, m, from + i);
        left = left / 8;
    }
    Led {
        form: f,
        labels: left,
    }
}

// The form of a declared constant or operator: the highest of its k arguments.
pub fn declared_form(k: usize) -> u64
    requires { k ≤ width }
    ensures { Gives result (λ v. highest (param_levels 0 k v)) }
{
    let mut form: u64 = 0;
    for i in (0..k).rev() {
        form = add_param(form, Form::PLAIN, i);
    }
    form
}
