// What the names and the built-ins of a text are looked up in.
ghost use Rattle.std.specs.Prelude.{◌≤◌};
ghost use Rattle.limits.specs.Limits.{max_arity};

use rows::RowColumn;

// `refs` says what each name of the file was resolved to, `numbers` which definition of the world a definition of the text's module is, `words` is
// the table of forms; `outer` parameters are those of the instances around the text; `column` is that of the rows.
#[derive(Clone, Copy)]
pub struct Meanings<'a> {
    pub refs: &'a [u16],
    pub numbers: &'a [u16],
    pub words: &'a [u64],
    pub outer: usize,
    pub column: &'a RowColumn,
    pub ghost few: { outer ≤ max_arity },
}
