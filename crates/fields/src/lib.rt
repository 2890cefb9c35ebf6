// Paper 01, "A field is a one-byte tag, a two-byte length, and that many bytes": the fields of a file, read where they stand by a cursor.
#![tactic(auto)]

mod payload;
pub mod substitutions;

ghost use Rattle.std.specs.Prelude.{◌≡◌, ◌+◌, ◌<◌, ◌^◌, length};
ghost use Rattle.fields.specs.Cursor.{step_at, stays, goes, is_cut, is_end};

// A field's number from 0, and where it begins: at position number + offset. So no cursor has a number past its position, and the number of the
// field after one that is in the file is no larger than a position.
#[derive(Clone, Copy)]
pub struct Cursor {
    pub number: usize,
    pub offset: usize,
}

// What stands at a cursor: a field's parts, names and counts by value, lists and expressions by position in the file; or bytes that are
// no field; or the end.
#[derive(Clone, Copy)]
pub enum Parts {
    // its name
    Module(u16),
    // where its names begin, and how many
    Extends(usize, usize),
    // its name and argument count
    Constant(u16, u8),
    // its name
    Variable(u16),
    // its name and parameter count; where its expression begins, and its length
    Definition(u16, u8, usize, usize),
    // its name (0: unnamed) and parameter count, the module's name, the number of substitutions, and where they begin
    Instance(u16, u8, u16, u8, usize),
    EndModule,
    // where the expression begins, and its length
    Assume(usize, usize),
    Theorem(usize, usize),
    // cause 3
    Cut,
    EndOfFile,
}

// What was read, the field's number, and the cursor to go on with. The cursor stays where the bytes of a field are not there.
#[derive(Clone, Copy)]
pub struct FieldStep {
    pub parts: Parts,
    pub number: usize,
    pub next: Cursor,
}

impl Cursor {
    // The first field.
    pub fn first() -> Cursor
        ensures { result ≡ record { number = 0; offset = 0 } }
    {
        Cursor {
            number: 0,
            offset: 0,
        }
    }

    // The field at the cursor.
    pub fn read(self, s: &[u8]) -> FieldStep
        ensures { result ≡ step_at s.now self }
    {
        if s.len() <= self.number {
            return self.stay(Parts::EndOfFile);
        }
        if s.len() - self.number <= self.offset {
            return self.stay(Parts::EndOfFile);
        }
        self.read_there(s)
    }

    // The field at a cursor that is in the file.
    fn read_there(self, s: &[u8]) -> FieldStep
        requires { self.number + self.offset < length s.now }
        ensures { result ≡ step_at s.now self }
    {
        let at = self.number + self.offset;
        if s.len() - at < 3 {
            return self.stay(Parts::Cut);
        }
        let n = tokens::number_at(s, at + 1) as usize;
        let base = at + 3;
        if s.len() - base < n {
            return self.stay(Parts::Cut);
        }
        let e = base + n;
        self.go(payload::parts_of(s[at], &s[base..e], base), n)
    }

    // The cursor stays.
    fn stay(self, parts: Parts) -> FieldStep
        ensures { result ≡ stays self parts }
    {
        FieldStep {
            parts: parts,
            number: self.number,
            next: self,
        }
    }

    // The cursor goes past a field with a payload of n bytes.
    fn go(self, parts: Parts, n: usize) -> FieldStep
        requires { (self.number < 2 ^ 63) × (self.offset < 2 ^ 63) × (n < 2 ^ 62) }
        ensures { result ≡ goes self n parts }
    {
        let next = Cursor {
            number: self.number + 1,
            offset: self.offset + 2 + n,
        };
        FieldStep {
            parts: parts,
            number: self.number,
            next: next,
        }
    }
}

// Whether the bytes there are no field.
pub fn is_cut(x: Parts) -> bool
    ensures { result ≡ is_cut x }
{
    matches!(x, Parts::Cut)
}

// Whether no bytes are left.
pub fn is_end(x: Parts) -> bool
    ensures { result ≡ is_end x }
{
    matches!(x, Parts::EndOfFile)
}
