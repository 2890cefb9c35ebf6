// The reply of the expansion query, cause by cause, and then the expansion.
ghost use Rattle.std.specs.Prelude.{◌≡◌, ◌≤◌, length};
ghost use Rattle.limits.specs.Limits.{file_bytes, max_arity, max_definitions, max_modules};
ghost use Rattle.templates.specs.Shaped.{DefinitionsShaped};
ghost use Rattle.templates.specs.Taking.{work_bytes};
ghost use Rattle.expanding.specs.Asks.{ReadReplies, RepliesIn, RepliesOf, read_cause};
ghost use Rattle.expanding.specs.Held.{StringReplies};

use crate::output::put_out;
use crate::passes::expansion;
use asking::reading::limit_cause;
use context::Counts;
use context::lookup::find_module;
use limits::Limits;
use query_strings::{Queried, query_string};
use refusals::Refusal;
use store::{Lent, Store};
use templates::shaping::shape_definitions;

// A string longer than this belongs to an expansion longer than 65,535 bytes.
const WORK_BYTES: usize = 131072;

// Causes 3, 9 and 10 of an expression that keeps the limits, by what was read of it.
fn read_cause(expr: &[u8], q: Queried) -> u8
    ensures { result ≡ read_cause expr.now q }
{
    if q.looked.next == expr.len() {
        if q.looked.unknown {
            return 9;
        }
        if q.looked.miscounted {
            return 10;
        }
        return 0;
    }
    3
}

// The reply to the term whose string stands in a.
fn expand_string(
    file: &[u8],
    refs: &[u16; Lent::REFS],
    store: &Store,
    n: usize,
    shapes: &[u32],
    a: &mut [u8],
    len: usize,
    work: &mut [u8],
    filled: &mut [u8],
    out: &mut [u8],
) -> Result<usize, Refusal>
    requires { (length shapes.now ≡ max_definitions) × (len ≤ length a.old) × (length a.old ≡ work_bytes) × (length work.old ≡ work_bytes) × (length filled.old ≡ work_bytes) }
    ensures { StringReplies file.now refs.now store.now store.now.declared n shapes.now a.old len result out.old out.new }
{
    let Some(size) = expansion(file, refs, store, n, shapes, a, len, work, filled) else {
        return Err(Refusal {
            cause: 18,
            place: 0,
        });
    };
    put_out(a, size, out)
}

// The reply to an expression that was read: its string stands in a. The place of a refusal is the number of fields.
fn expand_read(
    expr: &[u8],
    q: Option<Queried>,
    file: &[u8],
    refs: &[u16; Lent::REFS],
    store: &Store,
    c: Counts,
    shapes: &[u32],
    a: &mut [u8],
    work: &mut [u8],
    filled: &mut [u8],
    out: &mut [u8],
) -> Result<usize, Refusal>
    requires { (length shapes.now ≡ max_definitions) × (length a.old ≡ work_bytes) × (length work.old ≡ work_bytes) × (length filled.old ≡ work_bytes) }
    ensures { ReadReplies file.now refs.now store.now c expr.now q shapes.now a.old result out.old out.new }
{
    let Some(q) = q else {
        return Err(Refusal {
            cause: limit_cause(expr),
            place: c.fields,
        });
    };
    let cause = read_cause(expr, q);
    if cause != 0 {
        return Err(Refusal {
            cause,
            place: c.fields,
        });
    }
    if let Some(len) = q.len {
        if len <= a.len() {
            return expand_string(
                file,
                refs,
                store,
                c.declarations,
                shapes,
                a,
                len,
                work,
                filled,
                out,
            );
        }
    }
    Err(Refusal {
        cause: 18,
        place: 0,
    })
}

// The reply in module m, the shapes of the definitions being known.
fn expand_shaped(
    expr: &[u8],
    params: usize,
    file: &[u8],
    refs: &[u16; Lent::REFS],
    store: &Store,
    c: Counts,
    m: usize,
    shapes: &[u32],
    a: &mut [u8],
    work: &mut [u8],
    filled: &mut [u8],
    out: &mut [u8],
) -> Result<usize, Refusal>
    requires { (m ≤ max_modules) × (length file.now ≤ file_bytes) × (params ≤ max_arity) × DefinitionsShaped file.now refs.now store.now store.now.declared c.declarations c.definitions shapes.now × (length a.old ≡ work_bytes) × (length work.old ≡ work_bytes) × (length filled.old ≡ work_bytes) }
    ensures { RepliesIn file.now refs.now store.now c m params expr.now result out.old out.new }
{
    let q = query_string(expr, store, shapes, m, params, a);
    expand_read(expr, q, file, refs, store, c, shapes, a, work, filled, out)
}

// The reply in module m, with memory to work in.
fn expand_with(
    expr: &[u8],
    params: usize,
    file: &[u8],
    refs: &[u16; Lent::REFS],
    store: &Store,
    c: Counts,
    m: usize,
    shapes: &mut [u32],
    a: &mut [u8],
    work: &mut [u8],
    filled: &mut [u8],
    out: &mut [u8],
) -> Result<usize, Refusal>
    requires { (m ≤ max_modules) × (length file.now ≤ file_bytes) × (c.definitions ≤ max_definitions) × (length shapes.old ≡ max_definitions) × (length a.old ≡ work_bytes) × (length work.old ≡ work_bytes) × (length filled.old ≡ work_bytes) }
    ensures { RepliesIn file.now refs.now store.now c m params expr.now result out.old out.new }
{
    if Limits::ARITY < params {
        return Err(Refusal {
            cause: limit_cause(expr),
            place: c.fields,
        });
    }
    shape_definitions(file, refs, store, c.declarations, c.definitions, shapes);
    expand_shaped(
        expr, params, file, refs, store, c, m, shapes, a, work, filled, out,
    )
}

// The reply in module m.
fn expand_in(
    expr: &[u8],
    params: usize,
    file: &[u8],
    refs: &[u16; Lent::REFS],
    store: &Store,
    c: Counts,
    m: usize,
    out: &mut [u8],
) -> Result<usize, Refusal>
    requires { (m ≤ max_modules) × (length file.now ≤ file_bytes) × (c.definitions ≤ max_definitions) }
    ensures { RepliesIn file.now refs.now store.now c m params expr.now result out.old out.new }
{
    let mut shapes = [0u32; Limits::DEFINITIONS];
    let mut a = [0u8; WORK_BYTES];
    let mut work = [0u8; WORK_BYTES];
    let mut filled = [0u8; WORK_BYTES];
    expand_with(
        expr,
        params,
        file,
        refs,
        store,
        c,
        m,
        &mut shapes,
        &mut a,
        &mut work,
        &mut filled,
        out,
    )
}

// The expansion of an expression over so many parameters at the end of the module of that name. The store is that of a file that was
// checked, which has c of each kind. "Output is written only by an expansion, only its length."
pub fn expand_reply(
    expr: &[u8],
    params: u8,
    module: u16,
    file: &[u8],
    refs: &[u16; Lent::REFS],
    store: &Store,
    c: Counts,
    out: &mut [u8],
) -> Result<usize, Refusal>
    requires { (c.modules ≤ max_modules) × (length file.now ≤ file_bytes) × (c.definitions ≤ max_definitions) }
    ensures { RepliesOf file.now refs.now store.now c «module» params expr.now result out.old out.new }
{
    let q = find_module(store, c.modules, module);
    if c.modules <= q {
        return Err(Refusal {
            cause: 17,
            place: 0,
        });
    }
    expand_in(expr, params as usize, file, refs, store, c, q, out)
}
