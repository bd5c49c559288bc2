// A plan in words.
// A test may hold any bytes, and the words are text, so what is no UTF-8 is replaced; the terms of a query that was read are UTF-8,
// and the session rests on that. Numbers are written by `itoa`, which takes no memory.
ghost use Rattle.std.specs.Prelude.{◌≡◌, ◌∷◌, ◌++◌, [], map, length, drop, nat_eq, codes, string_bytes, IfOk, OnOk};
ghost use Rattle.std.specs.Fmt.{decimal};
ghost use Rattle.std.specs.Int.{w32, from_be_bytes};
ghost use Rattle.std.specs.List.{starts_with};
ghost use Rattle.std.specs.Str.{IsUtf8};
ghost use Rattle.std.specs.Str.Lossy.{utf8_lossy};
ghost use Rattle.alta_machine.specs.Explained as spec;
ghost use Rattle.alta_machine.specs.Explained.{explained, explained_each, tests_text, test_text, term_text, range_text, deeper};
ghost use Rattle.alta_machine.specs.Plans.{trees_of, found, all_of, any_of, without};
ghost use Rattle.alta_compile.specs.Puts.{PutsBehind};
ghost use Rattle.alta_compile.specs.View.{tree};

use crate::plan::{FoundPlan, Plan};
use alta_codec::{Form, Text};
use alta_machine::Test;
use alta_solver::Bound;
use itoa::Buffer;
use std::alloc::{AllocError, Global};

/// A plan in words, a line for each node, indented by two spaces per depth: `all N` or `any N` with the number of parts,
/// `not`, or `found D` and the tests. A test is the bytes of its term, with a `*` behind those that begin it, and that of a range
/// is written by its level and its prefix, as `#3:249`. Under a
/// Found, one level deeper, stands a line for each bound, as `p0 <= x1-1`: `x` is the location of a variable and `p` its
/// previous location. Bytes of a term that are no UTF-8 stand as U+FFFD. Fails for want of memory alone.
pub fn explain(alloc: Global, plan: &Plan) -> Result<Text, AllocError>
    ensures text { IfOk result (λ t. t ≡ utf8_lossy (explained [] (tree plan.now))) }
    ensures exact { IfOk result (λ t. IsUtf8 (explained [] (tree plan.now)) → t ≡ explained [] (tree plan.now)) }
{
    let mut out = Vec::new(alloc);
    let mut margin = Vec::new(alloc);
    put_plan(&mut out, &mut margin, plan)?;
    Ok(Text::from_string(text_of(alloc, out)?))
}

/// The bytes as text, without a copy where they are UTF-8.
fn text_of(alloc: Global, bytes: Vec<u8>) -> Result<String, AllocError>
    ensures text { IfOk result (λ t. IsUtf8 bytes.items → string_bytes t ≡ bytes.items) }
    ensures lossy { IfOk result (λ t. string_bytes t ≡ utf8_lossy bytes.items) }
{
    match String::from_utf8(bytes) {
        Ok(text) => Ok(text),
        Err(error) => String::from_utf8_lossy(alloc, error.as_bytes()),
    }
}

/// The lines of a node and of all below it, behind the margin.
#[cycle(explaining)]
fn put_plan(out: &mut Vec<u8>, margin: &mut Vec<u8>, plan: &Plan) -> Result<(), AllocError>
    ensures { OnOk result (PutsBehind margin.old.items margin.new.items
        (explained margin.old.items (tree plan.now)) out.old.items out.new.items) }
{
    match plan {
        Plan::Found(found) => put_found(out, margin, found),
        Plan::AllOf(parts) => put_all(out, margin, parts),
        Plan::AnyOf(parts) => put_any(out, margin, parts),
        Plan::Without(part) => put_not(out, margin, part),
    }
}

/// The lines of an AllOf.
#[cycle(explaining)]
fn put_all(out: &mut Vec<u8>, margin: &mut Vec<u8>, parts: &[Plan]) -> Result<(), AllocError>
    ensures { OnOk result (PutsBehind margin.old.items margin.new.items
        (explained margin.old.items (all_of (trees_of (map tree parts.now)))) out.old.items out.new.items) }
{
    put_head(out, margin, b"all ", parts.len())?;
    put_parts(out, margin, parts)?;
    Ok(())
}

/// The lines of an AnyOf.
#[cycle(explaining)]
fn put_any(out: &mut Vec<u8>, margin: &mut Vec<u8>, parts: &[Plan]) -> Result<(), AllocError>
    ensures { OnOk result (PutsBehind margin.old.items margin.new.items
        (explained margin.old.items (any_of (trees_of (map tree parts.now)))) out.old.items out.new.items) }
{
    put_head(out, margin, b"any ", parts.len())?;
    put_parts(out, margin, parts)?;
    Ok(())
}

/// The lines of a Without.
#[cycle(explaining)]
fn put_not(out: &mut Vec<u8>, margin: &mut Vec<u8>, part: &Plan) -> Result<(), AllocError>
    ensures { OnOk result (PutsBehind margin.old.items margin.new.items
        (explained margin.old.items (without (tree part.now))) out.old.items out.new.items) }
{
    out.extend_from_slice(margin)?;
    out.extend_from_slice(b"not\n")?;
    margin.extend_from_slice(b"  ")?;
    put_plan(out, margin, part)?;
    margin.truncate(margin.len() - 2);
    Ok(())
}

/// The lines of the parts of a node, one level deeper.
#[cycle(explaining)]
fn put_parts(out: &mut Vec<u8>, margin: &mut Vec<u8>, parts: &[Plan]) -> Result<(), AllocError>
    ensures { OnOk result (PutsBehind margin.old.items margin.new.items
        (explained_each (deeper margin.old.items) (trees_of (map tree parts.now))) out.old.items out.new.items) }
{
    margin.extend_from_slice(b"  ")?;
    for part in parts {
        put_plan(out, margin, part)?;
    }
    margin.truncate(margin.len() - 2);
    Ok(())
}

/// The first line of a node with parts.
fn put_head(out: &mut Vec<u8>, margin: &[u8], word: &[u8], count: usize) -> Result<(), AllocError>
    ensures { OnOk result (out.new.items ≡ out.old.items ++ (margin.now ++ word.now ++ decimal count ++ codes "\n")) }
{
    out.extend_from_slice(margin)?;
    out.extend_from_slice(word)?;
    put_number(out, count)?;
    out.extend_from_slice(b"\n")?;
    Ok(())
}

/// A number in decimal digits.
fn put_number(out: &mut Vec<u8>, number: usize) -> Result<(), AllocError>
    ensures { OnOk result (out.new.items ≡ out.old.items ++ decimal number) }
{
    let mut buffer = Buffer::new();
    out.extend_from_slice(buffer.format(number).as_bytes())?;
    Ok(())
}

/// The lines of a Found.
fn put_found(out: &mut Vec<u8>, margin: &[u8], plan: &FoundPlan) -> Result<(), AllocError>
    ensures { OnOk result (out.new.items ≡ out.old.items ++ explained margin.now (found plan.now)) }
{
    out.extend_from_slice(margin)?;
    out.extend_from_slice(b"found D")?;
    put_tests(out, plan.tests().as_slice())?;
    out.extend_from_slice(b"\n")?;
    put_bounds(out, margin, plan.system())
}

/// The tests of a Found, each behind a space.
fn put_tests(out: &mut Vec<u8>, tests: &[Test]) -> Result<(), AllocError>
    ensures { OnOk result (out.new.items ≡ out.old.items ++ tests_text tests.now) }
{
    for test in tests {
        out.extend_from_slice(b" ")?;
        put_test(out, test)?;
    }
    Ok(())
}

/// A test: its term, with a star behind the bytes that begin one.
fn put_test(out: &mut Vec<u8>, test: &Test) -> Result<(), AllocError>
    ensures { OnOk result (out.new.items ≡ out.old.items ++ test_text test.now) }
{
    match test {
        Test::Is(term) => put_term(out, term.as_slice()),
        Test::Begins(start) => {
            out.extend_from_slice(start.as_slice())?;
            out.extend_from_slice(b"*")?;
            Ok(())
        }
    }
}

/// A term: its bytes, but of a range its level and its prefix.
fn put_term(out: &mut Vec<u8>, term: &[u8]) -> Result<(), AllocError>
    ensures { OnOk result (out.new.items ≡ out.old.items ++ term_text term.now) }
{
    if is_range(term) && term.len() == 7 {
        put_range(out, term)
    } else {
        out.extend_from_slice(term)
    }
}

/// Whether the term begins as that of a range.
fn is_range(term: &[u8]) -> bool
    ensures { result ≡ starts_with nat_eq term.now (88 ∷ 255 ∷ []) }
{
    term.starts_with(&[b'X', 0xFF])
}

/// The level and the prefix of the term of a range.
fn put_range(out: &mut Vec<u8>, term: &[u8]) -> Result<(), AllocError>
    requires { length term.now ≡ 7 }
    ensures { OnOk result (out.new.items ≡ out.old.items ++ range_text term.now) }
{
    out.extend_from_slice(b"#")?;
    put_number(out, term[2] as usize)?;
    out.extend_from_slice(b":")?;
    put_number(out, prefix(term) as usize)
}

/// The prefix in the term of a range.
fn prefix(term: &[u8]) -> u32
    requires { length term.now ≡ 7 }
    ensures { result ≡ from_be_bytes w32 (drop 3 term.now) }
{
    u32::from_be_bytes([term[3], term[4], term[5], term[6]])
}

/// A line for each bound, one level deeper than the margin.
fn put_bounds(out: &mut Vec<u8>, margin: &[u8], bounds: &[Bound]) -> Result<(), AllocError>
    ensures { OnOk result (out.new.items ≡ out.old.items ++ spec.bound_lines (deeper margin.now) bounds.now) }
{
    for bound in bounds {
        out.extend_from_slice(margin)?;
        out.extend_from_slice(b"  ")?;
        put_bound(out, bound)?;
    }
    Ok(())
}

/// The line of a bound.
fn put_bound(out: &mut Vec<u8>, bound: &Bound) -> Result<(), AllocError>
    ensures { OnOk result (out.new.items ≡ out.old.items ++ spec.bound_line bound.now) }
{
    out.extend_from_slice(low_letter(bound.form()))?;
    put_number(out, bound.i())?;
    out.extend_from_slice(b" <= ")?;
    out.extend_from_slice(high_letter(bound.form()))?;
    put_number(out, bound.j())?;
    put_constant(out, bound.plus(), bound.minus())?;
    out.extend_from_slice(b"\n")?;
    Ok(())
}

/// The letter of the side that is bounded.
fn low_letter(form: Form) -> &'static [u8]
    ensures { result.now ≡ spec.low_letter form }
{
    match form {
        Form::LocLoc | Form::LocPrev => b"x",
        Form::PrevLoc | Form::PrevPrev => b"p",
    }
}

/// The letter of the side that bounds it.
fn high_letter(form: Form) -> &'static [u8]
    ensures { result.now ≡ spec.high_letter form }
{
    match form {
        Form::LocLoc | Form::PrevLoc => b"x",
        Form::LocPrev | Form::PrevPrev => b"p",
    }
}

/// `plus` less `minus` with its sign, nothing where that is 0.
fn put_constant(out: &mut Vec<u8>, plus: u64, minus: u64) -> Result<(), AllocError>
    ensures { OnOk result (out.new.items ≡ out.old.items ++ spec.constant plus minus) }
{
    if minus < plus {
        out.extend_from_slice(b"+")?;
        put_number(out, (plus - minus) as usize)?;
    } else if plus < minus {
        out.extend_from_slice(b"-")?;
        put_number(out, (minus - plus) as usize)?;
    }
    Ok(())
}
