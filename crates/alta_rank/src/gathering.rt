// From query to uses.
ghost use Rattle.std.specs.Prelude.{◌≡◌, ◌∷◌, ◌++◌, [], false, map, IfOk, OnOk};
ghost use Rattle.alta_query.specs.View.{shape, atom_view};
ghost use Rattle.alta_machine.specs.Words.{name_test};
ghost use Rattle.alta_machine.specs.Uses.{use_of, atom_uses, uses_of};

use alta_machine::kinds::{NAME, term};
use alta_machine::{Test, Use, Uses};
use alta_query::{Atom, Query};
use std::alloc::{AllocError, Global};
use std::slice::from_ref;

/// The uses of a query: over its atoms in order, but those under a NOT, each test of the atom, with whether the atom
/// asks for it in the title. Fails for want of memory alone. The time is linear in the query.
pub fn uses(alloc: Global, query: &Query) -> Result<Uses, AllocError>
    ensures { IfOk result (λ u. u ≡ uses_of (shape query.now)) }
{
    let mut out = Vec::new(alloc);
    gather(alloc, &mut out, query)?;
    Ok(Uses::from_vec(out))
}

/// Adds the uses of a query behind those that are there.
fn gather(alloc: Global, out: &mut Vec<Use>, query: &Query) -> Result<(), AllocError>
    ensures { OnOk result (out.new.items ≡ out.old.items ++ uses_of (shape query.now)) }
{
    match query {
        Query::Atom(atom) => push_atom(alloc, out, atom),
        Query::And(members) | Query::Or(members) => {
            for member in members {
                gather(alloc, out, member)?;
            }
            Ok(())
        }
        Query::Not(_) => Ok(()),
    }
}

/// Adds the uses of an atom.
fn push_atom(alloc: Global, out: &mut Vec<Use>, atom: &Atom) -> Result<(), AllocError>
    ensures { OnOk result (out.new.items ≡ out.old.items ++ atom_uses (atom_view atom.now)) }
{
    match atom {
        Atom::Words { title, tests, .. } => push_tests(out, *title, tests.as_slice()),
        Atom::Prefix { title, test, .. } => push_tests(out, *title, from_ref(test)),
        Atom::Near { left, right, .. } => push_near(out, left.test(), right.test()),
        Atom::Name { name } => push_name(alloc, out, name.as_str()),
        Atom::Value { .. } => Ok(()),
    }
}

/// Adds a use of each test.
fn push_tests(out: &mut Vec<Use>, title: bool, tests: &[Test]) -> Result<(), AllocError>
    ensures { OnOk result (out.new.items ≡ out.old.items ++ map (use_of title) tests.now) }
{
    for test in tests {
        let test = test.copy()?;
        out.push(Use { title, test })?;
    }
    Ok(())
}

/// Adds a use of each side of a NEAR.
fn push_near(out: &mut Vec<Use>, left: &Test, right: &Test) -> Result<(), AllocError>
    ensures { OnOk result (out.new.items ≡ out.old.items ++ use_of false left.now ∷ use_of false right.now ∷ []) }
{
    push_tests(out, false, from_ref(left))?;
    push_tests(out, false, from_ref(right))
}

/// Adds the use of a name.
fn push_name(alloc: Global, out: &mut Vec<Use>, name: &str) -> Result<(), AllocError>
    ensures { OnOk result (out.new.items ≡ out.old.items ++ use_of false (name_test name.now) ∷ []) }
{
    let test = Test::Is(term(alloc, NAME, name.as_bytes())?);
    out.push(Use { title: false, test })?;
    Ok(())
}
