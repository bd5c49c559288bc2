// From query to plan.
// An And without members is the Found of no tests, which finds every document, as such an And matches every one: so the law on plans
// asks for no text that spells the query.
ghost use Rattle.std.specs.Prelude.{◌≡◌, ◌↔◌, List, [], ◌∷◌, map, IfOk, OnOk, All, Contains};
ghost use Rattle.alta_machine.specs.Matches.{IsWellFormed, Matches};
ghost use Rattle.alta_machine.specs.Patterns.{pattern_of, numbers_in, phrase_pattern, range_pattern};
ghost use Rattle.alta_machine.specs.Shape.{all, shapes_of};
ghost use Rattle.alta_query.specs.View.{shape, atom_view};
ghost use Rattle.alta_machine.specs.declared.test.Test.TheVariants.{Is};
ghost use Rattle.alta_machine.specs.Covers.{IsRange, cover_of};
ghost use Rattle.alta_compile.specs.Drafted.{AddsAtom, AddsMember, IsDraftOf, is_atom};
ghost use Rattle.alta_machine.specs.Joined.{joint_pattern};
ghost use Rattle.alta_machine.specs.PlanOf.{plan_of, plans_of, others_of, atoms_in, found_of, atom_plan, either_of, range_plan};
ghost use Rattle.alta_compile.specs.Space.{Placed, IsSpace, end_of};
ghost use Rattle.alta_machine.specs.Plans as spec;
ghost use Rattle.alta_compile.specs.Listing.{plan_list};
ghost use Rattle.alta_machine.specs.Plans.{trees_of};
ghost use Rattle.alta_compile.specs.View.{tree};
ghost use Rattle.alta_compile.specs.Whole.{IsWhole};

use crate::draft::Draft;
use crate::laws::{a_plan_is_whole, finds_what_matches};
use crate::plan::{FoundPlan, Plan, Plans};
use alta_codec::Bytes;
use alta_machine::{Range, cover, range_term};
use alta_query::{Atom, Query};
use std::alloc::{AllocError, Global};

/// The plan of a query: an atom is a Found of its own, the atoms of an And are one Found together, an Or is an AnyOf of
/// its members, and a NOT is a Without of its operand. A value is an AnyOf of a Found for each range that covers its numbers, or
/// that Found where there is one; in an And it stands among the members that are no atoms. In each space of documents the end of a document is in the plan's
/// list exactly where the query matches the document. The plan of a query that some text is read as has a part in each
/// AllOf and each AnyOf. Fails for want of memory alone. The time is linear in the query.
pub fn compile(alloc: Global, query: &Query) -> Result<Plan, AllocError>
    ensures plan { IfOk result (λ p. tree p ≡ plan_of (shape query.now)) }
    ensures meaning { IfOk result (λ p. (space : List Placed) (d : Placed) → IsSpace space → Contains space d
        → Contains (plan_list space (tree p)) (end_of d) ↔ Matches d.cells (shape query.now)) }
    ensures whole { IfOk result (λ p. IsWellFormed (shape query.now) → IsWhole (tree p)) }
{
    finds_what_matches();
    a_plan_is_whole();
    plan(alloc, query)
}

/// The plan of a query.
#[cycle(compiling)]
fn plan(alloc: Global, query: &Query) -> Result<Plan, AllocError>
    ensures { IfOk result (λ p. tree p ≡ plan_of (shape query.now)) }
{
    match query {
        Query::Atom(atom) => plan_alone(alloc, atom),
        Query::And(members) => plan_and(alloc, members),
        Query::Or(members) => Ok(Plan::AnyOf(plan_each(alloc, members)?)),
        Query::Not(operand) => Ok(Plan::Without(Box::new(alloc, plan(alloc, operand)?)?)),
    }
}

/// The plan of an atom that stands alone.
fn plan_alone(alloc: Global, atom: &Atom) -> Result<Plan, AllocError>
    ensures { IfOk result (λ p. tree p ≡ atom_plan (pattern_of (atom_view atom.now))
        (numbers_in (atom_view atom.now))) }
{
    match atom.numbers() {
        Some(numbers) => plan_value(alloc, numbers),
        None => plan_pattern(alloc, atom),
    }
}

/// The plan of the numbers from one to another.
fn plan_value(alloc: Global, numbers: (u32, u32)) -> Result<Plan, AllocError>
    ensures { IfOk result (λ p. tree p ≡ either_of (map range_plan (cover_of numbers.0 numbers.1))) }
{
    let ranges = cover(numbers.0, numbers.1);
    plan_ranges(alloc, ranges.as_slice())
}

/// What the pattern of an atom finds.
fn plan_pattern(alloc: Global, atom: &Atom) -> Result<Plan, AllocError>
    ensures { IfOk result (λ p. tree p ≡ spec.found (found_of (pattern_of (atom_view atom.now)))) }
{
    Ok(Plan::Found(plan_atom(alloc, atom)?))
}

/// What one of these ranges finds.
fn plan_ranges(alloc: Global, ranges: &[Range]) -> Result<Plan, AllocError>
    requires { All IsRange ranges.now }
    ensures { IfOk result (λ p. tree p ≡ either_of (map range_plan ranges.now)) }
{
    Ok(either(each_range(alloc, ranges)?))
}

/// What each of these ranges finds, in order.
fn each_range(alloc: Global, ranges: &[Range]) -> Result<Plans, AllocError>
    requires { All IsRange ranges.now }
    ensures { IfOk result (λ ps. map tree ps.items ≡ map range_plan ranges.now) }
{
    let mut plans = Vec::with_capacity(alloc, ranges.len())?;
    for range in ranges {
        let plan = found(plan_range(alloc, *range)?);
        plans.push(plan)?;
    }
    Ok(plans)
}

/// The plan of one range.
fn plan_range(alloc: Global, range: Range) -> Result<FoundPlan, AllocError>
    requires { IsRange range }
    ensures { IfOk result (λ f. f ≡ found_of (range_pattern range)) }
{
    let term = Vec::from_array(alloc, range_term(range))?;
    plan_term(alloc, Bytes::from_vec(term))
}

/// The plan of one term.
fn plan_term(alloc: Global, term: Bytes) -> Result<FoundPlan, AllocError>
    ensures { IfOk result (λ f. f ≡ found_of (phrase_pattern (Is term ∷ []))) }
{
    let mut draft = Draft::new(alloc);
    draft.add_term(term)?;
    draft.close(alloc)
}

/// What one of these finds.
fn either(parts: Plans) -> Plan
    ensures { tree result ≡ either_of (map tree parts.items) }
{
    let mut parts = parts;
    if parts.len() == 1 {
        parts.remove(0)
    } else {
        Plan::AnyOf(parts)
    }
}

/// The plan of the pattern of one atom.
fn plan_atom(alloc: Global, atom: &Atom) -> Result<FoundPlan, AllocError>
    ensures { IfOk result (λ f. f ≡ found_of (pattern_of (atom_view atom.now))) }
{
    let mut draft = Draft::new(alloc);
    draft.add(alloc, atom)?;
    draft.close(alloc)
}

/// The plan of an And: what its atoms but values ask for as one Found, and the plans of its other members.
#[cycle(compiling)]
fn plan_and(alloc: Global, members: &[Query]) -> Result<Plan, AllocError>
    ensures { IfOk result (λ p. tree p ≡ plan_of (all (shapes_of (map shape members.now)))) }
{
    let others = plan_others(alloc, members)?;
    with_atoms(alloc, members, others)
}

/// The plan of an And with these plans of the members that are values or no atoms.
fn with_atoms(alloc: Global, members: &[Query], mut others: Plans) -> Result<Plan, AllocError>
    requires { trees_of (map tree others.items) ≡ others_of (shapes_of (map shape members.now)) }
    ensures { IfOk result (λ p. tree p ≡ plan_of (all (shapes_of (map shape members.now)))) }
{
    if others.is_empty() {
        Ok(Plan::Found(plan_atoms(alloc, members)?))
    } else if others.len() == members.len() {
        Ok(all_of(others))
    } else {
        let found = found(plan_atoms(alloc, members)?);
        others.insert(0, found)?;
        Ok(all_of(others))
    }
}

/// What all of these find.
fn all_of(parts: Plans) -> Plan
    ensures { tree result ≡ spec.all_of (trees_of (map tree parts.items)) }
{
    Plan::AllOf(parts)
}

/// What a system of bounds finds.
fn found(plan: FoundPlan) -> Plan
    ensures { tree result ≡ spec.found plan }
{
    Plan::Found(plan)
}

/// The plan of the members that are atoms but no values, as one.
fn plan_atoms(alloc: Global, members: &[Query]) -> Result<FoundPlan, AllocError>
    ensures { IfOk result (λ f. f ≡ found_of (joint_pattern (atoms_in (shapes_of (map shape members.now))))) }
{
    let draft = gather(alloc, members)?;
    draft.close(alloc)
}

/// What the members that are atoms but no values ask for together.
fn gather(alloc: Global, members: &[Query]) -> Result<Draft, AllocError>
    ensures { IfOk result (λ d. IsDraftOf d (joint_pattern (atoms_in (shapes_of (map shape members.now))))) }
{
    let mut draft = Draft::new(alloc);
    for member in members {
        add_member(alloc, &mut draft, member)?;
    }
    Ok(draft)
}

/// Adds what a member asks for, if it is an atom and no value.
fn add_member(alloc: Global, draft: &mut Draft, member: &Query) -> Result<(), AllocError>
    ensures { OnOk result (AddsMember draft.old draft.new (shape member.now)) }
{
    match member {
        Query::Atom(atom) => add_atom(alloc, draft, atom),
        Query::And(_) | Query::Or(_) | Query::Not(_) => Ok(()),
    }
}

/// Adds what an atom asks for that is no value.
fn add_atom(alloc: Global, draft: &mut Draft, atom: &Atom) -> Result<(), AllocError>
    ensures { OnOk result (AddsAtom draft.old draft.new (atom_view atom.now)) }
{
    match atom.numbers() {
        Some(_) => Ok(()),
        None => draft.add(alloc, atom),
    }
}

/// The plans of all members, in order.
#[cycle(compiling)]
fn plan_each(alloc: Global, members: &[Query]) -> Result<Plans, AllocError>
    ensures { IfOk result (λ ps. trees_of (map tree ps.items) ≡ plans_of (shapes_of (map shape members.now))) }
{
    let mut plans = Vec::with_capacity(alloc, members.len())?;
    for member in members {
        let plan = plan(alloc, member)?;
        plans.push(plan)?;
    }
    Ok(plans)
}

/// The plans of the members that are values or no atoms, in order.
#[cycle(compiling)]
fn plan_others(alloc: Global, members: &[Query]) -> Result<Plans, AllocError>
    ensures { IfOk result (λ ps. trees_of (map tree ps.items) ≡ others_of (shapes_of (map shape members.now))) }
{
    let mut others = Vec::new(alloc);
    for member in members {
        if !is_one_atom(member) {
            let other = plan(alloc, member)?;
            others.push(other)?;
        }
    }
    Ok(others)
}

/// Whether a query is an atom and no value.
fn is_one_atom(query: &Query) -> bool
    ensures { result ≡ is_atom (shape query.now) }
{
    match query {
        Query::Atom(atom) => atom.numbers().is_none(),
        Query::And(_) | Query::Or(_) | Query::Not(_) => false,
    }
}
