// What the parser keeps, and how a token changes it.

ghost use Rattle.std.specs.Prelude.{◌≡◌, ℕ, List, [], None, ◌+◌, ◌≤◌, map, IfSome, IfNone, IfOk, OnOk, option_map};
ghost use Rattle.std.specs.Str.{IsUtf8};
ghost use Rattle.alta_query.specs.View.{shape, atom_view, side_view};
ghost use Rattle.alta_machine.specs.Shape.{Shape, lone, near, negated, all_of, any_of};
ghost use Rattle.alta_machine.specs.Token.{open_paren, close_paren, side_of, atom_weight};
ghost use Rattle.alta_query.specs.Pieces.{token_of, atom_in, side_in};
ghost use Rattle.alta_machine.specs.Parser.{give, after_token, operand_step, start, run, cause_in, wrapped, unwrapped, whole, close, put, put_last};
ghost use Rattle.alta_query.specs.Answer.{Gives};
ghost use Rattle.alta_machine.specs.QueryFaults as faults;
ghost use Rattle.alta_machine.specs.QueryFaults.{has, Mark, any_open};
ghost use Rattle.alta_query.specs.Kept.{mode_of, state_of, frames_of};
ghost use Rattle.alta_machine.specs.Patterns.{test_of};
ghost use Rattle.alta_query.specs.Texts.{HasTextTerm, AsksForText, AddsText, made_of};

use crate::fault::QueryFault;
use crate::query::{Atom, Query, Side};
use crate::scan::{Kind, Lent, LentSide};
use crate::word::{first_test, stem_test, tests_of};
use alta_codec::Text;
use alta_machine::Cause;
use std::alloc::{AllocError, Global};
use std::mem;

/// An operand is expected, or was read, or was read and is a side of no NEAR, or a NEAR behind a side was read.
#[derive(Clone, Copy)]
pub enum Mode<'a> {
    Expects,
    Has,
    Beside(LentSide<'a>),
    BehindNear(LentSide<'a>, u16),
}

/// What is open: a NOT, or a `(` with the members of the or and of the and before it.
#[derive(Drop)]
pub enum Frame {
    Not,
    Paren(Vec<Query>, Vec<Query>),
}

/// What was read so far.
#[derive(Drop)]
pub struct Machine<'a> {
    mode: Mode<'a>,
    ors: Vec<Query>,
    ands: Vec<Query>,
    frames: Vec<Frame>,
    words: usize,
}

impl<'a> Machine<'a> {
    /// Nothing was read.
    pub fn new(alloc: Global) -> Machine<'a>
        ensures { state_of result ≡ start }
    {
        Machine {
            mode: Mode::Expects,
            ors: Vec::new(alloc),
            ands: Vec::new(alloc),
            frames: Vec::new(alloc),
            words: 0,
        }
    }

    /// Reads a token that has no fault.
    pub fn step(&mut self, alloc: Global, kind: Kind<'a>) -> Result<(), AllocError>
        requires { cause_in (state_of self.old) (token_of kind) ≡ None }
        ensures state { OnOk result (state_of self.new ≡ after_token (state_of self.old) (token_of kind.entry)) }
        ensures text { OnOk result (AddsText (mode_of self.old.mode) (token_of kind.entry)) }
    {
        match kind {
            Kind::Open => self.open(alloc),
            Kind::Close => self.close(alloc),
            Kind::And => {
                self.mode = Mode::Expects;
                Ok(())
            }
            Kind::Or => {
                let ands = mem::replace(&mut self.ands, Vec::new(alloc));
                self.ors.push(all(ands))?;
                self.mode = Mode::Expects;
                Ok(())
            }
            Kind::Not => {
                self.frames.push(Frame::Not)?;
                self.mode = Mode::Expects;
                Ok(())
            }
            Kind::Near(distance) => {
                self.mode = near_mode(self.mode, distance);
                Ok(())
            }
            Kind::Operand(lent) => self.operand(alloc, lent),
            Kind::Faulty(_) => {
                self.mode = Mode::Has;
                Ok(())
            }
        }
    }

    /// The cause of a fault at a token.
    pub fn cause(&self, kind: Kind<'a>) -> Option<Cause>
        requires { self.now.words ≤ 64 }
        ensures { result ≡ cause_in (state_of self.now) (token_of kind.entry) }
    {
        let is_open = !self.frames.is_empty();
        own_cause(kind)
            .or(table_cause(self.mode, is_open, kind))
            .or(deep_cause(self.frames.len(), kind))
            .or(many_cause(self.words, kind))
    }

    /// What was read, where the text ends.
    pub fn finish(self, end: usize) -> Result<Query, QueryFault>
        ensures { Gives result (run (state_of self.entry) [] end) }
    {
        let Machine {
            mode,
            ors,
            ands,
            frames,
            ..
        } = self;
        if let Some(cause) = end_cause(mode, !frames.is_empty()) {
            return Err(QueryFault { place: end, cause });
        }
        let all = whole(ors, ands)?;
        Ok(all)
    }

    /// Reads a `(`.
    fn open(&mut self, alloc: Global) -> Result<(), AllocError>
        ensures { OnOk result (state_of self.new ≡ after_token (state_of self.old) open_paren) }
    {
        let ors = mem::replace(&mut self.ors, Vec::new(alloc));
        let ands = mem::replace(&mut self.ands, Vec::new(alloc));
        self.frames.push(Frame::Paren(ors, ands))?;
        self.mode = Mode::Expects;
        Ok(())
    }

    /// Reads a `)`.
    fn close(&mut self, alloc: Global) -> Result<(), AllocError>
        ensures { OnOk result (state_of self.new ≡ after_token (state_of self.old) close_paren) }
    {
        let ands = mem::replace(&mut self.ands, Vec::new(alloc));
        let ors = mem::replace(&mut self.ors, Vec::new(alloc));
        let operand = whole(ors, ands)?;
        let Some((ors, ands)) = last_paren(&mut self.frames) else {
            drop(operand);
            self.mode = Mode::Has;
            return Ok(());
        };
        self.ors = ors;
        self.ands = ands;
        self.give(alloc, operand)
    }

    /// Reads an operand.
    fn operand(&mut self, alloc: Global, lent: Lent<'a>) -> Result<(), AllocError>
        requires { (state_of self.old).words + atom_weight (atom_in lent) ≤ 64 }
        ensures state { OnOk result (state_of self.new
            ≡ operand_step (mode_of self.old.mode) (state_of self.old) (atom_in lent.entry)) }
        ensures text { OnOk result (AsksForText (made_of (mode_of self.old.mode) (atom_in lent.entry))) }
    {
        self.words += lent.weight();
        if let Mode::BehindNear(left, distance) = self.mode {
            let right = lent.side().unwrap_or(left);
            let atom = near(alloc, left, distance, right)?;
            put_last(alloc, &mut self.ands, atom)?;
            self.mode = Mode::Has;
            Ok(())
        } else {
            let operand = Query::Atom(owned(alloc, lent)?);
            self.give(alloc, operand)?;
            self.mode = side_mode(lent.side());
            Ok(())
        }
    }

    /// An operand was read.
    fn give(&mut self, alloc: Global, operand: Query) -> Result<(), AllocError>
        ensures { OnOk result (state_of self.new
            ≡ give has (shape operand) (state_of self.old).ors (state_of self.old).ands (state_of self.old).frames
            (state_of self.old).words) }
    {
        let operand = end_nots(alloc, &mut self.frames, operand)?;
        self.ands.push(operand)?;
        self.mode = Mode::Has;
        Ok(())
    }
}

/// The mode behind an operand where no NEAR waits.
fn side_mode(side: Option<LentSide<'_>>) -> Mode<'_>
    ensures { mode_of result ≡ faults.side_mode (option_map side_in side.entry) }
{
    match side {
        Some(side) => Mode::Beside(side),
        None => Mode::Has,
    }
}

/// The mode behind a NEAR.
fn near_mode(mode: Mode<'_>, distance: u16) -> Mode<'_>
    ensures { mode_of result ≡ faults.near_mode (mode_of mode.entry) distance }
{
    match mode {
        Mode::Beside(side) => Mode::BehindNear(side, distance),
        _ => Mode::Has,
    }
}

/// An operand of its own memory.
fn owned(alloc: Global, lent: Lent) -> Result<Atom, AllocError>
    ensures atom { IfOk result (λ a. atom_view a ≡ lone (atom_in lent.entry)) }
    ensures text { IfOk result (λ a. AsksForText (atom_view a)) }
{
    match lent {
        Lent::Words { title, text } => Ok(Atom::Words {
            title,
            text: copied(alloc, text)?,
            tests: tests_of(alloc, text)?,
        }),
        Lent::Prefix { title, stem } => Ok(Atom::Prefix {
            title,
            stem: copied(alloc, stem)?,
            test: stem_test(alloc, stem)?,
        }),
        Lent::Name { name } => Ok(Atom::Name {
            name: copied(alloc, name)?,
        }),
        Lent::Value { low, high } => Ok(Atom::Value { low, high }),
    }
}

fn owned_side(alloc: Global, side: LentSide) -> Result<Side, AllocError>
    ensures side { IfOk result (λ s. side_view s ≡ side_in side.entry) }
    ensures text { IfOk result (λ s. HasTextTerm (test_of (side_view s))) }
{
    match side {
        LentSide::Word(text) => Ok(Side::Word {
            text: copied(alloc, text)?,
            test: first_test(alloc, text)?,
        }),
        LentSide::Stem(stem) => Ok(Side::Stem {
            stem: copied(alloc, stem)?,
            test: stem_test(alloc, stem)?,
        }),
    }
}

/// An equal text of its own memory.
fn copied(alloc: Global, text: &str) -> Result<Text, AllocError>
    ensures copy { IfOk result (λ t. t ≡ text.now) }
    ensures text { IfOk result IsUtf8 }
{
    Ok(Text::of(alloc, text)?)
}

fn near(alloc: Global, left: LentSide, distance: u16, right: LentSide) -> Result<Atom, AllocError>
    ensures atom { IfOk result (λ a. atom_view a ≡ near (side_in left.entry) distance (side_in right.entry)) }
    ensures text { IfOk result (λ a. AsksForText (atom_view a)) }
{
    let left = owned_side(alloc, left)?;
    let right = owned_side(alloc, right)?;
    Ok(Atom::Near {
        left,
        distance,
        right,
    })
}

/// The atom under the NOTs becomes another one.
fn put(alloc: Global, query: Query, atom: Atom) -> Result<Query, AllocError>
    ensures { IfOk result (λ q. shape q ≡ put (atom_view atom) (shape query)) }
{
    match query {
        Query::Atom(old) => {
            drop(old);
            Ok(Query::Atom(atom))
        }
        Query::Not(inner) => {
            let inner = put(alloc, Box::into_inner(inner), atom)?;
            negation(alloc, inner)
        }
        other => {
            drop(atom);
            Ok(other)
        }
    }
}

fn put_last(alloc: Global, ands: &mut Vec<Query>, atom: Atom) -> Result<(), AllocError>
    ensures { OnOk result (map shape ands.new.items ≡ put_last (atom_view atom) (map shape ands.old.items)) }
{
    let Some(last) = ands.pop() else {
        drop(atom);
        return Ok(());
    };
    let last = put(alloc, last, atom)?;
    ands.push(last)?;
    Ok(())
}

/// All of an or, of which these are the first members and the members of the last one.
fn whole(ors: Vec<Query>, ands: Vec<Query>) -> Result<Query, AllocError>
    ensures { IfOk result (λ q. shape q ≡ whole (map shape ors.items) (map shape ands.items)) }
{
    let mut ors = ors;
    ors.push(all(ands))?;
    Ok(any(ors))
}

/// Ends what is open up to the last `(`, and gives what was read before it.
fn last_paren(frames: &mut Vec<Frame>) -> Option<(Vec<Query>, Vec<Query>)>
    ensures paren { IfSome result (λ before. (q : Shape) (n : ℕ) → close q (frames_of frames.old.items) n
        ≡ give has q (map shape before.0.items) (map shape before.1.items) (frames_of frames.new.items) n) }
    ensures none { IfNone result ((frames.new.items ≡ [])
        × ((q : Shape) (n : ℕ) → close q (frames_of frames.old.items) n ≡ close q [] n)) }
{
    while let Some(frame) = frames.pop() {
        if let Frame::Paren(ors, ands) = frame {
            return Some((ors, ands));
        }
    }
    None
}

/// An and of these members.
fn all(members: Vec<Query>) -> Query
    ensures { shape result ≡ all_of (map shape members.items) }
{
    let mut members = members;
    if members.len() == 1 {
        members.remove(0)
    } else {
        Query::And(members)
    }
}

/// An or of these members.
fn any(members: Vec<Query>) -> Query
    ensures { shape result ≡ any_of (map shape members.items) }
{
    let mut members = members;
    if members.len() == 1 {
        members.remove(0)
    } else {
        Query::Or(members)
    }
}

/// Ends the NOTs that are open last, round the operand.
fn end_nots(alloc: Global, frames: &mut Vec<Frame>, operand: Query) -> Result<Query, AllocError>
    ensures frames { OnOk result (frames_of frames.new.items ≡ unwrapped (frames_of frames.old.items)) }
    ensures query { IfOk result (λ q. shape q ≡ wrapped (frames_of frames.old.items) (shape operand)) }
{
    let mut operand = operand;
    while let Some(Frame::Not) = frames.last() {
        let _ = frames.pop();
        operand = negation(alloc, operand)?;
    }
    Ok(operand)
}

/// The negation of a query.
fn negation(alloc: Global, operand: Query) -> Result<Query, AllocError>
    ensures { IfOk result (λ q. shape q ≡ negated (shape operand)) }
{
    Ok(Query::Not(Box::new(alloc, operand)?))
}

/// The cause that a token has of its own.
fn own_cause(kind: Kind) -> Option<Cause>
    ensures { result ≡ faults.own_cause (token_of kind.entry) }
{
    match kind {
        Kind::Faulty(cause) => Some(cause),
        _ => None,
    }
}

/// The cause of a token that may not stand where it does.
fn table_cause(mode: Mode, is_open: bool, kind: Kind) -> Option<Cause>
    ensures { result ≡ faults.table_cause (mode_of mode.entry) is_open (token_of kind.entry) }
{
    match kind {
        Kind::Open | Kind::Not => opening_row(mode),
        Kind::Close => closing_row(mode, is_open),
        Kind::And | Kind::Or => joining_row(mode),
        Kind::Near(_) => near_row(mode),
        Kind::Operand(lent) => operand_row(mode, lent),
        Kind::Faulty(_) => None,
    }
}

fn opening_row(mode: Mode) -> Option<Cause>
    ensures { result ≡ faults.opening_row (mode_of mode.entry) }
{
    match mode {
        Mode::BehindNear(..) => Some(Cause::Near),
        _ => None,
    }
}

fn closing_row(mode: Mode, is_open: bool) -> Option<Cause>
    ensures { result ≡ faults.closing_row (mode_of mode.entry) is_open }
{
    match mode {
        Mode::Expects => Some(Cause::Operand),
        Mode::BehindNear(..) => Some(Cause::Near),
        _ if is_open => None,
        _ => Some(Cause::Paren),
    }
}

fn joining_row(mode: Mode) -> Option<Cause>
    ensures { result ≡ faults.joining_row (mode_of mode.entry) }
{
    match mode {
        Mode::Expects => Some(Cause::Operand),
        Mode::BehindNear(..) => Some(Cause::Near),
        _ => None,
    }
}

fn near_row(mode: Mode) -> Option<Cause>
    ensures { result ≡ faults.near_row (mode_of mode.entry) }
{
    match mode {
        Mode::Expects => Some(Cause::Operand),
        Mode::Beside(_) => None,
        _ => Some(Cause::Near),
    }
}

fn operand_row(mode: Mode, lent: Lent) -> Option<Cause>
    ensures { result ≡ faults.operand_row (mode_of mode.entry) (side_of (atom_in lent.entry)) }
{
    if let Mode::BehindNear(..) = mode
        && lent.side().is_none()
    {
        Some(Cause::Near)
    } else {
        None
    }
}

/// The cause of a token that opens too much.
fn deep_cause(depth: usize, kind: Kind) -> Option<Cause>
    ensures { result ≡ faults.deep_cause depth (token_of kind.entry) }
{
    match kind {
        Kind::Open | Kind::Not if depth >= 32 => Some(Cause::Deep),
        _ => None,
    }
}

/// The cause of a token with too many words.
fn many_cause(words: usize, kind: Kind) -> Option<Cause>
    requires { words ≤ 64 }
    ensures { result ≡ faults.many_cause words (token_of kind.entry) }
{
    match kind {
        Kind::Operand(lent) if lent.weight() > 64 - words => Some(Cause::Many),
        _ => None,
    }
}

/// The cause at the end of the text.
fn end_cause(mode: Mode, is_open: bool) -> Option<Cause>
    ensures { (opened : List Mark) → is_open ≡ any_open opened → result ≡ faults.end_cause (mode_of mode.entry) opened }
{
    match mode {
        Mode::Expects => Some(Cause::Operand),
        Mode::BehindNear(..) => Some(Cause::Near),
        _ if is_open => Some(Cause::Paren),
        _ => None,
    }
}
