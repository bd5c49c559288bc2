// A console in memory. It keeps its transcript.
ghost use Rattle.std.specs.Prelude.{◌≡◌, ◌⊎◌, ◌<◌, ◌≤◌, ◌↔◌, ◌++◌, [], ◌∷◌, Some, length, take, drop, IfOk, OnOk, OnErr, IfSome, IsErr};
ghost use Rattle.alta_codec.specs.Faults.{Rose};
ghost use Rattle.alta_console.specs.Transcript.{given_in, Grows, Consumes};
ghost use Rattle.alta_console.specs.Sizes.{one_more, piece_size};

use crate::sizes::{is_listed, next_size};
use crate::{Console, Event};
use alta_codec::{Bytes, Failed};
use std::alloc::{AllocError, Global};

/// A console in memory. It tells its transcript and its input, and fails the calls that it is told to fail.
#[derive(Drop)]
pub struct MemoryConsole {
    alloc: Global,
    input: Vec<u8>,
    at: usize,
    pieces: Vec<usize>,
    turn: usize,
    fail: Vec<u64>,
    number: u64,
    take_faults: u64,
    give_faults: u64,
    starved: u64,
    given: Vec<u8>,
    events: Vec<Event>,
    ghost in_input: { at ≤ length input.items },
    ghost in_pieces: { turn ≤ length pieces.items },
    ghost joined: { given.items ≡ given_in events.items },
}

impl MemoryConsole {
    ghost use Rattle.alta_console.specs.Memory.{transcript, input_left, sizes_left, failing, next_call, failed_takes, failed_gives, times_starved};

    /// A console with this input. Each take gives a piece of the next of the sizes `pieces`, where 0 counts as 1, or
    /// less where the buffer or the input is shorter; when they are used up, as much as fits. The calls whose
    /// numbers stand in `fail` answer `Failed` and use up neither input nor size: takes and gives are counted
    /// together, from 1. A call that finds no memory for the transcript fails in the same way, and is counted.
    pub fn new(alloc: Global, input: Vec<u8>, pieces: Vec<usize>, fail: Vec<u64>) -> Self
        ensures transcript { transcript result ≡ [] }
        ensures input { input_left result ≡ input.items }
        ensures sizes { sizes_left result ≡ pieces.items }
        ensures failing { failing result ≡ fail.items }
        ensures number { next_call result ≡ 1 }
        ensures take_faults { failed_takes result ≡ 0 }
        ensures give_faults { failed_gives result ≡ 0 }
        ensures starved { times_starved result ≡ 0 }
    {
        MemoryConsole {
            alloc,
            input,
            at: 0,
            pieces,
            turn: 0,
            fail,
            number: 1,
            take_faults: 0,
            give_faults: 0,
            starved: 0,
            given: Vec::new(alloc),
            events: Vec::new(alloc),
        }
    }

    /// The bytes given so far, joined.
    pub fn given(&self) -> &[u8]
        ensures { result.now ≡ given_in (transcript self.now) }
    {
        &self.given
    }
}

impl Console for MemoryConsole {
    ghost use Rattle.alta_console.specs.declared.event.Event.TheVariants.{Taken, Ended, Given};
    ghost use Rattle.alta_console.specs.Memory.{transcript, input_left, sizes_left, failed_takes, failed_gives, times_starved, IsListed, CountsCall, SameContent};

    ghost told = { λ m. Some m.events.items };

    ghost left = { λ m. Some (drop m.at m.input.items) };

    ghost take_faults = { λ m. m.take_faults };

    ghost give_faults = { λ m. m.give_faults };

    fn take(&mut self, buf: &mut [u8]) -> Result<usize, Failed>
        requires { 0 < length buf.old }
        ensures within { IfOk result (λ n. n ≤ length buf.new) }
        ensures size { IfOk result (λ n. n ≡ piece_size (sizes_left self.old) (length buf.old)
            (length (input_left self.old))) }
        ensures end { IfOk result (λ n. (n ≡ 0) ↔ (input_left self.old ≡ [])) }
        ensures taken { IfOk result (λ n. 0 < n
            → transcript self.new ≡ transcript self.old ++ Taken (take n buf.new) ∷ []) }
        ensures ended { IfOk result (λ n. n ≡ 0 → transcript self.new ≡ transcript self.old ++ Ended ∷ []) }
        ensures input { IfOk result (λ n. input_left self.old ≡ take n buf.new ++ input_left self.new) }
        ensures sizes { OnOk result (sizes_left self.new ≡ drop 1 (sizes_left self.old)) }
        ensures counted { CountsCall self.old self.new }
        ensures listed { IsListed self.old → IsErr result }
        ensures only { OnErr result (IsListed self.old ⊎ Rose (times_starved self.old) (times_starved self.new)) }
        ensures same { OnErr result (SameContent self.old self.new) }
        ensures fault { OnErr result (failed_takes self.new ≡ one_more (failed_takes self.old)) }
        ensures take_count { failed_takes self.old ≤ failed_takes self.new }
        ensures no_fault { OnOk result (failed_takes self.new ≡ failed_takes self.old) }
        ensures no_give_fault { failed_gives self.new ≡ failed_gives self.old }
    {
        let number = self.number;
        self.number = number.saturating_add(1);
        if is_listed(&self.fail, number) {
            self.take_faults = self.take_faults.saturating_add(1);
            return Err(Failed);
        }
        let rest = &self.input[self.at..];
        let n = next_size(&self.pieces[self.turn..], buf.len(), rest.len());
        if record_taken(self.alloc, &mut self.events, &rest[..n]).is_err() {
            self.starved = self.starved.saturating_add(1);
            self.take_faults = self.take_faults.saturating_add(1);
            return Err(Failed);
        }
        buf[..n].copy_from_slice(&rest[..n]);
        self.at += n;
        self.turn = self.turn.saturating_add(1).min(self.pieces.len());
        Ok(n)
    }

    fn give(&mut self, bytes: &[u8]) -> Result<usize, Failed>
        requires { 0 < length bytes.now }
        ensures all { IfOk result (λ n. n ≡ length bytes.now) }
        ensures given { OnOk result (transcript self.new ≡ transcript self.old ++ Given bytes.now ∷ []) }
        ensures input { input_left self.new ≡ input_left self.old }
        ensures sizes { sizes_left self.new ≡ sizes_left self.old }
        ensures counted { CountsCall self.old self.new }
        ensures listed { IsListed self.old → IsErr result }
        ensures only { OnErr result (IsListed self.old ⊎ Rose (times_starved self.old) (times_starved self.new)) }
        ensures same { OnErr result (SameContent self.old self.new) }
        ensures fault { OnErr result (failed_gives self.new ≡ one_more (failed_gives self.old)) }
        ensures give_count { failed_gives self.old ≤ failed_gives self.new }
        ensures no_fault { OnOk result (failed_gives self.new ≡ failed_gives self.old) }
        ensures no_take_fault { failed_takes self.new ≡ failed_takes self.old }
    {
        let number = self.number;
        self.number = number.saturating_add(1);
        if is_listed(&self.fail, number) {
            self.give_faults = self.give_faults.saturating_add(1);
            return Err(Failed);
        }
        if record_given(self.alloc, &mut self.events, &mut self.given, bytes).is_err() {
            self.starved = self.starved.saturating_add(1);
            self.give_faults = self.give_faults.saturating_add(1);
            return Err(Failed);
        }
        Ok(bytes.len())
    }
}

// What a take of this piece is in the transcript: the piece, or the end.
fn taken_event(alloc: Global, piece: &[u8]) -> Result<Event, AllocError>
    ensures piece { IfOk result (λ event. 0 < length piece.now → event ≡ Event.Taken piece.now) }
    ensures end { IfOk result (λ event. length piece.now ≡ 0 → event ≡ Event.Ended) }
    ensures none_given { IfOk result (λ event. given_in (event ∷ []) ≡ []) }
{
    if piece.is_empty() {
        return Ok(Event::Ended);
    }
    Ok(Event::Taken(Bytes::from_vec(Vec::from_slice(alloc, piece)?)))
}

// Notes what a take found.
fn record_taken(alloc: Global, events: &mut Vec<Event>, piece: &[u8]) -> Result<(), AllocError>
    ensures piece { OnOk result (0 < length piece.now → events.new.items
        ≡ events.old.items ++ Event.Taken piece.now ∷ []) }
    ensures end { OnOk result (length piece.now ≡ 0 → events.new.items ≡ events.old.items ++ Event.Ended ∷ []) }
    ensures given { OnOk result (given_in events.new.items ≡ given_in events.old.items) }
    ensures err { OnErr result (events.new.items ≡ events.old.items) }
{
    let event = taken_event(alloc, piece)?;
    events.push(event)?;
    Ok(())
}

// Notes a piece that is given.
fn record_given(
    alloc: Global,
    events: &mut Vec<Event>,
    given: &mut Vec<u8>,
    piece: &[u8],
) -> Result<(), AllocError>
    ensures events { OnOk result (events.new.items ≡ events.old.items ++ Event.Given piece.now ∷ []) }
    ensures given { OnOk result (given.old.items ≡ given_in events.old.items
        → given.new.items ≡ given_in events.new.items) }
    ensures err { OnErr result ((events.new.items ≡ events.old.items) × (given.new.items ≡ given.old.items)) }
{
    let event = Event::Given(Bytes::from_vec(Vec::from_slice(alloc, piece)?));
    given.reserve(piece.len())?;
    events.push(event)?;
    given.extend_from_slice(piece)?;
    Ok(())
}
