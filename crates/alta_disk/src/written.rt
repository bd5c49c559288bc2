// The bytes of a disk in memory, with all writes and syncs since its start.
ghost use Rattle.std.specs.Prelude.{◌≡◌, ◌+◌, ◌≤◌, [], ◌∷◌, ◌++◌, length, if◌then◌else◌, is_ok, IfOk, OnOk, OnErr};
ghost use Rattle.alta_disk.specs.declared.event.Event.TheVariants.{Wrote, Tore, Synced};
ghost use Rattle.alta_disk.specs.Disk.{Holds};
ghost use Rattle.alta_disk.specs.Images.{IsFilled};
ghost use Rattle.alta_disk.specs.Media.{start, after, content_of, IsKept};

use crate::event::Event;
use crate::rebuilt::{filled, replayed};
use std::alloc::{AllocError, Global};

#[derive(Drop)]
pub struct Written {
    alloc: Global,
    pub first: Vec<u8>,
    pub content: Option<Vec<u8>>,
    pub events: Vec<Event>,
    // how many events came up to the last sync
    pub synced: usize,
    ghost kept: { IsKept first.items (content_of content first.items) events.items synced },
}

impl Written {
    pub fn new(alloc: Global, first: Vec<u8>) -> Written
        ensures first { result.first ≡ first }
        ensures events { result.events.items ≡ [] }
    {
        Written {
            alloc,
            first,
            content: None,
            events: Vec::new(alloc),
            synced: 0,
        }
    }

    pub fn content(&self) -> &[u8]
        ensures { result.now ≡ content_of self.now.content self.now.first.items }
    {
        match &self.content {
            Some(content) => content,
            None => &self.first,
        }
    }

    /// What the last sync made firm.
    pub fn firm(&self, alloc: Global) -> Result<Vec<u8>, AllocError>
        ensures { IfOk result (λ v. v.items ≡ (after (start self.now.first.items) self.now.events.items).firm) }
    {
        let firm = replayed(alloc, &self.first, &self.events[..self.synced])?;
        Ok(firm)
    }

    /// The content with each pending byte as this one.
    pub fn filled(&self, alloc: Global, byte: u8) -> Result<Vec<u8>, AllocError>
        ensures { let media = after (start self.now.first.items) self.now.events.items in
            IfOk result (λ v. IsFilled byte media.pending media.content v.items) }
    {
        let image = filled(alloc, self.content(), &self.events[self.synced..], byte)?;
        Ok(image)
    }

    pub fn write(&mut self, at: usize, bytes: &[u8]) -> Result<(), AllocError>
        requires { at ≤ length (content_of self.old.content self.old.first.items) }
        ensures first { self.new.first.items ≡ self.old.first.items }
        ensures content { OnOk result (Holds (content_of self.old.content self.old.first.items) at bytes.now
            (content_of self.new.content self.new.first.items)) }
        ensures ok { OnOk result ((v : _) × (v.items ≡ bytes.now)
            × (self.new.events.items ≡ self.old.events.items ++ Wrote at v ∷ [])) }
        ensures err { OnErr result (self.new.events.items ≡ self.old.events.items) }
        ensures content_err { OnErr result ((content_of self.new.content self.new.first.items)
            ≡ (content_of self.old.content self.old.first.items)) }
    {
        let copy = bytes.to_vec(self.alloc)?;
        self.events.push(Event::Wrote(at as u64, copy))?;
        match put_over(self.alloc, &self.first, &mut self.content, at, bytes) {
            Ok(()) => Ok(()),
            Err(error) => {
                self.events.pop();
                Err(error)
            }
        }
    }

    /// A write that failed.
    pub fn tear(&mut self, at: usize, n: usize) -> Result<(), AllocError>
        requires { at ≤ length (content_of self.old.content self.old.first.items) }
        ensures first { self.new.first.items ≡ self.old.first.items }
        ensures content { (content_of self.new.content self.new.first.items)
            ≡ (content_of self.old.content self.old.first.items) }
        ensures events { self.new.events.items ≡ (if is_ok result then self.old.events.items ++ Tore at n
            ∷ [] else self.old.events.items) }
    {
        self.events.push(Event::Tore(at as u64, n as u64))?;
        Ok(())
    }

    pub fn sync(&mut self) -> Result<(), AllocError>
        ensures first { self.new.first.items ≡ self.old.first.items }
        ensures content { (content_of self.new.content self.new.first.items)
            ≡ (content_of self.old.content self.old.first.items) }
        ensures ok { OnOk result (self.new.events.items ≡ self.old.events.items ++ Synced ∷ []) }
        ensures err { OnErr result (self.new.events.items ≡ self.old.events.items) }
    {
        self.events.push(Event::Synced)?;
        self.synced = self.events.len();
        Ok(())
    }
}

// Puts bytes over the old ones, and past the end.
pub(crate) fn put(content: &mut Vec<u8>, at: usize, bytes: &[u8]) -> Result<(), AllocError>
    requires { at ≤ length content.old.items }
    ensures ok { OnOk result (Holds content.old.items at bytes.now content.new.items) }
    ensures err { OnErr result (content.new.items ≡ content.old.items) }
{
    let fits = bytes.len().min(content.len() - at);
    content.extend_from_slice(&bytes[fits..])?;
    content[at..at + fits].copy_from_slice(&bytes[..fits]);
    Ok(())
}

// The same, where the first bytes are copied at the first write.
fn put_over(
    alloc: Global,
    first: &[u8],
    content: &mut Option<Vec<u8>>,
    at: usize,
    bytes: &[u8],
) -> Result<(), AllocError>
    requires { at ≤ length (content_of content.old first.now) }
    ensures ok { OnOk result (Holds (content_of content.old first.now) at bytes.now
        (content_of content.new first.now)) }
    ensures err { OnErr result (content_of content.new first.now ≡ content_of content.old first.now) }
{
    match content {
        Some(content) => put(content, at, bytes),
        None => {
            let mut copy = first.to_vec(alloc)?;
            put(&mut copy, at, bytes)?;
            *content = Some(copy);
            Ok(())
        }
    }
}
