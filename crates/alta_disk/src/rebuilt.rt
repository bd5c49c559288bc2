// Contents and images of a disk in memory, made anew from its writes and syncs.
ghost use Rattle.std.specs.Prelude.{◌≡◌, ◌+◌, ◌-◌, ◌≤◌, ℕ, min, true, ◌++◌, [], ◌∷◌, List, take, drop, length, replicate, IfOk, OnOk};
ghost use Rattle.alta_disk.specs.Images.{IsFilled};
ghost use Rattle.alta_disk.specs.Media.{Media, start, step, after, begins_inside, is_sound, ranges_after};

use crate::event::Event;
use crate::written::put;
use std::alloc::{AllocError, Global};

/// The content after these events.
pub fn replayed(alloc: Global, first: &[u8], events: &[Event]) -> Result<Vec<u8>, AllocError>
    requires { is_sound (start first.now) events.now ≡ true }
    ensures { IfOk result (λ v. v.items ≡ (after (start first.now) events.now).content) }
{
    let mut content = first.to_vec(alloc)?;
    for event in events {
        replay(&mut content, event)?;
    }
    Ok(content)
}

fn replay(content: &mut Vec<u8>, event: &Event) -> Result<(), AllocError>
    requires { (m : Media) × (content.old.items ≡ m.content) × (begins_inside m event.now ≡ true) }
    ensures { (m : Media) → content.old.items ≡ m.content
        → OnOk result (content.new.items ≡ (step m event.now).content) }
{
    match event {
        Event::Wrote(at, bytes) => put(content, *at as usize, bytes),
        Event::Tore(_, _) | Event::Synced => Ok(()),
    }
}

/// The content with this byte in each range of these events.
pub fn filled(
    alloc: Global,
    content: &[u8],
    events: &[Event],
    byte: u8,
) -> Result<Vec<u8>, AllocError>
    ensures { IfOk result (λ v. IsFilled byte (ranges_after [] events.now) content.now v.items) }
{
    let mut image = content.to_vec(alloc)?;
    for event in events {
        fill_event(&mut image, event, byte);
    }
    Ok(image)
}

fn fill_event(image: &mut Vec<u8>, event: &Event, byte: u8)
    ensures { (ranges : List (ℕ × ℕ)) (content : List ℕ) → IsFilled byte ranges content image.old.items
        → IsFilled byte (ranges_after ranges (event.now ∷ [])) content image.new.items }
{
    match event {
        Event::Wrote(at, bytes) => fill(image, *at, bytes.len() as u64, byte),
        Event::Tore(at, n) => fill(image, *at, *n, byte),
        Event::Synced => {}
    }
}

// Puts this byte n times over those from `at` on, and nothing past the end.
fn fill(image: &mut Vec<u8>, at: u64, n: u64, byte: u8)
    ensures { let from = min at (length image.old.items) in let to = min (at + n) (length image.old.items) in
        image.new.items ≡ take from image.old.items ++ replicate (to - from) byte ++ drop to image.old.items }
{
    let from = (at as usize).min(image.len());
    let to = (at.saturating_add(n) as usize).min(image.len());
    image[from..to].fill(byte);
}
