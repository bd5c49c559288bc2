// What a console's calls mean.
ghost use Rattle.std.specs.Prelude.{◌≡◌, ◌<◌, ◌≤◌, ◌↔◌, ℕ, List, [], ◌∷◌, Option, length, take, IfOk, OnErr, IfSome};
ghost use Rattle.alta_console.specs.declared.event.Event.{Event};
ghost use Rattle.alta_console.specs.declared.event.Event.TheVariants.{Taken, Ended, Given};
ghost use Rattle.alta_console.specs.Transcript.{Grows, Consumes};
ghost use Rattle.alta_codec.specs.Faults.{Rose};

use alta_codec::Failed;

/// Where commands come from and replies go to.
///
/// Each clause on content is one equation that also holds of a console that does not tell its content, where it says
/// only that none is told afterwards.
pub trait Console {
    /// The events so far, in order, where they are told.
    ghost told: { Self → Option (List Event) };

    /// The input still to come, where it is told.
    ghost left: { Self → Option (List ℕ) };

    /// How often a take failed, up to the last value of a u64.
    ghost take_faults: { Self → ℕ };

    /// How often a give failed, up to the last value of a u64.
    ghost give_faults: { Self → ℕ };

    /// Takes the next piece of the input: puts it at the front of `buf`, which is not empty, and answers how many
    /// bytes it has. 0 is the end of the input. The rest of `buf` may hold anything.
    ///
    /// # Errors
    ///
    /// `Failed` where the input could not be read; the count of take faults rose.
    fn take(&mut self, buf: &mut [u8]) -> Result<usize, Failed>
        requires { 0 < length buf.old }
        ensures within { IfOk result (λ n. n ≤ length buf.new) }
        ensures taken { IfOk result (λ n. 0 < n → Grows (told self.old) (told self.new) (Taken (take n buf.new) ∷ [])) }
        ensures ended { IfOk result (λ n. n ≡ 0 → Grows (told self.old) (told self.new) (Ended ∷ [])) }
        ensures not_told { OnErr result (told self.new ≡ told self.old) }
        ensures input { IfOk result (λ n. Consumes (left self.old) (left self.new) (take n buf.new)) }
        ensures end { IfOk result (λ n. IfSome (left self.old) (λ bytes. (n ≡ 0) ↔ (bytes ≡ []))) }
        ensures input_kept { OnErr result (left self.new ≡ left self.old) }
        ensures take_count { take_faults self.old ≤ take_faults self.new }
        ensures give_count { give_faults self.old ≤ give_faults self.new }
        ensures failed { OnErr result (Rose (take_faults self.old) (take_faults self.new)) };

    /// Gives a piece from the front of `bytes`, which is not empty, and answers how many bytes went out, at least 1.
    ///
    /// # Errors
    ///
    /// `Failed` where the output could not be written; nothing went out, and the count of give faults rose.
    fn give(&mut self, bytes: &[u8]) -> Result<usize, Failed>
        requires { 0 < length bytes.now }
        ensures some { IfOk result (λ n. 0 < n) }
        ensures within { IfOk result (λ n. n ≤ length bytes.now) }
        ensures given { IfOk result (λ n. Grows (told self.old) (told self.new) (Given (take n bytes.now) ∷ [])) }
        ensures not_told { OnErr result (told self.new ≡ told self.old) }
        ensures input_kept { left self.new ≡ left self.old }
        ensures take_count { take_faults self.old ≤ take_faults self.new }
        ensures give_count { give_faults self.old ≤ give_faults self.new }
        ensures failed { OnErr result (Rose (give_faults self.old) (give_faults self.new)) };
}
