// The activations of procedures and evaluations: entering them, leaving them, and going to a label of an outer one.
ghost use Rattle.std.specs.Prelude.{◌≡◌, ◌+◌, ◌*◌, ◌/◌, ◌%◌, ◌<◌, ◌≤◌, ◌^◌, ℕ, length, slice_index, slice_set, vec_capacity};
ghost use Rattle.std.specs.Prelude.{IfOk, OnOk, OnErr};
ghost use Rattle.gier_frames.specs.Answers.{Answers};
ghost use Rattle.gier_frames.specs.Refusals.{is_call, call_refusal, back_refusal, go_refusal};
ghost use Rattle.gier_frames.specs.Effects.{after_call, call_words, went_back, after_go};

use crate::frames::admit;
use crate::walk::BASES;
use crate::{Frames, Halt, writes};
use gier_region::Region;

// The greatest number that tells what a procedure takes: 255 formals, two words each, and a value.
const MOST_COUNT: u64 = 511;

// The words of a header with the order to return to and what is wanted.
const CALL_HEADER: u64 = 5;

// The first number that is no address of an order.
const ADDRESSES: u64 = 1 << 32;

impl Frames {
    /// Enters a procedure or an evaluation of a level and with so many words, enclosed by the activation at `outer`.
    ///
    /// `back` is the order to return to, and `wanted` what is wanted of an evaluation, 0 for a procedure. `count` is twice
    /// the number of actuals, and 1 more for a function; the actuals, two words each, stand in the current activation from
    /// `from` on, and are copied. Odd where there is no activation, `count` is above 511, the room doesn't hold header,
    /// value and actuals, or `outer` or the actuals aren't in the stack; the alarm `stack` where not so many words are free.
    pub fn call(
        &mut self,
        level: u8,
        room: u32,
        outer: u64,
        back: u32,
        wanted: u8,
        from: u32,
        count: u32,
    ) -> Result<(), Halt>
        ensures refused { Answers (call_refusal self.old room outer from count) result }
        ensures effect { OnOk result (self.new ≡ after_call self.old level room outer back wanted from count) }
        ensures err { OnErr result (self.new ≡ self.old) }
    {
        let room = u64::from(room);
        let count = u64::from(count);
        let from = self.base + u64::from(from);
        let base = self.top;
        let can = can_call(self.words.size(), room, outer, from, count);
        admit(self.entered && can, base + room, self.words.size())?;
        let head = u64::from(level) * BASES + outer;
        writes::save(&self.words, from, count / 2 * 2, &mut self.saved);
        writes::make_activation(&mut self.words, base, room, self.base, head);
        writes::write_two(
            &mut self.words,
            base + 3,
            u64::from(back),
            u64::from(wanted),
        );
        writes::pour(&mut self.words, base + CALL_HEADER + count % 2, &self.saved);
        self.marks.set(base, 1);
        self.base = base;
        self.top = base + room;
        self.greatest = self.greatest.max(base + room);
        self.display.build(&self.words, base);
        Ok(())
    }

    /// Leaves the current activation, a procedure's or an evaluation's, and gives the order to return to.
    ///
    /// Odd where there is no activation, the base before it is no place, or the word with the order to return to isn't in
    /// the stack or isn't below 2^32.
    pub fn back(&mut self) -> Result<u32, Halt>
        ensures refused { Answers (back_refusal self.old) result }
        ensures place { IfOk result (λ back. back ≡ slice_index self.old.words (self.old.base + 3)) }
        ensures effect { OnOk result (self.new ≡ went_back self.old) }
        ensures err { OnErr result (self.new ≡ self.old) }
    {
        if !self.entered || self.base + 3 >= self.words.size() {
            return Err(Halt::Odd);
        }
        let old = self.words.get(self.base);
        let back = self.words.get(self.base + 3);
        if old >= self.words.size() || back >= ADDRESSES {
            return Err(Halt::Odd);
        }
        self.top = self.base;
        self.base = old;
        self.display.build(&self.words, old);
        Ok(back as u32)
    }

    /// Goes to a label of the activation at `base`, whose words end where its third header word says.
    ///
    /// Odd where there is no activation, or where that word isn't in the stack or is above its size.
    pub fn go(&mut self, base: u64) -> Result<(), Halt>
        ensures refused { Answers (go_refusal self.old base) result }
        ensures effect { OnOk result (self.new ≡ after_go self.old base) }
        ensures err { OnErr result (self.new ≡ self.old) }
    {
        let size = self.words.size();
        if !self.entered || base >= size || base + 2 >= size {
            return Err(Halt::Odd);
        }
        let top = self.words.get(base + 2);
        if top > size {
            return Err(Halt::Odd);
        }
        self.base = base;
        self.top = top;
        self.greatest = self.greatest.max(top);
        self.display.build(&self.words, base);
        Ok(())
    }
}

// Whether a call's room, enclosing base and actuals are as they must be.
fn can_call(size: u64, room: u64, outer: u64, from: u64, count: u64) -> bool
    requires from { from < 2 ^ 40 }
    ensures { result ≡ is_call size room outer from count }
{
    if count > MOST_COUNT {
        return false;
    }
    if room < CALL_HEADER + count || outer >= size {
        return false;
    }
    if count < 2 {
        return true;
    }
    from + count / 2 * 2 <= size
}
