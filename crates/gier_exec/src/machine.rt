// The registers of the machine. What the orders do to them is said elsewhere.
ghost use Rattle.std.specs.Prelude.{◌≡◌, ◌+◌, ◌-◌, ◌<◌, ◌≤◌, ◌^◌, nat_lt, if◌then◌else◌, Ok, Err, IfOk};
ghost use Rattle.gier_exec.specs.declared.stop.Stop.TheVariants.{Odd};
ghost use Rattle.gier_exec.specs.Registers.{first_registers, Progresses};

use crate::stop::Stop;
use std::marker::Model;

/// The place of the next order, the registers R and Q, the number of activations that were entered and not left by a return,
/// and the number of steps left.
#[derive(Drop)]
pub struct Machine {
    place: u32,
    r: u64,
    q: u64,
    depth: u64,
    steps: u64,
}

impl Model for Machine {
    ghost use Rattle.gier_exec.specs.Registers.{Registers, AreWords};

    ghost Value = { Registers };

    ghost view = { λ m. record { place = m.place; r = m.r; q = m.q; depth = m.depth; steps = m.steps } };

    ghost invariant = { λ m. AreWords (record { place = m.place; r = m.r; q = m.q; depth = m.depth; steps = m.steps }) };
}

impl Machine {
    /// A machine whose next order stands at `start`, with so many steps left; all else is 0.
    pub fn new(start: u32, steps: u64) -> Machine
        ensures { result ≡ first_registers start steps }
    {
        Machine {
            place: start,
            r: 0,
            q: 0,
            depth: 0,
            steps,
        }
    }

    /// The address of the next order, or of the one that stopped the run.
    #[inline(always)]
    pub fn place(&self) -> u32
        ensures { result ≡ self.now.place }
    {
        self.place
    }

    /// The register R, a word below 2^40.
    #[inline(always)]
    pub fn r(&self) -> u64
        ensures value { result ≡ self.now.r }
        ensures small { result < 2 ^ 40 }
    {
        self.r
    }

    /// The register Q, a word below 2^40.
    pub fn q(&self) -> u64
        ensures value { result ≡ self.now.q }
        ensures small { result < 2 ^ 40 }
    {
        self.q
    }

    /// How many activations were entered and not left by a return, not counting the first one.
    pub fn depth(&self) -> u64
        ensures { result ≡ self.now.depth }
    {
        self.depth
    }

    /// How many steps are left.
    pub fn steps_left(&self) -> u64
        ensures { result ≡ self.now.steps }
    {
        self.steps
    }

    // Pays for an entry, and counts it.
    pub(crate) fn enter(&mut self)
        requires { 0 < self.old.steps }
        ensures { self.new ≡ record self.old { steps = self.old.steps - 1; depth = self.old.depth + 1 } }
    {
        self.steps -= 1;
        self.depth += 1;
    }

    // Pays for an order that enters nothing.
    #[inline(always)]
    pub(crate) fn charge(&mut self)
        requires { 0 < self.old.steps }
        ensures { self.new ≡ record self.old { steps = self.old.steps - 1 } }
    {
        self.steps -= 1;
    }

    // An activation was left.
    pub(crate) fn leave(&mut self)
        requires { 0 < self.old.depth }
        ensures { self.new ≡ record self.old { depth = self.old.depth - 1 } }
    {
        self.depth -= 1;
    }

    // Nothing was entered but the first activation.
    pub(crate) fn start(&mut self)
        ensures { self.new ≡ record self.old { depth = 0 } }
    {
        self.depth = 0;
    }

    // The order that comes next.
    #[inline(always)]
    pub(crate) fn set_place(&mut self, place: u32)
        ensures { self.new ≡ record self.old { place = place } }
    {
        self.place = place;
    }

    // A word for R.
    #[inline(always)]
    pub(crate) fn set_r(&mut self, word: u64)
        requires { word < 2 ^ 40 }
        ensures { self.new ≡ record self.old { r = word } }
    {
        self.r = word;
    }

    // A word for Q.
    pub(crate) fn set_q(&mut self, word: u64)
        requires { word < 2 ^ 40 }
        ensures { self.new ≡ record self.old { q = word } }
    {
        self.q = word;
    }

    // The address behind the order.
    #[inline(always)]
    pub(crate) fn behind(&self) -> u64
        ensures value { result ≡ self.now.place + 1 }
        ensures small { result < 2 ^ 33 }
    {
        u64::from(self.place) + 1
    }

    // An address ahead to go on at; odd where it isn't one of the object's.
    #[inline(always)]
    #[tactic(auto, using(crate::proofs::MeasureFalls::ahead_falls))]
    pub(crate) fn ahead(&self, next: u64, words: u32) -> Result<u32, Stop>
        requires { self.now.place < next }
        ensures goes { IfOk result (λ address. (address ≡ next) × Progresses words self.now address self.now) }
        ensures value { result ≡ (if nat_lt next words then Ok next else Err Odd) }
    {
        if next < u64::from(words) {
            Ok(next as u32)
        } else {
            Err(Stop::Odd)
        }
    }
}

/// An address to go to; odd where it isn't one of the object's.
#[inline(always)]
pub(crate) fn address_of(word: u64, words: u32) -> Result<u32, Stop>
    ensures value { IfOk result (λ address. address ≡ word) }
    ensures found { result ≡ (if nat_lt word words then Ok word else Err Odd) }
    ensures within { IfOk result (λ address. address < words) }
{
    if word < u64::from(words) {
        Ok(word as u32)
    } else {
        Err(Stop::Odd)
    }
}
