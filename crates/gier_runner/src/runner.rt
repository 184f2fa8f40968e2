// The runner: what is opened once, and a run with it.
ghost use Rattle.std.specs.Prelude.{◌≡◌, ◌≤◌, ◌<◌, ◌^◌, ◌+◌, ◌++◌, ℕ, Bool, List, [], length, take, drop, map, Some, IfOk};
ghost use Rattle.gier_word.specs.Cause.{HasRisen};
ghost use Rattle.gier_order.specs.Counts.{StandsFor as Counts};
ghost use Rattle.gier_order.specs.Misses.{misses};
ghost use Rattle.gier_order.specs.Flat.Run.{flat};
ghost use Rattle.gier_order.specs.Flat.Live.{live_in};
ghost use Rattle.gier_io.specs.Device.{Puts};
ghost use Rattle.gier_library.specs.Data.{limit, Takes};
ghost use Rattle.gier_frames.specs.Stop.{activations};
ghost use Rattle.gier_frames.specs.State.{fresh as no_frames, all_zero};
ghost use Rattle.gier_best.specs.TraceModel.{HasNoted, AreTracks, fresh as no_trace};
ghost use Rattle.gier_exec.specs.Reading.{tracks_for};
ghost use Rattle.gier_exec.specs.Registers.{first_registers};
ghost use Rattle.gier_exec.specs.Rows.{code_in, regs_of};
ghost use Rattle.gier_exec.specs.Turning.{IsRest};
ghost use Rattle.gier_runner.specs.State.{report_of, Begun, Agrees};
ghost use Rattle.gier_runner.specs.RunInvariant.{OnlyReads, devices};
ghost use Rattle.gier_runner.specs.Live.{live_of};
ghost use Rattle.gier_runner.specs.FlatRun.{HasRead, Reports, flat_ending, unread, read_up};
ghost use Rattle.gier_runner.specs.declared.ending.Ending.TheVariants.{Read, Write, Drum as DrumFailed};

use crate::orders::run_orders;
use crate::{Ending, Report, Settings};
use gier_best::Trace;
use gier_drum::Drum;
use gier_exec::Machine;
use gier_frames::Frames;
use gier_io::{Sink, Source};
use gier_library::Data;
use gier_order::{Object, Recent};
use gier_places::Places;
use gier_word::NoMemory;
use std::alloc::Global;
use std::marker::Model;

// How many changes of track are kept for a plan.
const CHANGES: u32 = 1_000_000;

/// Runs compiled programs, one after another, with the same settings.
///
/// All memory is taken at opening. What is told is of the last run; where nothing ran yet, of a run that did nothing.
#[derive(Drop)]
pub struct Runner {
    settings: Settings,
    machine: Machine,
    frames: Frames,
    places: Places,
    recent: Recent,
    trace: Trace,
}

impl Model for Runner {
    ghost use Rattle.std.specs.Prelude.{◌≡◌, ◌≤◌, ◌<◌, length};
    ghost use Rattle.gier_runner.specs.State.{State, Agrees};

    ghost Value = { State };

    ghost view = { λ r. record {
      settings = r.settings;
      machine = r.machine;
      frames = r.frames;
      places = r.places;
      recent = r.recent;
      trace = r.trace;
    } };

    ghost invariant = { λ r. Agrees (record {
      settings = r.settings;
      machine = r.machine;
      frames = r.frames;
      places = r.places;
      recent = r.recent;
      trace = r.trace;
    }) };
}

impl Runner {
    /// A runner that keeps no references for a plan. `places` is 1 to 64, and `stack` is below 2^24.
    pub fn open(alloc: Global, settings: Settings) -> Result<Runner, NoMemory>
        requires least { 1 ≤ settings.places }
        requires most { settings.places ≤ 64 }
        requires stack { settings.stack < 2 ^ 24 }
        ensures begun { IfOk result (λ runner. Begun settings 0 runner) }
        ensures trace { IfOk result (λ runner. runner.trace ≡ no_trace 0 0) }
    {
        let trace = Trace::open(alloc, 0, 0)?;
        open_with(alloc, settings, trace)
    }

    /// A runner that keeps 1,000,000 changes of track for a plan, of programs with so many tracks. `places` is 1 to 64,
    /// and `stack` is below 2^24.
    pub fn open_traced(alloc: Global, settings: Settings, tracks: u32) -> Result<Runner, NoMemory>
        requires least { 1 ≤ settings.places }
        requires most { settings.places ≤ 64 }
        requires stack { settings.stack < 2 ^ 24 }
        ensures begun { IfOk result (λ runner. Begun settings 0 runner) }
        ensures trace { IfOk result (λ runner. runner.trace ≡ no_trace 1000000 tracks) }
    {
        let trace = Trace::open(alloc, CHANGES, tracks)?;
        open_with(alloc, settings, trace)
    }

    /// Runs a compiled program from the drum, on the data of a source, and prints to a sink.
    ///
    /// Each run begins with empty places and frames, whatever ran before. Where the drum tells its tracks, the run is the
    /// flat run of the program's words there, on the data taken and whatever could stand behind them: it reads, prints and
    /// takes the same, and ends alike, in the same place, with the same steps, words and activations. Where a device failed,
    /// what was read, printed and taken is the first of that. `Read`, `Write` and `Drum` come only where that device's count
    /// of faults rose. The drum is only read. The first order's address is below the number of words, which is at most 2^24,
    /// and the program's tracks lie in the drum's room.
    pub fn run<D: Drum, S: Source, K: Sink>(
        &mut self,
        object: &Object,
        drum: &mut D,
        input: &mut S,
        out: &mut K,
    ) -> Ending
        requires start { object.now.start < object.now.words }
        requires words { object.now.words ≤ 2 ^ 24 }
        requires in_room { object.now.first_track + tracks_for object.now.words ≤ D.room drum.old }
        ensures settings { self.new.settings ≡ self.old.settings }
        ensures agrees { Agrees self.new }
        ensures flat { (tracks : List (List ℕ)) → D.tracks drum.old ≡ Some tracks
            → (read put taken : List ℕ) × (ended : Bool)
            × HasRead object.now read self.new (D.journal drum.old) (D.journal drum.new)
            × Puts (K.holds out.old) put (K.holds out.new)
            × Takes (unread (S.left input.old)) taken (read_up (S.left input.new) (length taken) ended)
            × ((rest : List ℕ) → IsRest ended rest → Reports (flat_ending result) self.new read put rest
            (flat (code_in tracks object.now) object.now.start (taken ++ rest) self.old.settings.steps self.old.settings.stack)) }
        ensures told { (tracks : List (List ℕ)) (bytes : List ℕ) → D.tracks drum.old ≡ Some tracks → S.left input.old ≡ Some bytes
            → (read put taken rest : List ℕ) × HasRead object.now read self.new (D.journal drum.old) (D.journal drum.new)
            × Puts (K.holds out.old) put (K.holds out.new) × (take limit bytes ≡ taken ++ rest)
            × (S.left input.new ≡ Some (drop (length taken) bytes))
            × Reports (flat_ending result) self.new read put rest
            (flat (code_in tracks object.now) object.now.start (take limit bytes) self.old.settings.steps self.old.settings.stack) }
        ensures stop { self.new.machine.place < object.now.words }
        ensures trace_limit { self.new.trace.limit ≡ self.old.trace.limit }
        ensures trace_tracks { self.new.trace.tracks ≡ self.old.trace.tracks }
        ensures noted { tracks_for object.now.words ≤ self.old.trace.tracks → AreTracks self.new.trace }
        ensures reads { OnlyReads (devices D.room D.tracks D.journal D.faults S.faults K.faults drum.old input.old out.old)
            (devices D.room D.tracks D.journal D.faults S.faults K.faults drum.new input.new out.new) }
        ensures drum_failed { result ≡ DrumFailed → HasRisen (D.faults drum.old) (D.faults drum.new) }
        ensures source_failed { result ≡ Read → HasRisen (S.faults input.old) (S.faults input.new) }
        ensures sink_failed { result ≡ Write → HasRisen (K.faults out.old) (K.faults out.new) }
    {
        self.begin(object.start);
        let mut data = Data::of(input);
        run_orders(
            &mut self.machine,
            &mut self.frames,
            &mut self.places,
            &mut self.recent,
            object,
            drum,
            &mut data,
            out,
            &mut self.trace,
        )
    }

    /// What the last run took.
    pub fn report(&self) -> Report
        ensures { result ≡ report_of self.now }
    {
        Report {
            steps: self.settings.steps - self.machine.steps_left(),
            transfers: self.places.transfers(),
            words: self.frames.greatest(),
        }
    }

    /// How many tracks the last run would have read with so many places, from 1 to 64.
    pub fn misses(&self, places: u8) -> u128
        requires least { 1 ≤ places }
        requires most { places ≤ 64 }
        ensures { (refs : List ℕ) → Counts self.now.recent refs → result ≡ length (misses refs places) }
    {
        self.recent.misses(places)
    }

    /// The address of the order that stopped the last run.
    pub fn stop(&self) -> u32
        ensures { result ≡ self.now.machine.place }
    {
        self.machine.place()
    }

    /// The frames that the last run left, with the activations that were live where the flat run stops.
    pub fn frames(&self) -> &Frames
        ensures value { result.now ≡ self.now.frames }
        ensures live { (rest : List ℕ) → live_in (regs_of self.now.machine self.now.frames rest)
            ≡ map live_of (activations self.now.frames) }
    {
        &self.frames
    }

    // Nothing of an earlier run is left but the plan that was found last.
    fn begin(&mut self, start: u32)
        ensures begun { Begun self.old.settings start self.new }
        ensures trace_limit { self.new.trace.limit ≡ self.old.trace.limit }
        ensures trace_tracks { self.new.trace.tracks ≡ self.old.trace.tracks }
    {
        self.machine = Machine::new(start, self.settings.steps);
        self.frames.clear();
        self.places.clear();
        self.recent = Recent::new();
        self.trace.clear();
    }
}

impl Runner {
    ghost use Rattle.std.specs.Borrow.{Lends, sem};
    ghost use Rattle.gier_best.specs.contracts.trace.Trace.{the_row as trace_row};
    ghost use Rattle.gier_runner.specs.contracts.runner.Runner.{the_row};

    /// The references of the last run, for a plan.
    pub fn trace(&mut self) -> &mut Trace
        ensures value { result.now ≡ self.old.trace }
        ensures* lends { sem 𝓛 (Lends the_row trace_row self.entry result (λ trace. record self.old { trace = trace })) }
    {
        &mut self.trace
    }
}

fn open_with(alloc: Global, settings: Settings, trace: Trace) -> Result<Runner, NoMemory>
    requires least { 1 ≤ settings.places }
    requires most { settings.places ≤ 64 }
    requires stack { settings.stack < 2 ^ 24 }
    requires tracks { AreTracks trace }
    requires noted { HasNoted trace [] }
    ensures begun { IfOk result (λ runner. Begun settings 0 runner) }
    ensures trace { IfOk result (λ runner. runner.trace ≡ trace) }
{
    Ok(Runner {
        settings,
        machine: Machine::new(0, settings.steps),
        frames: Frames::open(alloc, settings.stack)?,
        places: Places::open(alloc, settings.places)?,
        recent: Recent::new(),
        trace,
    })
}
