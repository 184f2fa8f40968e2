// The changes of track among the references of a run, and the plan with the fewest reads for them.
ghost use Rattle.std.specs.Prelude.{◌≡◌, ℕ, ◌<◌, ◌≤◌, ◌↔◌, List, [], ◌∷◌, ◌++◌, length, IfOk, IfSome, IsNone, Some, slice_get};
ghost use Rattle.gier_best.specs.Plan.{is_track, IsPlanFor, farthest};
ghost use Rattle.gier_best.specs.Changes.{changes_of};
ghost use Rattle.gier_best.specs.TraceModel.{fresh, after_change, HasNoted, AreTracks, KeepsSettings};

use crate::places::{Places, reserved};
use crate::planner::plan_reads;
use crate::uses::find_next;
use gier_word::NoMemory;
use std::alloc::Global;
use std::marker::Model;

/// The references of a run, as far as a plan needs them.
#[derive(Drop)]
pub struct Trace {
    limit: u32,
    tracks: u32,
    last: Option<u32>,
    too_long: bool,
    changes: Vec<u32>,
    seen: Vec<u32>,
    next: Vec<u32>,
    places: Places,
    plan: Vec<(u32, u8)>,
}

impl Model for Trace {
    ghost use Rattle.std.specs.Prelude.{◌≤◌, length, vec_capacity};
    ghost use Rattle.gier_best.specs.TraceModel.{Traced};

    ghost Value = { Traced };

    ghost view = { λ t. record {
      limit = t.limit;
      tracks = t.tracks;
      last = t.last;
      too_long = t.too_long;
      kept = t.changes.items;
      plan = t.plan.items;
    } };

    ghost invariant = { λ t. (length t.changes.items ≤ t.limit) × (t.limit ≤ vec_capacity t.changes)
        × (t.tracks ≤ vec_capacity t.seen) × (t.limit ≤ vec_capacity t.next) × (t.tracks ≤ vec_capacity t.places.index)
        × (t.limit ≤ vec_capacity t.plan) × (length t.plan.items ≤ t.limit) };
}

impl Trace {
    /// A trace that keeps up to `changes` changes of track, among tracks below `tracks`. All room is taken here.
    pub fn open(alloc: Global, changes: u32, tracks: u32) -> Result<Trace, NoMemory>
        ensures fresh { IfOk result (λ trace. trace ≡ fresh changes tracks) }
        ensures noted { IfOk result (λ trace. HasNoted trace []) }
        ensures tracks { IfOk result (λ trace. AreTracks trace) }
    {
        Ok(Trace {
            limit: changes,
            tracks,
            last: None,
            too_long: false,
            changes: reserved(alloc, changes as usize)?,
            seen: reserved(alloc, tracks as usize)?,
            next: reserved(alloc, changes as usize)?,
            places: Places::open(alloc, tracks)?,
            plan: reserved(alloc, changes as usize)?,
        })
    }

    /// Forgets all references. The plan found last stays.
    pub fn clear(&mut self)
        ensures noted { HasNoted self.new [] }
        ensures tracks { AreTracks self.new }
        ensures settings { KeepsSettings self.old self.new }
    {
        self.last = None;
        self.too_long = false;
        self.changes.clear();
    }

    /// Takes one reference. A change of track beyond those that the trace keeps only marks it as too long.
    #[inline]
    pub fn note(&mut self, track: u32)
        ensures noted { (refs : List ℕ) → HasNoted self.old refs → HasNoted self.new (refs ++ track ∷ []) }
        ensures tracks { track < self.old.tracks → AreTracks self.old → AreTracks self.new }
        ensures settings { KeepsSettings self.old self.new }
    {
        if !self.is_last(track) {
            self.change(track);
        }
    }

    #[inline]
    fn is_last(&self, track: u32) -> bool
        ensures { result ≡ is_track track self.now.last }
    {
        match self.last {
            Some(last) => track == last,
            None => false,
        }
    }

    // Takes a reference to another track than the last one.
    fn change(&mut self, track: u32)
        ensures { self.new ≡ after_change self.old track }
    {
        self.last = Some(track);
        if self.changes.len() < self.limit as usize {
            self.changes.push_reserved(track);
        } else {
            self.too_long = true;
        }
    }

    /// The fewest reads of tracks that any use of so many places needs for the references noted, and None exactly
    /// where they have more changes of track than the trace keeps. The plan with that cost can then be looked up.
    pub fn best(&mut self, places: u8) -> Option<u32>
        requires some { 1 ≤ places }
        requires most { places ≤ 64 }
        requires tracks { AreTracks self.old }
        ensures none { (refs : List ℕ) → HasNoted self.old refs → IsNone result ↔ (self.old.limit < length (changes_of refs)) }
        ensures plan { (refs : List ℕ) → HasNoted self.old refs → IfSome result (λ cost. self.new.plan ≡ farthest refs places) }
        ensures cost { IfSome result (λ cost. cost ≡ length self.new.plan) }
        ensures least { (refs : List ℕ) → HasNoted self.old refs
            → IfSome result (λ cost. (moves : List (ℕ × ℕ)) → IsPlanFor refs places moves → cost ≤ length moves) }
        ensures no_plan { IsNone result → self.new.plan ≡ [] }
        ensures references { self.new ≡ record self.old { plan = self.new.plan } }
    {
        self.plan.clear();
        if self.too_long {
            return None;
        }
        find_next(&self.changes, self.tracks, &mut self.seen, &mut self.next);
        self.places.empty(self.tracks);
        plan_reads(
            &self.changes,
            &self.next,
            places,
            &mut self.places,
            &mut self.plan,
        );
        Some(self.plan.len() as u32)
    }

    /// The track and the place, from 1, of a read of the plan found last, counted from 0.
    pub fn entry(&self, at: u32) -> (u32, u8)
        requires { at < length self.now.plan }
        ensures { slice_get self.now.plan at ≡ Some result }
    {
        self.plan[at as usize]
    }
}

#[cfg(test)]
mod tests {
    use super::*;

    fn note_three(trace: &mut Trace, a: u32, b: u32, c: u32)
        requires a { a < trace.old.tracks }
        requires b { b < trace.old.tracks }
        requires c { c < trace.old.tracks }
        requires tracks { AreTracks trace.old }
        ensures tracks { AreTracks trace.new }
        ensures settings { KeepsSettings trace.old trace.new }
    {
        trace.note(a);
        trace.note(b);
        trace.note(c);
    }

    // Where recent use alone decides, these references need six reads.
    #[test]
    fn four_reads_for_three_tracks_twice(rt: HostRuntime) {
        let mut trace = Trace::open(rt.alloc(), 6, 4).expect(&rt, "room");
        note_three(&mut trace, 1, 2, 3);
        note_three(&mut trace, 1, 2, 3);
        let cost = trace.best(2).expect(&rt, "few changes");
        assert!(rt; cost == 4);
        let plan = [
            trace.entry(0),
            trace.entry(1),
            trace.entry(2),
            trace.entry(3),
        ];
        assert_eq!(rt; plan, [(1, 1), (2, 2), (3, 2), (2, 1)]);
    }

    #[test]
    fn a_third_change_is_too_many_for_two(rt: HostRuntime) {
        let mut trace = Trace::open(rt.alloc(), 2, 4).expect(&rt, "room");
        note_three(&mut trace, 1, 1, 2);
        assert_eq!(rt; trace.best(2), Some(2));
        trace.note(3);
        assert_eq!(rt; trace.best(2), None);
    }
}
