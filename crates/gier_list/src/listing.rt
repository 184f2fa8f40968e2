// Compiles the program on the tape and lists its object. The errors of a program are printed as `gier check` does.
ghost use Rattle.std.specs.Prelude.{◌≡◌, ◌≤◌, []};
ghost use Rattle.gier_limits.specs.Areas.{longest, all_tracks};
ghost use Rattle.gier_front.specs.Fronted.{IsFronted};
ghost use Rattle.gier_text.specs.TablesModel.{tables_model};

use gier_back::{BackStop, back};
use gier_drum::{Drum, RoomFault};
use gier_front::{FrontStop, Fronted, front, print_errors};
use gier_io::{Sink, Source};
use gier_job::Status;
use gier_limits::{LIMIT, tracks_for};
use gier_rows::{ListStop, put_listing};
use gier_shell::{About, Job};
use gier_text::Tables;
use std::alloc::Global;

/// The job of listing a program.
#[derive(Clone, Copy)]
pub(crate) struct Listing {
    pub(crate) about: About,
}

impl Job for Listing {
    fn work<S: Source, K: Sink, D: Drum>(
        &self,
        alloc: Global,
        words: &[String],
        tape: &mut S,
        out: &mut K,
        drum: &mut D,
    ) -> Status {
        if words.is_empty() {
            return list(alloc, tape, out, drum);
        }
        match out.put(b"\n*** word 1\n") {
            Ok(()) => Status::Words,
            Err(_) => Status::Printer,
        }
    }

    fn about(&self) -> About {
        self.about
    }

    // No word may stand there but the path of the tape.
    fn wrong_word(&self, words: &[String]) -> Option<u32> {
        if words.is_empty() { None } else { Some(1) }
    }

    fn command(&self) -> &'static str {
        ""
    }
}

// Takes the drum's room and the tables, compiles the program on the tape, and prints its listing or its errors.
fn list<S: Source, K: Sink, D: Drum>(
    alloc: Global,
    tape: &mut S,
    out: &mut K,
    drum: &mut D,
) -> Status {
    match drum.make_room(tracks_for(LIMIT)) {
        Ok(()) => {}
        Err(RoomFault::Memory) => return Status::Memory,
        Err(RoomFault::Failed) => return Status::Drum,
    }
    let Ok(mut tables) = Tables::open(alloc, LIMIT) else {
        return Status::Memory;
    };
    match front(tape, drum, &mut tables) {
        Ok(fronted) => list_fronted(fronted, out, drum, &mut tables),
        Err(stop) => told(stop, &tables, out),
    }
}

// Makes the object of the program whose text 6 lies on the drum, and lists it.
fn list_fronted<K: Sink, D: Drum>(
    fronted: Fronted,
    out: &mut K,
    drum: &mut D,
    tables: &mut Tables,
) -> Status
    requires fronted { IsFronted fronted }
    requires limit { (tables_model tables.old).limit ≡ longest }
    requires no_faults { (tables_model tables.old).faults ≡ [] }
    requires room { all_tracks longest ≤ D.room drum.old }
{
    match back(fronted, drum, tables) {
        Ok(object) => match put_listing(&object, out, drum) {
            Ok(()) => Status::Done,
            Err(ListStop::Drum) => Status::Drum,
            Err(ListStop::Printer) => Status::Printer,
            Err(ListStop::Spoilt(odd)) => Status::Spoilt(odd),
        },
        Err(BackStop::Drum) => Status::Drum,
        Err(BackStop::Spoilt(odd)) => Status::Spoilt(odd),
    }
}

// The status of a program that wasn't brought to text 6. Its errors are printed.
fn told<K: Sink>(stop: FrontStop, tables: &Tables, out: &mut K) -> Status {
    match stop {
        FrontStop::Errors => match print_errors(tables, out) {
            Ok(()) => Status::Errors,
            Err(_) => Status::Printer,
        },
        FrontStop::Read => Status::Tape,
        FrontStop::Drum => Status::Drum,
        FrontStop::Spoilt(odd) => Status::Spoilt(odd),
    }
}
