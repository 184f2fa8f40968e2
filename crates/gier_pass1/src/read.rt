// Reads a program text from a tape, and writes its symbols and adds its faults.
ghost use Rattle.std.specs.Prelude.{◌≡◌, ◌≤◌, ◌<◌, ◌+◌, [], ℕ, List, OnOk, IfOk, IsErrOf, IsTrue};
ghost use Rattle.gier_word.specs.Cause.{HasRisen};
ghost use Rattle.gier_symbol.specs.declared.symbol.Symbol.{Symbol};
ghost use Rattle.gier_text.specs.declared.pass.PassStop.TheVariants.{Drum, Memory, Full};
ghost use Rattle.gier_text.specs.TablesModel.{tables_model};
ghost use Rattle.gier_text.specs.Passes.{HasLess};
ghost use Rattle.gier_text.specs.View.{IsEmpty, IsFull};
ghost use Rattle.gier_pass1.specs.declared.read.ReadStop.TheVariants.{Read, Pass};
ghost use Rattle.gier_pass1.specs.Program.{longest, Takes};
ghost use Rattle.gier_pass1.specs.Puts.{Frame, Puts, AddsFaults, NeverSpoilt};
ghost use Rattle.gier_pass1.specs.TapeListing.{TellsAll};

use crate::emit::put;
use crate::program::next_byte;
use crate::scanner::Scanner;
use gier_io::Source;
use gier_text::{PassStop, Tables, Text};

/// Why the first pass stopped. The output may only be dropped then.
#[derive(Debug, Clone, Copy, PartialEq, Eq)]
pub enum ReadStop {
    /// The program text has more than 524,288 bytes; one byte more than that was taken.
    TooLong,
    /// The tape failed, and its count of faults rose.
    Read,
    /// The output refused a symbol; this is never Spoilt.
    Pass(PassStop),
}

/// The first pass.
#[derive(Debug, Clone, Copy, PartialEq, Eq)]
pub struct Pass1;

impl Pass1 {
    /// Takes the program text from the tape, writes its symbols and adds its faults of characters, words and strings.
    /// It gives the number of bytes of the program text.
    ///
    /// The position of a fault is the number of its byte, from 0. Where a string is open, it isn't said which symbols
    /// are written.
    pub fn read<S: Source, T: Text>(
        tape: &mut S,
        store: &mut T::Store,
        out: &mut T,
        tables: &mut Tables,
    ) -> Result<u32, ReadStop>
        requires limit { longest ≤ (tables_model tables.old).limit }
        requires no_faults { (tables_model tables.old).faults ≡ [] }
        requires empty { IsEmpty (T.view out.old store.old) }
        requires placed { T.end_track out.old ≤ T.room store.old }
        ensures taken { Takes result (S.left tape.old) (S.left tape.new) }
        ensures symbols { OnOk result ((ws : List Symbol)
            × Puts ws (T.view out.old store.old) (T.view out.new store.new) (T.journal store.old) (T.journal store.new)) }
        ensures bounded { IfOk result (λ bytes. (T.view out.new store.new).count ≤ bytes + 1) }
        ensures tables { AddsFaults (tables_model tables.old) (tables_model tables.new) longest }
        ensures frame { Frame T.view T.first_track T.end_track T.room T.tracks T.faults out.old store.old out.new store.new }
        ensures tape_later { S.faults tape.old ≤ S.faults tape.new }
        ensures read { IsErrOf result Read → HasRisen (S.faults tape.old) (S.faults tape.new) }
        ensures drum { IsErrOf result (Pass Drum) → HasRisen (T.faults store.old) (T.faults store.new) }
        ensures memory { IsErrOf result (Pass Memory) → IsTrue T.grows }
        ensures full { IsErrOf result (Pass Full) → IsFull (T.view out.new store.new) }
        ensures roomy { IsErrOf result (Pass Full) → HasLess (T.view out.old store.old) (longest + 1) }
        ensures sound { NeverSpoilt result }
        ensures told { IfOk result (TellsAll (S.left tape.old) tables.new T.view T.journal out.old store.old out.new store.new) }
    {
        let mut scanner = Scanner::new();
        'bytes: loop {
            let byte = match next_byte(tape, scanner.state.here.at) {
                Ok(Some(byte)) => byte,
                Ok(None) => break 'bytes,
                Err(stop) => return Err(stop),
            };
            let founds = scanner.take(byte);
            match put(founds, store, out, tables) {
                Ok(()) => {}
                Err(stop) => return Err(ReadStop::Pass(stop)),
            }
        }
        let founds = scanner.end();
        match put(founds, store, out, tables) {
            Ok(()) => Ok(scanner.state.here.at),
            Err(stop) => Err(ReadStop::Pass(stop)),
        }
    }
}
