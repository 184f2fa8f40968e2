// The sample program as a source.
ghost use Rattle.std.specs.Prelude.{◌≡◌, ◌≤◌, Ok, Some, drop, slice_get, OnErr, IfOk};
ghost use Rattle.gier_word.specs.Cause.{HasCause};
ghost use Rattle.gier_io.specs.Device.{Gives};
ghost use Rattle.gier_sample.specs.Sample.{sample_text};

use crate::piece::{Piece, Pieces};
use gier_io::Source;
use gier_word::Failed;
use std::marker::Model;

/// The sample program for a number, of which no more than a line is held; clauses see the bytes that are left.
#[derive(Drop)]
pub struct SampleSource {
    piece: Piece,
    at: usize,
    behind: Pieces,
}

impl Model for SampleSource {
    ghost use Rattle.std.specs.Prelude.{◌≤◌, ◌++◌, ℕ, List, drop, length};
    ghost use Rattle.gier_sample.specs.Piece.{piece_bytes};

    ghost Value = { List ℕ };

    ghost view = { λ s. drop s.at (piece_bytes s.piece) ++ s.behind };

    ghost invariant = { λ s. s.at ≤ length (piece_bytes s.piece) };
}

impl SampleSource {
    /// The sample program for `k`, at most 2000: a loop of three turns over `k` calls, which prints
    /// `3 * k * (k + 1) / 2`. It takes no memory.
    pub fn of(k: u16) -> SampleSource
        requires { k ≤ 2000 }
        ensures { result ≡ sample_text k }
    {
        SampleSource {
            piece: Piece::Head,
            at: 0,
            behind: Pieces::of(k),
        }
    }
}

impl Source for SampleSource {
    ghost left = { λ s. Some s };

    ghost faults = { λ s. 0 };

    fn next(&mut self) -> Result<Option<u8>, Failed>
        ensures byte { result ≡ Ok (slice_get self.old 0) }
        ensures rest { self.new ≡ drop 1 self.old }
        ensures given { IfOk result (λ byte. Gives (Some self.old) byte (Some self.new)) }
        ensures kept { OnErr result (Some self.new ≡ Some self.old) }
        ensures cause { HasCause 0 0 result }
    {
        if self.at == self.piece.as_slice().len() {
            match self.behind.take_piece() {
                Some(piece) => {
                    self.piece = piece;
                    self.at = 0;
                }
                None => return Ok(None),
            }
        }
        let byte = self.piece.as_slice()[self.at];
        self.at += 1;
        Ok(Some(byte))
    }
}
