// The pieces that the sample program is given in, one after another.
ghost use Rattle.std.specs.Prelude.{◌≡◌, ◌+◌, ◌≤◌, ◌++◌, [], MatchOption};
ghost use Rattle.gier_sample.specs.Sample.{head_text, tail_text, call_lines};
ghost use Rattle.gier_sample.specs.Piece.{piece_bytes, BeginsWith};

use crate::line::Line;
use std::marker::Model;

#[derive(Drop)]
pub(crate) enum Piece {
    Head,
    Call(Line),
    Tail,
}

impl Piece {
    pub(crate) fn as_slice(&self) -> &[u8]
        ensures { result.now ≡ piece_bytes self.now }
    {
        match self {
            Piece::Head => head(),
            Piece::Call(line) => line.as_slice(),
            Piece::Tail => tail(),
        }
    }
}

#[tactic(auto, unfolding(crate::specs::Sample::head_text))]
fn head() -> &'static [u8]
    ensures { result.now ≡ head_text }
{
    b"_begin _integer s,j;\n_procedure p(x); _integer x; s:=x;\n_for j:=1 _step 1 _until 3 _do _begin\n"
}

#[tactic(auto, unfolding(crate::specs::Sample::tail_text))]
fn tail() -> &'static [u8]
    ensures { result.now ≡ tail_text }
{
    b"_end;\noutinteger(s); outcr\n_end\n"
}

// The pieces behind the head: so many calls from the number `next` on, and the tail. Clauses see their bytes.
// No number has more than four digits.
#[derive(Drop)]
pub(crate) struct Pieces {
    next: u16,
    calls: u16,
    ended: bool,
}

impl Model for Pieces {
    ghost use Rattle.std.specs.Prelude.{◌+◌, ◌<◌, ◌++◌, ℕ, List, [], if◌then◌else◌};
    ghost use Rattle.gier_sample.specs.Sample.{call_lines, tail_text};

    ghost Value = { List ℕ };

    ghost view = { λ p. if p.ended then [] else call_lines p.next p.calls ++ tail_text };

    ghost invariant = { λ p. p.next + p.calls < 10000 };
}

impl Pieces {
    // The calls for the numbers from 1 to k, and the tail.
    pub(crate) fn of(k: u16) -> Pieces
        requires { k ≤ 2000 }
        ensures { result ≡ call_lines 1 k ++ tail_text }
    {
        Pieces {
            next: 1,
            calls: k,
            ended: false,
        }
    }

    // The next piece, which isn't empty, and None where nothing is left.
    pub(crate) fn take_piece(&mut self) -> Option<Piece>
        ensures { MatchOption result ((self.old ≡ []) × (self.new ≡ []))
            (λ piece. BeginsWith self.old piece self.new) }
    {
        if self.ended {
            return None;
        }
        if self.calls == 0 {
            self.ended = true;
            return Some(Piece::Tail);
        }
        let line = Line::of(self.next);
        self.next += 1;
        self.calls -= 1;
        Some(Piece::Call(line))
    }
}
