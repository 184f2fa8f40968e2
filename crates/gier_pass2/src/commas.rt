// The parameter comma: `)`, an identifier of letters only, `:` and `(` are one `,`.
ghost use Rattle.std.specs.Prelude.{◌≡◌, ◌≤◌, ◌+◌, ◌++◌, [], ℕ, length, IfSome};
ghost use Rattle.gier_pass2.specs.Letters.{IsWritable};
ghost use Rattle.gier_pass2.specs.TokensGiven.{buffered};
ghost use Rattle.gier_pass2.specs.ParameterComma.{symbols_of, is_kind, longer_by, waits_after, given_by, IsWaiting};

use crate::token_buffer::TokenBuffer;
use gier_symbol::{Symbol, Tag};

/// What has been read of a parameter comma; it is written only when it is known to be none.
#[derive(Debug, Clone, Copy, PartialEq, Eq)]
pub(crate) enum PendingComma {
    Nothing,
    /// `)`.
    Shut(Symbol),
    /// `)` and an identifier of letters only.
    Name(Symbol, Symbol),
    /// These and `:`.
    Colon(Symbol, Symbol, Symbol),
}

fn is(kind: Tag, s: Symbol) -> bool
    ensures { result ≡ is_kind kind s }
{
    s.tag == kind.number()
}

// What waits where the symbol may belong to the same comma.
fn longer(waiting: PendingComma, s: Symbol, plain: bool) -> Option<PendingComma>
    ensures longer { result ≡ longer_by waiting s plain }
    ensures waits { IfSome result (λ more. more ≡ waits_after waiting s plain) }
    ensures given { IfSome result (λ more. given_by waiting s plain ≡ []) }
    ensures writable { (bytes : ℕ) → IsWaiting bytes waiting → IsWritable bytes s → IfSome result (IsWaiting bytes) }
{
    match waiting {
        PendingComma::Nothing => {
            if is(Tag::RightParenthesis, s) {
                return Some(PendingComma::Shut(s));
            }
            None
        }
        PendingComma::Shut(shut) => {
            if plain {
                return Some(PendingComma::Name(shut, s));
            }
            None
        }
        PendingComma::Name(shut, name) => {
            if is(Tag::Colon, s) {
                return Some(PendingComma::Colon(shut, name, s));
            }
            None
        }
        PendingComma::Colon(_, _, _) => None,
    }
}

/// Gives all that waits.
pub(crate) fn give(waiting: PendingComma, ready: &mut TokenBuffer)
    requires room { length (buffered ready.old) + length (symbols_of waiting) ≤ 5 }
    requires writable { IsWaiting ready.old.bytes waiting }
    ensures bytes { ready.new.bytes ≡ ready.old.bytes }
    ensures given { buffered ready.new ≡ buffered ready.old ++ symbols_of waiting }
{
    match waiting {
        PendingComma::Nothing => {}
        PendingComma::Shut(shut) => ready.push(shut),
        PendingComma::Name(shut, name) => {
            ready.push(shut);
            ready.push(name);
        }
        PendingComma::Colon(shut, name, colon) => {
            ready.push(shut);
            ready.push(name);
            ready.push(colon);
        }
    }
}

/// Takes the next symbol, gives what is known to be no part of a comma or is one, and answers what waits then.
///
/// `plain` tells an identifier of letters only.
pub(crate) fn feed(
    waiting: PendingComma,
    s: Symbol,
    plain: bool,
    ready: &mut TokenBuffer,
) -> PendingComma
    requires room { length (buffered ready.old) + length (symbols_of waiting) + 1 ≤ 5 }
    requires waiting { IsWaiting ready.old.bytes waiting }
    requires writable { IsWritable ready.old.bytes s }
    ensures bytes { ready.new.bytes ≡ ready.old.bytes }
    ensures waits { result ≡ waits_after waiting s plain }
    ensures given { buffered ready.new ≡ buffered ready.old ++ given_by waiting s plain }
    ensures few { length (buffered ready.new) + length (symbols_of result)
        ≤ length (buffered ready.old) + length (symbols_of waiting) + 1 }
    ensures writable { IsWaiting ready.old.bytes result }
{
    if let Some(more) = longer(waiting, s, plain) {
        return more;
    }
    if let PendingComma::Colon(shut, _, _) = waiting {
        if is(Tag::LeftParenthesis, s) {
            ready.push(Symbol::new(Tag::Comma, 0, shut.line));
            return PendingComma::Nothing;
        }
    }
    give(waiting, ready);
    if is(Tag::RightParenthesis, s) {
        return PendingComma::Shut(s);
    }
    ready.push(s);
    PendingComma::Nothing
}
