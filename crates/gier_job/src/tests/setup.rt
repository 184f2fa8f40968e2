// What the tests of the top call share: words as they stand on a command line, a call, and a program with its answer.
use crate::{Status, gier};
use gier_drum::Drum;
use gier_io::{Sink, Source};
use std::alloc::{AllocError, Global};
use std::test::Fail;

// A program with blocks, dynamic arrays, procedures and input, and its data.
pub(crate) const SQUARES: &[u8] = b"_begin _comment table of squares and sums;
  _integer n;
  _procedure line(a, b); _value a, b; _integer a, b;
    _begin outinteger(a); outtext({ : }); outinteger(b); outcr _end line;
  n := ininteger;
  _begin _integer i, s, max;
    _integer _array a[1:n], b[0:1, 1:n];
    _integer _procedure larger(x, y); _value x, y; _integer x, y;
      larger := _if x > y _then x _else y;
    s := 0; max := -1000;
    _for i := 1 _step 1 _until n _do
    _begin
      a[i] := ininteger;
      b[0, i] := a[i] * a[i]; b[1, i] := s;
      s := s + a[i];
      max := larger(max, a[i])
    _end reading;
    _for i := n _step -1 _until 1 _do line(a[i], b[0, i] + b[1, i]);
    outtext({sum }); outinteger(s); outtext({ largest }); outinteger(max); outcr
  _end
_end
# 4, 3 -7 12 5
";

// What it prints.
pub(crate) const SQUARES_PRINTED: &[u8] = b"5 : 33\n12 : 140\n-7 : 52\n3 : 9\nsum 13 largest 12\n";

pub(crate) fn words(alloc: Global, texts: &[&str]) -> Result<Vec<String>, AllocError> {
    let mut words = Vec::new(alloc);
    for text in texts {
        words.push(String::from_str(alloc, text)?)?;
    }
    Ok(words)
}

// The top call with these words.
pub(crate) fn answer<S: Source, K: Sink, D: Drum>(
    alloc: Global,
    texts: &[&str],
    tape: &mut S,
    printer: &mut K,
    drum: &mut D,
) -> Result<Status, Fail> {
    let words = words(alloc, texts)?;
    Ok(gier(alloc, words.as_slice(), tape, printer, drum))
}
