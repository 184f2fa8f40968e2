// The sample programs as they are written out, and how long the longest is.

use crate::SampleSource;
use gier_io::Source;
use std::test::Fail;

// All that the source gives.
fn bytes_of(rt: &HostRuntime, mut source: SampleSource) -> Result<Vec<u8>, Fail> {
    let mut bytes = Vec::new(rt.alloc());
    while let Some(byte) = source.next()? {
        bytes.push(byte)?;
    }
    Ok(bytes)
}

const NO_CALL: &str = "_begin _integer s,j;
_procedure p(x); _integer x; s:=x;
_for j:=1 _step 1 _until 3 _do _begin
_end;
outinteger(s); outcr
_end
";

const TWO_CALLS: &str = "_begin _integer s,j;
_procedure p(x); _integer x; s:=x;
_for j:=1 _step 1 _until 3 _do _begin
p(s+1);
p(s+2);
_end;
outinteger(s); outcr
_end
";

#[test]
fn small_samples(rt: HostRuntime) -> Result<(), Fail> {
    assert_eq!(rt;
        bytes_of(&rt, SampleSource::of(0))?.as_slice(),
        NO_CALL.as_bytes()
    );
    assert_eq!(rt;
        bytes_of(&rt, SampleSource::of(2))?.as_slice(),
        TWO_CALLS.as_bytes()
    );
    Ok(())
}

#[test]
fn longest_sample(rt: HostRuntime) -> Result<(), Fail> {
    let bytes = bytes_of(&rt, SampleSource::of(2000))?;
    assert_eq!(rt; bytes.len(), 21_019);
    Ok(())
}
