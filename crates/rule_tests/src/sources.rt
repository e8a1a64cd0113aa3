// Tests of reading certificates and asking their rules when calls of the source fail: three printed ones, in pieces, with each call failing in turn.
use crate::printed::{ESTATE, FLAT, TAXI};
use cert_checker::{check, judge};
use cert_reader::{ReadEnd, read_certificate};
use rule_verdicts::Verdict;
use split_base::MemSource;
use std::alloc::Global;
use std::process::Abort;
use std::test::Fail;

// A source that gives a text in four pieces, the third of one byte, and whose call of this number fails.
pub(crate) fn source_of(alloc: Global, text: &str, call: u64) -> Result<MemSource, Fail> {
    let pieces = [100, 14, 1].to_vec(alloc)?;
    let fails = [call].to_vec(alloc)?;
    Ok(MemSource::new(text.as_bytes().to_vec(alloc)?, pieces, fails))
}

// A failed read must end a check at once, and must not pass for a text that has ended.
#[test]
fn each_failing_call_is_told(rt: HostRuntime) -> Result<(), Fail> {
    let alloc = rt.alloc();
    for text in [FLAT, ESTATE, TAXI] {
        // Four reads give the text, and a fifth finds its end.
        for call in 1..=5 {
            let read = read_certificate(alloc, &mut source_of(alloc, text, call)?);
            assert!(rt; matches!(read, Err(ReadEnd::ReadFault)), "call {call}");
            let told = judge(&mut source_of(alloc, text, call)?);
            assert_eq!(rt; told, Err(ReadEnd::ReadFault), "call {call}");
        }
        let Ok(certificate) = read_certificate(alloc, &mut source_of(alloc, text, 6)?) else {
            return Err(Fail::from("refused"));
        };
        assert_eq!(rt; check(&certificate), Verdict::Yes);
        assert_eq!(rt; judge(&mut source_of(alloc, text, 6)?), Ok(Verdict::Yes));
    }
    Ok(())
}
