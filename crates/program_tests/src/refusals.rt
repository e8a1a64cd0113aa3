// Tests of the refusals that no request brings about by itself: the program gives them when the clock, the disk or memory fails.
use reply_texts::{ServiceRefusal, memory_text, service_refusal_text};
use std::process::Abort;

// Their texts are told to clients, so they are compared byte by byte.
#[test]
fn the_service_refuses(rt: HostRuntime) {
    let rows = [
        (ServiceRefusal::ClockFault, r#"{"code":"clock_fault"}"#),
        (ServiceRefusal::StoreFault, r#"{"code":"store_fault"}"#),
        (
            ServiceRefusal::StoreDamaged { place: 49 },
            r#"{"code":"store_damaged","place":49}"#,
        ),
        (ServiceRefusal::Memory, r#"{"code":"memory"}"#),
    ];
    for (refusal, want) in rows {
        let text = service_refusal_text(rt.alloc(), &refusal).expect(&rt, "no memory");
        assert!(rt; refusal.status() == 503, "{want}");
        assert!(rt; text.as_slice() == want.as_bytes(), "{want}");
    }
    assert!(rt; memory_text() == br#"{"code":"memory"}"#.as_slice());
}
