// The examples are accepted, and not upgraded.
use crate::cases::{Base, said};
use sg_judge::{Read, upgraded};
use std::alloc::Global;
use std::process::Abort;
use std::test::Fail;

static EXAMPLES: [(Base, &str); 6] = [
    (Base::Semaphore, "accepted semaphore\n"),
    (Base::Rwlock, "accepted rwlock\n"),
    (Base::Channel, "accepted channel\n"),
    (Base::Lease, "accepted lease\n"),
    (Base::Device, "accepted device\n"),
    (Base::Sockets, "accepted sockets\n"),
];

// A text is accepted with this line, and not upgraded.
fn accepted(rt: &impl Abort, alloc: Global, text: &[u8], line: &str) -> Result<(), Fail> {
    let own = said(alloc, text)?;
    assert_eq!(rt; own.as_str(), line);
    match upgraded(alloc, text, &[])? {
        Read::Ready(_) => Err(Fail::new("upgraded")),
        Read::Refused(refused) => {
            assert_eq!(rt;
                refused.as_slice(),
                b"interface refused at 2:15: Syntax\n".as_slice()
            );
            Ok(())
        }
    }
}

#[test]
fn examples_are_accepted(rt: HostRuntime) -> Result<(), Fail> {
    let alloc = rt.alloc();
    for (base, line) in &EXAMPLES {
        accepted(&rt, alloc, base.text(), line)?;
    }
    Ok(())
}
