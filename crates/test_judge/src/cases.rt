// Texts with one piece changed, and what is said of each.
use sg_judge::{Read, verdict};
use std::alloc::{AllocError, Global};
use std::process::Abort;
use std::test::Fail;
use test_interfaces::{CHANNEL, DEVICE, LEASE, RWLOCK, SEMAPHORE, SOCKETS};

/// The text that is changed.
#[derive(Clone, Copy, Debug)]
pub enum Base {
    Semaphore,
    Rwlock,
    Channel,
    Lease,
    Device,
    Sockets,
}

impl Base {
    /// Its bytes.
    pub fn text(self) -> &'static [u8] {
        match self {
            Base::Semaphore => SEMAPHORE,
            Base::Rwlock => RWLOCK,
            Base::Channel => CHANNEL,
            Base::Lease => LEASE,
            Base::Device => DEVICE,
            Base::Sockets => SOCKETS,
        }
    }
}

/// A text that is made from another by putting something in the place of a piece, at the first place where that stands; and what `check` says.
#[derive(Clone, Copy, Debug)]
pub struct Case {
    pub base: Base,
    pub piece: &'static str,
    pub instead: &'static str,
    pub said: &'static str,
}

/// A text with something in the place of a piece, at the first place where that stands.
pub(crate) fn changed(
    alloc: Global,
    base: &[u8],
    piece: &[u8],
    instead: &[u8],
) -> Result<Vec<u8>, AllocError> {
    let at = place_of(base, piece);
    let mut text = Vec::from_slice(alloc, base.get(..at).unwrap_or(b""))?;
    text.extend_from_slice(instead)?;
    text.extend_from_slice(base.get(at.saturating_add(piece.len())..).unwrap_or(b""))?;
    Ok(text)
}

// The first place at which a piece stands; the end of the text where it stands nowhere.
fn place_of(text: &[u8], piece: &[u8]) -> usize {
    for at in 0..text.len() {
        if text.get(at..).unwrap_or(b"").starts_with(piece) {
            return at;
        }
    }
    text.len()
}

/// What is said of a text, among no services.
pub(crate) fn said(alloc: Global, text: &[u8]) -> Result<String, Fail> {
    let read = verdict(alloc, text, &[])?;
    let line = match &read {
        Read::Ready(line) | Read::Refused(line) => line.as_slice(),
    };
    Ok(String::from_utf8_lossy(alloc, line)?)
}

/// Of each of these texts this is said.
pub(crate) fn try_each(rt: &impl Abort, alloc: Global, cases: &[Case]) -> Result<(), Fail> {
    for case in cases {
        let text = changed(
            alloc,
            case.base.text(),
            case.piece.as_bytes(),
            case.instead.as_bytes(),
        )?;
        let line = said(alloc, text.as_slice())?;
        assert_eq!(rt; line.as_str(), case.said, "with {case:?}");
    }
    Ok(())
}
