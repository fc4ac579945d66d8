// Bytes that are written and moved in one buffer.
ghost use Rattle.std.specs.Prelude.{◌≡◌, ◌+◌, ◌≤◌, OnOk, length};
ghost use Rattle.sg_facts.specs.Object.{over};
ghost use Rattle.std.specs.Option.{option_copied};
ghost use Rattle.sg_store.specs.Spans.{cut};
ghost use Rattle.sg_store.specs.Inside.Buffers.{IsFrontOf, HasCopy};

use sg_facts::NoMemory;

/// Writes bytes over those of a buffer from a place on.
pub(crate) fn write_at(buffer: &mut Vec<u8>, at: usize, bytes: &[u8])
    requires { at + length bytes.now ≤ length buffer.old.items }
    ensures { buffer.new.items ≡ over buffer.old.items at bytes.now }
{
    buffer[at..at + bytes.len()].copy_from_slice(bytes);
}

/// Adds so much room at the end of a buffer, which begins with a copy of some of its bytes. The bytes that were there stay,
/// whatever the answer.
pub(crate) fn add_copy(
    buffer: &mut Vec<u8>,
    from: usize,
    len: usize,
    room: usize,
) -> Result<(), NoMemory>
    requires within { from + len ≤ length buffer.old.items }
    requires room { len ≤ room }
    ensures kept { IsFrontOf buffer.old.items buffer.new.items }
    ensures copied { OnOk result (HasCopy buffer.old.items from len room buffer.new.items) }
{
    buffer.reserve(room)?;
    let end = buffer.len() + room;
    buffer.extend_from_within(from..from + len)?;
    buffer.resize(end, 0)?;
    Ok(())
}

/// The bytes of a file from a place up to another; None exactly where the first is after the second, or the second past the
/// end.
pub(crate) fn cut(file: &[u8], from: u32, to: u32) -> Option<&[u8]>
    ensures { option_copied result ≡ cut file.now from to }
{
    if from > to || to as usize > file.len() {
        return None;
    }
    Some(&file[from as usize..to as usize])
}
