// Bytes that are handed over to a drain. What is refused tells how many were taken.

ghost use Rattle.std.specs.Prelude.{◌≡◌, ◌++◌, ◌-◌, ◌≤◌, ◌+◌, ◌<◌, ◌^◌, length, replicate};
ghost use Rattle.pli_edit.specs.Handing.{IsHandedOver};

use crate::drain::Drain;

/// A field of so many bytes goes to the drain in one piece.
const PIECE: usize = 256;

/// All of the bytes, write by write. Where a write fails or takes nothing, none follows.
pub fn hand_over<D: Drain>(drain: &mut D, bytes: &[u8]) -> Result<(), usize>
    ensures { IsHandedOver bytes.now (D.history drain.old) result (D.history drain.new) }
{
    let mut done = 0;
    while done < bytes.len() {
        let Ok(count) = drain.write(&bytes[done..]) else {
            return Err(done);
        };
        if count == 0 {
            return Err(done);
        }
        done += count;
    }
    Ok(())
}

/// So many times a byte.
pub fn hand_repeated<D: Drain>(drain: &mut D, byte: u8, count: usize) -> Result<(), usize>
    ensures { IsHandedOver (replicate count byte) (D.history drain.old) result (D.history drain.new) }
{
    let piece = [byte; PIECE];
    let mut done = 0;
    while done < count {
        let size = PIECE.min(count - done);
        if let Err(more) = hand_over(drain, &piece[..size]) {
            return Err(done + more);
        }
        done += size;
    }
    Ok(())
}

/// A text among fill bytes, so many before it.
fn field_of(fill: u8, before: usize, text: &[u8]) -> [u8; PIECE]
    requires { before + length text.now ≤ 256 }
    ensures { result ≡ replicate before fill ++ (text.now ++ replicate (256 - (before + length text.now)) fill) }
{
    let mut field = [fill; PIECE];
    field[before..before + text.len()].copy_from_slice(text);
    field
}

/// A text between fill bytes, so many before it and behind it.
pub fn hand_field<D: Drain>(
    drain: &mut D,
    fill: u8,
    before: usize,
    text: &[u8],
    behind: usize,
) -> Result<(), usize>
    requires { before + length text.now + behind < 2 ^ 64 }
    ensures { IsHandedOver (replicate before fill ++ (text.now ++ replicate behind fill)) (D.history drain.old)
        result (D.history drain.new) }
{
    let size = before + text.len() + behind;
    if size <= PIECE {
        let field = field_of(fill, before, text);
        return hand_over(drain, &field[..size]);
    }
    hand_repeated(drain, fill, before)?;
    if let Err(count) = hand_over(drain, text) {
        return Err(before + count);
    }
    if let Err(count) = hand_repeated(drain, fill, behind) {
        return Err(before + text.len() + count);
    }
    Ok(())
}
