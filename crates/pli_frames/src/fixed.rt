// Places of a frame that don't depend on its block's variables, in bytes from its address.

ghost use Rattle.std.specs.Prelude.{◌≡◌, IfOk};
ghost use Rattle.pli_coding.specs.Frames as form;

use std::alloc::AllocError;

/// What a frame counts of levels, parameters, dimensions and words; more is want of memory.
const MOST: usize = 1 << 24;

/// Where the caller goes on.
pub fn return_address() -> i32
    ensures { result ≡ form.return_address }
{
    0
}

/// The frame that was the running one.
pub fn frame_below() -> i32
    ensures { result ≡ form.frame_below }
{
    4
}

/// The nth register of those that hold temporaries.
pub fn saved_register(n: u8) -> i32
    ensures { result ≡ form.saved_register n }
{
    8 + 4 * i32::from(n)
}

/// The frame's own offset.
pub fn own_offset() -> i32
    ensures { result ≡ form.own_offset }
{
    36
}

/// The top of the lower stack.
pub fn lower_top() -> i32
    ensures { result ≡ form.lower_top }
{
    40
}

/// The offset of the list of arguments, in a procedure that has parameters.
pub fn list_offset() -> i32
    ensures { result ≡ form.list_offset }
{
    44
}

/// A function's result.
pub fn result_place() -> u32
    ensures { result ≡ form.result }
{
    48
}

/// What is told of a leaf: first its kind.
pub fn buffer() -> u32
    ensures { result ≡ form.buffer }
{
    64
}

/// Its precision or length.
pub fn buffer_size() -> i32
    ensures { result ≡ form.buffer_size }
{
    68
}

/// The lower bound of a dimension, counted from 0.
pub fn buffer_lower(dimension: u8) -> i32
    ensures { result ≡ form.buffer_lower dimension }
{
    72 + 8 * i32::from(dimension)
}

/// The upper bound of a dimension, counted from 0.
pub fn buffer_upper(dimension: u8) -> i32
    ensures { result ≡ form.buffer_upper dimension }
{
    76 + 8 * i32::from(dimension)
}

/// The display's word for the frame of the block around at a level.
pub fn display(level: usize) -> Result<i32, AllocError>
    ensures { IfOk result (λ d. d ≡ form.display level) }
{
    if level >= MOST {
        return Err(AllocError);
    }
    Ok(144 + 4 * level as i32)
}

/// Behind the display, the address of the list of arguments, in a procedure of a level that has parameters.
pub fn list_place(level: usize) -> Result<u32, AllocError>
    ensures { IfOk result (λ p. p ≡ form.list_place level) }
{
    if level >= MOST {
        return Err(AllocError);
    }
    Ok(144 + 4 * level as u32)
}

/// A word of the nth argument in the list, in bytes from the list's address.
pub fn argument_at(n: usize, word: u8) -> Result<i32, AllocError>
    ensures { IfOk result (λ d. d ≡ form.argument_at n word) }
{
    if n >= MOST {
        return Err(AllocError);
    }
    Ok(24 * n as i32 + 4 * i32::from(word))
}

/// So many temporary words from the one of a place on, the first of them lowest.
pub fn words_place(place: u32, count: u32) -> Result<i32, AllocError>
    ensures { IfOk result (λ d. d ≡ form.words_place place count) }
{
    if place as usize >= MOST || count as usize >= MOST {
        return Err(AllocError);
    }
    Ok(-(4 * (place + count) as i32))
}

/// One of these words.
pub fn word_in(place: u32, count: u32, n: u32) -> Result<i32, AllocError>
    ensures { IfOk result (λ d. d ≡ form.word_in place count n) }
{
    if place as usize >= MOST || count as usize >= MOST {
        return Err(AllocError);
    }
    Ok(-(4 * (place + count).saturating_sub(n) as i32))
}

/// What a frame keeps below its address, where so many words are the most in use.
pub fn temporary_bytes(words: u32) -> Result<u32, AllocError>
    ensures { IfOk result (λ b. b ≡ form.temporary_bytes words) }
{
    if words as usize >= MOST {
        return Err(AllocError);
    }
    Ok((4 * words + 15) / 16 * 16)
}
