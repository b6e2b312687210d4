// A word in two instructions: the upper part that LUI or AUIPC takes, and what is then to be added.

ghost use Rattle.std.specs.Prelude.{◌≡◌, ◌<◌, ◌^◌, true};
ghost use Rattle.rv_meaning.specs.Encoding.{IsWithin};
ghost use Rattle.pli_coding.specs.Linking.{upper_part, lower_part};
ghost use Rattle.pli_coding.specs.Instructions as form;

/// The upper 20 bits.
pub(crate) fn upper_of(word: u32) -> u32
    ensures value { result ≡ upper_part word }
    ensures narrow { result < 2 ^ 20 }
{
    ((u64::from(word) + 2048) / 4096 % (1 << 20)) as u32
}

/// What is then to be added, from -2048 to 2047.
#[tactic(auto, using(crate::proofs::Numbers::lower_within))]
pub(crate) fn lower_of(word: u32) -> i32
    ensures value { result ≡ lower_part word }
    ensures within { IsWithin 11 result }
{
    ((u64::from(word) + 2048) % 4096) as i32 - 2048
}

/// Whether one instruction holds the number.
#[tactic(auto, using(crate::proofs::Numbers::immediate_within))]
pub(crate) fn is_immediate(number: i32) -> bool
    ensures value { result ≡ form.is_immediate number }
    ensures within { result ≡ true → IsWithin 11 number }
{
    (-2048..=2047).contains(&number)
}
