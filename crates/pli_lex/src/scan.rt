// Passes over the bytes at the front of what is left of a source.

ghost use Rattle.std.specs.Prelude.{◌≡◌, ◌<◌, ◌≤◌, ◌-◌, MatchOption, length, false, IsTrue, Some, None};
ghost use Rattle.std.specs.List.{prefix_len, list_all};
ghost use Rattle.pli_language.specs.Tokens.{is_blank, is_digit, is_name_start, is_name_byte, is_line_end, number_from};
ghost use Rattle.pli_lex.specs.Scanning.{comment_end, text_end, stands_as_bits};

const MOST_NUMBER: u32 = 2_147_483_647;

/// Blank, tab, CR and LF.
pub fn is_blank(byte: u8) -> bool
    ensures { result ≡ is_blank byte }
{
    matches!(byte, b' ' | b'\t' | b'\r' | b'\n')
}

/// Whether the byte is a decimal digit.
pub fn is_digit(byte: u8) -> bool
    ensures { result ≡ is_digit byte }
{
    byte.is_ascii_digit()
}

/// A letter, `$`, `#` or `@`.
pub fn is_name_start(byte: u8) -> bool
    ensures { result ≡ is_name_start byte }
{
    byte.is_ascii_alphabetic() || matches!(byte, b'$' | b'#' | b'@')
}

/// What may follow in a name: these, digits and `_`.
pub fn is_name_byte(byte: u8) -> bool
    ensures { result ≡ is_name_byte byte }
{
    is_name_start(byte) || is_digit(byte) || byte == b'_'
}

fn is_line_end(byte: u8) -> bool
    ensures { result ≡ is_line_end byte }
{
    matches!(byte, b'\r' | b'\n')
}

/// How many bytes of a name stand at the front.
pub fn name_len(bytes: &[u8]) -> usize
    ensures { result ≡ prefix_len is_name_byte bytes.now }
{
    bytes.iter().take_while(|byte| is_name_byte(**byte)).count()
}

/// How many digits stand at the front.
pub fn digits_len(bytes: &[u8]) -> usize
    ensures { result ≡ prefix_len is_digit bytes.now }
{
    bytes.iter().take_while(|byte| is_digit(**byte)).count()
}

/// The number that the digits spell, or `None` past 2147483647.
pub fn number_value(digits: &[u8]) -> Option<u32>
    requires { IsTrue (list_all is_digit digits.now) }
    ensures { MatchOption result (2147483647 < number_from 0 digits.now) (λ n. (n ≤ 2147483647) × (n ≡ number_from 0 digits.now)) }
{
    let mut number = 0u32;
    for digit in digits {
        let next = u64::from(number) * 10 + u64::from(*digit - b'0');
        if next > u64::from(MOST_NUMBER) {
            return None;
        }
        number = next as u32;
    }
    Some(number)
}

/// How many bytes behind `/*` reach to the end of the comment, if it ends.
pub fn comment_end(bytes: &[u8]) -> Option<usize>
    ensures { result ≡ comment_end false 0 bytes.now }
{
    let mut after_star = false;
    for (i, byte) in bytes.iter().enumerate() {
        if after_star && *byte == b'/' {
            return Some(i + 1);
        }
        after_star = *byte == b'*';
    }
    None
}

/// Behind an opening quote: how many bytes reach to the last quote that can close the text, that quote counted, and
/// how many bytes the text has, with each doubled quote as one. `None` where none can.
pub fn text_end(bytes: &[u8]) -> Option<(usize, usize)>
    ensures { result ≡ text_end None false 0 0 bytes.now }
{
    let mut closed = None;
    let mut after_quote = false;
    let mut len = 0;
    for (i, byte) in bytes.iter().enumerate() {
        if *byte == b'\'' {
            if after_quote {
                len += 1;
            } else {
                closed = Some((i + 1, len));
            }
            after_quote = !after_quote;
        } else if after_quote || is_line_end(*byte) {
            return closed;
        } else {
            len += 1;
        }
    }
    closed
}

/// Whether a text with these bytes behind it stands as a bit constant: at once B or b, and then no byte of a name.
pub fn stands_as_bits(bytes: &[u8]) -> bool
    ensures { result ≡ stands_as_bits bytes.now }
{
    let Some((letter, rest)) = bytes.split_first() else {
        return false;
    };
    matches!(letter, b'B' | b'b') && !rest.first().is_some_and(|next| is_name_byte(*next))
}
