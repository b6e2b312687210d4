// Numbers of one, two and four bytes in a run of bytes, the lowest byte first.

ghost use Rattle.std.specs.Prelude.{◌≡◌, ◌+◌, ◌<◌, ◌≤◌, length};
ghost use Rattle.rv_meaning.specs.Memory.{load, store};

#[inline(always)]
pub fn load8(bytes: &[u8], at: usize) -> u8
    requires { at < length bytes.now }
    ensures { result ≡ load 1 bytes.now at }
{
    bytes[at]
}

#[inline(always)]
pub fn load16(bytes: &[u8], at: usize) -> u16
    requires { at + 2 ≤ length bytes.now }
    ensures { result ≡ load 2 bytes.now at }
{
    u16::from_le_bytes([bytes[at], bytes[at + 1]])
}

#[inline(always)]
pub fn load32(bytes: &[u8], at: usize) -> u32
    requires { at + 4 ≤ length bytes.now }
    ensures { result ≡ load 4 bytes.now at }
{
    u32::from_le_bytes([bytes[at], bytes[at + 1], bytes[at + 2], bytes[at + 3]])
}

#[inline(always)]
pub fn store8(bytes: &mut [u8], at: usize, value: u8)
    requires { at < length bytes.old }
    ensures { bytes.new ≡ store 1 bytes.old at value }
{
    bytes[at] = value;
}

#[inline(always)]
pub fn store16(bytes: &mut [u8], at: usize, value: u16)
    requires { at + 2 ≤ length bytes.old }
    ensures { bytes.new ≡ store 2 bytes.old at value }
{
    let [low, high] = value.to_le_bytes();
    bytes[at] = low;
    bytes[at + 1] = high;
}

#[inline(always)]
pub fn store32(bytes: &mut [u8], at: usize, value: u32)
    requires { at + 4 ≤ length bytes.old }
    ensures { bytes.new ≡ store 4 bytes.old at value }
{
    let [first, second, third, fourth] = value.to_le_bytes();
    bytes[at] = first;
    bytes[at + 1] = second;
    bytes[at + 2] = third;
    bytes[at + 3] = fourth;
}
