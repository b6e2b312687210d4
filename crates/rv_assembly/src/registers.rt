// The registers of the code, by what they hold: `a0` to `a5` the arguments and results of services, `u0` to `u5` scratch.

ghost use Rattle.std.specs.Prelude.{◌≡◌, ◌<◌};
ghost use Rattle.pli_coding.specs.Registers as register;

use rv_meaning::instr::Register;

/// It always holds 0.
pub fn zero() -> Register
    ensures { result ≡ register.zero_register }
{
    Register { index: 0 }
}

/// Where a call goes on; in the raise routine where the program goes on.
pub fn return_register() -> Register
    ensures { result ≡ register.return_register }
{
    Register { index: 1 }
}

/// The first free byte of the upper stack.
pub fn stack() -> Register
    ensures { result ≡ register.stack_register }
{
    Register { index: 2 }
}

/// The frame of the running block.
pub fn frame() -> Register
    ensures { result ≡ register.frame_register }
{
    Register { index: 8 }
}

pub fn a0() -> Register
    ensures { result ≡ register.a0 }
{
    Register { index: 10 }
}

pub fn a1() -> Register
    ensures { result ≡ register.a1 }
{
    Register { index: 11 }
}

pub fn a2() -> Register
    ensures { result ≡ register.a2 }
{
    Register { index: 12 }
}

pub fn a3() -> Register
    ensures { result ≡ register.a3 }
{
    Register { index: 13 }
}

pub fn a4() -> Register
    ensures { result ≡ register.a4 }
{
    Register { index: 14 }
}

pub fn a5() -> Register
    ensures { result ≡ register.a5 }
{
    Register { index: 15 }
}

/// The number of a service.
pub fn a7() -> Register
    ensures { result ≡ register.a7 }
{
    Register { index: 17 }
}

pub fn u0() -> Register
    ensures { result ≡ register.u0 }
{
    Register { index: 5 }
}

pub fn u1() -> Register
    ensures { result ≡ register.u1 }
{
    Register { index: 6 }
}

pub fn u2() -> Register
    ensures { result ≡ register.u2 }
{
    Register { index: 7 }
}

pub fn u3() -> Register
    ensures { result ≡ register.u3 }
{
    Register { index: 28 }
}

pub fn u4() -> Register
    ensures { result ≡ register.u4 }
{
    Register { index: 29 }
}

pub fn u5() -> Register
    ensures { result ≡ register.u5 }
{
    Register { index: 30 }
}

/// For large displacements and jumps alone.
pub fn far() -> Register
    ensures { result ≡ register.far_register }
{
    Register { index: 31 }
}

/// The register of a whole number that waits in an expression, by its place among the seven.
pub fn held(place: usize) -> Register
    ensures { result ≡ register.held place }
{
    let index = match place {
        0 => 9,
        1 => 18,
        2 => 19,
        3 => 20,
        4 => 21,
        5 => 22,
        _ => 23,
    };
    Register { index }
}
