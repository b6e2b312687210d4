// Where a program can be placed.

ghost use Rattle.std.specs.Prelude.{◌↔◌, IsTrue};
ghost use Rattle.rv_meaning.specs.Machine.{IsValidBase};

/// Whether `base` is a multiple of 4,096 with 16 MiB of addresses from it on.
pub fn valid_base(base: u32) -> bool
    ensures { IsTrue result ↔ IsValidBase base }
{
    base % 4096 == 0 && base <= 0xff00_0000
}
