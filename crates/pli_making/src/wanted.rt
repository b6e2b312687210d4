// What is to be made.

ghost use Rattle.std.specs.Prelude.{◌≡◌, ◌≢◌, IfSome};
ghost use Rattle.pli_serving.specs.Making.{owner_of};

/// A variable that is to be made: where its name goes, the number of its signature, the address of its INITIAL values or 0, where its
/// data go, and its class: 0 AUTOMATIC, 1 STATIC, 2 copy of an argument.
#[derive(Clone, Copy, PartialEq, Eq, Debug)]
pub struct Making {
    pub name: u32,
    pub signature: u32,
    pub initial: u32,
    pub place: u32,
    pub class: u32,
}

/// The height of the activation with which a variable of a class ends, 0 for none, by that of the newest.
pub fn owner_of(class: u32, height: u32) -> Option<u32>
    ensures owner { result ≡ owner_of class height }
    ensures newest { IfSome result (λ owner. owner ≢ 0 → owner ≡ height) }
{
    if class == 1 {
        return Some(0);
    }
    if (class == 0 || class == 2) && height > 0 {
        return Some(height);
    }
    None
}
