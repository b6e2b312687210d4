// Jumps to an exit that is known once all is written.

ghost use Rattle.std.specs.Prelude.{◌≡◌};
ghost use Rattle.pli_coding.specs.Assembly.{size_of};
ghost use Rattle.rv_stream.specs.Exits.{AreExits, led};

use rv_assembly::code::Code;
use rv_assembly::item::Item;
use rv_assembly::place::Place;

/// Jumps to the code's end, at these places.
#[tactic(auto, using(crate::proofs::Leading::exits_stay, crate::proofs::Leading::next_exit, crate::proofs::Leading::next_led, std::proofs::lemmas::List::drop_all))]
pub(crate) fn led(code: &mut Code, exits: &[Place])
    requires { AreExits code.old exits.now }
    ensures { code.new ≡ led (size_of code.old) exits.now code.old }
{
    let end = code.size();
    for exit in exits {
        code.patch(*exit, Item::JumpAhead(end.saturating_sub(exit.words)));
    }
}
