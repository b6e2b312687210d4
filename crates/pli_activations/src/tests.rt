// Each call once; with a refused allocation the answer is Memory, and what stands stays as it was.

ghost use Rattle.std.specs.Prelude.{◌≡◌, []};

use crate::activations::Activations;
use crate::block::{Block, BlockKind};
use pli_conditions::fault::OnUnitsFault;
use pli_conditions::units::Unit;
use pli_language::condition::Condition;

const MAIN: Block = Block {
    kind: BlockKind::Procedure,
    frame: 4096,
    texts: 0,
    edits: 0,
    line: 0,
};

const UNIT: Block = Block {
    kind: BlockKind::OnUnit {
        code: 108,
        resume: 64,
    },
    frame: 8192,
    texts: 0,
    edits: 0,
    line: 7,
};

// What is in force for ENDFILE outside and inside, and the code inside.
fn walk(blocks: &mut Activations) -> Result<[Option<(u32, Unit)>; 3], OnUnitsFault>
    requires { blocks.old ≡ [] }
{
    blocks.enter(MAIN)?;
    blocks.establish(Condition::Endfile, Unit::Code(64))?;
    blocks.enter(UNIT)?;
    blocks.establish(Condition::Endfile, Unit::System)?;
    let inner = blocks.in_force(Condition::Endfile);
    blocks.revert(Condition::Endfile);
    let reverted = blocks.in_force(Condition::Endfile);
    blocks.unwind(1);
    Ok([inner, reverted, blocks.in_force(Condition::Endfile)])
}

#[test]
fn blocks_are_entered_or_memory_is_refused(rt: HostRuntime) {
    let mut blocks = Activations::new(rt.alloc());
    assert!(rt; blocks.height() == 0 && blocks.newest().is_none());
    let outer = Some((4096, Unit::Code(64)));
    match walk(&mut blocks) {
        Ok(found) => {
            assert!(rt; found == [Some((8192, Unit::System)), outer, outer]);
            assert!(rt; blocks.newest() == Some(MAIN) && blocks.oncode() == 0);
            assert!(rt; blocks.height_of(4096) == Some(1) && blocks.height_of(8192).is_none());
            assert!(rt; blocks.block_of(4096) == Some(MAIN) && blocks.block_of(8192).is_none());
        }
        Err(fault) => assert!(rt; fault == OnUnitsFault::Memory && blocks.height() < 3),
    }
}
