// What a run of a source comes to beyond what `pli run` shows of it.

use pli_compile::compile::compile;
use pli_language::condition::Condition;
use pli_meaning::outcome::{End, Outcome};
use pli_run::run::RunFault;
use pli_run::source_run::compile_and_run;
use std::test::Fail;

const PUT_SUM: &str = "T: PROCEDURE OPTIONS(MAIN); PUT EDIT (1+2) (F(5)); END T;";

const SUM_TOO_LARGE: &str = "T: PROC OPTIONS(MAIN);\nPUT EDIT (2147483647+1) (F(9));\nEND T;\n";

const TOO_WIDE: &str = "T: PROC OPTIONS(MAIN);\nPUT EDIT (12345) (F(4));\nEND T;\n";

const ASSIGNED: &str =
    "T: PROC OPTIONS(MAIN); DCL (A, B) FIXED BIN(31); A = 1; B = A + 2;\nPUT EDIT (B - -4) (F(5)); END;";

fn ran(rt: &HostRuntime, source: &str, base: u32, bound: u64) -> Result<Outcome, RunFault> {
    compile_and_run(rt.alloc(), source.as_bytes(), base, &[], bound)
}

#[test]
fn acts_and_raised_conditions(rt: HostRuntime) -> Result<(), Fail> {
    for (source, base, acts, end, raised) in [
        (PUT_SUM, 0, 4, End::Finished, &[][..]),
        (PUT_SUM, 4096, 4, End::Finished, &[][..]),
        (PUT_SUM, 65536, 4, End::Finished, &[][..]),
        (PUT_SUM, 0xff00_0000, 4, End::Finished, &[][..]),
        (ASSIGNED, 65536, 6, End::Finished, &[][..]),
        (
            SUM_TOO_LARGE,
            65536,
            5,
            End::Error { code: 20, line: 2 },
            &[(Condition::FixedOverflow, 20), (Condition::Error, 20)][..],
        ),
        (
            TOO_WIDE,
            65536,
            4,
            End::Error { code: 105, line: 2 },
            &[(Condition::Error, 105)][..],
        ),
    ] {
        let Ok(outcome) = ran(&rt, source, base, 10_000) else {
            return Err(Fail::from("an outcome"));
        };
        assert_eq!(rt; outcome.acts, acts, "{source}");
        assert!(rt; outcome.end == end && outcome.raised.as_slice() == raised);
    }
    Ok(())
}

#[test]
fn a_bound_leaves_the_run_going(rt: HostRuntime) -> Result<(), Fail> {
    let Ok(image) = compile(rt.alloc(), PUT_SUM.as_bytes()) else {
        return Err(Fail::from("an image"));
    };
    let cost = image.step_cost();
    let Ok(none) = ran(&rt, PUT_SUM, 65536, 0) else {
        return Err(Fail::from("an outcome"));
    };
    assert!(rt; none.end == End::Running && none.acts == 0 && none.output.is_empty());
    for bound in 0..200 {
        let Ok(outcome) = ran(&rt, PUT_SUM, 65536, bound) else {
            return Err(Fail::from("an outcome"));
        };
        assert!(rt; outcome.end != End::Running || outcome.acts >= bound / cost);
    }
    Ok(())
}
