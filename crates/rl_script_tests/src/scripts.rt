//! Scripts that are read, and printed again.

use rl_script::printed::print;
use rl_script::script::parse;
use std::test::Fail;

/// Texts, with the printed form of what they say.
const PRINTED: [(&str, &str); 2] = [
    (
        "rolis 1\nseed 9\nstop 6\n nodes 3\nworkers 2\nloss 7\nstop 5\ntable a 3 1\n# note\nrow a 2 8\ntable b_1 2 2\nrow b_1 1 4 5\nrow a 0 7\ntxn 2\nset r1  18446744073709551615\nadd r2 r1 0\nsub r3 1 r2\nmul r4 2 3\nput b_1 r1 1 r15\ndel a 2\nend\ntxn 1\nget b_1 0 1 r0\nhas a r0 r1\nneed r0 ge 2\nend\ntxn 2\nscan a 0 3 0 r10\nskip r10 ne 5 1\nout r10\nend\nevents\nstep 1 2 3\n\n all",
        "rolis 1\nnodes 3\nworkers 2\nbatch 1\nloss 7\nseed 9\nstop 6\nstop 5\ntable a 3 1\ntable b_1 2 2\nrow a 0 7\nrow a 2 8\nrow b_1 1 4 5\ntxn 1\nget b_1 0 1 r0\nhas a r0 r1\nneed r0 ge 2\nend\ntxn 2\nset r1 18446744073709551615\nadd r2 r1 0\nsub r3 1 r2\nmul r4 2 3\nput b_1 r1 1 r15\ndel a 2\nend\ntxn 2\nscan a 0 3 0 r10\nskip r10 ne 5 1\nout r10\nend\nevents\nstep 1 2 3\nall\n",
    ),
    (
        "rolis 1\ntxn 1\nend\nevents",
        "rolis 1\nnodes 1\nworkers 1\nbatch 1\nloss 0\nseed 0\ntxn 1\nend\n",
    ),
];

#[test]
fn scripts_are_printed(rt: HostRuntime) -> Result<(), Fail> {
    for (text, printed) in PRINTED {
        assert!(rt; text.len() < 1000);
        let Ok(script) = parse(rt.alloc(), text.as_bytes()) else {
            return Err("no script".into());
        };
        let form = print(rt.alloc(), &script)?;
        assert_eq!(rt; form.as_slice(), printed.as_bytes(), "{text}");
    }
    Ok(())
}
