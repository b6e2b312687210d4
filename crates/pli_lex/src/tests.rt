// What no clause says: that a call succeeds unless memory is refused, and what it says then.

use super::*;

#[test]
fn answers_all_the_tokens_or_want_of_memory(rt: HostRuntime) {
    let source = b"IF x>=1 THEN PUT EDIT('a''b') (A); /* e */ ELSE y=x||'';".as_slice();
    match tokens(rt.alloc(), source) {
        Ok(list) => assert_eq!(rt; list.len(), 21),
        Err(fault) => assert_eq!(rt;
            fault,
            SourceFault {
                line: 0,
                column: 0,
                kind: SourceKind::Memory
            }
        ),
    }
}
