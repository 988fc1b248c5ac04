use crate::codec::{CallFile, RECORD, encode};
use crate::format::Format;
use ledger::Call;

#[test]
fn lays_fields_out(rt: HostRuntime) {
    let write = Call::Write {
        handle: 0x0403_0201,
        key: 0x0605,
        value: 0x0e0d_0c0b_0a09_0807,
    };
    assert_eq!(rt;
        encode(write),
        Some([
            4, 0, 5, 6, 0, 0, 0, 0, 1, 2, 3, 4, 7, 8, 9, 10, 11, 12, 13, 14,
        ])
    );
    assert_eq!(rt;
        encode(Call::Read {
            handle: 9,
            first: 0x0201,
            count: 0x0403
        }),
        Some([3, 0, 1, 2, 3, 4, 0, 0, 9, 0, 0, 0, 0, 0, 0, 0, 0, 0, 0, 0])
    );
}

#[test]
fn refuses_fields_that_are_not_used(rt: HostRuntime) {
    for place in 1..RECORD {
        let mut bytes = encode(Call::Reclaim).unwrap();
        assert!(rt; CallFile::decode(&bytes).is_some());
        bytes[place] = 1;
        assert!(rt; CallFile::decode(&bytes).is_none());
        assert!(rt; CallFile::decode(&bytes[..place]).is_none());
    }
}
